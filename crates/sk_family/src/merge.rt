// Merges, as the names of the clusters that are to merge.
ghost use Rattle.std.specs.Prelude.{◌≡◌, ◌↔◌, ◌⊎◌, [], ◌∷◌, IfSome, IfNone, IsNone};
ghost use Rattle.sk_base.specs.ClusterNames.{IsBelow};
ghost use Rattle.sk_family.specs.Merges.{IsMergeOf};

use sk_base::Name;

/// Two or three clusters that are to merge. The names fall.
#[derive(Clone, Copy, PartialEq, Eq, PartialOrd, Ord, Debug)]
pub enum Merge {
    Two(Name, Name),
    Three(Name, Name, Name),
}

impl Merge {
    /// The merge of two clusters. None comes exactly where the names are equal.
    pub fn two(x: Name, y: Name) -> Option<Merge>
        ensures none { IsNone result ↔ (x ≡ y) }
        ensures some { IfSome result (IsMergeOf (x ∷ y ∷ [])) }
    {
        let (high, low) = falling(x, y)?;
        Some(Merge::Two(high, low))
    }

    /// The merge of three clusters. None comes exactly where two of the names are equal.
    pub fn three(x: Name, y: Name, z: Name) -> Option<Merge>
        ensures none { IsNone result ↔ ((x ≡ y) ⊎ ((y ≡ z) ⊎ (z ≡ x))) }
        ensures some { IfSome result (IsMergeOf (x ∷ y ∷ z ∷ [])) }
    {
        let (high, low) = falling(x, y)?;
        let (first, other) = falling(high, z)?;
        let (second, third) = falling(other, low)?;
        Some(Merge::Three(first, second, third))
    }
}

/// The higher name and the lower one.
fn falling(x: Name, y: Name) -> Option<(Name, Name)>
    ensures none { IfNone result (x ≡ y) }
    ensures falls { IfSome result (λ p. IsBelow p.1 p.0) }
    ensures same { IfSome result (λ p. ((p.0 ≡ x) × (p.1 ≡ y)) ⊎ ((p.0 ≡ y) × (p.1 ≡ x))) }
{
    if y.is_below(x) {
        Some((x, y))
    } else if x.is_below(y) {
        Some((y, x))
    } else {
        None
    }
}
