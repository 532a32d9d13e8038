// Three elements by rising number.
ghost use Rattle.std.specs.Prelude.{◌≡◌, ◌≢◌, ◌⊎◌, [], ◌∷◌};
ghost use Rattle.sk_base.specs.Numbering.{elem_number};
ghost use Rattle.sk_base.specs.Rising.{put};
ghost use Rattle.sk_tree.specs.ByNumber.{by_number};

use sk_base::Elem;

/// The three by rising number.
pub fn in_order(a: Elem, b: Elem, c: Elem) -> (Elem, Elem, Elem)
    requires a_b { a ≢ b }
    requires b_c { b ≢ c }
    requires c_a { c ≢ a }
    ensures { by_number a b c ≡ result.0 ∷ result.1 ∷ result.2 ∷ [] }
{
    let (low, high) = two_in_order(b, c);
    if a.0 < low.0 {
        (a, low, high)
    } else if a.0 < high.0 {
        (low, a, high)
    } else {
        (low, high, a)
    }
}

/// The two by rising number.
fn two_in_order(b: Elem, c: Elem) -> (Elem, Elem)
    requires { b ≢ c }
    ensures pair { put elem_number b (c ∷ []) ≡ result.0 ∷ result.1 ∷ [] }
    ensures either { ((result.0 ≡ b) × (result.1 ≡ c)) ⊎ ((result.0 ≡ c) × (result.1 ≡ b)) }
{
    if b.0 < c.0 { (b, c) } else { (c, b) }
}
