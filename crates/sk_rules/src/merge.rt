// Merges of named clusters.
ghost use Rattle.std.specs.Prelude.{◌≡◌, ◌<◌, IfOk, OnOk, OnErr, IfSome, IfNone, length};
ghost use Rattle.sk_family.specs.Clusters.{bodies};
ghost use Rattle.sk_family.specs.Merges.{Falls};
ghost use Rattle.sk_rules.specs.Merges.{Holds, IsLeastShared, merged};
ghost use Rattle.sk_rules.specs.Reach.{Step as StepOf};

use crate::shared::{least_pair, least_triangle};
use sk_base::{Elem, Graph, Name, NoMemory};
use sk_family::{Family, Merge};

/// The elements by which a rule holds.
#[derive(Clone, Copy, PartialEq, Eq, Debug)]
pub struct Shared {
    pub a: Elem,
    pub b: Elem,
    pub c: Option<Elem>,
}

/// A merge that was done.
#[derive(Clone, Copy, PartialEq, Eq, Debug)]
pub struct Taken {
    pub step: Name,
    pub merge: Merge,
    pub shared: Shared,
}

/// The least elements by which the merge's rule holds. None comes exactly where a name isn't live or
/// the rule doesn't hold.
pub fn applies(family: &Family, graph: &Graph, merge: Merge) -> Option<Shared>
    ensures none { IfNone result (¬ Holds graph.now family.now merge) }
    ensures holds { IfSome result (λ _. Holds graph.now family.now merge) }
    ensures some { IfSome result (IsLeastShared graph.now family.now merge) }
{
    match merge {
        Merge::Two(x, y) => {
            let a = family.cluster(x)?;
            let b = family.cluster(y)?;
            let (first, second) = least_pair(a, b)?;
            Some(Shared {
                a: first,
                b: second,
                c: None,
            })
        }
        Merge::Three(x, y, z) => {
            let a = family.cluster(x)?;
            let b = family.cluster(y)?;
            let c = family.cluster(z)?;
            let (first, second, third) = least_triangle(
                graph,
                a.elements.as_slice(),
                b.elements.as_slice(),
                c.elements.as_slice(),
            )?;
            Some(Shared {
                a: first,
                b: second,
                c: Some(third),
            })
        }
    }
}

/// Does one merge.
pub fn do_merge(family: &mut Family, graph: &Graph, merge: Merge) -> Result<Name, NoMemory>
    requires falls { Falls merge }
    requires holds { Holds graph.now family.old merge }
    requires room { family.old.next_step < 4294967295 }
    ensures name { IfOk result (λ name. name ≡ Name.Step family.old.next_step) }
    ensures ok { OnOk result (family.new ≡ merged family.old merge) }
    ensures step { OnOk result (StepOf graph.now (bodies family.old) (bodies family.new)) }
    ensures err { OnErr result (family.new ≡ family.old) }
    ensures fewer { OnOk result (length family.new.live < length family.old.live) }
{
    match merge {
        Merge::Two(x, y) => family.replace(&[x, y]),
        Merge::Three(x, y, z) => family.replace(&[x, y, z]),
    }
}
