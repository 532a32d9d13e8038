// A cluster that has grown out of another one, and what it has instead of that one's triples.
ghost use Rattle.std.specs.Prelude.{◌≡◌, ◌↔◌, AllPairs, IfNone, IfSome, IsTrue, OnOk};
ghost use Rattle.sk_base.specs.declared.Name.{Name as ClusterName};
ghost use Rattle.sk_base.specs.ClusterNames.{IsBelow};
ghost use Rattle.sk_triangles.specs.Growing.{GrowsBy};
ghost use Rattle.sk_open_triples.specs.Inherited.{Inherits, IsBeside};

use crate::order::is_among;
use sk_base::{List, Name, NoMemory};
use sk_family::Merge;

/// The names of the core and of the cluster that has grown out of it.
#[derive(Clone, Copy)]
pub struct Heir {
    pub core: Name,
    pub name: Name,
}

/// Adds what the heir has instead of that triple of its core, but not if it names one of the gone.
pub(crate) fn add_if_inherited(
    merge: Merge,
    heir: Heir,
    gone: &[Name],
    all: &mut List<Merge>,
) -> Result<(), NoMemory>
    requires { AllPairs IsBelow gone.now }
    ensures { OnOk result (GrowsBy (Inherits heir gone.now merge) all.old all.new) }
{
    match beside(merge, heir.core) {
        Some((p, q)) => {
            if is_among(p, gone) || is_among(q, gone) {
                return Ok(());
            }
            all.push(Merge::Three(heir.name, p, q))
        }
        None => Ok(()),
    }
}

/// The other two names of a triple that has the name.
fn beside(merge: Merge, name: Name) -> Option<(Name, Name)>
    ensures none { IfNone result ((p q : ClusterName) → ¬ IsBeside merge name p q) }
    ensures some { IfSome result (λ others. IsBeside merge name others.0 others.1) }
{
    match merge {
        Merge::Two(_, _) => None,
        Merge::Three(x, y, z) => {
            if is_same(x, name) {
                Some((y, z))
            } else if is_same(y, name) {
                Some((x, z))
            } else if is_same(z, name) {
                Some((x, y))
            } else {
                None
            }
        }
    }
}

/// Whether the two are one name.
pub fn is_same(one: Name, other: Name) -> bool
    ensures { IsTrue result ↔ (one ≡ other) }
{
    one == other
}
