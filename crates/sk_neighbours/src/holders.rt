// The clusters that hold some elements.
ghost use Rattle.std.specs.Prelude.{OnOk};
ghost use Rattle.sk_triangles.specs.Growing.{FromSome, GrowsBy};
ghost use Rattle.sk_neighbours.specs.Walks.{HolderOf};
ghost use Rattle.sk_neighbours.specs.Indexed.{IsIndex};

use crate::index::Index;
use crate::walk::{HolderVisitor, Walk};
use sk_base::{Elem, List, Name, NoMemory};
use sk_family::Cluster;

/// Adds the names of the clusters below the name that hold some of the elements.
pub fn add_holders_of_all(
    index: &Index,
    elements: &[Elem],
    below: Name,
    all: &mut List<Name>,
) -> Result<(), NoMemory>
    requires { IsIndex index.now }
    ensures { OnOk result (GrowsBy (FromSome (HolderOf index.now below) elements.now) all.old all.new) }
{
    Walk { index, below }.along(elements, &AsNames {}, all)
}

/// Each cluster is kept as its name.
#[derive(Clone, Copy)]
struct AsNames {}

impl HolderVisitor for AsNames {
    ghost use Rattle.std.specs.Prelude.{◌≡◌};

    type Kept = Name;

    ghost can_visit = { λ v y. Unit {0} };

    ghost keeps = { λ v e y n. y.name ≡ n };

    fn visit(&self, _elem: Elem, cluster: &Cluster, all: &mut List<Name>) -> Result<(), NoMemory> {
        all.push(cluster.name)
    }
}
