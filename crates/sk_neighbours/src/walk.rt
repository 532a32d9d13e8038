// The walk through an index to the clusters that hold some elements.
ghost use Rattle.std.specs.Prelude.{◌≡◌, OnOk};
ghost use Rattle.sk_family.specs.declared.Cluster.{Cluster as AnyCluster};
ghost use Rattle.sk_neighbours.specs.Indexed.{IsHeld, IsIndex};
ghost use Rattle.sk_neighbours.specs.Walks.{AtElement, AtKey};
ghost use Rattle.sk_triangles.specs.Growing.{FromSome, GrowsBy};

use crate::index::Index;
use sk_base::{Elem, List, Name, NoMemory};
use sk_family::Cluster;

/// What is kept of each cluster to which a walk comes.
pub(crate) trait HolderVisitor {
    ghost use Rattle.std.specs.Prelude.{OnOk};
    ghost use Rattle.sk_base.specs.declared.Elem.{Elem as Element};
    ghost use Rattle.sk_family.specs.declared.Cluster.{Cluster as AnyCluster};
    ghost use Rattle.sk_triangles.specs.Growing.{GrowsBy};

    type Kept: Drop;

    /// What is asked of a cluster to which it comes.
    ghost can_visit: { Self → AnyCluster → Type 0 };

    /// What is kept of an element and a cluster that holds it.
    ghost keeps: { Self → Element → AnyCluster → Self.Kept → Type 0 };

    /// Adds it.
    fn visit(
        &self,
        elem: Elem,
        cluster: &Cluster,
        all: &mut List<Self::Kept>,
    ) -> Result<(), NoMemory>
        requires { can_visit self.now cluster.now }
        ensures { OnOk result (GrowsBy (keeps self.now elem cluster.now) all.old all.new) };
}

/// A walk to the clusters of an index that are below a name.
#[derive(Clone, Copy)]
pub(crate) struct Walk<'a> {
    pub index: &'a Index,
    pub below: Name,
}

impl<'a> Walk<'a> {
    /// Adds what is kept of those that hold one of these elements.
    pub fn along<V: HolderVisitor>(
        &self,
        elements: &[Elem],
        visitor: &V,
        all: &mut List<V::Kept>,
    ) -> Result<(), NoMemory>
        requires index { IsIndex self.now.index.now }
        requires can { (y : AnyCluster) → IsHeld self.now.index.now y → V.can_visit visitor.now y }
        ensures { OnOk result (GrowsBy (FromSome (AtElement (V.keeps visitor.now) self.now.index.now self.now.below) elements.now) all.old all.new) }
    {
        for elem in elements {
            self.at_element(*elem, visitor, all)?;
        }
        Ok(())
    }

    /// Adds what is kept of those that hold the element.
    pub fn at_element<V: HolderVisitor>(
        &self,
        elem: Elem,
        visitor: &V,
        all: &mut List<V::Kept>,
    ) -> Result<(), NoMemory>
        requires index { IsIndex self.now.index.now }
        requires can { (y : AnyCluster) → IsHeld self.now.index.now y → V.can_visit visitor.now y }
        ensures { OnOk result (GrowsBy (AtElement (V.keeps visitor.now) self.now.index.now self.now.below elem) all.old all.new) }
    {
        for key in self.index.below(elem, self.below) {
            self.at_key(elem, *key, visitor, all)?;
        }
        Ok(())
    }

    /// Adds what is kept of the element and the cluster of that key.
    fn at_key<V: HolderVisitor>(
        &self,
        elem: Elem,
        key: usize,
        visitor: &V,
        all: &mut List<V::Kept>,
    ) -> Result<(), NoMemory>
        requires { (y : AnyCluster) → IsHeld self.now.index.now y → V.can_visit visitor.now y }
        ensures { OnOk result (GrowsBy (AtKey (V.keeps visitor.now) self.now.index.now elem key) all.old all.new) }
    {
        match self.index.held(key) {
            Some(cluster) => visitor.visit(elem, cluster, all),
            None => Ok(()),
        }
    }
}
