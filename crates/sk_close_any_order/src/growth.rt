// A cluster that grows. What may merge with it is taken in, one cluster or two at a time, while the
// family stays as it is; the one cluster that they all make is put in their place at the end.
ghost use Rattle.std.specs.Prelude.{◌≡◌, ◌≢◌, ◌↔◌, ◌⊎◌, ◌∷◌, [], ◌++◌, Contains, IfOk, IfSome, IsTrue, OnOk};
ghost use Rattle.sk_base.specs.declared.Elem.{Elem as Element};
ghost use Rattle.sk_base.specs.Numbering.{elem_number};
ghost use Rattle.sk_base.specs.Rising.{IsRising};
ghost use Rattle.sk_family.specs.Clusters.{IsLive, IsSound, HasElements};
ghost use Rattle.sk_rules.specs.Merges.{CanTake};
ghost use Rattle.sk_triangles.specs.Marks.{IsMarked};
ghost use Rattle.sk_close_any_order.specs.Grown.{IsMarkedIn, MakesThird, MeetsAt, Joins, HasGrown, IsGrown};
ghost use Rattle.sk_neighbours.specs.Indexed.{IsHeld, IsIndex, IsThirdAt, Represents};

use sk_base::{Elem, Graph, List, Name, NoMemory};
use sk_family::{Cluster, Family};
use sk_neighbours::{Index, is_third};
use sk_rules::Merge;
use sk_triangles::{is_in_rising, is_marked, mark};
use std::alloc::Global;

/// What may merge with the growing cluster.
#[derive(Clone, Copy)]
pub(crate) enum Joining {
    One(Name),
    Both(Name, Name),
}

/// The growing cluster.
#[derive(Drop)]
pub(crate) struct Growth {
    alloc: Global,
    /// The clusters that were taken in, which have left the index.
    pub names: List<Name>,
    /// Their elements, in the order in which they came.
    elements: List<Elem>,
    /// Which elements these are.
    pub marks: Vec<bool>,
}

impl Growth {
    /// The cluster that the merge makes.
    pub fn of(
        alloc: Global,
        index: &mut Index,
        family: &Family,
        graph: &Graph,
        merge: Merge,
    ) -> Result<Growth, NoMemory>
        requires can { CanTake graph.now family.now merge }
        requires represents { Represents index.old graph.now family.now.live }
        requires sound { IsSound family.now }
        ensures { IfOk result (λ growth. IsGrown index.new graph.now family.now growth.names growth.marks.items) }
    {
        let mut growth = Growth {
            alloc,
            names: List::new(alloc),
            elements: List::new(alloc),
            marks: Vec::new(alloc),
        };
        match merge {
            Merge::Two(x, y) => {
                growth.take(index, family, graph, x)?;
                growth.take(index, family, graph, y)?;
                Ok(growth)
            }
            Merge::Three(x, y, z) => {
                growth.take(index, family, graph, x)?;
                growth.take(index, family, graph, y)?;
                growth.take(index, family, graph, z)?;
                Ok(growth)
            }
        }
    }

    /// Takes in what may merge with it, as far as a walk along its elements finds it.
    pub fn grow(
        &mut self,
        index: &mut Index,
        family: &Family,
        graph: &Graph,
    ) -> Result<(), NoMemory>
        requires sound { IsSound family.now }
        requires grown { IsGrown index.old graph.now family.now self.old.names self.old.marks.items }
        ensures { OnOk result (IsGrown index.new graph.now family.now self.new.names self.new.marks.items) }
    {
        for place in 0..graph.nodes.len() {
            match self.elements.get(place) {
                Some(elem) => {
                    let at = *elem;
                    self.grow_at(index, family, graph, at)?;
                }
                None => return Ok(()),
            }
        }
        Ok(())
    }

    /// Takes in what may merge with it by clusters that hold the element.
    fn grow_at(
        &mut self,
        index: &mut Index,
        family: &Family,
        graph: &Graph,
        elem: Elem,
    ) -> Result<(), NoMemory>
        requires sound { IsSound family.now }
        requires grown { IsGrown index.old graph.now family.now self.old.names self.old.marks.items }
        ensures { OnOk result (IsGrown index.new graph.now family.now self.new.names self.new.marks.items) }
    {
        let keys = Vec::from_slice(self.alloc, index.holders(elem))?;
        for key in keys.as_slice() {
            self.grow_by(index, family, graph, *key)?;
        }
        Ok(())
    }

    /// Takes in the cluster of that key, alone or with another, if it may merge so.
    fn grow_by(
        &mut self,
        index: &mut Index,
        family: &Family,
        graph: &Graph,
        key: usize,
    ) -> Result<(), NoMemory>
        requires sound { IsSound family.now }
        requires grown { IsGrown index.old graph.now family.now self.old.names self.old.marks.items }
        ensures { OnOk result (IsGrown index.new graph.now family.now self.new.names self.new.marks.items) }
    {
        match self.joining(index, key) {
            None => Ok(()),
            Some(Joining::One(x)) => self.take(index, family, graph, x),
            Some(Joining::Both(x, y)) => {
                self.take(index, family, graph, x)?;
                self.take(index, family, graph, y)
            }
        }
    }

    /// Takes a cluster in.
    fn take(
        &mut self,
        index: &mut Index,
        family: &Family,
        graph: &Graph,
        name: Name,
    ) -> Result<(), NoMemory>
        requires sound { IsSound family.now }
        requires grown { HasGrown index.old graph.now family.now self.old.names self.old.marks.items }
        requires lives { IsLive family.now name }
        requires apart { ¬ Contains self.old.names name }
        requires some { HasElements family.now name }
        ensures names { OnOk result (self.new.names ≡ self.old.names ++ name ∷ []) }
        ensures grown { OnOk result (HasGrown index.new graph.now family.now self.new.names self.new.marks.items) }
    {
        match family.cluster(name) {
            Some(cluster) => {
                index.take_out(cluster);
                self.names.push(name)?;
                self.add_all(cluster.elements.as_slice())
            }
            None => unreachable!(),
        }
    }

    fn add_all(&mut self, elements: &[Elem]) -> Result<(), NoMemory>
        ensures names { OnOk result (self.new.names ≡ self.old.names) }
        ensures marks { OnOk result ((e : Element) → IsMarked self.new.marks.items e ↔ (IsMarked self.old.marks.items e ⊎ Contains elements.now e)) }
    {
        for elem in elements {
            self.add(*elem)?;
        }
        Ok(())
    }

    fn add(&mut self, elem: Elem) -> Result<(), NoMemory>
        ensures names { OnOk result (self.new.names ≡ self.old.names) }
        ensures marks { OnOk result ((e : Element) → IsMarked self.new.marks.items e ↔ (IsMarked self.old.marks.items e ⊎ (e ≡ elem))) }
    {
        if self.has(elem) {
            return Ok(());
        }
        self.elements.push(elem)?;
        mark(&mut self.marks, elem)
    }

    /// Whether the element is in the growing cluster.
    fn has(&self, elem: Elem) -> bool
        ensures { IsTrue result ↔ IsMarked self.now.marks.items elem }
    {
        is_marked(self.marks.as_slice(), elem)
    }

    /// What may merge with it by the cluster of that key.
    fn joining(&self, index: &Index, key: usize) -> Option<Joining>
        requires { IsIndex index.now }
        ensures { IfSome result (Joins index.now self.now.marks.items) }
    {
        match index.held(key) {
            Some(x) => self.joining_by(index, x),
            None => None,
        }
    }

    fn joining_by(&self, index: &Index, x: &Cluster) -> Option<Joining>
        requires index { IsIndex index.now }
        requires held { IsHeld index.now x.now }
        ensures { IfSome result (Joins index.now self.now.marks.items) }
    {
        let a = self.first_in(x.elements.as_slice())?;
        if self.has_other(a, x.elements.as_slice()) {
            return Some(Joining::One(x.name));
        }
        let other = self.third_of(index, x, a)?;
        Some(Joining::Both(x.name, other))
    }

    /// The first of these elements that is in it.
    fn first_in(&self, elements: &[Elem]) -> Option<Elem>
        ensures { IfSome result (IsMarkedIn self.now.marks.items elements.now) }
    {
        for elem in elements {
            if self.has(*elem) {
                return Some(*elem);
            }
        }
        None
    }

    /// Whether another of these elements is in it.
    fn has_other(&self, a: Elem, elements: &[Elem]) -> bool
        ensures { IsTrue result → (e : Element) × (e ≢ a) × IsMarkedIn self.now.marks.items elements.now e }
    {
        for elem in elements {
            if self.is_other(a, *elem) {
                return true;
            }
        }
        false
    }

    fn is_other(&self, a: Elem, elem: Elem) -> bool
        ensures { IsTrue result ↔ ((elem ≢ a) × IsMarked self.now.marks.items elem) }
    {
        elem != a && self.has(elem)
    }

    /// A cluster that makes a triangle with it and x, which meet in a.
    fn third_of(&self, index: &Index, x: &Cluster, a: Elem) -> Option<Name>
        requires { IsIndex index.now }
        ensures { IfSome result (MakesThird index.now self.now.marks.items x.now a) }
    {
        for b in x.elements.as_slice() {
            if let Some(name) = self.third_at(index, x, a, *b) {
                return Some(name);
            }
        }
        None
    }

    /// One that holds b.
    fn third_at(&self, index: &Index, x: &Cluster, a: Elem, b: Elem) -> Option<Name>
        requires { IsIndex index.now }
        ensures { IfSome result (λ n. MeetsAt index.now self.now.marks.items x.now a b n) }
    {
        for key in index.holders(b) {
            if let Some(name) = self.third_by(index, x, a, b, *key) {
                return Some(name);
            }
        }
        None
    }

    fn third_by(&self, index: &Index, x: &Cluster, a: Elem, b: Elem, key: usize) -> Option<Name>
        requires { IsIndex index.now }
        ensures { IfSome result (λ n. MeetsAt index.now self.now.marks.items x.now a b n) }
    {
        match index.held(key) {
            Some(z) => {
                if self.meets(index, x, z, a, b) {
                    Some(z.name)
                } else {
                    None
                }
            }
            None => None,
        }
    }

    /// Whether z holds b and a third corner.
    fn meets(&self, index: &Index, x: &Cluster, z: &Cluster, a: Elem, b: Elem) -> bool
        requires { IsRising elem_number z.now.elements }
        ensures name { IsTrue result → z.now.name ≢ x.now.name }
        ensures differ { IsTrue result → a ≢ b }
        ensures b { IsTrue result → Contains z.now.elements b }
        ensures third { IsTrue result → (c : Element) × IsMarkedIn self.now.marks.items z.now.elements c × IsThirdAt index.now a b c }
    {
        a != b
            && z.name != x.name
            && is_in_rising(b, z.elements.as_slice())
            && self.has_third(index, a, b, z.elements.as_slice())
    }

    fn has_third(&self, index: &Index, a: Elem, b: Elem, elements: &[Elem]) -> bool
        ensures { IsTrue result → (c : Element) × IsMarkedIn self.now.marks.items elements.now c × IsThirdAt index.now a b c }
    {
        for c in elements {
            if self.is_third(index, a, b, *c) {
                return true;
            }
        }
        false
    }

    fn is_third(&self, index: &Index, a: Elem, b: Elem, c: Elem) -> bool
        ensures { IsTrue result ↔ (IsMarked self.now.marks.items c × IsThirdAt index.now a b c) }
    {
        self.has(c) && is_third(index, a, b, c)
    }
}
