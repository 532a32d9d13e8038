// The index of a family: which clusters hold an element.
ghost use Rattle.std.specs.Prelude.{◌≡◌, ◌≢◌, ◌↔◌, ◌⊎◌, ◌<◌, ◌≤◌, ◌++◌, ◌∷◌, [], AllPairs, take, drop, length, ℕ, IfOk, OnOk, IfSome, IfNone, IsTrue, Contains, option_copied, Some, filter, not, ◌==◌, position};
ghost use Rattle.sk_base.specs.declared.Elem.{Elem as Element};
ghost use Rattle.sk_base.specs.declared.Name.{Name as ClusterName};
ghost use Rattle.slab.specs.Slab.{get};
ghost use Rattle.sk_neighbours.specs.Indexed.{AllRise, HoldersGrow, KeepsLines, cluster_at, lines_in, IsBelowAt, RisesIn, IsHeld, IsLast, IsIndex, IsNamedAt, Represents, holders_of};
ghost use Rattle.sk_family.specs.Clusters.{HasElements};
ghost use Rattle.sk_base.specs.ClusterNames.{IsBelow};
ghost use Rattle.sk_base.specs.Numbering.{elem_number};
ghost use Rattle.sk_base.specs.Rising.{IsRising};
ghost use Rattle.sk_family.specs.declared.Cluster.{Cluster as AnyCluster};

use sk_base::{Elem, Graph, Name, NoMemory};
use sk_family::{Cluster, Family, Row};
use sk_triangles::lines_of;
use slab::Slab;
use std::alloc::Global;

/// The live clusters under keys, by number of an element the keys of those that hold it, and whether
/// it is a line.
#[derive(Drop)]
pub struct Index {
    alloc: Global,
    live: Slab<Cluster>,
    holders: Vec<Row<usize>>,
    lines: Vec<bool>,
}

impl Index {
    /// The index of a family.
    pub fn of(alloc: Global, family: &Family, graph: &Graph) -> Result<Index, NoMemory>
        ensures { IfOk result (λ index. Represents index graph.now family.now.live) }
    {
        let mut index = Index {
            alloc,
            live: Slab::new(alloc),
            holders: Vec::new(alloc),
            lines: lines_of(alloc, graph.nodes.as_slice())?,
        };
        for cluster in family.clusters() {
            index.put(cluster)?;
        }
        Ok(index)
    }

    /// Puts the last of these clusters in, whose name is above all in it.
    pub fn put_last(&mut self, clusters: &[Cluster]) -> Result<(), NoMemory>
        requires index { IsIndex self.old }
        requires greatest { (c d : AnyCluster) → IsHeld self.old c → IsLast clusters.now d → IsBelow c.name d.name }
        requires rise { AllRise clusters.now }
        ensures index { OnOk result (IsIndex self.new) }
        ensures held { OnOk result ((c : AnyCluster) → IsHeld self.new c ↔ (IsHeld self.old c ⊎ IsLast clusters.now c)) }
        ensures lines { OnOk result (KeepsLines self.old self.new) }
    {
        match clusters.last() {
            Some(last) => self.put(last),
            None => Ok(()),
        }
    }

    /// Puts a cluster in whose name is above all in it.
    fn put(&mut self, cluster: &Cluster) -> Result<(), NoMemory>
        requires index { IsIndex self.old }
        requires greatest { (c : AnyCluster) → IsHeld self.old c → IsBelow c.name cluster.now.name }
        requires rises { IsRising elem_number cluster.now.elements }
        ensures index { OnOk result (IsIndex self.new) }
        ensures held { OnOk result ((c : AnyCluster) → IsHeld self.new c ↔ (IsHeld self.old c ⊎ (c ≡ cluster.now))) }
        ensures lines { OnOk result (KeepsLines self.old self.new) }
    {
        let copy = cluster.copy(self.alloc)?;
        let key = self.live.insert(copy)?;
        self.add_holders(cluster.elements.as_slice(), key)?;
        Ok(())
    }

    fn add_holders(&mut self, elements: &[Elem], key: usize) -> Result<(), NoMemory>
        requires { IsRising elem_number elements.now }
        ensures live { OnOk result (self.new.live ≡ self.old.live) }
        ensures lines { OnOk result (KeepsLines self.old self.new) }
        ensures holders { OnOk result ((e : Element) (k : ℕ) → Contains (holders_of self.new e) k ↔ (Contains (holders_of self.old e) k ⊎ (Contains elements.now e × (k ≡ key)))) }
        ensures order { OnOk result ((e : Element) → HoldersGrow self.old self.new key e) }
    {
        for elem in elements {
            self.add_holder(*elem, key)?;
        }
        Ok(())
    }

    fn add_holder(&mut self, elem: Elem, key: usize) -> Result<(), NoMemory>
        ensures live { OnOk result (self.new.live ≡ self.old.live) }
        ensures lines { OnOk result (KeepsLines self.old self.new) }
        ensures holders { OnOk result ((e : Element) (k : ℕ) → Contains (holders_of self.new e) k ↔ (Contains (holders_of self.old e) k ⊎ ((e ≡ elem) × (k ≡ key)))) }
        ensures here { OnOk result (holders_of self.new elem ≡ holders_of self.old elem ++ key ∷ []) }
        ensures others { OnOk result ((e : Element) → e ≢ elem → holders_of self.new e ≡ holders_of self.old e) }
    {
        self.make_room(elem)?;
        self.holders[elem.0 as usize].push(key)?;
        Ok(())
    }

    /// Makes room for the keys of an element.
    fn make_room(&mut self, elem: Elem) -> Result<(), NoMemory>
        ensures live { self.new.live ≡ self.old.live }
        ensures lines { KeepsLines self.old self.new }
        ensures holders { (e : Element) → holders_of self.new e ≡ holders_of self.old e }
        ensures room { OnOk result (elem.0 < length self.new.holders.items) }
    {
        while self.holders.len() <= elem.0 as usize {
            self.holders.push(Row::new(self.alloc))?;
        }
        Ok(())
    }

    /// Takes the clusters of these names out.
    pub fn take_out_all(&mut self, family: &Family, names: &[Name])
        requires index { IsIndex self.old }
        requires known { (c : AnyCluster) → IsHeld self.old c → Contains family.now.live c }
        requires some { (n : ClusterName) → Contains names.now n → HasElements family.now n }
        ensures index { IsIndex self.new }
        ensures held { (c : AnyCluster) → IsHeld self.new c ↔ (IsHeld self.old c × ¬ Contains names.now c.name) }
        ensures lines { KeepsLines self.old self.new }
    {
        for name in names {
            self.take_out_named(family, *name);
        }
    }

    fn take_out_named(&mut self, family: &Family, name: Name)
        requires index { IsIndex self.old }
        requires known { (c : AnyCluster) → IsHeld self.old c → Contains family.now.live c }
        requires some { HasElements family.now name }
        ensures index { IsIndex self.new }
        ensures held { (c : AnyCluster) → IsHeld self.new c ↔ (IsHeld self.old c × (c.name ≢ name)) }
        ensures lines { KeepsLines self.old self.new }
    {
        if let Some(cluster) = family.cluster(name) {
            self.take_out(cluster);
        }
    }

    /// Takes a cluster out that has a name of its own and an element.
    pub fn take_out(&mut self, cluster: &Cluster)
        requires index { IsIndex self.old }
        requires alone { (c : AnyCluster) → IsHeld self.old c → c.name ≡ cluster.now.name → c ≡ cluster.now }
        requires some { (e : Element) × Contains cluster.now.elements e }
        ensures index { IsIndex self.new }
        ensures held { (c : AnyCluster) → IsHeld self.new c ↔ (IsHeld self.old c × (c ≢ cluster.now)) }
        ensures lines { KeepsLines self.old self.new }
    {
        if let Some(key) = self.key_of(cluster) {
            self.drop_holders(cluster.elements.as_slice(), key);
            let _cluster = self.live.try_remove(key);
        }
    }

    /// The key of the cluster.
    fn key_of(&self, cluster: &Cluster) -> Option<usize>
        requires index { IsIndex self.now }
        requires some { (e : Element) × Contains cluster.now.elements e }
        ensures none { IfNone result (¬ IsHeld self.now cluster.now) }
        ensures some { IfSome result (IsNamedAt self.now cluster.now.name) }
    {
        let last = cluster.elements.as_slice().last()?;
        self.key_named(cluster.name, self.holders(*last))
    }

    /// The first of these keys whose cluster has that name.
    fn key_named(&self, name: Name, keys: &[usize]) -> Option<usize>
        ensures none { IfNone result ((k : ℕ) → Contains keys.now k → ¬ IsNamedAt self.now name k) }
        ensures some { IfSome result (IsNamedAt self.now name) }
    {
        for key in keys {
            if self.is_named_at(*key, name) {
                return Some(*key);
            }
        }
        None
    }

    /// Whether the cluster of that key has that name.
    fn is_named_at(&self, key: usize, name: Name) -> bool
        ensures { IsTrue result ↔ IsNamedAt self.now name key }
    {
        match self.live.get(key) {
            Some(cluster) => cluster.name == name,
            None => false,
        }
    }

    fn drop_holders(&mut self, elements: &[Elem], key: usize)
        requires { (e : Element) → AllPairs (λ (j k : ℕ). j ≢ k) (holders_of self.old e) }
        ensures live { self.new.live ≡ self.old.live }
        ensures lines { KeepsLines self.old self.new }
        ensures holders { (e : Element) (k : ℕ) → Contains (holders_of self.new e) k ↔ (Contains (holders_of self.old e) k × ¬ (Contains elements.now e × (k ≡ key))) }
        ensures order { (e : Element) → AllPairs (RisesIn self.old.live) (holders_of self.old e) → AllPairs (RisesIn self.old.live) (holders_of self.new e) }
    {
        for elem in elements {
            self.drop_holder(*elem, key);
        }
    }

    fn drop_holder(&mut self, elem: Elem, key: usize)
        requires { AllPairs (λ (j k : ℕ). j ≢ k) (holders_of self.old elem) }
        ensures live { self.new.live ≡ self.old.live }
        ensures lines { KeepsLines self.old self.new }
        ensures holders { (e : Element) (k : ℕ) → Contains (holders_of self.new e) k ↔ (Contains (holders_of self.old e) k × ¬ ((e ≡ elem) × (k ≡ key))) }
        ensures order { (e : Element) → AllPairs (RisesIn self.old.live) (holders_of self.old e) → AllPairs (RisesIn self.old.live) (holders_of self.new e) }
        ensures once { (e : Element) → AllPairs (λ (j k : ℕ). j ≢ k) (holders_of self.old e) → AllPairs (λ (j k : ℕ). j ≢ k) (holders_of self.new e) }
    {
        let at = elem.0 as usize;
        if at < self.holders.len() {
            drop_key(&mut self.holders[at], key);
        }
    }

    /// The keys of the clusters that hold the element.
    pub fn holders(&self, elem: Elem) -> &[usize]
        ensures { result.now ≡ holders_of self.now elem }
    {
        match self.holders.as_slice().get(elem.0 as usize) {
            Some(keys) => keys.as_slice(),
            None => &[],
        }
    }

    /// The keys of those of them that are below the name.
    pub fn below(&self, elem: Elem, name: Name) -> &[usize]
        requires { IsIndex self.now }
        ensures { (k : ℕ) → Contains result.now k ↔ (Contains (holders_of self.now elem) k × IsBelowAt self.now name k) }
    {
        let keys = self.holders(elem);
        &keys[..self.count_below(name, keys)]
    }

    /// How many of these keys, whose clusters stand in order, are of clusters below the name.
    fn count_below(&self, name: Name, keys: &[usize]) -> usize
        requires in_order { AllPairs (RisesIn self.now.live) keys.now }
        requires held { (k : ℕ) → Contains keys.now k → (c : AnyCluster) × (get self.now.live k ≡ Some c) }
        ensures within { result ≤ length keys.now }
        ensures before { (k : ℕ) → Contains (take result keys.now) k → IsBelowAt self.now name k }
        ensures after { (k : ℕ) → Contains (drop result keys.now) k → ¬ IsBelowAt self.now name k }
    {
        keys.partition_point(|key| self.is_below_at(*key, name))
    }

    /// Whether the cluster of that key is below the name.
    fn is_below_at(&self, key: usize, name: Name) -> bool
        ensures { IsTrue result ↔ IsBelowAt self.now name key }
    {
        match self.live.get(key) {
            Some(cluster) => cluster.name.is_below(name),
            None => false,
        }
    }

    /// The cluster of that key.
    pub fn held(&self, key: usize) -> Option<&Cluster>
        ensures { option_copied result ≡ cluster_at self.now key }
    {
        self.live.get(key)
    }

    /// The marks of the elements that are lines.
    pub fn lines(&self) -> &[bool]
        ensures { result.now ≡ lines_in self.now }
    {
        self.lines.as_slice()
    }
}

/// Takes the key out of these, which differ.
fn drop_key(keys: &mut Row<usize>, key: usize)
    requires { AllPairs (λ (j k : ℕ). j ≢ k) keys.old }
    ensures { keys.new ≡ filter (λ k. not (k == key)) keys.old }
{
    if let Some(place) = first_place(keys.as_slice(), key) {
        keys.remove(place, 0);
    }
}

/// The first place where the key stands.
fn first_place(keys: &[usize], key: usize) -> Option<usize>
    ensures { result ≡ position (λ k. k == key) keys.now }
{
    keys.iter().position(|held| *held == key)
}
