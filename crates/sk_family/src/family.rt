// The family of clusters, as a store sorted by name.
ghost use Rattle.std.specs.Prelude.{◌≡◌, ◌↔◌, ◌+◌, ◌≤◌, ◌<◌, [], ◌∷◌, ◌++◌, All, AllPairs, IfOk, IfSome, IfNone, OnOk, OnErr, IsTrue, length, slice_get, Contains, false};
ghost use Rattle.sk_base.specs.SoundGraph.{IsSoundGraph, HasRisingEdges, HasRisingBlocks};
ghost use Rattle.sk_base.specs.ClusterNames.{IsBelow, is_named};
ghost use Rattle.sk_family.specs.declared.cluster.Cluster.{Cluster as AnyCluster};
ghost use Rattle.sk_base.specs.Numbering.{elem_number};
ghost use Rattle.sk_base.specs.Rising.{IsRising};
ghost use Rattle.sk_family.specs.Body.{Start, IsRisingBody, edge_start, block_start, initial_bodies, join, nothing};
ghost use Rattle.sk_family.specs.Clusters.{AddsNamed, cluster_of, initial_clusters, start_of, replaced, whole_from, bodies, body_of, live_names, unnamed, ByName, CanBeReplaced, IsAt, IsSound, IsLive, IsNamed};
ghost use Rattle.sk_family.specs.Joining.{CanBeJoined};
ghost use Rattle.sk_family.specs.Starting.{starts_but};
ghost use Rattle.sk_family.specs.Starts.{IsFree, HasStart, CanBeDissolved, IsDissolved};

use crate::cluster::{Cluster, copy_all};
use crate::joining::join_many;
use crate::row::Row;
use crate::search::count_below;
use crate::start::{all_starts, block_cluster, edge_cluster, exchange, starts_of};
use crate::union::union_of;
use sk_base::{Block, ConId, Edge, Graph, List, Name, NoMemory};
use std::alloc::Global;
use std::marker::Model;

/// The live clusters, each with a name of its own, and the number of the next step.
#[derive(Drop)]
pub struct Family {
    alloc: Global,
    clusters: Row<Cluster>,
    next: u32,
}

impl Model for Family {
    ghost use Rattle.sk_family.specs.Clusters.{Clusters, IsSound};

    ghost Value = { Clusters };

    ghost view = { λ f. record { live = f.clusters; next_step = f.next } };

    ghost invariant = { λ f. IsSound (record { live = f.clusters; next_step = f.next }) };
}

/// The family of starting clusters: one for each constraint, of its two ends, or of the elements of a
/// block's pins.
pub fn initial(alloc: Global, graph: &Graph) -> Result<Family, NoMemory>
    requires { IsSoundGraph graph.now }
    ensures clusters { IfOk result (λ f. f ≡ initial_clusters graph.now) }
    ensures bodies { IfOk result (λ f. bodies f ≡ initial_bodies graph.now) }
{
    Ok(Family {
        alloc,
        clusters: Row::of(all_starts(alloc, graph)?),
        next: 1,
    })
}

impl Family {
    /// The live clusters, by rising name.
    pub fn clusters(&self) -> &[Cluster]
        ensures live { result.now ≡ self.now.live }
        ensures sound { IsSound self.now }
    {
        self.clusters.as_slice()
    }

    /// The next step's number.
    pub fn next_step(&self) -> u32
        ensures { result ≡ self.now.next_step }
    {
        self.next
    }

    /// How many clusters live.
    pub fn count(&self) -> u32
        ensures { result ≡ length self.now.live }
    {
        self.clusters.as_slice().len() as u32
    }

    /// The live name at place `i`, from 0, in rising order.
    pub fn name_at(&self, i: u32) -> Option<Name>
        ensures { result ≡ slice_get (live_names self.now) i }
    {
        let cluster = self.clusters.as_slice().get(i as usize)?;
        Some(cluster.name)
    }

    /// Whether a cluster of that name lives.
    pub fn live(&self, name: Name) -> bool
        ensures { IsTrue result ↔ IsLive self.now name }
    {
        self.cluster(name).is_some()
    }

    /// The live cluster of that name. None comes exactly where none has it.
    pub fn cluster(&self, name: Name) -> Option<&Cluster>
        ensures none { IfNone result (¬ IsLive self.now name) }
        ensures some { IfSome result (λ c. IsNamed self.now name c.now) }
        ensures sound { IsSound self.now }
    {
        find(self.clusters.as_slice(), name)
    }

    /// The live clusters but those below the name, by rising name.
    pub fn not_below(&self, name: Name) -> &[Cluster]
        ensures live { (c : AnyCluster) → Contains result.now c ↔ (Contains self.now.live c × ¬ IsBelow c.name name) }
        ensures rise { AllPairs ByName result.now }
        ensures sound { IsSound self.now }
    {
        let clusters = self.clusters.as_slice();
        &clusters[count_below(clusters, name)..]
    }

    /// The same family once more.
    pub fn copy(&self) -> Result<Family, NoMemory>
        ensures same { IfOk result (λ copy. copy ≡ self.now) }
        ensures sound { IsSound self.now }
    {
        Ok(Family {
            alloc: self.alloc,
            clusters: Row::of(copy_all(self.alloc, self.clusters.as_slice())?),
            next: self.next,
        })
    }

    /// Puts one cluster in the place of those named, and answers its name, the next step's. It has
    /// their elements and their owned constraints. After `NoMemory` the family is unchanged.
    pub fn replace(&mut self, from: &[Name]) -> Result<Name, NoMemory>
        requires from { CanBeReplaced self.old from.now }
        requires room { self.old.next_step < 4294967295 }
        ensures name { IfOk result (λ name. name ≡ Name.Step self.old.next_step) }
        ensures ok { OnOk result (self.new ≡ replaced self.old from.now) }
        ensures err { OnErr result (self.new ≡ self.old) }
        ensures was_sound { IsSound self.old }
    {
        self.replace_all(from)
    }

    /// The same for any number of clusters from two on.
    pub fn replace_all(&mut self, from: &[Name]) -> Result<Name, NoMemory>
        requires from { CanBeJoined self.old from.now }
        requires room { self.old.next_step < 4294967295 }
        ensures name { IfOk result (λ name. name ≡ Name.Step self.old.next_step) }
        ensures ok { OnOk result (self.new ≡ replaced self.old from.now) }
        ensures fewer { OnOk result (length self.new.live < length self.old.live) }
        ensures err { OnErr result (self.new ≡ self.old) }
        ensures was_sound { IsSound self.old }
        ensures sound { IsSound self.new }
    {
        let name = Name::Step(self.next);
        join_named(self.alloc, &mut self.clusters, from, name)?;
        self.next += 1;
        Ok(name)
    }

    /// Puts in the starting cluster of a constraint that no cluster owns or is named by. After
    /// `NoMemory` the family is unchanged.
    pub fn adopt(&mut self, edge: &Edge) -> Result<(), NoMemory>
        requires free { IsFree self.old edge.now.id }
        requires room { length self.old.live < 4294967295 }
        ensures ok { OnOk result (HasStart (edge_start edge.now) self.old self.new) }
        ensures count { OnOk result (length self.new.live ≡ length self.old.live + 1) }
        ensures err { OnErr result (self.new ≡ self.old) }
        ensures sound { IsSound self.new }
    {
        let start = edge_cluster(self.alloc, edge)?;
        self.put_start(start)
    }

    /// The same for a block.
    pub fn adopt_block(&mut self, block: &Block) -> Result<(), NoMemory>
        requires free { IsFree self.old block.now.id }
        requires room { length self.old.live < 4294967295 }
        ensures ok { OnOk result (HasStart (block_start block.now) self.old self.new) }
        ensures count { OnOk result (length self.new.live ≡ length self.old.live + 1) }
        ensures err { OnErr result (self.new ≡ self.old) }
        ensures sound { IsSound self.new }
    {
        let start = block_cluster(self.alloc, block)?;
        self.put_start(start)
    }

    /// Puts a starting cluster in at its place.
    fn put_start(&mut self, start: Cluster) -> Result<(), NoMemory>
        requires start { (s : Start) × (start ≡ start_of s) × IsRising elem_number s.elements × IsFree self.old s.number }
        requires room { length self.old.live < 4294967295 }
        ensures ok { OnOk result ((s : Start) → start ≡ start_of s → HasStart s self.old self.new) }
        ensures count { OnOk result (length self.new.live ≡ length self.old.live + 1) }
        ensures err { OnErr result (self.new ≡ self.old) }
        ensures sound { IsSound self.new }
    {
        let place = count_below(self.clusters.as_slice(), start.name);
        self.clusters.insert(place, start)?;
        Ok(())
    }

    /// Puts the starting clusters of the constraints that the cluster owns, but for one, in its
    /// place. After `NoMemory` the family is unchanged.
    pub fn dissolve(&mut self, name: Name, without: ConId, graph: &Graph) -> Result<(), NoMemory>
        requires graph { IsSoundGraph graph.now }
        requires owner { CanBeDissolved graph.now self.old name without }
        ensures ok { OnOk result (IsDissolved graph.now name without self.old self.new) }
        ensures count { OnOk result ((c : AnyCluster) → IsNamed self.old name c → length self.new.live + 2 ≤ length self.old.live + length c.owned) }
        ensures err { OnErr result (self.new ≡ self.old) }
        ensures sound { IsSound self.new }
    {
        let starts = self.starts_in(name, without, graph)?;
        exchange(&mut self.clusters, name, starts)?;
        Ok(())
    }

    /// The starting clusters of the constraints that the cluster of that name owns, but for one.
    fn starts_in(&self, name: Name, without: ConId, graph: &Graph) -> Result<Vec<Cluster>, NoMemory>
        requires graph { HasRisingEdges graph.now }
        requires blocks { HasRisingBlocks graph.now }
        requires owner { CanBeDissolved graph.now self.now name without }
        ensures { IfOk result (λ starts. (c : AnyCluster) → IsNamed self.now name c → starts.items ≡ starts_but graph.now without c.owned) }
    {
        match self.cluster(name) {
            Some(owner) => starts_of(self.alloc, owner.owned.as_slice(), without, graph),
            None => unreachable!(),
        }
    }
}

/// The cluster of that name.
fn find(clusters: &[Cluster], name: Name) -> Option<&Cluster>
    requires { AllPairs ByName clusters.now }
    ensures none { IfNone result (All (λ (c : Cluster). ¬ (c.name ≡ name)) clusters.now) }
    ensures lives { IfSome result (λ c. Contains clusters.now c.now) }
    ensures has_name { IfSome result (λ c. c.now.name ≡ name) }
{
    let place = count_below(clusters, name);
    let cluster = clusters.get(place)?;
    if has_name(cluster, name) {
        Some(cluster)
    } else {
        None
    }
}

fn has_name(cluster: &Cluster, name: Name) -> bool
    ensures { IsTrue result ↔ (cluster.now.name ≡ name) }
{
    cluster.name == name
}

/// Takes the clusters of these names out, and puts the one that they make in at the end. After
/// `NoMemory` the clusters are unchanged.
fn join_named(
    alloc: Global,
    clusters: &mut Row<Cluster>,
    from: &[Name],
    name: Name,
) -> Result<(), NoMemory>
    requires by_name { AllPairs ByName clusters.old }
    requires rise { All (λ c. IsRisingBody (body_of c)) clusters.old }
    requires last { (c : AnyCluster) → Contains clusters.old c → IsBelow c.name name }
    requires apart { is_named from.now name ≡ false }
    requires live { All (λ n. (c : AnyCluster) × Contains clusters.old c × (c.name ≡ n)) from.now }
    ensures ok { OnOk result (clusters.new ≡ unnamed from.now clusters.old ++ whole_from name from.now clusters.old ∷ []) }
    ensures err { OnErr result (clusters.new ≡ clusters.old) }
{
    if from.len() <= 3 {
        join_few(alloc, clusters, from, name)
    } else {
        join_many(alloc, clusters, from, name)
    }
}

/// The same of a few, each found by itself.
fn join_few(
    alloc: Global,
    clusters: &mut Row<Cluster>,
    from: &[Name],
    name: Name,
) -> Result<(), NoMemory>
    requires by_name { AllPairs ByName clusters.old }
    requires rise { All (λ c. IsRisingBody (body_of c)) clusters.old }
    requires last { (c : AnyCluster) → Contains clusters.old c → IsBelow c.name name }
    requires apart { is_named from.now name ≡ false }
    ensures ok { OnOk result (clusters.new ≡ unnamed from.now clusters.old ++ whole_from name from.now clusters.old ∷ []) }
    ensures err { OnErr result (clusters.new ≡ clusters.old) }
{
    let whole = whole_of(alloc, clusters.as_slice(), name, from)?;
    put_in_place(alloc, clusters, from, whole)
}

/// The cluster that those of these names make.
fn whole_of(
    alloc: Global,
    clusters: &[Cluster],
    name: Name,
    from: &[Name],
) -> Result<Cluster, NoMemory>
    requires by_name { AllPairs ByName clusters.now }
    requires rise { All (λ c. IsRisingBody (body_of c)) clusters.now }
    ensures { IfOk result (λ whole. whole ≡ whole_from name from.now clusters.now) }
{
    let mut whole = empty(alloc, name);
    for part in from {
        add_named(alloc, &mut whole, clusters, *part)?;
    }
    Ok(whole)
}

/// A cluster of that name, with nothing in it.
fn empty(alloc: Global, name: Name) -> Cluster
    ensures { result ≡ cluster_of name nothing }
{
    Cluster {
        name,
        elements: List::new(alloc),
        owned: List::new(alloc),
    }
}

/// Adds the elements and the owned constraints of the cluster of that name.
fn add_named(
    alloc: Global,
    whole: &mut Cluster,
    clusters: &[Cluster],
    name: Name,
) -> Result<(), NoMemory>
    requires by_name { AllPairs ByName clusters.now }
    requires rise { All (λ c. IsRisingBody (body_of c)) clusters.now }
    requires rises { IsRisingBody (body_of whole.old) }
    ensures name { OnOk result (whole.new.name ≡ whole.old.name) }
    ensures body { OnOk result (AddsNamed clusters.now name (body_of whole.old) (body_of whole.new)) }
{
    match find(clusters, name) {
        Some(part) => add(alloc, whole, part),
        None => Ok(()),
    }
}

fn add(alloc: Global, whole: &mut Cluster, part: &Cluster) -> Result<(), NoMemory>
    requires part { IsRisingBody (body_of part.now) }
    requires rises { IsRisingBody (body_of whole.old) }
    ensures name { OnOk result (whole.new.name ≡ whole.old.name) }
    ensures body { OnOk result (body_of whole.new ≡ join (body_of part.now) (body_of whole.old)) }
{
    whole.elements = union_of(alloc, part.elements.as_slice(), whole.elements.as_slice())?;
    whole.owned = union_of(alloc, part.owned.as_slice(), whole.owned.as_slice())?;
    Ok(())
}

/// Takes the clusters of these names out, and puts another in at the end.
fn put_in_place(
    alloc: Global,
    clusters: &mut Row<Cluster>,
    from: &[Name],
    whole: Cluster,
) -> Result<(), NoMemory>
    requires by_name { AllPairs ByName clusters.old }
    requires last { (c : AnyCluster) → Contains clusters.old c → IsBelow c.name whole.name }
    requires apart { is_named from.now whole.name ≡ false }
    ensures ok { OnOk result (clusters.new ≡ unnamed from.now clusters.old ++ whole ∷ []) }
    ensures err { OnErr result (clusters.new ≡ clusters.old) }
{
    clusters.push(whole)?;
    for name in from {
        take_out(alloc, clusters, *name);
    }
    Ok(())
}

/// Takes the cluster of that name out.
fn take_out(alloc: Global, clusters: &mut Row<Cluster>, name: Name)
    requires { AllPairs ByName clusters.old }
    ensures { clusters.new ≡ unnamed (name ∷ []) clusters.old }
{
    let place = count_below(clusters.as_slice(), name);
    if is_at(clusters.as_slice(), place, name) {
        clusters.remove(place, empty(alloc, name));
    }
}

/// Whether a cluster of that name stands at the place.
fn is_at(clusters: &[Cluster], place: usize, name: Name) -> bool
    ensures { IsTrue result ↔ IsAt clusters.now place name }
{
    match clusters.get(place) {
        Some(cluster) => cluster.name == name,
        None => false,
    }
}
