// The merges by the tie rule.
ghost use Rattle.std.specs.Prelude.{◌↔◌, ◌≡◌, ◌<◌, IfOk, OnOk, IsTrue, List as Items, Contains, AllPairs};
ghost use Rattle.sk_base.specs.declared.Elem.{Elem as Element};
ghost use Rattle.sk_base.specs.declared.Name.{Name as ClusterName};
ghost use Rattle.sk_base.specs.declared.Graph.{Graph as AnyGraph};
ghost use Rattle.sk_base.specs.declared.Kind.TheVariants.{Point};
ghost use Rattle.sk_base.specs.ClusterNames.{IsBelow};
ghost use Rattle.sk_base.specs.SoundGraph.{HasNode, HasRisingNodes};
ghost use Rattle.sk_family.specs.Body.{Body};
ghost use Rattle.sk_family.specs.Clusters.{bodies, IsSound};
ghost use Rattle.sk_open_triples.specs.MergeOrder.{ComesFirst};
ghost use Rattle.sk_close_by_order.specs.Turns.{Follows};
ghost use Rattle.sk_close_by_angles.specs.Ties.{HaveTiedLines};
ghost use Rattle.sk_close_by_angles.specs.Classes.{AreClasses};
ghost use Rattle.sk_close_by_angles.specs.TieMerges.{AreBelow, FindsAmong, FindsOf, AddsWhere, IsTiedTo};
ghost use Rattle.sk_close_by_angles.specs.FollowedTies.{FindsOfLast};
ghost use Rattle.sk_close_by_angles.specs.WideChoices.{AreTieMerges};

use crate::classes::class_among;
use crate::pairs::Pairs;
use sk_base::{Elem, Graph, Kind, List, Name, NoMemory, Node};
use sk_close_by_order::Worklist;
use sk_family::{Cluster, Family};
use std::alloc::Global;

/// All merges by the tie rule, in order.
pub(crate) fn tie_merges(
    alloc: Global,
    family: &Family,
    graph: &Graph,
    work: &Worklist,
    classes: &[usize],
) -> Result<Pairs, NoMemory>
    requires rise { HasRisingNodes graph.now }
    requires follows { Follows work.now graph.now family.now }
    requires classes { AreClasses graph.now (bodies family.now) classes.now }
    ensures merges { IfOk result (AreTieMerges graph.now family.now) }
    ensures sound { OnOk result (IsSound family.now) }
{
    let mut found = Pairs::new(alloc);
    for cluster in family.clusters() {
        add_merges_with(alloc, &mut found, cluster, family, graph, work, classes)?;
    }
    Ok(found)
}

/// Adds the merges by the tie rule of the cluster with those below it.
fn add_merges_with(
    alloc: Global,
    found: &mut Pairs,
    cluster: &Cluster,
    family: &Family,
    graph: &Graph,
    work: &Worklist,
    classes: &[usize],
) -> Result<(), NoMemory>
    requires rise { HasRisingNodes graph.now }
    requires follows { Follows work.now graph.now family.now }
    requires classes { AreClasses graph.now (bodies family.now) classes.now }
    requires sound { IsSound family.now }
    requires lives { Contains family.now.live cluster.now }
    ensures found { OnOk result (FindsOf graph.now family.now cluster.now family.now.live found.old found.new) }
    ensures in_order { OnOk result (AllPairs ComesFirst found.old → AreBelow found.old cluster.now.name → AllPairs ComesFirst found.new) }
{
    let points = points_among(alloc, cluster.elements.as_slice(), graph)?;
    let others = work.holding(points.as_slice(), cluster.name)?;
    add_merges_of(alloc, found, cluster, others.as_slice(), family, classes)
}

/// Adds the merges by the tie rule of the last cluster.
pub(crate) fn add_merges_of_last(
    alloc: Global,
    found: &mut Pairs,
    family: &Family,
    graph: &Graph,
    work: &Worklist,
    classes: &[usize],
) -> Result<(), NoMemory>
    requires rise { HasRisingNodes graph.now }
    requires follows { Follows work.now graph.now family.now }
    requires classes { AreClasses graph.now (bodies family.now) classes.now }
    ensures found { OnOk result (FindsOfLast graph.now family.now found.old found.new) }
    ensures sound { IsSound family.now }
{
    match family.clusters().last() {
        Some(last) => add_merges_with(alloc, found, last, family, graph, work, classes),
        None => Ok(()),
    }
}

/// The points among the elements.
fn points_among(alloc: Global, elements: &[Elem], graph: &Graph) -> Result<List<Elem>, NoMemory>
    requires { HasRisingNodes graph.now }
    ensures { IfOk result (λ points. (e : Element) → Contains points e ↔ (Contains elements.now e × HasNode graph.now e Point)) }
{
    let mut points = List::new(alloc);
    for elem in elements {
        add_if_point(&mut points, *elem, graph)?;
    }
    Ok(points)
}

fn add_if_point(points: &mut List<Elem>, elem: Elem, graph: &Graph) -> Result<(), NoMemory>
    requires { HasRisingNodes graph.now }
    ensures { OnOk result (AddsWhere (HasNode graph.now elem Point) points.old points.new elem) }
{
    if is_point(graph, elem) {
        points.push(elem)
    } else {
        Ok(())
    }
}

fn is_point(graph: &Graph, elem: Elem) -> bool
    requires { HasRisingNodes graph.now }
    ensures { IsTrue result ↔ HasNode graph.now elem Point }
{
    let nodes = graph.nodes.as_slice();
    match nodes.binary_search_by_key(&elem.0, |node| node.elem.0) {
        Ok(place) => is_point_node(&nodes[place]),
        Err(_) => false,
    }
}

fn is_point_node(node: &Node) -> bool
    ensures { IsTrue result ↔ (node.now.kind ≡ Point) }
{
    match node.kind {
        Kind::Point => true,
        Kind::Line => false,
    }
}

/// Adds the merges of the cluster with those of the others that are tied to it.
fn add_merges_of(
    alloc: Global,
    found: &mut Pairs,
    cluster: &Cluster,
    others: &[Name],
    family: &Family,
    classes: &[usize],
) -> Result<(), NoMemory>
    requires classes { (g : AnyGraph) × AreClasses g (bodies family.now) classes.now }
    requires lives { Contains family.now.live cluster.now }
    ensures found { OnOk result ((g : AnyGraph) → AreClasses g (bodies family.now) classes.now → FindsAmong g family.now cluster.now others.now found.old found.new) }
    ensures in_order { OnOk result (AllPairs IsBelow others.now → AllPairs ComesFirst found.old → AreBelow found.old cluster.now.name → AllPairs ComesFirst found.new) }
{
    let tied = tied_among(alloc, cluster, others, family, classes)?;
    found.push_all(cluster.name, tied)
}

/// Those of the others that are tied to the cluster.
fn tied_among(
    alloc: Global,
    cluster: &Cluster,
    others: &[Name],
    family: &Family,
    classes: &[usize],
) -> Result<Vec<Name>, NoMemory>
    requires classes { (g : AnyGraph) × AreClasses g (bodies family.now) classes.now }
    requires lives { Contains family.now.live cluster.now }
    ensures exactly { IfOk result (λ tied. (g : AnyGraph) → AreClasses g (bodies family.now) classes.now
        → (n : ClusterName) → Contains tied.items n ↔ (Contains others.now n × IsTiedTo g family.now cluster.now n)) }
    ensures in_order { IfOk result (λ tied. AllPairs IsBelow others.now → AllPairs IsBelow tied.items) }
{
    let mut tied = Vec::new(alloc);
    for other in others {
        add_if_tied(&mut tied, cluster, *other, family, classes)?;
    }
    Ok(tied)
}

/// Adds the other where it is tied to the cluster.
fn add_if_tied(
    tied: &mut Vec<Name>,
    cluster: &Cluster,
    other: Name,
    family: &Family,
    classes: &[usize],
) -> Result<(), NoMemory>
    requires { Contains family.now.live cluster.now }
    ensures { OnOk result ((g : AnyGraph) → AreClasses g (bodies family.now) classes.now
        → AddsWhere (IsTiedTo g family.now cluster.now other) tied.old.items tied.new.items other) }
{
    if is_tied_to(cluster, other, family, classes) {
        tied.push(other)?;
    }
    Ok(())
}

/// Whether some line of the other cluster is tied to one of this.
fn is_tied_to(cluster: &Cluster, other: Name, family: &Family, classes: &[usize]) -> bool
    requires { Contains family.now.live cluster.now }
    ensures { (g : AnyGraph) → AreClasses g (bodies family.now) classes.now → (IsTrue result ↔ IsTiedTo g family.now cluster.now other) }
{
    match family.cluster(other) {
        Some(found) => are_tied(
            cluster.elements.as_slice(),
            found.elements.as_slice(),
            classes,
        ),
        None => false,
    }
}

/// Whether some line of the one is tied to some line of the other.
fn are_tied(xs: &[Elem], ys: &[Elem], classes: &[usize]) -> bool
    ensures { (g : AnyGraph) (f : Items Body) (x y : Body) → AreClasses g f classes.now → Contains f x → Contains f y → x.elements ≡ xs.now → y.elements ≡ ys.now
        → (IsTrue result ↔ HaveTiedLines g f xs.now ys.now) }
{
    are_one(class_among(classes, xs), class_among(classes, ys))
}

/// Whether the two are one class.
fn are_one(class: usize, other: usize) -> bool
    ensures { IsTrue result ↔ ((0 < class) × (class ≡ other)) }
{
    class > 0 && class == other
}
