// The judgement on a family.
ghost use Rattle.std.specs.Prelude.{◌≡◌, ◌≢◌, ◌↔◌, ◌+◌, ◌*◌, ◌≤◌, ◌<◌, List as Items, length, All, AllPairs, Any, IfOk, OnOk, IsTrue, Contains};
ghost use Rattle.sk_base.specs.SoundGraph.{IsSoundGraph, HasRisingNodes};
ghost use Rattle.sk_family.specs.declared.Cluster.{Cluster as TheCluster};
ghost use Rattle.sk_family.specs.Body.{Body};
ghost use Rattle.sk_family.specs.Clusters.{bodies};
ghost use Rattle.sk_rules.specs.Excess.{weight_of, AreConstraints};
ghost use Rattle.sk_rules.specs.Reach.{IsNormal};
ghost use Rattle.sk_verdict.specs.Ordering.{AreInOrder};
ghost use Rattle.sk_verdict.specs.Building.{AreOfClusters, AddsLone, HasNoSingle};
ghost use Rattle.sk_verdict.specs.Judging.{IsJudgement, IsOver, some_over, verdict_on};

use crate::named::{is_unmarked, named_in};
use crate::part::{Part, lone_part, part_of};
use crate::store::put;
use sk_base::{Graph, List, NoMemory};
use sk_family::{Cluster, Family};
use std::alloc::Global;

/// What is said of all parts together.
#[derive(Clone, Copy, PartialEq, Eq, Debug)]
pub enum Verdict {
    Well,
    Over,
    Several,
}

/// The parts of a family in order of their lists of elements, and the verdict on them.
#[derive(Drop)]
pub struct Judgement {
    pub verdict: Verdict,
    pub parts: List<Part>,
}

/// The judgement on a normal family.
pub fn judge(alloc: Global, family: &Family, graph: &Graph) -> Result<Judgement, NoMemory>
    requires sound { IsSoundGraph graph.now }
    requires some { 0 < length graph.now.nodes }
    requires normal { IsNormal graph.now (bodies family.now) }
    ensures judgement { IfOk result (IsJudgement graph.now (bodies family.now)) }
    ensures enough { IfOk result (λ j. All (λ p. p.due ≤ p.held) j.parts) }
    ensures over { IfOk result (λ j. (j.verdict ≡ Verdict.Over) ↔ Any IsOver j.parts) }

    // It is the judgement on every normal family of the graph.
    ensures whichever { IfOk result (λ j. (other : Items Body) → IsNormal graph.now other → IsJudgement graph.now other j) }
{
    let mut parts = parts_of(alloc, graph, family.clusters())?;
    add_lone(alloc, graph, &mut parts)?;
    Ok(Judgement {
        verdict: verdict_of(parts.as_slice()),
        parts,
    })
}

/// The parts of the clusters.
fn parts_of(alloc: Global, graph: &Graph, clusters: &[Cluster]) -> Result<List<Part>, NoMemory>
    requires sound { IsSoundGraph graph.now }
    requires enough { (c : TheCluster) → Contains clusters.now c → 2 * length c.elements ≤ weight_of graph.now c.owned + 3 }
    requires owned { (c : TheCluster) → Contains clusters.now c → AreConstraints graph.now c.owned }
    requires differ { AllPairs (λ (c d : TheCluster). c.elements ≢ d.elements) clusters.now }
    ensures { IfOk result (AreOfClusters graph.now clusters.now) }
{
    let mut parts = List::new(alloc);
    for cluster in clusters {
        put(&mut parts, part_of(alloc, graph, cluster)?)?;
    }
    Ok(parts)
}

/// Adds the parts of the lone elements.
fn add_lone(alloc: Global, graph: &Graph, parts: &mut List<Part>) -> Result<(), NoMemory>
    requires rise { HasRisingNodes graph.now }
    requires in_order { AreInOrder parts.old }
    requires no_single { HasNoSingle parts.old }
    ensures { OnOk result (AddsLone graph.now graph.now.nodes parts.old parts.new) }
{
    let named = named_in(alloc, graph)?;
    for node in graph.nodes.as_slice() {
        if is_unmarked(named.as_slice(), node.elem) {
            put(parts, lone_part(alloc, node.elem)?)?;
        }
    }
    Ok(())
}

/// Over where some part holds more than is due, else several where there is more than one, else well.
fn verdict_of(parts: &[Part]) -> Verdict
    ensures { result ≡ verdict_on parts.now }
{
    if is_some_over(parts) {
        Verdict::Over
    } else if parts.len() > 1 {
        Verdict::Several
    } else {
        Verdict::Well
    }
}

/// Whether some part holds more than is due.
fn is_some_over(parts: &[Part]) -> bool
    ensures { result ≡ some_over parts.now }
{
    parts.iter().any(|part| part.is_over())
}
