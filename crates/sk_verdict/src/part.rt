// A part of a family.
ghost use Rattle.std.specs.Prelude.{◌≡◌, ◌+◌, ◌*◌, ◌≤◌, ◌∷◌, [], length, IfOk};
ghost use Rattle.sk_base.specs.SoundGraph.{IsSoundGraph};
ghost use Rattle.sk_rules.specs.Excess.{weight_of, AreConstraints};
ghost use Rattle.sk_verdict.specs.Building.{owned_part};

use sk_base::{Elem, Graph, List, NoMemory};
use sk_family::Cluster;
use sk_rules::weight_of;
use std::alloc::Global;

/// A cluster or a lone element: its elements, rising, how many constraints it holds, and how many are
/// due. A rigid block of k pins counts as 2k - 3.
#[derive(Drop)]
pub struct Part {
    pub elements: List<Elem>,
    pub held: u32,
    pub due: u32,
}

impl Part {
    ghost use Rattle.std.specs.Prelude.{◌↔◌, nat_lt, IsTrue};
    ghost use Rattle.sk_verdict.specs.Judging.{IsOver};

    /// Whether the part holds more than is due.
    pub fn is_over(&self) -> bool
        ensures computed { result ≡ nat_lt self.now.due self.now.held }
        ensures over { IsTrue result ↔ IsOver self.now }
    {
        self.held > self.due
    }
}

/// The part of a cluster that owns what it holds.
pub(crate) fn part_of(alloc: Global, graph: &Graph, cluster: &Cluster) -> Result<Part, NoMemory>
    requires sound { IsSoundGraph graph.now }
    requires enough { 2 * length cluster.now.elements ≤ weight_of graph.now cluster.now.owned + 3 }
    requires owned { AreConstraints graph.now cluster.now.owned }
    ensures { IfOk result (λ part. part ≡ owned_part graph.now cluster.now) }
{
    let held = weight_of(graph, cluster.owned.as_slice());
    let mut elements = List::new(alloc);
    elements.extend(cluster.elements.as_slice())?;
    Ok(Part {
        elements,
        held,
        due: (2 * cluster.elements.len()).saturating_sub(3) as u32,
    })
}

/// The part of a lone element, which holds nothing and is due nothing.
pub(crate) fn lone_part(alloc: Global, elem: Elem) -> Result<Part, NoMemory>
    ensures { IfOk result (λ part. part ≡ record { elements = elem ∷ []; held = 0; due = 0 }) }
{
    let mut elements = List::new(alloc);
    elements.push(elem)?;
    Ok(Part {
        elements,
        held: 0,
        due: 0,
    })
}
