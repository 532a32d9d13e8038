// How a check closes the kept family.
ghost use Rattle.std.specs.Prelude.{◌+◌, ◌≤◌, OnErr, OnOk, length};
ghost use Rattle.sk_base.specs.SoundGraph.{HasRisingEdges};
ghost use Rattle.sk_family.specs.Body.{initial_bodies};
ghost use Rattle.sk_family.specs.Clusters.{IsSound, bodies};
ghost use Rattle.sk_rules.specs.Reach.{IsNormal, Reach};
ghost use Rattle.sk_session.specs.State.{EndsBy, HasBegunBy};

use sk_base::{Graph, NoMemory};
use sk_close_any_order::close_in_any_order;
use sk_close_by_order::{Chosen, Order, close_family};
use sk_family::Family;
use std::alloc::Global;

/// How the checks of a session close its kept family. What they answer is the same.
#[derive(Clone, Copy)]
pub enum Closing {
    /// By the run of a fresh picker of the session's order: the kept clusters have its names.
    ByRun,
    /// In any order: the kept clusters are the same, their names are told of no run.
    InAnyOrder,
}

/// Closes the family. After `NoMemory` it may not be closed.
pub(crate) fn close(
    alloc: Global,
    family: &mut Family,
    graph: &Graph,
    order: Order,
    closing: Closing,
) -> Result<(), NoMemory>
    requires room { family.old.next_step + length family.old.live ≤ 4294967296 }
    requires rises { HasRisingEdges graph.now }
    requires begun { Reach graph.now (initial_bodies graph.now) (bodies family.old) }
    requires was_sound { IsSound family.old }
    ensures ends { OnOk result (EndsBy closing order graph.now family.old family.new) }
    ensures normal { OnOk result (IsNormal graph.now (bodies family.new)) }
    ensures err { OnErr result (HasBegunBy closing order graph.now family.old family.new) }

    // Whatever the result.
    ensures reached { Reach graph.now (bodies family.old) (bodies family.new) }
    ensures sound { IsSound family.new }
    ensures room { family.new.next_step + length family.new.live ≤ family.old.next_step + length family.old.live }
{
    match closing {
        Closing::ByRun => close_by_run(alloc, family, graph, order),
        Closing::InAnyOrder => close_in_any_order(alloc, family, graph),
    }
}

/// Closes the family by the run of a fresh picker of the order.
fn close_by_run(
    alloc: Global,
    family: &mut Family,
    graph: &Graph,
    order: Order,
) -> Result<(), NoMemory>
    requires room { family.old.next_step + length family.old.live ≤ 4294967296 }
    requires begun { Reach graph.now (initial_bodies graph.now) (bodies family.old) }
    requires was_sound { IsSound family.old }
    ensures ends { OnOk result (EndsBy Closing.ByRun order graph.now family.old family.new) }
    ensures normal { OnOk result (IsNormal graph.now (bodies family.new)) }
    ensures err { OnErr result (HasBegunBy Closing.ByRun order graph.now family.old family.new) }

    // Whatever the result.
    ensures reached { Reach graph.now (bodies family.old) (bodies family.new) }
    ensures sound { IsSound family.new }
    ensures room { family.new.next_step + length family.new.live ≤ family.old.next_step + length family.old.live }
{
    let mut picker = Chosen::new(order);
    close_family(alloc, family, graph, &mut picker)?;
    Ok(())
}
