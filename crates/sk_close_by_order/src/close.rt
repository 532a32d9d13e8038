// Closing a family.
ghost use Rattle.std.specs.Prelude.{◌≡◌, ◌+◌, ◌<◌, ◌≤◌, IfOk, OnOk, OnErr, length, map};
ghost use Rattle.sk_base.specs.SoundGraph.{HasRisingEdges};
ghost use Rattle.sk_family.specs.Body.{initial_bodies};
ghost use Rattle.sk_family.specs.Clusters.{bodies};
ghost use Rattle.sk_rules.specs.Reach.{Reach, IsClosed, IsNormal, IsTheOnlyNormal, Step as StepOf};
ghost use Rattle.sk_rules.specs.Merges.{merged, CanTake};
ghost use Rattle.sk_rules.specs.Taking.{IsTaken, Leads};
ghost use Rattle.sk_close_by_order.specs.Run.{IsRun, IsOnTheWay, merge_of};
ghost use Rattle.sk_close_by_order.specs.Turns.{Follows};

use crate::picker::Picker;
use crate::worklist::Worklist;
use sk_base::{Graph, List, NoMemory};
use sk_family::Family;
use sk_rules::{Merge, Taken, applies, do_merge};
use std::alloc::Global;

/// Takes choices until there is none, and gives the merges in order. After `NoMemory` the family is
/// one that picked choices lead to, and may not be closed.
pub fn close_family<P: Picker>(
    alloc: Global,
    family: &mut Family,
    graph: &Graph,
    picker: &mut P,
) -> Result<List<Taken>, NoMemory>
    requires { family.old.next_step + length family.old.live ≤ 4294967296 }
    ensures run { IfOk result (λ taken. IsRun P.answer P.after graph.now family.old picker.old (map merge_of taken) family.new picker.new) }
    ensures leads { IfOk result (λ taken. Leads graph.now family.old taken family.new) }
    ensures closed { OnOk result (IsClosed graph.now (bodies family.new)) }
    ensures normal { OnOk result (Reach graph.now (initial_bodies graph.now) (bodies family.old) → IsNormal graph.now (bodies family.new)) }
    ensures only { OnOk result (HasRisingEdges graph.now → Reach graph.now (initial_bodies graph.now) (bodies family.old) → IsTheOnlyNormal graph.now (bodies family.new)) }
    ensures room { OnOk result (family.new.next_step + length family.new.live ≤ 4294967296) }
    ensures no_more { OnOk result (length family.new.live ≤ length family.old.live) }
    ensures err { OnErr result (IsOnTheWay P.answer P.after graph.now family.old picker.old family.new) }

    // Whatever the result.
    ensures reached { Reach graph.now (bodies family.old) (bodies family.new) }
{
    let mut work = Worklist::of(alloc, family, graph)?;
    close_with(alloc, &mut work, family, graph, picker)
}

/// The same with what is known of the family already.
pub fn close_with<P: Picker>(
    alloc: Global,
    work: &mut Worklist,
    family: &mut Family,
    graph: &Graph,
    picker: &mut P,
) -> Result<List<Taken>, NoMemory>
    requires room { family.old.next_step + length family.old.live ≤ 4294967296 }
    requires follows { Follows work.old graph.now family.old }
    ensures run { IfOk result (λ taken. IsRun P.answer P.after graph.now family.old picker.old (map merge_of taken) family.new picker.new) }
    ensures leads { IfOk result (λ taken. Leads graph.now family.old taken family.new) }
    ensures closed { OnOk result (IsClosed graph.now (bodies family.new)) }
    ensures normal { OnOk result (Reach graph.now (initial_bodies graph.now) (bodies family.old) → IsNormal graph.now (bodies family.new)) }
    ensures only { OnOk result (HasRisingEdges graph.now → Reach graph.now (initial_bodies graph.now) (bodies family.old) → IsTheOnlyNormal graph.now (bodies family.new)) }
    ensures room { OnOk result (family.new.next_step + length family.new.live ≤ 4294967296) }
    ensures no_more { OnOk result (length family.new.live ≤ length family.old.live) }
    ensures follows { OnOk result (Follows work.new graph.now family.new) }
    ensures err { OnErr result (IsOnTheWay P.answer P.after graph.now family.old picker.old family.new) }

    // Whatever the result.
    ensures reached { Reach graph.now (bodies family.old) (bodies family.new) }
{
    let mut taken = List::new(alloc);
    loop {
        let choice = work.choice(family, picker)?;
        let Some(merge) = choice else {
            return Ok(taken);
        };
        work.leave(family, merge);
        let done = take(family, graph, merge)?;
        work.enter(family, merge)?;
        taken.push(done)?;
    }
}

/// Does a merge that may be taken.
fn take(family: &mut Family, graph: &Graph, merge: Merge) -> Result<Taken, NoMemory>
    requires can { CanTake graph.now family.old merge }
    requires room { family.old.next_step < 4294967295 }
    ensures merge { IfOk result (λ taken. taken.merge ≡ merge) }
    ensures taken { IfOk result (λ taken. IsTaken graph.now family.old taken) }
    ensures ok { OnOk result (family.new ≡ merged family.old merge) }
    ensures step { OnOk result (StepOf graph.now (bodies family.old) (bodies family.new)) }
    ensures fewer { OnOk result (length family.new.live < length family.old.live) }
    ensures err { OnErr result (family.new ≡ family.old) }
{
    match applies(family, graph, merge) {
        None => unreachable!(),
        Some(shared) => {
            let step = do_merge(family, graph, merge)?;
            Ok(Taken {
                step,
                merge,
                shared,
            })
        }
    }
}
