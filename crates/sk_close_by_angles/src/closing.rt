// Closing by the three rules.
ghost use Rattle.std.specs.Prelude.{◌≡◌, ◌+◌, ◌<◌, ◌≤◌, IfOk, OnOk, List as Items, length};
ghost use Rattle.sk_base.specs.declared.Graph.{Graph as AnyGraph};
ghost use Rattle.sk_base.specs.SoundGraph.{IsSoundGraph};
ghost use Rattle.sk_family.specs.Body.{initial_bodies};
ghost use Rattle.sk_family.specs.Clusters.{bodies, initial_clusters, IsSound};
ghost use Rattle.sk_family.specs.declared.Merge.{Merge as AnyMerge};
ghost use Rattle.sk_rules.specs.Merges.{merged};
ghost use Rattle.sk_rules.specs.Reach.{Reach};
ghost use Rattle.sk_close_by_angles.specs.WideReach.{IsWideNormal, IsTheOnlyWideNormal};
ghost use Rattle.sk_close_by_angles.specs.WideChoices.{CanTakeByTie};
ghost use Rattle.sk_close_by_angles.specs.WideRun.{IsWideRun};

use crate::ties::Ties;
use sk_base::{Graph, Name, NoMemory};
use sk_close_any_order::close_in_any_order;
use sk_close_by_order::{Chosen, Order, Picker, Worklist, close_with};
use sk_family::{Family, initial};
use sk_rules::Merge;
use std::alloc::Global;

/// The family where no choice is left by any of the three rules.
pub fn derive<P: Picker>(alloc: Global, graph: &Graph, picker: &mut P) -> Result<Family, NoMemory>
    requires { IsSoundGraph graph.now }
    ensures run { IfOk result (λ f. (ms : Items AnyMerge) × IsWideRun P.answer P.after graph.now (initial_clusters graph.now) picker.old ms f picker.new) }
    ensures sound { IfOk result (λ f. IsSound f) }
    ensures normal { IfOk result (λ f. IsWideNormal graph.now (bodies f)) }
    ensures only { IfOk result (λ f. IsTheOnlyWideNormal graph.now (bodies f)) }
{
    let family = initial(alloc, graph)?;
    derive_from(alloc, graph, family, picker)
}

/// The same for a caller that asks for no order: the first two rules close the family in an order of their own before
/// the ties are looked at.
pub fn derive_in_any_order(alloc: Global, graph: &Graph) -> Result<Family, NoMemory>
    requires { IsSoundGraph graph.now }
    ensures sound { IfOk result (λ f. IsSound f) }
    ensures normal { IfOk result (λ f. IsWideNormal graph.now (bodies f)) }
    ensures only { IfOk result (λ f. IsTheOnlyWideNormal graph.now (bodies f)) }
{
    let mut family = initial(alloc, graph)?;
    close_in_any_order(alloc, &mut family, graph)?;
    derive_from(alloc, graph, family, &mut Chosen::new(Order::First))
}

/// The family to which merges by the three rules lead, from one that the first two led to, until no choice is left.
fn derive_from<P: Picker>(
    alloc: Global,
    graph: &Graph,
    family: Family,
    picker: &mut P,
) -> Result<Family, NoMemory>
    requires graph { IsSoundGraph graph.now }
    requires room { family.next_step + length family.live ≤ 4294967296 }
    requires reached { Reach graph.now (initial_bodies graph.now) (bodies family) }
    ensures run { IfOk result (λ f. (ms : Items AnyMerge) × IsWideRun P.answer P.after graph.now family picker.old ms f picker.new) }
    ensures sound { IfOk result (λ f. IsSound f) }
    ensures normal { IfOk result (λ f. IsWideNormal graph.now (bodies f)) }
    ensures only { IfOk result (λ f. IsTheOnlyWideNormal graph.now (bodies f)) }
{
    let mut family = family;
    let mut work = Worklist::of(alloc, &family, graph)?;
    let _taken = close_with(alloc, &mut work, &mut family, graph, picker)?;
    let mut ties = Ties::of(alloc, &family, graph, &work)?;
    while let Some(merge) = ties.picked(picker) {
        work.leave(&family, merge);
        let _name = take_by_tie(&mut family, merge)?;
        work.enter(&family, merge)?;
        let taken = close_with(alloc, &mut work, &mut family, graph, picker)?;
        ties.follow(alloc, &family, graph, &work, merge, taken.is_empty())?;
    }
    Ok(family)
}

/// Does a merge by the tie rule.
fn take_by_tie(family: &mut Family, merge: Merge) -> Result<Name, NoMemory>
    requires can { (g : AnyGraph) × CanTakeByTie g family.old merge }
    requires room { family.old.next_step < 4294967295 }
    ensures ok { OnOk result (family.new ≡ merged family.old merge) }
{
    match merge {
        Merge::Two(x, y) => family.replace(&[x, y]),
        Merge::Three(_, _, _) => unreachable!(),
    }
}
