// The board on which workers offer merges. Its merges lead from the initial family to its family.
ghost use Rattle.std.specs.Prelude.{◌≡◌, ◌≤◌, ◌++◌, List as Items, All, IfOk, OnOk, OnErr, IfNone, IfSome, map};
ghost use Rattle.sk_base.specs.SoundGraph.{IsSoundGraph};
ghost use Rattle.sk_family.specs.Clusters.{bodies, initial_clusters, IsLive};
ghost use Rattle.sk_rules.specs.declared.Taken.{Taken as TakenMerge};
ghost use Rattle.sk_family.specs.Merges.{Falls, names_of};
ghost use Rattle.sk_rules.specs.Merges.{IsLeastShared};
ghost use Rattle.sk_rules.specs.Reach.{IsNormal, IsTheOnlyNormal};
ghost use Rattle.sk_rules.specs.Taking.{Leads};
ghost use Rattle.sk_close_by_order.specs.Run.{IsRun, merge_of};
ghost use Rattle.sk_offers.specs.Offering.{starting_table, IsAnswer, Follows, IsFirstStale, TakesDown};

use crate::answer::Answer;
use sk_base::{Graph, List, Name, NoMemory};
use sk_close_by_order::{Picker, close_family};
use sk_family::{Family, initial};
use sk_rules::{Merge, Shared, Taken, applies, do_merge};
use std::alloc::Global;
use std::marker::Model;

/// The graph, the family so far, and the merges that were taken, in order.
#[derive(Drop)]
pub struct Board {
    alloc: Global,
    graph: Graph,
    family: Family,
    taken: List<Taken>,
}

impl Model for Board {
    ghost use Rattle.sk_offers.specs.Offering.{Table, IsSoundTable};

    ghost Value = { Table };

    ghost view = { λ b. record { graph = b.graph; family = b.family; taken = b.taken } };

    ghost invariant = { λ b. IsSoundTable (record { graph = b.graph; family = b.family; taken = b.taken }) };
}

/// What a board comes to: the merges that were offered and taken, and then those of the picker.
#[derive(Drop)]
pub struct Finished {
    pub graph: Graph,
    pub family: Family,
    pub taken: List<Taken>,
}

impl Board {
    /// The board of the graph's initial family. After `NoMemory` the graph is gone.
    pub fn new(alloc: Global, graph: Graph) -> Result<Board, NoMemory>
        requires { IsSoundGraph graph }
        ensures { IfOk result (λ board. board ≡ starting_table graph) }
    {
        let family = initial(alloc, &graph)?;
        Ok(Board {
            alloc,
            graph,
            family,
            taken: List::new(alloc),
        })
    }

    /// Answers a merge that the worker offers, and does it where its rule holds. After `NoMemory` the
    /// board is unchanged.
    pub fn offer(&mut self, worker: u8, merge: Merge) -> Result<Answer, NoMemory>
        requires worker { (1 ≤ worker) × (worker ≤ 64) }
        requires falls { Falls merge }
        ensures answer { IfOk result (IsAnswer self.old.graph self.old.family merge) }
        ensures follows { IfOk result (λ answer. Follows self.old merge answer self.new) }
        ensures err { OnErr result (self.new ≡ self.old) }
    {
        if let Some(name) = first_stale(&self.family, merge) {
            return Ok(Answer::Stale(name));
        }
        match applies(&self.family, &self.graph, merge) {
            None => Ok(Answer::Idle),
            Some(shared) => Ok(Answer::Taken(self.take_down(merge, shared)?)),
        }
    }

    /// Does the merge, whose rule holds by these least elements, and puts it down.
    fn take_down(&mut self, merge: Merge, shared: Shared) -> Result<Name, NoMemory>
        requires falls { Falls merge }
        requires shown { IsLeastShared self.old.graph self.old.family merge shared }
        ensures name { IfOk result (λ name. name ≡ Name.Step self.old.family.next_step) }
        ensures ok { OnOk result (TakesDown self.old merge self.new) }
        ensures err { OnErr result (self.new ≡ self.old) }
    {
        let step = Name::Step(self.family.next_step());
        self.taken.push(Taken {
            step,
            merge,
            shared,
        })?;
        match do_merge(&mut self.family, &self.graph, merge) {
            Ok(name) => Ok(name),
            Err(error) => {
                self.taken.remove(self.taken.len() - 1);
                Err(error)
            }
        }
    }

    /// Takes choices as the picker says until there is none. After `NoMemory` the board is gone.
    pub fn finish<P: Picker>(self, picker: &mut P) -> Result<Finished, NoMemory>
        ensures graph { IfOk result (λ finished. finished.graph ≡ self.graph) }
        ensures normal { IfOk result (λ finished. IsNormal self.graph (bodies finished.family)) }
        ensures only { IfOk result (λ finished. IsTheOnlyNormal self.graph (bodies finished.family)) }
        ensures leads { IfOk result (λ finished. Leads self.graph (initial_clusters self.graph) finished.taken finished.family) }

        // The offered merges come first, and then the run of the picker from there.
        ensures run { IfOk result (λ finished. (picked : Items TakenMerge) × (finished.taken ≡ self.taken ++ picked)
            × IsRun P.answer P.after self.graph self.family picker.old (map merge_of picked) finished.family picker.new) }
    {
        let mut board = self;
        let picked = close_family(board.alloc, &mut board.family, &board.graph, picker)?;
        let mut taken = board.taken;
        taken.extend(picked.as_slice())?;
        Ok(Finished {
            graph: board.graph,
            family: board.family,
            taken,
        })
    }
}

/// The first of the merge's names, in falling order, that isn't live.
fn first_stale(family: &Family, merge: Merge) -> Option<Name>
    ensures none { IfNone result (All (λ n. IsLive family.now n) (names_of merge)) }
    ensures some { IfSome result (λ n. IsFirstStale family.now (names_of merge) n) }
{
    match merge {
        Merge::Two(x, y) => first_not_live(family, &[x, y]),
        Merge::Three(x, y, z) => first_not_live(family, &[x, y, z]),
    }
}

/// The first of these names that isn't live.
fn first_not_live(family: &Family, names: &[Name]) -> Option<Name>
    ensures none { IfNone result (All (λ n. IsLive family.now n) names.now) }
    ensures some { IfSome result (λ n. IsFirstStale family.now names.now n) }
{
    for name in names {
        if !family.live(*name) {
            return Some(*name);
        }
    }
    None
}
