// A session: the edits that stand, with the sketch that they make and the family of clusters that is
// kept.
ghost use Rattle.std.specs.Prelude.{◌≡◌, ◌+◌, ◌<◌, ◌≤◌, ◌++◌, [], ◌∷◌, IfOk, OnOk, OnErr, length};
ghost use Rattle.sk_family.specs.Clusters.{initial_clusters};
ghost use Rattle.sk_graph.specs.SketchGraph.{graph_of};
ghost use Rattle.sk_entry.specs.Growth.{empty_sketch};
ghost use Rattle.sk_edits.specs.Edits.{next_element, next_constraint};
ghost use Rattle.sk_base.specs.SoundSketch.{IsSoundSketch};
ghost use Rattle.sk_edits.specs.Making.{CanMake};
ghost use Rattle.sk_lines.specs.EndLine.{is_none_left};
ghost use Rattle.sk_session.specs.Following.{IsReachedIn};
ghost use Rattle.sk_session.specs.Standing.{Gives};
ghost use Rattle.sk_session.specs.State.{sketch_in, Accepts, TakesBack, IsHeldUp};
ghost use Rattle.sk_session.specs.Replies.{Checks, Plans};

use crate::closing::{Closing, close};
use crate::done::Done;
use crate::reduced_sketch::ReducedSketch;
use crate::reply::Reply;
use sk_base::{List, NoMemory, Sketch};
use sk_close_by_order::Order;
use sk_edits::Edit;
use sk_entry::empty_sketch;
use sk_family::{Family, initial};
use sk_graph::reduce;
use sk_plan::{PlanError, planned_by};
use sk_verdict::judge;
use std::alloc::Global;
use std::marker::Model;

/// A session. It is seen as its order of merges, how its checks close the kept family, the edits that
/// stand, how many edits and undos were accepted, and the kept family.
#[derive(Drop)]
pub struct Session {
    alloc: Global,
    order: Order,
    closing: Closing,
    done: List<Done>,
    reduced: ReducedSketch,
    next_elem: u32,
    next_con: u32,
    count: u32,
    family: Family,
}

impl Model for Session {
    ghost use Rattle.sk_session.specs.Past.{edits_of};
    ghost use Rattle.sk_session.specs.Standing.{IsConsistent};
    ghost use Rattle.sk_session.specs.State.{State};

    ghost Value = { State };

    ghost view = { λ s. record { order = s.order; closing = s.closing; edits = edits_of s.done; count = s.count; family = s.family } };

    ghost invariant = { λ s. IsConsistent s.done s.reduced s.next_elem s.next_con s.count s.family };
}

impl Session {
    /// A session with the sketch without elements. Its plans merge in this order, and so do its checks
    /// unless they close in any order.
    pub fn new(alloc: Global, order: Order, closing: Closing) -> Result<Session, NoMemory>
        ensures { IfOk result (λ s. s ≡ record { order = order; closing = closing; edits = []; count = 0; family = initial_clusters (graph_of empty_sketch) }) }
    {
        let sketch = empty_sketch(alloc);
        let family = initial(alloc, &reduce(alloc, &sketch)?)?;
        Ok(Session {
            alloc,
            order,
            closing,
            done: List::new(alloc),
            reduced: ReducedSketch::of(sketch),
            next_elem: 1,
            next_con: 1,
            count: 0,
            family,
        })
    }

    /// The sketch that the standing edits make.
    pub fn sketch(&self) -> &Sketch
        ensures sketch { result.now ≡ sketch_in self.now }
        ensures sound { IsSoundSketch result.now }
    {
        self.reduced.sketch()
    }

    /// The kept family, one that merges of the sketch's initial family lead to.
    pub fn family(&self) -> &Family
        ensures family { result.now ≡ self.now.family }
        ensures reached { IsReachedIn (sketch_in self.now) self.now.family }
    {
        &self.family
    }

    /// The number of the next element line.
    pub(crate) fn next_elem(&self) -> u32
        ensures { result ≡ next_element self.now.edits }
    {
        self.next_elem
    }

    /// The number of the next constraint line.
    pub(crate) fn next_con(&self) -> u32
        ensures { result ≡ next_constraint self.now.edits }
    {
        self.next_con
    }

    /// Whether no edit stands.
    pub(crate) fn has_no_edit(&self) -> bool
        ensures { result ≡ is_none_left self.now.edits }
    {
        self.done.is_empty()
    }

    pub(crate) fn alloc(&self) -> Global {
        self.alloc
    }

    /// How many edits and undos were accepted.
    pub(crate) fn count(&self) -> u32
        ensures { result ≡ self.now.count }
    {
        self.count
    }

    /// Makes one more edit stand.
    pub(crate) fn make(&mut self, edit: Edit) -> Result<(), NoMemory>
        requires can { CanMake edit (sketch_in self.old) }
        requires given { Gives edit self.old.edits }
        requires room { self.old.count < 1000000 }
        ensures ok { OnOk result (Accepts self.old edit self.new) }
        ensures err { OnErr result (self.new ≡ self.old) }
    {
        let place = self.done.len();
        self.done
            .push(Done::of(self.alloc, self.reduced.sketch(), edit)?)?;
        let done = &self.done.as_slice()[place];
        match self.reduced.change(self.alloc, &mut self.family, done) {
            Ok(()) => {
                self.next_elem = done.element_after(self.next_elem);
                self.next_con = done.constraint_after(self.next_con);
                self.count += 1;
                Ok(())
            }
            Err(error) => {
                self.done.remove(place);
                Err(error)
            }
        }
    }

    /// Takes back the last edit that stands.
    pub(crate) fn undo(&mut self) -> Result<(), NoMemory>
        requires some { 0 < length self.old.edits }
        requires room { self.old.count < 1000000 }
        ensures ok { OnOk result (TakesBack self.old self.new) }
        ensures err { OnErr result (self.new ≡ self.old) }
    {
        let last = self.done.len() - 1;
        let done = &self.done.as_slice()[last];
        self.reduced
            .change_back(self.alloc, &mut self.family, done)?;
        self.next_elem = done.element_before(self.next_elem);
        self.next_con = done.constraint_before(self.next_con);
        self.count += 1;
        self.done.remove(last);
        Ok(())
    }

    /// The judgement on the sketch, where the kept family is closed.
    pub(crate) fn check(&mut self) -> Result<Reply, NoMemory>
        requires { 0 < length (sketch_in self.old).elements }
        ensures ok { IfOk result (λ answer. Checks self.old answer self.new) }
        ensures err { OnErr result (IsHeldUp self.old self.new) }
    {
        let graph = self.reduced.take_graph(self.alloc)?;
        close(
            self.alloc,
            &mut self.family,
            &graph,
            self.order,
            self.closing,
        )?;
        let judgement = judge(self.alloc, &self.family, &graph)?;
        self.reduced.keep_graph(graph);
        Ok(Reply::Checked(judgement))
    }

    /// The plan of the sketch, or the judgement on it.
    pub(crate) fn plan(&self) -> Result<Reply, NoMemory>
        requires { 0 < length (sketch_in self.now).elements }
        ensures { IfOk result (Plans self.now) }
    {
        match planned_by(self.alloc, self.order, self.reduced.sketch()) {
            Ok(planned) => Ok(Reply::Planned(planned.plan)),
            Err(PlanError::NotWell(judgement)) => Ok(Reply::NotWell(judgement)),
            Err(PlanError::NoMemory) => Err(NoMemory),
        }
    }
}
