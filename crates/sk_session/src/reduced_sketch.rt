// A sketch with its graph, which is made where it is asked for, and kept until the next edit.
ghost use Rattle.std.specs.Prelude.{◌≡◌, ◌+◌, ◌≤◌, IfOk, IfSome, OnOk, OnErr, length};
ghost use Rattle.sk_base.specs.declared.Sketch.{Sketch as ASketch};
ghost use Rattle.sk_base.specs.SoundGraph.{IsSoundGraph};
ghost use Rattle.sk_base.specs.SoundSketch.{IsSoundSketch};
ghost use Rattle.sk_family.specs.Clusters.{IsSound};
ghost use Rattle.sk_graph.specs.SketchGraph.{graph_of};
ghost use Rattle.sk_edits.specs.Edits.{applied};
ghost use Rattle.sk_edits.specs.Making.{CanMake};
ghost use Rattle.sk_session.specs.ItsGraph.{IsItsGraph};
ghost use Rattle.sk_session.specs.Following.{Follows, FollowsBack, IsReachedIn};
ghost use Rattle.sk_session.specs.Past.{edit_of, Stood, LeadsTo};

use crate::change::{change, change_back, reduced};
use crate::done::Done;
use sk_base::{Graph, NoMemory, Sketch};
use sk_family::Family;
use std::alloc::Global;
use std::marker::Model;

/// A sketch, and its graph where it is known. Contracts see it as the sketch alone.
#[derive(Drop)]
pub(crate) struct ReducedSketch {
    sketch: Sketch,
    graph: Option<Graph>,
}

impl Model for ReducedSketch {
    ghost use Rattle.std.specs.Prelude.{IfSome};
    ghost use Rattle.sk_base.specs.declared.Sketch.{Sketch as ASketch};
    ghost use Rattle.sk_session.specs.ItsGraph.{IsItsGraph};

    ghost Value = { ASketch };

    ghost view = { λ d. d.sketch };

    ghost invariant = { λ d. IfSome d.graph (IsItsGraph d.sketch) };
}

impl ReducedSketch {
    pub(crate) fn of(sketch: Sketch) -> ReducedSketch
        ensures { result ≡ sketch }
    {
        ReducedSketch {
            sketch,
            graph: None,
        }
    }

    pub(crate) fn sketch(&self) -> &Sketch
        ensures { result.now ≡ self.now }
    {
        &self.sketch
    }

    /// The graph, which is known no more from then on.
    pub(crate) fn take_graph(&mut self, alloc: Global) -> Result<Graph, NoMemory>
        requires { IsSoundSketch self.old }
        ensures graph { IfOk result (λ g. g ≡ graph_of self.old) }
        ensures sound { IfOk result IsSoundGraph }
        ensures same { self.new ≡ self.old }
    {
        let graph = self.graph.take();
        reduced(alloc, &self.sketch, graph)
    }

    /// Keeps the graph for later.
    pub(crate) fn keep_graph(&mut self, graph: Graph)
        requires graph { graph ≡ graph_of self.old }
        requires sound { IsSoundGraph graph }
        ensures { self.new ≡ self.old }
    {
        self.graph = Some(graph);
    }

    /// Makes the edit in the sketch and in the kept family. After `NoMemory` both are unchanged.
    pub(crate) fn change(
        &mut self,
        alloc: Global,
        family: &mut Family,
        done: &Done,
    ) -> Result<(), NoMemory>
        requires can { CanMake (edit_of done.now) self.old }
        requires stood { Stood done.now self.old }
        requires reached { IsReachedIn self.old family.old }
        requires room { length family.old.live ≤ 4294963297 }
        requires named { IsSound family.old }
        ensures ok { OnOk result (self.new ≡ applied (edit_of done.now) self.old) }
        ensures follows { OnOk result (Follows (edit_of done.now) self.old family.old family.new) }
        ensures count { OnOk result (length family.new.live ≤ length family.old.live + 3999) }
        ensures err { OnErr result (self.new ≡ self.old) }
        ensures family_err { OnErr result (family.new ≡ family.old) }
        ensures family_sound { IsSound family.new }
    {
        let graph = self.graph.take();
        change(alloc, &mut self.sketch, graph, family, done)
    }

    /// Takes back the edit that led to the sketch. After `NoMemory` the sketch and the family are
    /// unchanged.
    pub(crate) fn change_back(
        &mut self,
        alloc: Global,
        family: &mut Family,
        done: &Done,
    ) -> Result<(), NoMemory>
        requires led { (before : ASketch) × LeadsTo done.now before self.old }
        requires reached { IsReachedIn self.old family.old }
        requires room { length family.old.live ≤ 4294963297 }
        requires named { IsSound family.old }
        ensures ok { OnOk result ((before : ASketch) → LeadsTo done.now before self.old → (self.new ≡ before) × FollowsBack (edit_of done.now) before family.old family.new) }
        ensures count { OnOk result (length family.new.live ≤ length family.old.live + 3999) }
        ensures err { OnErr result (self.new ≡ self.old) }
        ensures family_err { OnErr result (family.new ≡ family.old) }
        ensures family_sound { IsSound family.new }
    {
        let graph = self.graph.take();
        change_back(alloc, &mut self.sketch, graph, family, done)
    }
}
