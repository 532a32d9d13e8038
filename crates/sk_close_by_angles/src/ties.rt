// What is known of the ties of a family that is being closed. A merge by the tie rule joins no classes,
// since its lines are tied already; so where nothing else is merged, what is known is kept but for the
// merges of the two clusters.
ghost use Rattle.std.specs.Prelude.{◌≡◌, ◌<◌, ◌^◌, true, IfOk, OnOk, length};
ghost use Rattle.sk_base.specs.SoundGraph.{HasRisingNodes};
ghost use Rattle.sk_family.specs.Clusters.{IsSound};
ghost use Rattle.sk_family.specs.declared.Merge.TheVariants.{Two};
ghost use Rattle.sk_close_by_order.specs.Turns.{Follows};
ghost use Rattle.sk_close_by_angles.specs.FollowedTies.{AreTies, IsAfterOne, Takes};

use crate::classes::classes_of;
use crate::pairs::Pairs;
use crate::tie_merges::{add_merges_of_last, tie_merges};
use sk_base::{Graph, Name, NoMemory};
use sk_close_by_order::{Picker, Worklist};
use sk_family::Family;
use sk_rules::Merge;
use std::alloc::Global;

/// The classes of tied lines of a family, and all merges by the tie rule, in order.
#[derive(Drop)]
pub(crate) struct Ties {
    classes: Vec<usize>,
    merges: Pairs,
}

impl Ties {
    /// The ties of a family.
    pub fn of(
        alloc: Global,
        family: &Family,
        graph: &Graph,
        work: &Worklist,
    ) -> Result<Ties, NoMemory>
        requires rise { HasRisingNodes graph.now }
        requires follows { Follows work.now graph.now family.now }
        ensures ties { IfOk result (λ ties. AreTies graph.now family.now ties.classes.items ties.merges) }
        ensures sound { OnOk result (IsSound family.now) }
    {
        let classes = classes_of(alloc, family, graph)?;
        let merges = tie_merges(alloc, family, graph, work, classes.as_slice())?;
        Ok(Ties { classes, merges })
    }

    /// The merge that the picker takes, if there is one.
    pub fn picked<P: Picker>(&self, picker: &mut P) -> Option<Merge>
        requires { length self.now.merges < 2 ^ 64 }
        ensures { Takes P.answer P.after self.now.merges picker.old result picker.new }
    {
        let count = self.merges.len();
        if count == 0 {
            return None;
        }
        let place = picker.pick(count as u64);
        Some(self.merges.get(place as usize))
    }

    /// The ties of the family behind one of the merges, where that alone was done, and of any other.
    pub fn follow(
        &mut self,
        alloc: Global,
        family: &Family,
        graph: &Graph,
        work: &Worklist,
        merge: Merge,
        alone: bool,
    ) -> Result<(), NoMemory>
        requires rise { HasRisingNodes graph.now }
        requires follows { Follows work.now graph.now family.now }
        requires alone { alone ≡ true → IsAfterOne graph.now self.old.classes.items self.old.merges merge family.now }
        ensures ties { OnOk result (AreTies graph.now family.now self.new.classes.items self.new.merges) }
        ensures sound { OnOk result (IsSound family.now) }
    {
        match merge {
            Merge::Two(x, y) if alone => self.follow_one(alloc, family, graph, work, x, y),
            _ => self.find(alloc, family, graph, work),
        }
    }

    /// The ties of another family.
    fn find(
        &mut self,
        alloc: Global,
        family: &Family,
        graph: &Graph,
        work: &Worklist,
    ) -> Result<(), NoMemory>
        requires rise { HasRisingNodes graph.now }
        requires follows { Follows work.now graph.now family.now }
        ensures ties { OnOk result (AreTies graph.now family.now self.new.classes.items self.new.merges) }
        ensures sound { OnOk result (IsSound family.now) }
    {
        *self = Ties::of(alloc, family, graph, work)?;
        Ok(())
    }

    /// The ties of the family behind one of the merges.
    fn follow_one(
        &mut self,
        alloc: Global,
        family: &Family,
        graph: &Graph,
        work: &Worklist,
        x: Name,
        y: Name,
    ) -> Result<(), NoMemory>
        requires rise { HasRisingNodes graph.now }
        requires follows { Follows work.now graph.now family.now }
        requires one { IsAfterOne graph.now self.old.classes.items self.old.merges (Two x y) family.now }
        ensures ties { OnOk result (AreTies graph.now family.now self.new.classes.items self.new.merges) }
        ensures sound { OnOk result (IsSound family.now) }
    {
        self.merges.drop_naming(x, y);
        let classes = self.classes.as_slice();
        add_merges_of_last(alloc, &mut self.merges, family, graph, work, classes)?;
        Ok(())
    }
}
