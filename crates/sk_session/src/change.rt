// Changes of a sketch, and of the kept family with it.
ghost use Rattle.std.specs.Prelude.{◌≡◌, ◌≢◌, ◌↔◌, ◌+◌, ◌*◌, ◌<◌, ◌≤◌, Contains, length, OnOk, OnErr, IfOk, IfSome, IfNone, IsTrue};
ghost use Rattle.sk_base.specs.declared.Constraint.{Constraint as AConstraint};
ghost use Rattle.sk_base.specs.declared.Sketch.{Sketch as ASketch};
ghost use Rattle.sk_base.specs.Rising.{IsRising};
ghost use Rattle.sk_base.specs.SoundGraph.{IsSoundGraph};
ghost use Rattle.sk_base.specs.SoundSketch.{IsSoundSketch, IsSoundRule};
ghost use Rattle.sk_family.specs.declared.Cluster.{Cluster as ACluster};
ghost use Rattle.sk_family.specs.Clusters.{IsSound, IsNamed};
ghost use Rattle.sk_family.specs.Starts.{HasStart};
ghost use Rattle.sk_graph.specs.SketchGraph.{graph_of};
ghost use Rattle.sk_edits.specs.Changes.{HasItem};
ghost use Rattle.sk_edits.specs.Edits.{applied, constraint_number, with_length, with_ratio};
ghost use Rattle.sk_session.specs.ItsGraph.{IsItsGraph};
ghost use Rattle.sk_session.specs.Past.{edit_of, Stood, LeadsTo};
ghost use Rattle.sk_plan.specs.ConstraintStarts.{constraint_start};
ghost use Rattle.sk_edits.specs.Making.{CanMake, HasConstraint};
ghost use Rattle.sk_session.specs.Following.{Follows, FollowsBack, DissolvesOwner, IsReachedIn};
ghost use Rattle.sk_edits.specs.declared.Edit.TheVariants as an_edit;

use crate::done::Done;
use crate::origin::{adopt, origin_of};
use sk_base::{ConId, Constraint, Graph, Name, NoMemory, Ratio, Rule, Sketch, Um, copy_constraint};
use sk_edits::{put, remove, replace};
use sk_family::{Cluster, Family};
use sk_graph::reduce;
use std::alloc::Global;

/// Adds a constraint, and its starting cluster. After `NoMemory` both are unchanged.
pub(crate) fn add_constraint(
    alloc: Global,
    sketch: &mut Sketch,
    family: &mut Family,
    constraint: &Constraint,
) -> Result<(), NoMemory>
    requires sound { IsSoundSketch sketch.old }
    requires rule { IsSoundRule sketch.old constraint.now.rule }
    requires other { (x : AConstraint) → Contains sketch.old.constraints x → x.number.0 ≢ constraint.now.number.0 }
    requires reached { IsReachedIn sketch.old family.old }
    requires room { length family.old.live < 4294967295 }
    requires named { IsSound family.old }
    ensures elements { sketch.new.elements ≡ sketch.old.elements }
    ensures rise { OnOk result (IsRising constraint_number sketch.new.constraints) }
    ensures put { OnOk result (HasItem constraint.now sketch.old.constraints sketch.new.constraints) }
    ensures starts { OnOk result (HasStart (constraint_start constraint.now) family.old family.new) }
    ensures count { OnOk result (length family.new.live ≡ length family.old.live + 1) }
    ensures err { OnErr result (sketch.new ≡ sketch.old) }
    ensures family_err { OnErr result (family.new ≡ family.old) }
    ensures family_sound { IsSound family.new }
{
    let origin = origin_of(alloc, sketch, constraint)?;
    let copy = copy_constraint(alloc, constraint)?;
    put(&mut sketch.constraints, copy)?;
    match adopt(family, &origin) {
        Ok(()) => Ok(()),
        Err(NoMemory) => {
            remove(&mut sketch.constraints, constraint.number.0);
            Err(NoMemory)
        }
    }
}

/// Takes a constraint out, and dissolves the cluster that owns it. After `NoMemory` both are
/// unchanged.
pub(crate) fn remove_constraint(
    alloc: Global,
    sketch: &mut Sketch,
    known: Option<Graph>,
    family: &mut Family,
    number: ConId,
) -> Result<(), NoMemory>
    requires sound { IsSoundSketch sketch.old }
    requires known { IfSome known (IsItsGraph sketch.old) }
    requires some { HasConstraint sketch.old number }
    requires reached { IsReachedIn sketch.old family.old }
    requires room { length family.old.live ≤ 4294963297 }
    requires named { IsSound family.old }
    ensures ok { OnOk result (sketch.new ≡ applied (an_edit.Dropped number) sketch.old) }
    ensures dissolves { OnOk result (DissolvesOwner (graph_of sketch.old) number family.old family.new) }
    ensures count { OnOk result (length family.new.live + 1 ≤ length family.old.live + 4000) }
    ensures err { OnErr result (sketch.new ≡ sketch.old) }
    ensures family_err { OnErr result (family.new ≡ family.old) }
    ensures family_sound { IsSound family.new }
{
    let graph = reduced(alloc, sketch, known)?;
    let name = owner(family, number);
    family.dissolve(name, number, &graph)?;
    remove(&mut sketch.constraints, number.0);
    Ok(())
}

/// The graph of the sketch: the known one, or made.
pub(crate) fn reduced(
    alloc: Global,
    sketch: &Sketch,
    known: Option<Graph>,
) -> Result<Graph, NoMemory>
    requires sound { IsSoundSketch sketch.now }
    requires known { IfSome known (IsItsGraph sketch.now) }
    ensures graph { IfOk result (λ g. g ≡ graph_of sketch.now) }
    ensures sound { IfOk result IsSoundGraph }
{
    match known {
        Some(graph) => Ok(graph),
        None => reduce(alloc, sketch),
    }
}

/// The name of the cluster that owns the constraint.
fn owner(family: &Family, number: ConId) -> Name
    requires { (c : ACluster) × Contains family.now.live c × Contains c.owned number }
    ensures { (c : ACluster) × IsNamed family.now result c × Contains c.owned number }
{
    match owner_in(family.clusters(), number) {
        Some(cluster) => cluster.name,
        None => unreachable!(),
    }
}

/// The first cluster that owns the constraint.
fn owner_in(clusters: &[Cluster], number: ConId) -> Option<&Cluster>
    ensures none { IfNone result ((c : ACluster) → Contains clusters.now c → ¬ Contains c.owned number) }
    ensures lives { IfSome result (λ c. Contains clusters.now c.now) }
    ensures owns { IfSome result (λ c. Contains c.now.owned number) }
{
    for cluster in clusters {
        if owns(cluster, number) {
            return Some(cluster);
        }
    }
    None
}

fn owns(cluster: &Cluster, number: ConId) -> bool
    ensures { IsTrue result ↔ Contains cluster.now.owned number }
{
    cluster.owned.as_slice().contains(&number)
}

/// Gives a distance a new length. After `NoMemory` the sketch is unchanged.
fn set_length(alloc: Global, sketch: &mut Sketch, old: &Constraint, len: Um) -> Result<(), NoMemory>
    requires sound { IsSoundSketch sketch.old }
    requires there { Contains sketch.old.constraints old.now }
    ensures ok { OnOk result (sketch.new ≡ applied (an_edit.Length old.now.number len) sketch.old) }
    ensures err { OnErr result (sketch.new ≡ sketch.old) }
{
    let number = old.number;
    let rule = with_length(copy_constraint(alloc, old)?.rule, len);
    replace(&mut sketch.constraints, Constraint { number, rule });
    Ok(())
}

/// Gives an angle a new ratio. After `NoMemory` the sketch is unchanged.
fn set_ratio(
    alloc: Global,
    sketch: &mut Sketch,
    old: &Constraint,
    ratio: Ratio,
) -> Result<(), NoMemory>
    requires sound { IsSoundSketch sketch.old }
    requires there { Contains sketch.old.constraints old.now }
    ensures ok { OnOk result (sketch.new ≡ applied (an_edit.Turned old.now.number ratio) sketch.old) }
    ensures err { OnErr result (sketch.new ≡ sketch.old) }
{
    let number = old.number;
    let rule = with_ratio(copy_constraint(alloc, old)?.rule, ratio);
    replace(&mut sketch.constraints, Constraint { number, rule });
    Ok(())
}

fn with_length(rule: Rule, len: Um) -> Rule
    ensures { result ≡ with_length len rule }
{
    match rule {
        Rule::Distance { u, v, .. } => Rule::Distance { u, v, len },
        other => other,
    }
}

fn with_ratio(rule: Rule, ratio: Ratio) -> Rule
    ensures { result ≡ with_ratio ratio rule }
{
    match rule {
        Rule::Angle { l, m, .. } => Rule::Angle { l, m, ratio },
        other => other,
    }
}

/// Makes the edit in the sketch and in the kept family. After `NoMemory` both are unchanged.
pub(crate) fn change(
    alloc: Global,
    sketch: &mut Sketch,
    known: Option<Graph>,
    family: &mut Family,
    done: &Done,
) -> Result<(), NoMemory>
    requires known { IfSome known (IsItsGraph sketch.old) }
    requires can { CanMake (edit_of done.now) sketch.old }
    requires stood { Stood done.now sketch.old }
    requires reached { IsReachedIn sketch.old family.old }
    requires room { length family.old.live ≤ 4294963297 }
    requires named { IsSound family.old }
    ensures ok { OnOk result (sketch.new ≡ applied (edit_of done.now) sketch.old) }
    ensures follows { OnOk result (Follows (edit_of done.now) sketch.old family.old family.new) }
    ensures count { OnOk result (length family.new.live ≤ length family.old.live + 3999) }
    ensures err { OnErr result (sketch.new ≡ sketch.old) }
    ensures family_err { OnErr result (family.new ≡ family.old) }
    ensures family_sound { IsSound family.new }
{
    match done {
        Done::Element(element) => put(&mut sketch.elements, *element),
        Done::Constraint(constraint) => add_constraint(alloc, sketch, family, constraint),
        Done::Dropped(constraint) => remove_constraint(
            alloc,
            sketch,
            known,
            family,
            constraint.number,
        ),
        Done::Length(len, constraint) => set_length(alloc, sketch, constraint, *len),
        Done::Turned(ratio, constraint) => set_ratio(alloc, sketch, constraint, *ratio),
        Done::Erased(element) => {
            remove(&mut sketch.elements, element.number.0);
            Ok(())
        }
    }
}

/// Takes back the edit that led to the sketch. After `NoMemory` the sketch and the family are unchanged.
pub(crate) fn change_back(
    alloc: Global,
    sketch: &mut Sketch,
    known: Option<Graph>,
    family: &mut Family,
    done: &Done,
) -> Result<(), NoMemory>
    requires known { IfSome known (IsItsGraph sketch.old) }
    requires led { (before : ASketch) × LeadsTo done.now before sketch.old }
    requires reached { IsReachedIn sketch.old family.old }
    requires room { length family.old.live ≤ 4294963297 }
    requires named { IsSound family.old }
    ensures ok { OnOk result ((before : ASketch) → LeadsTo done.now before sketch.old → (sketch.new ≡ before) × FollowsBack (edit_of done.now) before family.old family.new) }
    ensures count { OnOk result (length family.new.live ≤ length family.old.live + 3999) }
    ensures err { OnErr result (sketch.new ≡ sketch.old) }
    ensures family_err { OnErr result (family.new ≡ family.old) }
    ensures family_sound { IsSound family.new }
{
    match done {
        Done::Element(element) => {
            remove(&mut sketch.elements, element.number.0);
        }
        Done::Constraint(constraint) => {
            remove_constraint(alloc, sketch, known, family, constraint.number)?;
        }
        Done::Dropped(constraint) => add_constraint(alloc, sketch, family, constraint)?,
        Done::Length(_, constraint) | Done::Turned(_, constraint) => {
            let constraint = copy_constraint(alloc, constraint)?;
            replace(&mut sketch.constraints, constraint);
        }
        Done::Erased(element) => put(&mut sketch.elements, *element)?,
    }
    Ok(())
}
