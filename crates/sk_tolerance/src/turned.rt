// Which sign is turned over where a sketch is placed.
ghost use Rattle.std.specs.Prelude.{◌≡◌, ◌↔◌, not, [], ◌∷◌, Contains, IsTrue, IsSome, IsNone, IfSome, Some, option_to_list};
ghost use Rattle.sk_base.specs.declared.Constraint.{Constraint as OfConstraint};
ghost use Rattle.sk_base.specs.Drawn.{shape_of, is_line, IsLine, HasCentre};
ghost use Rattle.sk_base.specs.Pins.{IsOnSheet};
ghost use Rattle.sk_base.specs.SoundSketch.{IsSoundSketch, IsSoundRule, IsSoundRatio};
ghost use Rattle.sk_orient.specs.DrawnSigns.{drawn_sign};
ghost use Rattle.sk_graph.specs.SketchGraph.{graph_of, drawn_as};
ghost use Rattle.sk_tree.specs.declared.PlanStep.{PlanStep as OfStep};
ghost use Rattle.sk_tree.specs.LegalPlan.{IsLegalPlan};
ghost use Rattle.sk_tolerance.specs.First.{IsFirst};
ghost use Rattle.sk_measure.specs.Placing.{IsPinPlaced, AreMeasurable, PlacesExactly};
ghost use Rattle.sk_tolerance.specs.BlockTurns.{corners};
ghost use Rattle.sk_tolerance.specs.Turns.{block_turns, senses, turn, advance, choices, constraint_signs, signs, wanted_of, signs_of_step, signs_of_steps, signs_wanted, value_of, IsAsDrawn, IsTurned, AllAsDrawn};
ghost use Rattle.sk_tolerance.specs.Telling.{IsDrawnPoint, IsDrawnLine, HasCorners, IsCompared};

use crate::corners::{corners_of, turn_given};
use sk_base::{ConId, Constraint, Elem, Name, Pin, Placed, Ratio, Rule, Sign, Sketch};
use sk_graph::shape;
use sk_measure::place;
use sk_orient::{
    advance_drawn, advance_placed, sense_drawn, sense_placed, turn_drawn, turn_placed,
};
use sk_tree::{Choice, Plan, PlanStep, in_order};

/// A sign as it is drawn, where zero is plus, or as it is wanted in place of that, and as it is placed:
/// −1, 0 or 1. It is that of the constraint or the step of that name.
#[derive(Clone, Copy, Debug, PartialEq, Eq)]
pub struct Turned {
    pub at: Name,
    pub drawn: Sign,
    pub placed: i8,
}

/// Which sign a step is to have: that of the drawing, or that of its choice in the plan.
#[derive(Clone, Copy, Debug, PartialEq, Eq)]
pub enum Wanted {
    Drawn,
    Chosen,
}

/// The first sign that isn't placed as it is drawn: the sense of an angle or the turn of a block, in
/// order of number, and else the turn or the advance of a step. A block turns as its places are given.
pub fn first_turned(p: &Placed, s: &Sketch, plan: &Plan) -> Option<Turned>
    requires sketch { IsSoundSketch s.now }
    requires placed { PlacesExactly (graph_of s.now) p.now }
    requires plan { IsLegalPlan (graph_of s.now) plan.now }
    ensures none { IsNone result ↔ AllAsDrawn (signs s.now p.now plan.now) }
    ensures some { IfSome result (IsFirst IsTurned (signs s.now p.now plan.now)) }
{
    first_unlike(p, s, plan, Wanted::Drawn)
}

/// The first sign that isn't placed as it is wanted: as `first_turned`, but that a step is to have the
/// sign of its choice in the plan, which the answer tells in the place of the drawn one.
pub fn first_off(p: &Placed, s: &Sketch, plan: &Plan) -> Option<Turned>
    requires sketch { IsSoundSketch s.now }
    requires placed { PlacesExactly (graph_of s.now) p.now }
    requires plan { IsLegalPlan (graph_of s.now) plan.now }
    ensures none { IsNone result ↔ AllAsDrawn (signs_wanted Wanted.Chosen s.now p.now plan.now) }
    ensures some { IfSome result (IsFirst IsTurned (signs_wanted Wanted.Chosen s.now p.now plan.now)) }
{
    first_unlike(p, s, plan, Wanted::Chosen)
}

/// The first sign that isn't placed as it is wanted: as drawn, or as the plan chooses it.
pub fn first_unlike(p: &Placed, s: &Sketch, plan: &Plan, wanted: Wanted) -> Option<Turned>
    requires sketch { IsSoundSketch s.now }
    requires placed { PlacesExactly (graph_of s.now) p.now }
    requires plan { IsLegalPlan (graph_of s.now) plan.now }
    ensures none { IsNone result ↔ AllAsDrawn (signs_wanted wanted s.now p.now plan.now) }
    ensures some { IfSome result (IsFirst IsTurned (signs_wanted wanted s.now p.now plan.now)) }
{
    match turned_constraint(p, s, s.constraints.as_slice()) {
        Some(turned) => Some(turned),
        None => turned_step(p, s, plan.steps.as_slice(), wanted),
    }
}

/// The first sign of a constraint that isn't placed as it is drawn, in order of number: the sense of an angle or the
/// turn of a block. It needs no plan: no step is looked at.
pub fn first_turned_constraint(p: &Placed, s: &Sketch) -> Option<Turned>
    requires sketch { IsSoundSketch s.now }
    requires placed { PlacesExactly (graph_of s.now) p.now }
    ensures none { IsNone result ↔ AllAsDrawn (constraint_signs s.now p.now s.now.constraints) }
    ensures some { IfSome result (IsFirst IsTurned (constraint_signs s.now p.now s.now.constraints)) }
{
    turned_constraint(p, s, s.constraints.as_slice())
}

/// The first constraint, an angle or a block, whose sign is turned over.
fn turned_constraint(p: &Placed, s: &Sketch, constraints: &[Constraint]) -> Option<Turned>
    requires sketch { IsSoundSketch s.now }
    requires placed { PlacesExactly (graph_of s.now) p.now }
    requires rules { (c : OfConstraint) → Contains constraints.now c → IsSoundRule s.now c.rule }
    ensures { IsCompared (constraint_signs s.now p.now constraints.now) result }
{
    for constraint in constraints {
        if let Some(turned) = turned_sense(p, s, constraint) {
            return Some(turned);
        }
    }
    None
}

/// The first step whose sign is turned over.
fn turned_step(p: &Placed, s: &Sketch, steps: &[PlanStep], wanted: Wanted) -> Option<Turned>
    requires sketch { IsSoundSketch s.now }
    requires placed { PlacesExactly (graph_of s.now) p.now }
    requires corners { (step : OfStep) → Contains steps.now step → HasCorners s.now step }
    ensures { IsCompared (signs_of_steps wanted s.now p.now steps.now) result }
{
    for step in steps {
        if let Some(turned) = turned_choice(p, s, step, wanted) {
            return Some(turned);
        }
    }
    None
}

/// The sense of the constraint, if it is on an angle, or its turn, if it is a block, and it is turned over.
pub(crate) fn turned_sense(p: &Placed, s: &Sketch, constraint: &Constraint) -> Option<Turned>
    requires sketch { IsSoundSketch s.now }
    requires placed { PlacesExactly (graph_of s.now) p.now }
    requires rule { IsSoundRule s.now constraint.now.rule }
    ensures { IsCompared (senses s.now p.now constraint.now.number constraint.now.rule) result }
{
    match &constraint.rule {
        Rule::Angle { l, m, ratio } => if_turned(sense(p, s, constraint.number, *l, *m, *ratio)),
        Rule::Block { pins } => turned_block(p, constraint.number, pins.as_slice()),
        Rule::Distance { .. }
        | Rule::On { .. }
        | Rule::Tangent { .. }
        | Rule::Outside { .. }
        | Rule::Inside { .. } => None,
    }
}

/// The turn of the block, if not all its pins lie on one line, and it is turned over.
fn turned_block(p: &Placed, number: ConId, pins: &[Pin]) -> Option<Turned>
    requires { AreMeasurable p.now pins.now }
    ensures { IsCompared (block_turns p.now number (corners pins.now)) result }
{
    match corners_of(pins) {
        Some((a, b, c)) => if_turned(block_turn(p, number, a, b, c)),
        None => None,
    }
}

/// The sign of the step, if something is open and it is turned over.
fn turned_choice(p: &Placed, s: &Sketch, step: &PlanStep, wanted: Wanted) -> Option<Turned>
    requires sketch { IsSoundSketch s.now }
    requires placed { PlacesExactly (graph_of s.now) p.now }
    requires corners { HasCorners s.now step.now }
    ensures { IsCompared (signs_of_step wanted s.now p.now step.now) result }
{
    let (x, y, z) = in_order(step.a, step.b, step.c);
    match sign_between(p, s, step.step, x, y, z) {
        Some(drawn) => if_turned(as_wanted(wanted, step.choice, drawn)),
        None => None,
    }
}

/// Of three points the turn, of two points the advance along a line.
fn sign_between(p: &Placed, s: &Sketch, at: Name, x: Elem, y: Elem, z: Elem) -> Option<Turned>
    requires sketch { IsSoundSketch s.now }
    requires placed { PlacesExactly (graph_of s.now) p.now }
    requires x { IsSome (shape_of s.now x) }
    requires y { IsSome (shape_of s.now y) }
    requires z { IsSome (shape_of s.now z) }
    ensures { choices s.now p.now at (x ∷ y ∷ z ∷ []) ≡ option_to_list result }
{
    match (is_line(s, x), is_line(s, y), is_line(s, z)) {
        (false, false, false) => Some(turn(p, s, at, x, y, z)),
        (true, false, false) => Some(advance(p, s, at, x, y, z)),
        (false, true, false) => Some(advance(p, s, at, y, x, z)),
        (false, false, true) => Some(advance(p, s, at, z, x, y)),
        _ => None,
    }
}

/// The sign as it is wanted of a step with this choice.
fn as_wanted(wanted: Wanted, choice: Choice, drawn: Turned) -> Turned
    ensures { wanted_of wanted choice (drawn ∷ []) ≡ result ∷ [] }
{
    match (wanted, choice) {
        (Wanted::Chosen, Choice::Turn(sign) | Choice::Advance(sign)) => Turned {
            drawn: sign,
            ..drawn
        },
        (Wanted::Drawn, _) | (_, Choice::Nothing) => drawn,
    }
}

/// The sign, if it isn't placed as drawn.
fn if_turned(sign: Turned) -> Option<Turned>
    ensures { IsCompared (sign ∷ []) result }
{
    if is_as_drawn(sign) { None } else { Some(sign) }
}

fn is_as_drawn(sign: Turned) -> bool
    ensures { IsTrue result ↔ IsAsDrawn sign }
{
    sign.placed == value(sign.drawn)
}

fn value(sign: Sign) -> i8
    ensures { result ≡ value_of sign }
{
    match sign {
        Sign::Plus => 1,
        Sign::Minus => -1,
    }
}

fn is_line(s: &Sketch, e: Elem) -> bool
    requires sketch { IsSoundSketch s.now }
    requires drawn { IsSome (shape_of s.now e) }
    ensures computed { result ≡ is_line (drawn_as s.now e) }
    ensures line { IsTrue result ↔ IsLine (drawn_as s.now e) }
    ensures centre { IsTrue (not result) ↔ HasCentre (drawn_as s.now e) }
{
    shape(s, e).is_line()
}

/// The sense of the angle from one line to another.
fn sense(p: &Placed, s: &Sketch, number: ConId, l: Elem, m: Elem, ratio: Ratio) -> Turned
    requires sketch { IsSoundSketch s.now }
    requires placed { PlacesExactly (graph_of s.now) p.now }
    requires l { IsDrawnLine s.now l }
    requires m { IsDrawnLine s.now m }
    requires ratio { IsSoundRatio ratio }
    ensures { result ∷ [] ≡ senses s.now p.now number (Rule.Angle l m ratio) }
{
    Turned {
        at: Name::Con(number.0),
        drawn: sense_drawn(&shape(s, l), &shape(s, m), ratio),
        placed: sense_placed(place(p, l), place(p, m), ratio),
    }
}

/// The turn of a block's corners.
fn block_turn(p: &Placed, number: ConId, a: Pin, b: Pin, c: Pin) -> Turned
    requires a { IsOnSheet a × IsPinPlaced p.now a }
    requires b { IsOnSheet b × IsPinPlaced p.now b }
    requires c { IsOnSheet c × IsPinPlaced p.now c }
    ensures { result ∷ [] ≡ block_turns p.now number (Some (a, b, c)) }
{
    Turned {
        at: Name::Con(number.0),
        drawn: sign_of(turn_given(a, b, c)),
        placed: turn_placed(place(p, a.elem), place(p, b.elem), place(p, c.elem)),
    }
}

/// The sign of the number, where zero is plus.
fn sign_of(number: i8) -> Sign
    ensures { result ≡ drawn_sign number }
{
    if number < 0 { Sign::Minus } else { Sign::Plus }
}

/// The turn of three points.
fn turn(p: &Placed, s: &Sketch, at: Name, x: Elem, y: Elem, z: Elem) -> Turned
    requires sketch { IsSoundSketch s.now }
    requires placed { PlacesExactly (graph_of s.now) p.now }
    requires x { IsDrawnPoint s.now x }
    requires y { IsDrawnPoint s.now y }
    requires z { IsDrawnPoint s.now z }
    ensures { result ≡ turn s.now p.now at x y z }
{
    Turned {
        at,
        drawn: turn_drawn(&shape(s, x), &shape(s, y), &shape(s, z)),
        placed: turn_placed(place(p, x), place(p, y), place(p, z)),
    }
}

/// The advance from `x` to `y` along the line.
fn advance(p: &Placed, s: &Sketch, at: Name, line: Elem, x: Elem, y: Elem) -> Turned
    requires sketch { IsSoundSketch s.now }
    requires placed { PlacesExactly (graph_of s.now) p.now }
    requires line { IsDrawnLine s.now line }
    requires x { IsDrawnPoint s.now x }
    requires y { IsDrawnPoint s.now y }
    ensures { result ≡ advance s.now p.now at line x y }
{
    Turned {
        at,
        drawn: advance_drawn(&shape(s, line), &shape(s, x), &shape(s, y)),
        placed: advance_placed(place(p, line), place(p, x), place(p, y)),
    }
}
