// Whether a step is one that the family may take, with the choice of the drawing.
ghost use Rattle.std.specs.Prelude.{◌≡◌, ◌↔◌, IsTrue};
ghost use Rattle.sk_base.specs.declared.Kind.TheVariants as kinds;
ghost use Rattle.sk_base.specs.SoundGraph.{HasNode};
ghost use Rattle.sk_base.specs.SoundSketch.{IsSoundSketch};
ghost use Rattle.sk_tree.specs.DrawnChoice.{HasDrawnChoice};
ghost use Rattle.sk_graph.specs.SketchGraph.{graph_of};
ghost use Rattle.sk_tolerance.specs.Telling.{HasCorners};
ghost use Rattle.sk_family.specs.Merges.{Falls};
ghost use Rattle.sk_tree.specs.LegalPlan.{FitsKinds, IsLegalStep, IsLineWithPoints, IsPointWithLines, merge_told};
ghost use Rattle.sk_verify.specs.RightSteps.{IsRightStep};

use crate::keeping::keeps_right;
use crate::meeting::{has_node, joins_once};
use sk_base::{Elem, Graph, Kind, Name, Sketch};
use sk_family::Family;
use sk_tree::{Choice, PlanStep, choice_of};

/// Whether the family may take the step, and its choice is that of the drawing.
pub(crate) fn is_right(s: &Sketch, g: &Graph, family: &Family, step: &PlanStep) -> bool
    requires sketch { IsSoundSketch s.now }
    requires graph { g.now ≡ graph_of s.now }
    ensures { IsTrue result ↔ IsRightStep s.now g.now family.now step.now }
{
    is_legal(g, family, step) && has_drawn_choice(s, step)
}

/// Whether the choice is that of the drawing.
fn has_drawn_choice(s: &Sketch, step: &PlanStep) -> bool
    requires sketch { IsSoundSketch s.now }
    requires corners { HasCorners s.now step.now }
    ensures { IsTrue result ↔ HasDrawnChoice s.now step.now }
{
    step.choice == choice_of(s, step.a, step.b, step.c)
}

/// Whether the family may take the step.
fn is_legal(g: &Graph, family: &Family, step: &PlanStep) -> bool
    ensures { IsTrue result ↔ IsLegalStep g.now family.now step.now }
{
    is_named(step, Name::Step(family.next_step()))
        && falls(step)
        && joins_once(g, family, step)
        && keeps_right(family, step)
        && fits_kinds(g, step)
}

fn is_named(step: &PlanStep, name: Name) -> bool
    ensures { IsTrue result ↔ (step.now.step ≡ name) }
{
    step.step == name
}

/// Whether the step's three names fall.
fn falls(step: &PlanStep) -> bool
    ensures { IsTrue result ↔ Falls (merge_told step.now) }
{
    step.two.is_below(step.one) && step.three.is_below(step.two)
}

/// Whether the kinds of the three elements leave open what the step chooses.
fn fits_kinds(g: &Graph, step: &PlanStep) -> bool
    ensures { IsTrue result ↔ FitsKinds g.now step.now.a step.now.b step.now.c step.now.choice }
{
    let (a, b, c) = (step.a, step.b, step.c);
    match step.choice {
        Choice::Turn(_) => are_points(g, a, b, c),
        Choice::Advance(_) => {
            is_line_with_points(g, a, b, c)
                || is_line_with_points(g, b, c, a)
                || is_line_with_points(g, c, a, b)
        }
        Choice::Nothing => {
            is_point_with_lines(g, a, b, c)
                || is_point_with_lines(g, b, c, a)
                || is_point_with_lines(g, c, a, b)
        }
    }
}

fn are_points(g: &Graph, a: Elem, b: Elem, c: Elem) -> bool
    ensures { IsTrue result ↔ (HasNode g.now a kinds.Point × HasNode g.now b kinds.Point × HasNode g.now c kinds.Point) }
{
    has_node(g, a, Kind::Point) && has_node(g, b, Kind::Point) && has_node(g, c, Kind::Point)
}

fn is_line_with_points(g: &Graph, a: Elem, b: Elem, c: Elem) -> bool
    ensures { IsTrue result ↔ IsLineWithPoints g.now a b c }
{
    has_node(g, a, Kind::Line) && has_node(g, b, Kind::Point) && has_node(g, c, Kind::Point)
}

fn is_point_with_lines(g: &Graph, a: Elem, b: Elem, c: Elem) -> bool
    ensures { IsTrue result ↔ IsPointWithLines g.now a b c }
{
    has_node(g, a, Kind::Point) && has_node(g, b, Kind::Line) && has_node(g, c, Kind::Line)
}
