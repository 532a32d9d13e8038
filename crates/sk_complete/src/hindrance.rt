// What can be said before any search: how much is missing, and why some sketches have no completion.
ghost use Rattle.std.specs.Prelude.{◌≡◌, ◌≢◌, ◌↔◌, ◌≤◌, ◌<◌, ◌-◌, None, Some, All, IsTrue, length};
ghost use Rattle.sk_base.specs.declared.Constraint.{Constraint as TheConstraint};
ghost use Rattle.sk_base.specs.declared.Element.{Element as TheElement};
ghost use Rattle.sk_base.specs.Drawn.{IsLine};
ghost use Rattle.sk_base.specs.SoundSketch.{IsSoundSketch};
ghost use Rattle.sk_complete.specs.Weights.{constraint_weight, weight_together, due_for};
ghost use Rattle.sk_complete.specs.Completions.{HasLinesAlone};
ghost use Rattle.sk_complete.specs.Rings.{HasRing};

use crate::completion::Reason;
use sk_base::{Constraint, Element, Rule, Sketch};

/// Why no completion is sought, if there is a reason. The sketch isn't over and lacks so much weight; its parts tell an
/// angle twice, or they don't.
pub(crate) fn hindrance(s: &Sketch, is_told_twice: bool, missing: usize) -> Option<Reason>
    requires ring { IsTrue is_told_twice ↔ HasRing s.now }
    requires missing { missing ≡ due_for s.now - weight_together s.now.constraints }
    ensures not_over { result ≢ Some Reason.Over }
    ensures lines { (result ≡ Some Reason.Lines) ↔ HasLinesAlone s.now }
    ensures angles { (result ≡ Some Reason.Angles) ↔ ((¬ HasLinesAlone s.now) × HasRing s.now) }
    ensures enough { (result ≡ Some Reason.Enough) ↔ ((¬ HasLinesAlone s.now) × (¬ HasRing s.now) × (due_for s.now ≤ weight_together s.now.constraints)) }
    ensures none { (result ≡ None) → weight_together s.now.constraints < due_for s.now }
    ensures not_stuck { result ≢ Some Reason.Stuck }
{
    if has_lines_alone(s) {
        Some(Reason::Lines)
    } else if is_told_twice {
        Some(Reason::Angles)
    } else if missing == 0 {
        Some(Reason::Enough)
    } else {
        None
    }
}

/// Whether there are more than two elements, all of them lines.
fn has_lines_alone(s: &Sketch) -> bool
    ensures { IsTrue result ↔ HasLinesAlone s.now }
{
    s.elements.len() > 2 && are_lines(s.elements.as_slice())
}

fn are_lines(elements: &[Element]) -> bool
    ensures { IsTrue result ↔ All (λ (e : TheElement). IsLine e.shape) elements.now }
{
    elements.iter().all(|element| element.shape.is_line())
}

/// What is due for all elements.
pub(crate) fn due_for(s: &Sketch) -> usize
    requires { IsSoundSketch s.now }
    ensures { result ≡ due_for s.now }
{
    (2 * s.elements.len()).saturating_sub(3)
}

/// What the constraints weigh together.
pub(crate) fn weight_of(constraints: &[Constraint]) -> usize
    requires few { length constraints.now ≤ 4000 }
    requires light { All (λ (c : TheConstraint). constraint_weight c ≤ 29) constraints.now }
    ensures { result ≡ weight_together constraints.now }
{
    let mut weight = 0;
    for constraint in constraints {
        weight += weight_of_one(constraint);
    }
    weight
}

fn weight_of_one(constraint: &Constraint) -> usize
    requires { constraint_weight constraint.now ≤ 29 }
    ensures { result ≡ constraint_weight constraint.now }
{
    match &constraint.rule {
        Rule::Block { pins } => (pins.len().saturating_mul(2)).saturating_sub(3),
        _ => 1,
    }
}
