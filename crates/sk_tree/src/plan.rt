// How a drawing is made from its constraints, step by step.
ghost use Rattle.std.specs.Prelude.{◌≡◌};
ghost use Rattle.sk_tree.specs.LastName.{last_name};

use sk_base::{ConId, Elem, List, Name, Sign};

/// What a step leaves open: the turn of three points, the advance of two points along a line, or
/// nothing where two of the three shared elements are lines.
#[derive(Clone, Copy, Debug, PartialEq, Eq)]
pub enum Choice {
    Turn(Sign),
    Advance(Sign),
    Nothing,
}

/// The triangle merge of the clusters `one`, `two` and `three`, whose names fall. `a` is the element
/// that `one` and `two` share, `b` that of `two` and `three`, `c` that of `three` and `one`. The
/// cluster `keeps` stays where it is placed when the step is constructed.
#[derive(Clone, Copy, Debug, PartialEq, Eq)]
pub struct PlanStep {
    pub step: Name,
    pub one: Name,
    pub two: Name,
    pub three: Name,
    pub a: Elem,
    pub b: Elem,
    pub c: Elem,
    pub keeps: Name,
    pub choice: Choice,
}

/// The constraints that a drawing starts from, and the steps that join them.
#[derive(Drop)]
pub struct Plan {
    pub leaves: List<ConId>,
    pub steps: List<PlanStep>,
}

/// The last step's name. Without a step it is that of the first constraint.
pub fn last_name(p: &Plan) -> Option<Name>
    ensures { result ≡ last_name p.now }
{
    match p.steps.as_slice().last() {
        Some(step) => Some(step.step),
        None => match p.leaves.as_slice().first() {
            Some(constraint) => Some(Name::Con(constraint.0)),
            None => None,
        },
    }
}
