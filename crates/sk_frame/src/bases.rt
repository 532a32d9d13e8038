// The constraint that no step moves.
ghost use Rattle.std.specs.Prelude.{◌≡◌};
ghost use Rattle.sk_frame.specs.Bases.{kept_by, kept_from, base_of};

use sk_base::{ConId, Name};
use sk_tree::{Plan, PlanStep, last_name};

/// The constraint that the kept children lead to from the plan's last step. A plan without a constraint
/// has none.
pub fn base_of(p: &Plan) -> Option<ConId>
    ensures { result ≡ base_of p.now }
{
    match kept_from(p.steps.as_slice(), last_name(p)?) {
        Name::Con(number) => Some(ConId(number)),
        Name::Step(_) => None,
    }
}

/// Where the kept children lead to from the cluster of that name.
fn kept_from(steps: &[PlanStep], name: Name) -> Name
    ensures { result ≡ kept_from steps.now name }
{
    let mut kept = name;
    for i in (0..steps.len()).rev() {
        kept = kept_by(&steps[i], kept);
    }
    kept
}

/// The child that the step keeps, where the step made the cluster of that name. Else the cluster itself.
fn kept_by(step: &PlanStep, name: Name) -> Name
    ensures { result ≡ kept_by step.now name }
{
    if step.step == name { step.keeps } else { name }
}
