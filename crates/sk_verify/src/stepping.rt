// The family that the steps of a claim lead to.
ghost use Rattle.std.specs.Prelude.{◌≡◌, IfOk, IfErr, OnOk};
ghost use Rattle.sk_base.specs.SoundGraph.{IsSoundGraph};
ghost use Rattle.sk_base.specs.SoundSketch.{IsSoundSketch};
ghost use Rattle.sk_graph.specs.SketchGraph.{graph_of};
ghost use Rattle.sk_tree.specs.LegalPlan.{IsLegalStep, next_after};
ghost use Rattle.sk_verify.specs.declared.failure.VerifyError.TheVariants.{NoMemory};
ghost use Rattle.sk_verify.specs.Stepping.{HasRoom, LeadsTo, IsStepFailure};

use crate::failure::{Failure, VerifyError};
use crate::step::is_right;
use sk_base::{Graph, Name, Sketch};
use sk_family::{Family, initial};
use sk_rules::{Merge, do_merge};
use sk_tree::PlanStep;
use std::alloc::Global;

/// The family that the steps lead to, where each is right.
pub(crate) fn family_after(
    alloc: Global,
    s: &Sketch,
    g: &Graph,
    steps: &[PlanStep],
) -> Result<Family, VerifyError>
    requires sketch { IsSoundSketch s.now }
    requires graph { g.now ≡ graph_of s.now }
    requires sound { IsSoundGraph g.now }
    ensures ok { IfOk result (LeadsTo s.now g.now steps.now) }
    ensures err { IfErr result (IsStepFailure s.now g.now steps.now) }
{
    let mut family = initial(alloc, g)?;
    for step in steps {
        if !is_right(s, g, &family, step) {
            return Err(wrong(&family));
        }
        take_step(&mut family, g, step)?;
    }
    Ok(family)
}

/// The failure of the step that should be the next one.
fn wrong(family: &Family) -> VerifyError
    ensures { result ≡ VerifyError.Fails (Failure.Step (Name.Step family.now.next_step)) }
{
    VerifyError::Fails(Failure::Step(Name::Step(family.next_step())))
}

/// Does the step's merge.
fn take_step(family: &mut Family, g: &Graph, step: &PlanStep) -> Result<(), VerifyError>
    requires legal { IsLegalStep g.now family.old step.now }
    requires room { HasRoom family.old }
    ensures next { OnOk result (family.new ≡ next_after family.old step.now) }
    ensures room { OnOk result (HasRoom family.new) }
    ensures err { IfErr result (λ e. e ≡ NoMemory) }
{
    let merge = Merge::Three(step.one, step.two, step.three);
    let _name = do_merge(family, g, merge)?;
    Ok(())
}
