// Whether a claim is right, and what fails first.
ghost use Rattle.std.specs.Prelude.{◌≡◌, IfOk, IfErr};
ghost use Rattle.sk_base.specs.SoundGraph.{IsSoundGraph};
ghost use Rattle.sk_base.specs.SoundSketch.{IsSoundSketch};
ghost use Rattle.sk_graph.specs.SketchGraph.{graph_of};
ghost use Rattle.sk_claims.specs.Claims.{IsFitting};
ghost use Rattle.sk_verify.specs.AsClaimed.{plan_claimed};
ghost use Rattle.sk_verify.specs.Failing.{IsJoined, IsComplete, IsMet, IsAccepted, IsFirstFailure};

use crate::failure::{Failure, VerifyError};
use crate::holding::first_unmet;
use crate::stepping::family_after;
use crate::told::unplaced;
use crate::whole::is_whole;
use sk_base::{Graph, List, NoMemory, Sketch};
use sk_claims::Claim;
use sk_tolerance::{Spotted, first_turned};
use sk_tree::{Plan, numbers_of};
use std::alloc::Global;

/// Checks the claim, by the sketch and its graph alone. The first thing that fails is told.
pub fn verify(alloc: Global, s: &Sketch, g: &Graph, claim: &Claim) -> Result<(), VerifyError>
    requires sketch { IsSoundSketch s.now }
    requires graph { g.now ≡ graph_of s.now }
    requires sound { IsSoundGraph g.now }
    requires fits { IsFitting g.now claim.now }
    ensures ok { IfOk result (λ _. IsAccepted s.now g.now claim.now) }
    ensures fails { IfErr result (IsFirstFailure s.now g.now claim.now) }
{
    check_steps(alloc, s, g, claim)?;
    check_elements(s, g, claim)?;
    check_tolerances(s, g, claim)?;
    check_signs(alloc, s, g, claim)
}

/// Whether each step is right, and the steps leave the whole.
fn check_steps(alloc: Global, s: &Sketch, g: &Graph, claim: &Claim) -> Result<(), VerifyError>
    requires sketch { IsSoundSketch s.now }
    requires graph { g.now ≡ graph_of s.now }
    requires sound { IsSoundGraph g.now }
    ensures ok { IfOk result (λ _. IsJoined s.now g.now claim.now) }
    ensures fails { IfErr result (IsFirstFailure s.now g.now claim.now) }
{
    let family = family_after(alloc, s, g, claim.steps.as_slice())?;
    if is_whole(g, &family) {
        Ok(())
    } else {
        Err(VerifyError::Fails(Failure::Parts))
    }
}

/// Whether each element is told.
fn check_elements(s: &Sketch, g: &Graph, claim: &Claim) -> Result<(), VerifyError>
    requires sketch { IsSoundSketch s.now }
    requires joined { IsJoined s.now g.now claim.now }
    ensures ok { IfOk result (λ _. IsComplete s.now g.now claim.now) }
    ensures fails { IfErr result (IsFirstFailure s.now g.now claim.now) }
{
    match unplaced(s, claim) {
        Some(elem) => Err(VerifyError::Fails(Failure::Element(elem))),
        None => Ok(()),
    }
}

/// Whether each line's normal and each constraint holds within the tolerances.
fn check_tolerances(s: &Sketch, g: &Graph, claim: &Claim) -> Result<(), VerifyError>
    requires graph { g.now ≡ graph_of s.now }
    requires sound { IsSoundGraph g.now }
    requires fits { IsFitting g.now claim.now }
    requires complete { IsComplete s.now g.now claim.now }
    ensures ok { IfOk result (λ _. IsMet s.now g.now claim.now) }
    ensures fails { IfErr result (IsFirstFailure s.now g.now claim.now) }
{
    match first_unmet(g, claim) {
        Some(Spotted::Line(line)) => Err(VerifyError::Fails(Failure::Line(line))),
        Some(Spotted::Con(number)) => Err(VerifyError::Fails(Failure::Con(number))),
        None => Ok(()),
    }
}

/// Whether no sign is turned over.
fn check_signs(alloc: Global, s: &Sketch, g: &Graph, claim: &Claim) -> Result<(), VerifyError>
    requires sketch { IsSoundSketch s.now }
    requires graph { g.now ≡ graph_of s.now }
    requires sound { IsSoundGraph g.now }
    requires fits { IsFitting g.now claim.now }
    requires met { IsMet s.now g.now claim.now }
    ensures ok { IfOk result (λ _. IsAccepted s.now g.now claim.now) }
    ensures fails { IfErr result (IsFirstFailure s.now g.now claim.now) }
{
    let plan = plan_claimed(alloc, g, claim)?;
    match first_turned(&claim.at, s, &plan) {
        Some(turned) => Err(VerifyError::Fails(Failure::Sign(turned.at))),
        None => Ok(()),
    }
}

/// The plan that has the claimed steps.
fn plan_claimed(alloc: Global, g: &Graph, claim: &Claim) -> Result<Plan, NoMemory>
    requires { IsSoundGraph g.now }
    ensures { IfOk result (λ plan. plan ≡ plan_claimed g.now claim.now) }
{
    let leaves = numbers_of(alloc, g)?;
    let mut steps = List::new(alloc);
    steps.extend(claim.steps.as_slice())?;
    Ok(Plan { leaves, steps })
}
