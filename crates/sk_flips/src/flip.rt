// A plan with the choices of some of its steps turned over.
ghost use Rattle.std.specs.Prelude.{◌≡◌, None, IfOk, IfErr, map};
ghost use Rattle.sk_flips.specs.Flipping.{is_open, is_open_step, has_choice, first_without_choice, turned, flipped_step, flipped, IsFlipError};

use sk_base::{List, Name, NoMemory};
use sk_steps::opposite;
use sk_tree::{Choice, Plan, PlanStep};
use std::alloc::Global;
use thiserror::Error;

/// Why a plan isn't turned over: the first of the names that is no step of the plan, or whose step
/// leaves nothing open; or memory ran out.
#[derive(Clone, Copy, Debug, PartialEq, Eq, Error)]
pub enum FlipError {
    #[error("a name has no choice that could be turned over")]
    NoChoice(Name),
    #[error("memory ran out")]
    NoMemory,
}

impl From<NoMemory> for FlipError {
    ghost use Rattle.std.specs.Prelude.{◌≡◌};
    ghost use Rattle.sk_flips.specs.declared.flip.FlipError.TheVariants.{NoMemory as MemoryRanOut};

    ghost from_gives = { λ e r. r ≡ MemoryRanOut };

    fn from(_error: NoMemory) -> Self {
        FlipError::NoMemory
    }
}

/// The plan with the choices of these steps turned over, and nothing else changed.
pub fn flip_plan(alloc: Global, p: &Plan, at: &List<Name>) -> Result<Plan, FlipError>
    ensures flipped { IfOk result (λ plan. plan ≡ flipped at.now p.now) }
    ensures chosen { IfOk result (λ _. first_without_choice p.now at.now ≡ None) }
    ensures refused { IfErr result (IsFlipError p.now at.now) }
{
    let names = at.as_slice();
    match first_without_choice(p, names) {
        Some(name) => Err(FlipError::NoChoice(name)),
        None => Ok(flipped(alloc, p, names)?),
    }
}

/// The first of the names that no step with an open choice has.
fn first_without_choice(p: &Plan, names: &[Name]) -> Option<Name>
    ensures { result ≡ first_without_choice p.now names.now }
{
    for name in names {
        if !has_choice(p, *name) {
            return Some(*name);
        }
    }
    None
}

/// Whether one of the steps has that name and leaves something open.
fn has_choice(p: &Plan, name: Name) -> bool
    ensures { result ≡ has_choice p.now.steps name }
{
    p.steps
        .as_slice()
        .iter()
        .any(|step| is_open_step(step, name))
}

fn is_open_step(step: &PlanStep, name: Name) -> bool
    ensures { result ≡ is_open_step name step.now }
{
    step.step == name && is_open(step.choice)
}

fn is_open(choice: Choice) -> bool
    ensures { result ≡ is_open choice }
{
    match choice {
        Choice::Turn(_) | Choice::Advance(_) => true,
        Choice::Nothing => false,
    }
}

/// The plan with the choices of these steps turned over.
fn flipped(alloc: Global, p: &Plan, names: &[Name]) -> Result<Plan, NoMemory>
    ensures { IfOk result (λ plan. plan ≡ flipped names.now p.now) }
{
    let mut leaves = List::new(alloc);
    leaves.extend(p.leaves.as_slice())?;
    let steps = flipped_steps(alloc, p.steps.as_slice(), names)?;
    Ok(Plan { leaves, steps })
}

fn flipped_steps(
    alloc: Global,
    steps: &[PlanStep],
    names: &[Name],
) -> Result<List<PlanStep>, NoMemory>
    ensures { IfOk result (λ turned. turned ≡ map (flipped_step names.now) steps.now) }
{
    let mut turned = List::new(alloc);
    for step in steps {
        turned.push(flipped_step(names, step))?;
    }
    Ok(turned)
}

/// The step, with its choice turned over where it is one of these.
fn flipped_step(names: &[Name], step: &PlanStep) -> PlanStep
    ensures { result ≡ flipped_step names.now step.now }
{
    if step.step.is_among(names) {
        PlanStep {
            choice: turned(step.choice),
            ..*step
        }
    } else {
        *step
    }
}

/// The choice turned over.
fn turned(choice: Choice) -> Choice
    ensures { result ≡ turned choice }
{
    match choice {
        Choice::Turn(sign) => Choice::Turn(opposite(sign)),
        Choice::Advance(sign) => Choice::Advance(opposite(sign)),
        Choice::Nothing => Choice::Nothing,
    }
}
