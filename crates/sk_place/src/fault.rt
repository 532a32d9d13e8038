// Why a plan has no boxes.
ghost use Rattle.std.specs.Prelude.{◌≡◌, IfOk, Ok, Result as Answer};
ghost use Rattle.sk_place.specs.declared.fault.BoxFault.{BoxFault as FaultOfBox};
ghost use Rattle.sk_place.specs.Carrying.{faulty, box_faulty, in_step, Answers, AnswersMove};

use sk_base::{Elem, Name, NoMemory};
use sk_interval::Cause;
use sk_steps::What;
use thiserror::Error;

/// What a step was at: constructing its element, or carrying the first or the second child.
#[derive(Clone, Copy, PartialEq, Eq, Debug)]
pub enum Phase {
    Build,
    First,
    Second,
}

/// A quantity of a step that has no interval, and the element that it was for.
#[derive(Clone, Copy, PartialEq, Eq, Debug)]
pub struct StepFault {
    pub step: Name,
    pub phase: Phase,
    pub what: What,
    pub elem: Elem,
    pub cause: Cause,
}

/// Why there are no boxes: a step has a fault, or memory ran out.
#[derive(Clone, Copy, PartialEq, Eq, Debug, Error)]
pub enum PlaceError {
    #[error("a step has no result on this grid")]
    Fault(StepFault),
    #[error("memory ran out")]
    NoMemory,
}

/// A quantity of a carried box that has no interval, and the element that it was for.
#[derive(Clone, Copy, PartialEq, Eq, Debug)]
pub struct BoxFault {
    pub what: What,
    pub elem: Elem,
    pub cause: Cause,
}

/// Why boxes aren't carried: one has a fault, or memory ran out.
#[derive(Clone, Copy, PartialEq, Eq, Debug, Error)]
pub enum MoveError {
    #[error("a carried box doesn't lie on this grid")]
    Fault(BoxFault),
    #[error("memory ran out")]
    NoMemory,
}

impl From<NoMemory> for MoveError {
    ghost use Rattle.std.specs.Prelude.{◌≡◌};
    ghost use Rattle.sk_place.specs.declared.fault.MoveError.TheVariants.{NoMemory as MemoryRanOut};

    ghost from_gives = { λ e r. r ≡ MemoryRanOut };

    fn from(_error: NoMemory) -> Self {
        MoveError::NoMemory
    }
}

impl From<NoMemory> for PlaceError {
    ghost use Rattle.std.specs.Prelude.{◌≡◌};
    ghost use Rattle.sk_place.specs.declared.fault.PlaceError.TheVariants.{NoMemory as MemoryRanOut};

    ghost from_gives = { λ e r. r ≡ MemoryRanOut };

    fn from(_error: NoMemory) -> Self {
        PlaceError::NoMemory
    }
}

/// What a fault is told by, besides its quantity and its element.
#[derive(Clone, Copy)]
pub(crate) struct Stage {
    pub(crate) step: Name,
    pub(crate) phase: Phase,
}

impl Stage {
    /// That phase of the step.
    pub(crate) fn of(step: Name, phase: Phase) -> Stage
        ensures { result ≡ record { step = step; phase = phase } }
    {
        Stage { step, phase }
    }
}

/// The answer, with its cause as a fault.
pub(crate) fn faulty<T>(
    stage: Stage,
    elem: Elem,
    answer: Result<T, (What, Cause)>,
) -> Result<T, PlaceError>
    ensures value { Answers result (faulty stage.step stage.phase elem answer) }
    ensures found { IfOk result (λ x. answer ≡ Ok x) }
{
    match answer {
        Ok(found) => Ok(found),
        Err((what, cause)) => Err(PlaceError::Fault(StepFault {
            step: stage.step,
            phase: stage.phase,
            what,
            elem,
            cause,
        })),
    }
}

/// The answer, with its cause as a fault of the element's box.
pub(crate) fn box_faulty<T>(elem: Elem, answer: Result<T, (What, Cause)>) -> Result<T, MoveError>
    ensures value { AnswersMove result (box_faulty elem answer) }
    ensures found { IfOk result (λ x. answer ≡ Ok x) }
{
    match answer {
        Ok(found) => Ok(found),
        Err((what, cause)) => Err(MoveError::Fault(BoxFault { what, elem, cause })),
    }
}

/// The answer, with a box's fault as a fault of the step.
pub(crate) fn in_step<T>(stage: Stage, answer: Result<T, MoveError>) -> Result<T, PlaceError>
    ensures { (defined : Answer T FaultOfBox) → AnswersMove answer defined → Answers result (in_step stage.step stage.phase defined) }
{
    match answer {
        Ok(found) => Ok(found),
        Err(MoveError::Fault(fault)) => Err(PlaceError::Fault(StepFault {
            step: stage.step,
            phase: stage.phase,
            what: fault.what,
            elem: fault.elem,
            cause: fault.cause,
        })),
        Err(MoveError::NoMemory) => Err(PlaceError::NoMemory),
    }
}
