// What is wrong with a claim.
ghost use Rattle.std.specs.Prelude.{◌≡◌};

use sk_base::{ConId, Elem, Name, NoMemory};
use thiserror::Error;

/// What fails first: a step, named by its place, or its choice; what remains after the steps; an element
/// that isn't told, or not with its radius; a line's normal or a constraint; the sign of a step or an angle.
#[derive(Clone, Copy, Debug, PartialEq, Eq)]
pub enum Failure {
    Step(Name),
    Parts,
    Element(Elem),
    Line(Elem),
    Con(ConId),
    Sign(Name),
}

/// Why a claim isn't accepted.
#[derive(Clone, Copy, Debug, PartialEq, Eq, Error)]
pub enum VerifyError {
    #[error("the claim fails")]
    Fails(Failure),
    #[error("memory ran out")]
    NoMemory,
}

impl From<NoMemory> for VerifyError {
    ghost use Rattle.sk_verify.specs.declared.failure.VerifyError.{VerifyError};

    ghost from_gives = { λ e r. r ≡ VerifyError.NoMemory };

    fn from(_error: NoMemory) -> Self {
        VerifyError::NoMemory
    }
}
