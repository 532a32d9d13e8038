// Why there is no plan.
ghost use Rattle.std.specs.Prelude.{◌≡◌};

use sk_base::NoMemory;
use sk_verdict::Judgement;
use std::fmt;
use thiserror::Error;

/// Why there is no plan: the verdict isn't well, as the judgement tells, or memory ran out.
#[derive(Drop, Error)]
pub enum PlanError {
    #[error("the verdict isn't well")]
    NotWell(Judgement),
    #[error("memory ran out")]
    NoMemory,
}

impl fmt::Debug for PlanError {
    fn fmt<W: fmt::Write>(&self, f: &mut fmt::Formatter<W>) -> fmt::Result {
        match self {
            PlanError::NotWell(_) => write!(f, "NotWell(..)"),
            PlanError::NoMemory => write!(f, "NoMemory"),
        }
    }
}

impl From<NoMemory> for PlanError {
    ghost use Rattle.sk_plan.specs.declared.error.PlanError.{PlanError};

    ghost from_gives = { λ e r. r ≡ PlanError.NoMemory };

    fn from(_error: NoMemory) -> Self {
        PlanError::NoMemory
    }
}
