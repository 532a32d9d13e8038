// The statuses with which calls end.
ghost use Rattle.std.specs.Prelude.{◌≡◌};

use sk_base::NoMemory;

/// How a call of the program ends.
#[derive(Clone, Copy, Debug, PartialEq, Eq)]
pub enum Status {
    /// The command did its work.
    Done,
    /// The input is refused.
    Refused,
    /// The words aren't of the form.
    Usage,
    /// The source failed.
    ReadFault,
    /// The sink failed.
    WriteFault,
    /// Memory ran out.
    NoMemory,
    /// The sketch isn't well dimensioned.
    NotWell,
    /// A step of the placement failed, or a placed sign isn't the drawn one.
    StepFault,
    /// A least number passes the limit.
    Tolerance,
    /// The claim fails.
    NotVerified,
}

impl Status {
    ghost use Rattle.sk_answers.specs.StatusCodes.{status_code};

    /// The number that the program ends with.
    pub fn code(&self) -> u8
        ensures { result ≡ status_code self.now }
    {
        *self as u8
    }
}

impl From<NoMemory> for Status {
    ghost use Rattle.std.specs.Prelude.{◌≡◌};
    ghost use Rattle.sk_answers.specs.declared.status.Status.TheVariants as statuses;

    ghost from_gives = { λ _ status. status ≡ statuses.NoMemory };

    fn from(_: NoMemory) -> Self {
        Status::NoMemory
    }
}
