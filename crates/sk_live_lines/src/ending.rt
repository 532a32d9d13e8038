use sk_base::NoMemory;
use sk_io::Failed;
use thiserror::Error;

/// How turns come to their end.
#[derive(Clone, Copy, Debug, PartialEq, Eq, Error)]
pub enum TurnEnd {
    #[error("a line ended it, or the input did")]
    Done,
    #[error("the input has more bytes than it may have")]
    TooLong,
    #[error("a read failed")]
    ReadFault,
    #[error("a write failed")]
    WriteFault,
    #[error("memory ran out")]
    NoMemory,
}

impl From<NoMemory> for TurnEnd {
    ghost use Rattle.std.specs.Prelude.{◌≡◌};
    ghost use Rattle.sk_live_lines.specs.declared.ending.TurnEnd.TheVariants as ends;

    ghost from_gives = { λ _ end. end ≡ ends.NoMemory };

    fn from(_: NoMemory) -> Self {
        TurnEnd::NoMemory
    }
}
