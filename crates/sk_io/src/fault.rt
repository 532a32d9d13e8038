use sk_base::NoMemory;
use thiserror::Error;

/// The last value of a count of faults or of calls, where it stays.
pub const LAST_COUNT: u64 = u64::MAX;

/// A read or a write failed.
#[derive(Clone, Copy, Debug, PartialEq, Eq, Error)]
#[error("the read or write failed")]
pub struct Failed;

/// Why not all was read.
#[derive(Clone, Copy, Debug, PartialEq, Eq, Error)]
pub enum ReadEnd {
    #[error("a read failed")]
    ReadFault,
    #[error("memory ran out")]
    NoMemory,
}

impl From<Failed> for ReadEnd {
    ghost use Rattle.std.specs.Prelude.{◌≡◌};
    ghost use Rattle.sk_io.specs.declared.fault.ReadEnd.TheVariants as ends;

    ghost from_gives = { λ _ end. end ≡ ends.ReadFault };

    fn from(_: Failed) -> Self {
        ReadEnd::ReadFault
    }
}

impl From<NoMemory> for ReadEnd {
    ghost use Rattle.std.specs.Prelude.{◌≡◌};
    ghost use Rattle.sk_io.specs.declared.fault.ReadEnd.TheVariants as ends;

    ghost from_gives = { λ _ end. end ≡ ends.NoMemory };

    fn from(_: NoMemory) -> Self {
        ReadEnd::NoMemory
    }
}
