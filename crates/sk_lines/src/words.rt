ghost use Rattle.std.specs.Prelude.{◌≡◌};
ghost use Rattle.sk_lines.specs.declared.words.LexFault.TheVariants.{NoMemory};

use sk_base::{List, NoMemory};
use thiserror::Error;

/// A word of a line, by the places of its first byte and of the byte behind its last.
#[derive(Clone, Copy, Debug, PartialEq, Eq)]
pub struct Word {
    pub start: u32,
    pub end: u32,
}

/// The words of a line, in order.
#[derive(Drop)]
pub struct Words {
    pub items: List<Word>,
}

/// Why a line has no words.
#[derive(Clone, Copy, Debug, PartialEq, Eq, Error)]
pub enum LexFault {
    #[error("the line has more than 200 bytes")]
    LineTooLong,
    #[error("a byte is neither printable ASCII nor a tab")]
    NotAscii,
    #[error("memory ran out")]
    NoMemory,
}

impl From<NoMemory> for LexFault {
    ghost from_gives = { λ _ fault. fault ≡ NoMemory };

    fn from(_error: NoMemory) -> LexFault {
        LexFault::NoMemory
    }
}
