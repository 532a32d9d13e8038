ghost use Rattle.std.specs.Prelude.{◌≡◌};
ghost use Rattle.sk_lines.specs.declared.error.EntryError.TheVariants.{NoMemory, Refused};

use crate::code::{Code, ReadError};
use sk_base::NoMemory;
use thiserror::Error;

/// Why a line isn't read.
#[derive(Clone, Copy, Debug, PartialEq, Eq, Error)]
pub enum EntryError {
    #[error("the line is refused: {code} {word}", code = .0.text(), word = .0.word())]
    Refused(Code),
    #[error("memory ran out")]
    NoMemory,
}

impl EntryError {
    ghost use Rattle.sk_lines.specs.Refusals.{error_at};

    /// The error of the line of that number, as that of its text.
    pub fn at_line(self, line: u32) -> ReadError
        ensures { result ≡ error_at line self }
    {
        match self {
            EntryError::Refused(code) => ReadError::refused(line, code),
            EntryError::NoMemory => ReadError::NoMemory,
        }
    }
}

impl From<NoMemory> for EntryError {
    ghost from_gives = { λ _ error. error ≡ NoMemory };

    fn from(_error: NoMemory) -> EntryError {
        EntryError::NoMemory
    }
}

impl From<Code> for EntryError {
    ghost from_gives = { λ code error. error ≡ Refused code };

    fn from(code: Code) -> EntryError {
        EntryError::Refused(code)
    }
}
