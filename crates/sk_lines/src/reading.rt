// Lines that are read one after another.
ghost use Rattle.std.specs.Prelude.{◌≡◌, ◌<◌, ◌+◌, length, IfOk, IfErr};
ghost use Rattle.sk_lines.specs.Lines.{lines_in};
ghost use Rattle.sk_lines.specs.LineCodes.{LeadTo, IsLineRefusal};

use crate::code::ReadError;
use crate::error::EntryError;
use crate::lines::split_line;
use std::alloc::Global;

/// What lines say that stand one after another, each by what the lines before it said.
pub trait LineReader {
    ghost use Rattle.std.specs.Prelude.{ℕ, List, Option};
    ghost use Rattle.sk_lines.specs.declared.code.Code.{Code};
    ghost use Rattle.sk_lines.specs.Refusals.{IsRefusal};

    /// What was read so far.
    type SoFar: Drop;

    /// The code of a line.
    ghost code_of: { Self → Self.SoFar → List ℕ → Option Code };

    /// What a line without a code adds.
    ghost adds: { Self → Self.SoFar → List ℕ → Self.SoFar → Type 0 };

    /// What was read behind the next line, which comes without its line end.
    fn after_line(
        &self,
        alloc: Global,
        so_far: Self::SoFar,
        line: &[u8],
    ) -> Result<Self::SoFar, EntryError>
        ensures adds { IfOk result (adds self.now so_far line.now) }
        ensures refused { IfErr result (IsRefusal (code_of self.now so_far line.now)) };
}

/// Reads all lines of the text, which are numbered from `first` + 1. Answers what was read, and the number of
/// the last line.
pub fn read_lines<R: LineReader>(
    alloc: Global,
    reader: &R,
    start: R::SoFar,
    bytes: &[u8],
    first: u32,
) -> Result<(R::SoFar, u32), ReadError>
    requires { first + length (lines_in bytes.now) < 4294967296 }
    ensures read { IfOk result (λ read. LeadTo (R.adds reader.now) start (lines_in bytes.now) read.0) }
    ensures count { IfOk result (λ read. read.1 ≡ first + length (lines_in bytes.now)) }
    ensures refused { IfErr result (IsLineRefusal (R.code_of reader.now) (R.adds reader.now) start first (lines_in bytes.now)) }
{
    let mut so_far = start;
    let mut number = first;
    let mut rest = bytes;
    while !rest.is_empty() {
        let (line, after) = split_line(rest);
        number += 1;
        so_far = match reader.after_line(alloc, so_far, line) {
            Ok(further) => further,
            Err(error) => return Err(error.at_line(number)),
        };
        rest = after;
    }
    Ok((so_far, number))
}
