ghost use Rattle.std.specs.Prelude.{◌≡◌, ◌<◌, ◌≤◌, ℕ, List, length, IfOk, IsOk, IsErr, IsErrOf};
ghost use Rattle.std.specs.declared.option.Option.{Option};
ghost use Rattle.std.specs.Io.{ReadsAtMost};
ghost use Rattle.std.specs.Io.KnownBytes.{ReadConsumes};
ghost use Rattle.sk_io.specs.Causes.{AnswersFault};
ghost use Rattle.sk_io.specs.Reads.{StopsAtEnd};
ghost use Rattle.sk_io.specs.Transfer.{TakesUpTo, TakesAtMost};

use crate::fault::{Failed, ReadEnd};
use sk_base::Text;
use std::alloc::Global;

/// What bytes are read from.
pub trait Source {
    /// The bytes that are left, where the source tells them.
    ghost left: { Self → Option (List ℕ) };

    /// How often a read has failed.
    ghost faults: { Self → ℕ };

    /// No read from here on fails. This tells nothing of content.
    ghost is_sure: { Self → Type 0 };

    /// The second is the first after one read that gave bytes.
    ghost is_read_on: { Self → Self → Type 0 };

    /// The second is the first after one read that failed, or that gave nothing though there was room.
    ghost is_read_last: { Self → Self → Type 0 };

    /// Takes bytes off the front of what is left. `Ok(0)` on a buffer that isn't empty is the end.
    fn read(&mut self, buf: &mut [u8]) -> Result<usize, Failed>
        ensures bound { ReadsAtMost result buf.new }
        ensures bytes { ReadConsumes (left self.old) (left self.new) result buf.new }
        ensures fault { AnswersFault (IsErr result) (faults self.old) (faults self.new) }
        ensures sure { is_sure self.old
            → is_sure self.new × IsOk result × (faults self.new ≡ faults self.old) }
        ensures on { IfOk result (λ n. 0 < n → is_read_on self.old self.new) }
        ensures end { IfOk result (λ n. n ≡ 0 → 0 < length buf.old → is_read_last self.old self.new) }
        ensures stopped { IsErr result → is_read_last self.old self.new };
}

/// The most bytes of one read.
const CHUNK: usize = 4096;

/// Takes bytes until the end of input, or until `most` were taken. No more than `most` are taken off, whatever is answered.
/// Each read but the last gave bytes, so no read follows one that failed or gave nothing.
pub fn read_all<S: Source>(alloc: Global, source: &mut S, most: u64) -> Result<Text, ReadEnd>
    requires { most ≤ 1048577 }
    ensures taken { IfOk result (TakesUpTo most (S.left source.old) (S.left source.new)) }
    ensures bound { IfOk result (λ text. length text ≤ most) }
    ensures few { TakesAtMost most (S.left source.old) (S.left source.new) }
    ensures reads { StopsAtEnd S.is_read_on S.is_read_last source.old source.new }

    ensures fault { AnswersFault (IsErrOf result ReadEnd.ReadFault) (S.faults source.old) (S.faults source.new) }
    ensures sure { S.is_sure source.old
        → (S.faults source.new ≡ S.faults source.old) × (IsErrOf result ReadEnd.ReadFault → ⊥) }
{
    let mut text = Text::new(alloc);
    let mut chunk = [0u8; CHUNK];
    let most = most as usize;
    while text.len() < most {
        let room = CHUNK.min(most - text.len());
        let count = source.read(&mut chunk[..room])?;
        if count == 0 {
            break;
        }
        text.put(&chunk[..count])?;
    }
    Ok(text)
}
