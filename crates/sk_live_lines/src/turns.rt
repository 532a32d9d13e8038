// A turn.
ghost use Rattle.std.specs.Prelude.{◌≡◌, ◌⊎◌, ◌<◌, ◌≤◌, ◌+◌, ◌-◌, ◌++◌, ℕ, false, List, length, All, OnOk, IfErr, IsOk, IsErrOf};
ghost use Rattle.std.specs.Io.KnownBytes.{Consumes, Keeps};
ghost use Rattle.sk_io.specs.Causes.{AnswersFault};
ghost use Rattle.sk_io.specs.Transfer.{TakesAtMost};
ghost use Rattle.sk_lines.specs.Lines.{is_line_feed};
ghost use Rattle.sk_live_lines.specs.Answering.{Ends, IsTold};
ghost use Rattle.sk_live_lines.specs.Heard.{HasHeard, HasRoom, AreWithin, KeepsRoom, GoesOn, EndsTurn, IsDone};

use crate::ending::TurnEnd;
use crate::hearing::Hearing;
use crate::replier::Replier;
use sk_io::{Sink, Source};

/// The most bytes of one read.
const PIECE: usize = 4096;

/// Takes a piece of the source, which it asks once, and answers each line that ends in it. Where it goes on it took a byte at least,
/// and the replies to all lines that have come to their end so far are in the sink, flushed where a line ended in the piece; else it
/// says how it ended, and what the sink gained from the first turn on is what its end says of the whole input. A line that ends it has
/// its line feed in the piece, but at the end of the input. A sink that was flushed before is so again, but after a failed write. After
/// a failed read all is as it was but for the count of faults. The input has at most 4,294,967,295 bytes, and one byte more is taken
/// at most.
pub fn turn<R: Replier, S: Source, K: Sink>(
    hearing: &mut Hearing,
    replier: &mut R,
    source: &mut S,
    sink: &mut K,
) -> Result<(), TurnEnd>
    ensures goes_on { OnOk result ((piece : List ℕ) × (0 < length piece) × Consumes (S.left source.old) (S.left source.new) piece
        × (hearing.new.taken ≡ hearing.old.taken + length piece)
        × GoesOn R.replies hearing.old.kept replier.old (K.written sink.old) hearing.new.kept replier.new (K.written sink.new) piece
        × KeepsRoom R.replies hearing.old.kept replier.old (K.sure_room sink.old) hearing.new.kept replier.new (K.sure_room sink.new) piece
        × (All (λ b. is_line_feed b ≡ false) piece ⊎ K.is_flushed sink.new)) }
    ensures bound { OnOk result (hearing.new.taken ≤ 4294967295) }
    ensures ended { IfErr result (λ end. (first : R) (taken text : List ℕ) → HasHeard R.replies first taken hearing.old.kept replier.old text → hearing.old.taken ≡ length taken
        → EndsTurn R.replies R.ends first taken text (S.left source.old) (S.left source.new) (K.written sink.old) (K.written sink.new) end) }
    ensures done { IsErrOf result TurnEnd.Done → (first : R) (taken text : List ℕ) → HasHeard R.replies first taken hearing.old.kept replier.old text
        → IsDone R.replies R.ends first taken text (S.left source.old) (S.left source.new) (K.written sink.old) (K.written sink.new) }
    ensures read_failed { IsErrOf result TurnEnd.ReadFault → (hearing.new ≡ hearing.old) × (replier.new ≡ replier.old) × (sink.new ≡ sink.old) × Keeps (S.left source.old) (S.left source.new) }
    ensures too_long { IsErrOf result TurnEnd.TooLong → (sink.new ≡ sink.old)
        × ((first : R) (taken text : List ℕ) → HasHeard R.replies first taken hearing.old.kept replier.old text → hearing.old.taken ≡ length taken
        → (piece : List ℕ) × (rest : List ℕ) × Consumes (S.left source.old) (S.left source.new) piece × IsTold (S.left source.new) rest
        × Ends R.replies R.ends first (taken ++ (piece ++ rest)) TurnEnd.TooLong text) }
    ensures once { S.is_read_on source.old source.new ⊎ S.is_read_last source.old source.new }
    ensures on { IsOk result → S.is_read_on source.old source.new }
    ensures few { TakesAtMost 4096 (S.left source.old) (S.left source.new) }
    ensures within { TakesAtMost (4294967296 - hearing.old.taken) (S.left source.old) (S.left source.new) }
    ensures flushed { (IsErrOf result TurnEnd.WriteFault → ⊥) → K.is_flushed sink.old → K.is_flushed sink.new }
    ensures read_fault { AnswersFault (IsErrOf result TurnEnd.ReadFault) (S.faults source.old) (S.faults source.new) }
    ensures write_fault { AnswersFault (IsErrOf result TurnEnd.WriteFault) (K.faults sink.old) (K.faults sink.new) }
    ensures sure_source { S.is_sure source.old
        → S.is_sure source.new × (S.faults source.new ≡ S.faults source.old) × (IsErrOf result TurnEnd.ReadFault → ⊥) }
    ensures steady { K.is_steady sink.old → OnOk result (K.is_steady sink.new) }
    ensures sure_sink { K.is_steady sink.old → (first : R) (taken : List ℕ) (most : ℕ) → hearing.old.taken ≡ length taken
        → HasRoom R.replies first taken hearing.old.kept replier.old most (K.sure_room sink.old)
        → ((piece rest : List ℕ) → Consumes (S.left source.old) (S.left source.new) piece → IsTold (S.left source.new) rest → AreWithin R.replies first (taken ++ (piece ++ rest)) most)
        → IsErrOf result TurnEnd.WriteFault → ⊥ }
{
    let mut piece = [0u8; PIECE];
    let left = u32::MAX - hearing.taken();
    let taken = &mut piece[..room(left)];
    let count = match source.read(taken) {
        Ok(count) => count,
        Err(_) => return Err(TurnEnd::ReadFault),
    };
    if count == 0 {
        return Err(hearing.finish(replier, sink));
    }
    if left == 0 {
        return Err(TurnEnd::TooLong);
    }
    hearing.count(count as u32);
    hearing.hear(replier, &taken[..count], sink)
}

/// How many bytes are asked for where so many may still be taken: one more than none, to see whether there is more.
fn room(left: u32) -> usize
    ensures some { 0 < result }
    ensures most { result ≤ 4096 }
    ensures within { 0 < left → result ≤ left }
    ensures few { result ≤ left + 1 }
{
    PIECE.min(left as usize).max(1)
}
