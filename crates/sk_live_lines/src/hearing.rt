// The line that is being heard.
ghost use Rattle.std.specs.Prelude.{◌≡◌, ◌⊎◌, ◌<◌, ◌≤◌, ◌+◌, [], ◌∷◌, ◌++◌, ℕ, List, length, take, All, false, IfOk, IfErr, IfSome, IfNone, IsOk, IsErr, IsErrOf, OnOk, OnErr};
ghost use Rattle.std.specs.Io.KnownBytes.{Appends, Keeps};
ghost use Rattle.sk_io.specs.Causes.{AnswersFault};
ghost use Rattle.sk_io.specs.Transfer.{AppendsFront};
ghost use Rattle.sk_lines.specs.Lines.{is_line_feed, lines_in};
ghost use Rattle.sk_live_lines.specs.Answering.{Ends};
ghost use Rattle.sk_live_lines.specs.Heard.{HasHeard, HasRoom, AreWithin, IsRoomy, KeepsRoom, GoesOn, IsLeft, IsCut, Stops, EndsHeard, EndsAmong};

use crate::ending::TurnEnd;
use crate::replier::Replier;
use sk_base::{NoMemory, Text};
use sk_io::{Sink, write_all};
use sk_lines::split_line;
use std::alloc::Global;
use std::marker::Model;
use std::mem;

/// The most bytes that are kept of a line. A line of so many is too long, whatever its end is.
const MOST_KEPT: usize = 202;

/// What was heard so far: the front of the line that has no line feed yet, as much of it as tells
/// whether it is too long, and how many bytes were taken.
#[derive(Drop)]
pub struct Hearing {
    alloc: Global,
    kept: Text,
    taken: u32,
}

impl Model for Hearing {
    ghost use Rattle.std.specs.Prelude.{◌≤◌, length};
    ghost use Rattle.sk_live_lines.specs.Heard.{Heard};

    ghost Value = { Heard };

    ghost view = { λ h. record { kept = h.kept; taken = h.taken } };

    ghost invariant = { λ h. length h.kept ≤ 202 };
}

impl Hearing {
    /// Before the first byte. It asks for no memory.
    pub fn new(alloc: Global) -> Hearing
        ensures { result ≡ record { kept = []; taken = 0 } }
    {
        Hearing {
            alloc,
            kept: Text::new(alloc),
            taken: 0,
        }
    }

    /// How many bytes were taken.
    pub(crate) fn taken(&self) -> u32
        ensures value { result ≡ self.now.taken }
        ensures bound { result ≤ 4294967295 }
    {
        self.taken
    }

    /// So many more were taken.
    pub(crate) fn count(&mut self, more: u32)
        requires { self.old.taken + more < 4294967296 }
        ensures { self.new ≡ record { kept = self.old.kept; taken = self.old.taken + more } }
    {
        self.taken += more;
    }

    /// Keeps the bytes, as far as they tell something.
    fn keep(&mut self, bytes: &[u8]) -> Result<(), NoMemory>
        ensures ok { OnOk result (self.new ≡ record { kept = take 202 (self.old.kept ++ bytes.now); taken = self.old.taken }) }
        ensures err { OnErr result (self.new ≡ self.old) }
    {
        let room = MOST_KEPT - self.kept.len();
        self.kept.put(&bytes[..room.min(bytes.len())])?;
        Ok(())
    }

    /// Takes out what is kept.
    fn take_out(&mut self) -> Text
        ensures text { result ≡ self.old.kept }
        ensures anew { self.new ≡ record { kept = []; taken = self.old.taken } }
    {
        mem::replace(&mut self.kept, Text::new(self.alloc))
    }

    /// Goes on to the first line feed, and answers the line that it ends. Tells what stands behind it, or None
    /// where there is no line feed: then the bytes are a part of the line that is being heard.
    fn hear_line<'a, R: Replier, K: Sink>(
        &mut self,
        replier: &mut R,
        bytes: &'a [u8],
        sink: &mut K,
    ) -> Result<Option<&'a [u8]>, TurnEnd>
        ensures taken { self.new.taken ≡ self.old.taken }
        ensures some { IfOk result (λ answered. IfSome answered (λ after. (front : List ℕ) × IsLeft bytes.now front after.now
            × GoesOn R.replies self.old.kept replier.old (K.written sink.old) self.new.kept replier.new (K.written sink.new) front
            × KeepsRoom R.replies self.old.kept replier.old (K.sure_room sink.old) self.new.kept replier.new (K.sure_room sink.new) front
            × K.is_flushed sink.new)) }
        ensures none { IfOk result (λ answered. IfNone answered
            (GoesOn R.replies self.old.kept replier.old (K.written sink.old) self.new.kept replier.new (K.written sink.new) bytes.now)) }
        ensures room { IfOk result (λ answered. IfNone answered
            (KeepsRoom R.replies self.old.kept replier.old (K.sure_room sink.old) self.new.kept replier.new (K.sure_room sink.new) bytes.now)) }
        ensures solid { IfOk result (λ answered. IfNone answered (All (λ b. is_line_feed b ≡ false) bytes.now)) }
        ensures ended { IfErr result (EndsHeard R.replies R.ends self.old.kept replier.old (K.written sink.old) (K.written sink.new) bytes.now) }
        ensures at_line { IsErrOf result TurnEnd.Done → EndsAmong R.replies R.ends self.old.kept replier.old (K.written sink.old) (K.written sink.new) bytes.now }
        ensures steady { K.is_steady sink.old → K.is_steady sink.new }
        ensures sure { K.is_steady sink.old → IsRoomy R.replies self.old.kept replier.old (K.sure_room sink.old) bytes.now → IsErrOf result TurnEnd.WriteFault → ⊥ }
        ensures flushed { (IsErrOf result TurnEnd.WriteFault → ⊥) → K.is_flushed sink.old → K.is_flushed sink.new }
        ensures fault { AnswersFault (IsErrOf result TurnEnd.WriteFault) (K.faults sink.old) (K.faults sink.new) }
        ensures heard { IsErrOf result TurnEnd.ReadFault → ⊥ }
        ensures late { IsErrOf result TurnEnd.TooLong → ⊥ }
    {
        let Some((front, after)) = at_line_feed(bytes) else {
            self.keep(bytes)?;
            return Ok(None);
        };
        self.keep(front)?;
        let mut line = self.take_out();
        line.put(b"\n")?;
        answer(replier, line.as_bytes(), sink)?;
        Ok(Some(after))
    }

    /// Answers each line that ends in the piece. What stands behind the last is a part of the line that
    /// is being heard.
    pub(crate) fn hear<R: Replier, K: Sink>(
        &mut self,
        replier: &mut R,
        piece: &[u8],
        sink: &mut K,
    ) -> Result<(), TurnEnd>
        ensures taken { self.new.taken ≡ self.old.taken }
        ensures goes_on { OnOk result (GoesOn R.replies self.old.kept replier.old (K.written sink.old) self.new.kept replier.new (K.written sink.new) piece.now) }
        ensures room { OnOk result (KeepsRoom R.replies self.old.kept replier.old (K.sure_room sink.old) self.new.kept replier.new (K.sure_room sink.new) piece.now) }
        ensures handed_on { OnOk result (All (λ b. is_line_feed b ≡ false) piece.now ⊎ K.is_flushed sink.new) }
        ensures ended { IfErr result (EndsHeard R.replies R.ends self.old.kept replier.old (K.written sink.old) (K.written sink.new) piece.now) }
        ensures at_line { IsErrOf result TurnEnd.Done → EndsAmong R.replies R.ends self.old.kept replier.old (K.written sink.old) (K.written sink.new) piece.now }
        ensures steady { K.is_steady sink.old → K.is_steady sink.new }
        ensures sure { K.is_steady sink.old → IsRoomy R.replies self.old.kept replier.old (K.sure_room sink.old) piece.now → IsErrOf result TurnEnd.WriteFault → ⊥ }
        ensures flushed { (IsErrOf result TurnEnd.WriteFault → ⊥) → K.is_flushed sink.old → K.is_flushed sink.new }
        ensures fault { AnswersFault (IsErrOf result TurnEnd.WriteFault) (K.faults sink.old) (K.faults sink.new) }
        ensures heard { IsErrOf result TurnEnd.ReadFault → ⊥ }
        ensures late { IsErrOf result TurnEnd.TooLong → ⊥ }
    {
        let mut rest = piece;
        while let Some(after) = self.hear_line(replier, rest, sink)? {
            rest = after;
        }
        Ok(())
    }

    /// Answers the line that has no line feed, where there is one, as the input ends here.
    pub(crate) fn finish<R: Replier, K: Sink>(&mut self, replier: &mut R, sink: &mut K) -> TurnEnd
        ensures ended { (first : R) (taken text : List ℕ) → HasHeard R.replies first taken self.old.kept replier.old text → length taken ≤ 4294967295
            → (more : List ℕ) × Appends (K.written sink.old) (K.written sink.new) more × Ends R.replies R.ends first taken result (text ++ more) }
        ensures sure { K.is_steady sink.old → (first : R) (taken : List ℕ) (most : ℕ) → length taken ≤ 4294967295 → AreWithin R.replies first taken most
            → HasRoom R.replies first taken self.old.kept replier.old most (K.sure_room sink.old) → result ≡ TurnEnd.WriteFault → ⊥ }
        ensures flushed { (result ≡ TurnEnd.WriteFault → ⊥) → K.is_flushed sink.old → K.is_flushed sink.new }
        ensures fault { AnswersFault (result ≡ TurnEnd.WriteFault) (K.faults sink.old) (K.faults sink.new) }
        ensures heard { result ≡ TurnEnd.ReadFault → ⊥ }
        ensures late { result ≡ TurnEnd.TooLong → ⊥ }
    {
        let line = self.take_out();
        if line.len() == 0 {
            return TurnEnd::Done;
        }
        match answer(replier, line.as_bytes(), sink) {
            Ok(()) => TurnEnd::Done,
            Err(end) => end,
        }
    }
}

/// Writes the reply to a line, and flushes it.
fn answer<R: Replier, K: Sink>(replier: &mut R, bytes: &[u8], sink: &mut K) -> Result<(), TurnEnd>
    requires { 0 < length bytes.now }
    ensures ok { OnOk result ((line text : List ℕ) × (rest : List (List ℕ)) × (lines_in bytes.now ≡ line ∷ rest)
        × R.replies replier.old line replier.new text × Appends (K.written sink.old) (K.written sink.new) text
        × (length text ≤ K.sure_room sink.old → K.sure_room sink.old ≤ K.sure_room sink.new + length text)) }
    ensures flushed { IsOk result → K.is_flushed sink.new }
    ensures unheld { (IsErrOf result TurnEnd.WriteFault → ⊥) → K.is_flushed sink.old → K.is_flushed sink.new }
    ensures err { IfErr result (λ end. (line : List ℕ) × (rest : List (List ℕ)) × (lines_in bytes.now ≡ line ∷ rest)
        × Stops R.replies R.ends replier.old line (K.written sink.old) (K.written sink.new) end) }
    ensures steady { K.is_steady sink.old → K.is_steady sink.new }
    ensures sure { K.is_steady sink.old
        → ((line text : List ℕ) (rest : List (List ℕ)) (new : R) → lines_in bytes.now ≡ line ∷ rest → R.replies replier.old line new text → length text ≤ K.sure_room sink.old)
        → IsErrOf result TurnEnd.WriteFault → ⊥ }
    ensures fault { AnswersFault (IsErrOf result TurnEnd.WriteFault) (K.faults sink.old) (K.faults sink.new) }
    ensures heard { IsErrOf result TurnEnd.ReadFault → ⊥ }
    ensures late { IsErrOf result TurnEnd.TooLong → ⊥ }
{
    let (line, _) = split_line(bytes);
    let Some(text) = replier.reply(line)? else {
        return Err(TurnEnd::Done);
    };
    hand_over(text.as_bytes(), sink)
}

/// Writes a text and flushes it: all of it is in the sink and nothing is held back, or a write or the flush failed, and a front of it is
/// there.
pub fn hand_over<K: Sink>(text: &[u8], sink: &mut K) -> Result<(), TurnEnd>
    ensures ok { OnOk result (Appends (K.written sink.old) (K.written sink.new) text.now) }
    ensures err { IfErr result (λ end. (end ≡ TurnEnd.WriteFault) × AppendsFront (K.written sink.old) (K.written sink.new) text.now) }
    ensures flushed { IsOk result → K.is_flushed sink.new }
    ensures fault { AnswersFault (IsErr result) (K.faults sink.old) (K.faults sink.new) }
    ensures room { length text.now ≤ K.sure_room sink.old → K.sure_room sink.old ≤ K.sure_room sink.new + length text.now }
    ensures steady { K.is_steady sink.old → K.is_steady sink.new }
    ensures sure { K.is_steady sink.old → length text.now ≤ K.sure_room sink.old → IsErr result → ⊥ }
{
    match write_all(sink, text) {
        Ok(()) => flushed(sink),
        Err(_) => Err(TurnEnd::WriteFault),
    }
}

/// Flushes the sink.
fn flushed<K: Sink>(sink: &mut K) -> Result<(), TurnEnd>
    ensures bytes { Keeps (K.written sink.old) (K.written sink.new) }
    ensures err { IfErr result (λ end. end ≡ TurnEnd.WriteFault) }
    ensures flushed { IsOk result → K.is_flushed sink.new }
    ensures fault { AnswersFault (IsErr result) (K.faults sink.old) (K.faults sink.new) }
    ensures room { K.sure_room sink.old ≤ K.sure_room sink.new }
    ensures steady { K.is_steady sink.old → K.is_steady sink.new }
    ensures sure { K.is_steady sink.old → IsErr result → ⊥ }
{
    match sink.flush() {
        Ok(()) => Ok(()),
        Err(_) => Err(TurnEnd::WriteFault),
    }
}

/// The bytes in front of the first line feed, and those behind it.
fn at_line_feed(bytes: &[u8]) -> Option<(&[u8], &[u8])>
    ensures some { IfSome result (λ parts. IsCut bytes.now parts.0.now parts.1.now) }
    ensures none { IfNone result (All (λ b. is_line_feed b ≡ false) bytes.now) }
{
    let end = bytes.iter().position(|b| *b == b'\n')?;
    Some((&bytes[..end], &bytes[end + 1..]))
}
