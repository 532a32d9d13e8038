ghost use Rattle.std.specs.Prelude.{◌≡◌, ◌≤◌, ◌+◌, ℕ, List, length, IfOk, OnOk, OnErr, IsOk, IsErr};
ghost use Rattle.std.specs.declared.option.Option.{Option};
ghost use Rattle.std.specs.Io.KnownBytes.{Appends, Keeps, WriteAppends};
ghost use Rattle.sk_io.specs.Causes.{AnswersFault};
ghost use Rattle.sk_io.specs.Transfer.{WritesSome, AppendsFront};

use crate::fault::Failed;

/// What bytes are written to.
pub trait Sink {
    /// The bytes that were written, where the sink tells them.
    ghost written: { Self → Option (List ℕ) };

    /// How often a write or a flush has failed.
    ghost faults: { Self → ℕ };

    /// So many further bytes are taken, and no write of them fails. This tells nothing of content.
    ghost sure_room: { Self → ℕ };

    /// Nothing of what was written is held back. A sink that can't tell says nothing by this.
    ghost is_flushed: { Self → Type 0 };

    /// No flush from here on fails.
    ghost is_steady: { Self → Type 0 };

    /// Appends bytes of the front of the piece, at least one where there is one.
    fn write(&mut self, piece: &[u8]) -> Result<usize, Failed>
        ensures bound { WritesSome result piece.now }
        ensures bytes { WriteAppends (written self.old) (written self.new) result piece.now }
        ensures fault { AnswersFault (IsErr result) (faults self.old) (faults self.new) }
        ensures sure { length piece.now ≤ sure_room self.old
            → (faults self.new ≡ faults self.old) × IsOk result
            × IfOk result (λ n. sure_room self.old ≤ sure_room self.new + n) }
        ensures steady { is_steady self.old → is_steady self.new };

    /// Hands on what is held back of what was written. Nothing is gained or lost by it, whatever is answered.
    fn flush(&mut self) -> Result<(), Failed>
        ensures bytes { Keeps (written self.old) (written self.new) }
        ensures flushed { IsOk result → is_flushed self.new }
        ensures fault { AnswersFault (IsErr result) (faults self.old) (faults self.new) }
        ensures room { sure_room self.old ≤ sure_room self.new }
        ensures steady { is_steady self.old
            → is_steady self.new × IsOk result × (faults self.new ≡ faults self.old) };
}

/// Appends all the bytes, or at a fault a front of them.
pub fn write_all<K: Sink>(sink: &mut K, bytes: &[u8]) -> Result<(), Failed>
    ensures ok { OnOk result (Appends (K.written sink.old) (K.written sink.new) bytes.now) }
    ensures err { OnErr result (AppendsFront (K.written sink.old) (K.written sink.new) bytes.now) }

    ensures fault { AnswersFault (IsErr result) (K.faults sink.old) (K.faults sink.new) }
    ensures sure { length bytes.now ≤ K.sure_room sink.old
        → (K.faults sink.new ≡ K.faults sink.old) × IsOk result
        × (K.sure_room sink.old ≤ K.sure_room sink.new + length bytes.now) }
    ensures steady { K.is_steady sink.old → K.is_steady sink.new }
{
    let mut done = 0;
    while done < bytes.len() {
        done += sink.write(&bytes[done..])?;
    }
    Ok(())
}
