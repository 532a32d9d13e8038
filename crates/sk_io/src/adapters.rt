ghost use Rattle.std.specs.Prelude.{◌≡◌, ◌<◌, None, is_err, IfOk, IsErr, if◌then◌else◌};
ghost use Rattle.std.specs.Io.{ReadsAtMost};
ghost use Rattle.sk_io.specs.Asked.{GivesBytes, GivesNothing};
ghost use Rattle.sk_io.specs.Causes.{AnswersFault};
ghost use Rattle.sk_io.specs.Transfer.{WritesSome};
ghost use Rattle.sk_io.specs.Memory.{one_later};

use crate::fault::Failed;
use crate::sink::Sink;
use crate::source::Source;
use std::io::{Read, Write};
use std::marker::Model;

/// A reader of std's. Contracts see how often this adapter was read, how often such a read gave nothing or failed, and
/// how often one failed. They tell nothing of content, nor of how often the reader itself is asked.
#[derive(Drop)]
pub struct StdSource<R: Read> {
    inner: R,
    reads: u64,
    ends: u64,
    faults: u64,
}

impl<R: Read> Model for StdSource<R> {
    ghost use Rattle.sk_io.specs.Asked.{Asked};

    ghost Value = { Asked };

    ghost view = { λ s. record { reads = s.reads; ends = s.ends; faults = s.faults } };
}

impl<R: Read> StdSource<R> {
    pub fn new(inner: R) -> StdSource<R>
        ensures { result ≡ record { reads = 0; ends = 0; faults = 0 } }
    {
        StdSource {
            inner,
            reads: 0,
            ends: 0,
            faults: 0,
        }
    }
}

impl<R: Read> Source for StdSource<R> {
    ghost left = { λ _. None };

    ghost faults = { λ s. s.faults };

    ghost is_sure = { λ _. ⊥ };

    ghost is_read_on = { GivesBytes };

    ghost is_read_last = { GivesNothing };

    fn read(&mut self, buf: &mut [u8]) -> Result<usize, Failed>
        ensures bound { ReadsAtMost result buf.new }
        ensures fault { AnswersFault (IsErr result) self.old.faults self.new.faults }
        ensures on { IfOk result (λ n. 0 < n → GivesBytes self.old self.new) }
        ensures end { IfOk result (λ n. n ≡ 0 → GivesNothing self.old self.new) }
        ensures stopped { IsErr result → GivesNothing self.old self.new }
        ensures counted { self.new.faults ≡ (if is_err result then one_later self.old.faults else self.old.faults) }
    {
        self.reads = self.reads.saturating_add(1);
        match self.inner.read(buf) {
            Ok(0) => {
                self.ends = self.ends.saturating_add(1);
                Ok(0)
            }
            Ok(count) => Ok(count),
            Err(_) => {
                self.ends = self.ends.saturating_add(1);
                self.faults = self.faults.saturating_add(1);
                Err(Failed)
            }
        }
    }
}

/// A writer of std's. Contracts see how often a write or a flush has failed, or a write has taken nothing of a piece.
/// They tell nothing of content, nor of what is held back.
#[derive(Drop)]
pub struct StdSink<W: Write> {
    inner: W,
    faults: u64,
}

impl<W: Write> Model for StdSink<W> {
    ghost use Rattle.std.specs.Prelude.{ℕ};

    ghost Value = { ℕ };

    ghost view = { λ s. s.faults };
}

impl<W: Write> StdSink<W> {
    pub fn new(inner: W) -> StdSink<W>
        ensures { result ≡ 0 }
    {
        StdSink { inner, faults: 0 }
    }
}

impl<W: Write> Sink for StdSink<W> {
    ghost written = { λ _. None };

    ghost faults = { λ s. s };

    ghost sure_room = { λ _. 0 };

    ghost is_flushed = { λ _. Unit {0} };

    ghost is_steady = { λ _. ⊥ };

    fn write(&mut self, piece: &[u8]) -> Result<usize, Failed>
        ensures bound { WritesSome result piece.now }
        ensures fault { AnswersFault (IsErr result) self.old self.new }
        ensures counted { self.new ≡ (if is_err result then one_later self.old else self.old) }
    {
        if piece.is_empty() {
            return Ok(0);
        }
        match self.inner.write(piece) {
            Ok(count) if count > 0 => Ok(count),
            _ => {
                self.faults = self.faults.saturating_add(1);
                Err(Failed)
            }
        }
    }

    fn flush(&mut self) -> Result<(), Failed>
        ensures fault { AnswersFault (IsErr result) self.old self.new }
        ensures counted { self.new ≡ (if is_err result then one_later self.old else self.old) }
    {
        match self.inner.flush() {
            Ok(()) => Ok(()),
            Err(_) => {
                self.faults = self.faults.saturating_add(1);
                Err(Failed)
            }
        }
    }
}
