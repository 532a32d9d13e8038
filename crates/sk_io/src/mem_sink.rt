ghost use Rattle.std.specs.Prelude.{◌≡◌, ◌<◌, ◌≤◌, ◌-◌, ◌+◌, ◌↔◌, ◌⊎◌, [], length, min, is_err, if◌then◌else◌, Some, IfOk, IsOk, IsErr, Contains};
ghost use Rattle.std.specs.Io.KnownBytes.{WriteAppends};
ghost use Rattle.sk_io.specs.Causes.{AnswersFault};
ghost use Rattle.sk_io.specs.Transfer.{WritesSome};
ghost use Rattle.sk_io.specs.Memory.{one_later, calls_after, sure_room};

use crate::calls::is_listed;
use crate::fault::Failed;
use crate::sink::Sink;
use sk_base::{List, NoMemory};
use std::alloc::Global;
use std::marker::Model;

/// Room for bytes in memory. It is taken whole at the start, so that no write asks for memory.
/// Calls on a piece that isn't empty are numbered from 1.
#[derive(Drop)]
pub struct MemSink {
    bytes: Vec<u8>,
    room: usize,
    fails: List<u64>,
    calls: u64,
    faults: u64,
}

impl Model for MemSink {
    ghost use Rattle.std.specs.Prelude.{◌≤◌, length, vec_capacity};
    ghost use Rattle.sk_io.specs.Memory.{Store};

    ghost Value = { Store };

    ghost view = { λ s. record { written = s.bytes.items; room = s.room; fails = s.fails; calls = s.calls; faults = s.faults } };

    ghost invariant = { λ s. (length s.bytes.items ≤ s.room) × (s.room ≤ vec_capacity s.bytes) };
}

impl MemSink {
    /// Room for that many bytes, where the calls with these numbers are to fail.
    pub fn new(alloc: Global, room: u32, fails: &[u64]) -> Result<MemSink, NoMemory>
        ensures { IfOk result (λ s. s ≡ record { written = []; room = room; fails = fails.now; calls = 0; faults = 0 }) }
    {
        let mut numbers = List::new(alloc);
        numbers.extend(fails)?;
        let bytes = Vec::with_capacity(alloc, room as usize)?;
        Ok(MemSink {
            bytes,
            room: room as usize,
            fails: numbers,
            calls: 0,
            faults: 0,
        })
    }

    /// What was written.
    pub fn written(&self) -> &[u8]
        ensures { result.now ≡ self.now.written }
    {
        self.bytes.as_slice()
    }
}

impl Sink for MemSink {
    ghost written = { λ s. Some s.written };

    ghost faults = { λ s. s.faults };

    ghost sure_room = { sure_room };

    ghost is_flushed = { λ _. Unit {0} };

    ghost is_steady = { λ _. Unit {0} };

    fn write(&mut self, piece: &[u8]) -> Result<usize, Failed>
        ensures bound { WritesSome result piece.now }
        ensures bytes { WriteAppends (Some self.old.written) (Some self.new.written) result piece.now }
        ensures fault { AnswersFault (IsErr result) self.old.faults self.new.faults }
        ensures sure { length piece.now ≤ sure_room self.old
            → (self.new.faults ≡ self.old.faults) × IsOk result
            × IfOk result (λ n. sure_room self.old ≤ sure_room self.new + n) }

        // It fails exactly where the call's number is one of those or no room is left, and else takes all that there is room for.
        ensures failed { IsErr result ↔ ((0 < length piece.now)
            × (Contains self.old.fails (one_later self.old.calls) ⊎ (self.old.room ≡ length self.old.written))) }
        ensures count { IfOk result (λ n. n ≡ min (length piece.now) (self.old.room - length self.old.written)) }

        ensures calls { self.new.calls ≡ calls_after piece.now self.old.calls }
        ensures faults { self.new.faults ≡ (if is_err result then one_later self.old.faults else self.old.faults) }
        ensures fails { self.new.fails ≡ self.old.fails }
        ensures room { self.new.room ≡ self.old.room }
    {
        if piece.is_empty() {
            return Ok(0);
        }
        self.calls = self.calls.saturating_add(1);
        if self.bytes.len() == self.room || is_listed(self.fails.as_slice(), self.calls) {
            self.faults = self.faults.saturating_add(1);
            return Err(Failed);
        }
        let count = piece.len().min(self.room - self.bytes.len());
        self.bytes.extend_from_slice(&piece[..count]).unwrap();
        Ok(count)
    }

    /// Nothing is held back, so there is nothing to do.
    fn flush(&mut self) -> Result<(), Failed>
        ensures ok { IsOk result }
        ensures same { self.new ≡ self.old }
    {
        Ok(())
    }
}
