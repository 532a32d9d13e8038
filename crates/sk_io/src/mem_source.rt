ghost use Rattle.std.specs.Prelude.{◌≡◌, ◌<◌, ◌↔◌, length, min, take, is_err, if◌then◌else◌, Some, IfOk, IsOk, IsErr, Contains};
ghost use Rattle.std.specs.Io.{ReadsAtMost};
ghost use Rattle.std.specs.Io.KnownBytes.{ReadConsumes};
ghost use Rattle.sk_io.specs.Causes.{AnswersFault};
ghost use Rattle.sk_io.specs.Memory.{one_later, calls_after, IsSure, IsReadOn, IsReadLast};

use crate::calls::is_listed;
use crate::fault::Failed;
use crate::source::Source;
use sk_base::{List, NoMemory, Text};
use std::alloc::Global;
use std::marker::Model;

/// Bytes in memory, of which the `at` first were taken. Calls on a buffer that isn't empty are numbered from 1.
#[derive(Drop)]
pub struct MemSource {
    bytes: Text,
    at: usize,
    fails: List<u64>,
    calls: u64,
    faults: u64,
}

impl Model for MemSource {
    ghost use Rattle.std.specs.Prelude.{◌≤◌, drop, length};
    ghost use Rattle.sk_io.specs.Memory.{Stream};

    ghost Value = { Stream };

    ghost view = { λ s. record { left = drop s.at s.bytes; fails = s.fails; calls = s.calls; faults = s.faults } };

    ghost invariant = { λ s. s.at ≤ length s.bytes };
}

impl MemSource {
    /// The bytes, where the calls with these numbers are to fail.
    pub fn new(alloc: Global, bytes: &[u8], fails: &[u64]) -> Result<MemSource, NoMemory>
        ensures { IfOk result (λ s. s ≡ record { left = bytes.now; fails = fails.now; calls = 0; faults = 0 }) }
    {
        let mut kept = Text::new(alloc);
        kept.put(bytes)?;
        let mut numbers = List::new(alloc);
        numbers.extend(fails)?;
        Ok(MemSource {
            bytes: kept,
            at: 0,
            fails: numbers,
            calls: 0,
            faults: 0,
        })
    }

    /// What is left.
    pub fn left(&self) -> &[u8]
        ensures { result.now ≡ self.now.left }
    {
        &self.bytes.as_bytes()[self.at..]
    }
}

impl Source for MemSource {
    ghost left = { λ s. Some s.left };

    ghost faults = { λ s. s.faults };

    ghost is_sure = { IsSure };

    ghost is_read_on = { IsReadOn };

    ghost is_read_last = { IsReadLast };

    fn read(&mut self, buf: &mut [u8]) -> Result<usize, Failed>
        ensures bound { ReadsAtMost result buf.new }
        ensures bytes { ReadConsumes (Some self.old.left) (Some self.new.left) result buf.new }
        ensures fault { AnswersFault (IsErr result) self.old.faults self.new.faults }
        ensures sure { IsSure self.old
            → IsSure self.new × IsOk result × (self.new.faults ≡ self.old.faults) }
        ensures on { IfOk result (λ n. 0 < n → IsReadOn self.old self.new) }
        ensures end { IfOk result (λ n. n ≡ 0 → 0 < length buf.old → IsReadLast self.old self.new) }
        ensures stopped { IsErr result → IsReadLast self.old self.new }

        // It fails exactly where the call's number is one of those, and else gives all that there is room for.
        ensures failed { IsErr result ↔ ((0 < length buf.old) × Contains self.old.fails (one_later self.old.calls)) }
        ensures count { IfOk result (λ n. n ≡ min (length buf.old) (length self.old.left)) }

        ensures calls { self.new.calls ≡ calls_after buf.old self.old.calls }
        ensures faults { self.new.faults ≡ (if is_err result then one_later self.old.faults else self.old.faults) }
        ensures fails { self.new.fails ≡ self.old.fails }
    {
        if buf.is_empty() {
            return Ok(0);
        }
        self.calls = self.calls.saturating_add(1);
        if is_listed(self.fails.as_slice(), self.calls) {
            self.faults = self.faults.saturating_add(1);
            return Err(Failed);
        }
        let count = copied(&self.bytes.as_bytes()[self.at..], buf);
        self.at += count;
        Ok(count)
    }
}

/// Copies as many bytes as both have room for, from front to front, and answers how many.
fn copied(from: &[u8], to: &mut [u8]) -> usize
    ensures count { result ≡ min (length to.old) (length from.now) }
    ensures front { take result to.new ≡ take result from.now }
{
    let count = from.len().min(to.len());
    to[..count].copy_from_slice(&from[..count]);
    count
}
