// The command `live`.
ghost use Rattle.std.specs.Prelude.{◌≡◌, ◌≤◌, ℕ, List, length};
ghost use Rattle.std.specs.Io.KnownBytes.{Appends};
ghost use Rattle.sk_io.specs.Causes.{AnswersFault};
ghost use Rattle.sk_io.specs.Reads.{StopsAtEnd};
ghost use Rattle.sk_io.specs.Transfer.{TakesAtMost};
ghost use Rattle.sk_live_lines.specs.Answering.{IsTold};
ghost use Rattle.sk_cli.specs.LiveAnswer.{late_line};
ghost use Rattle.sk_cli.specs.LiveEnding.{LiveEnds, LiveTakes, AllLiveFit, TellsLate, EndsWith};

use crate::reply::reply_text;
use crate::session::{TOO_LONG, goes_on};
use sk_answers::{Status, refused};
use sk_base::{NoMemory, Text};
use sk_io::{Sink, Source};
use sk_live_lines::{Hearing, Replier, TurnEnd, hand_over, turn};
use sk_request::Request;
use sk_session::{Closing, Session};
use std::alloc::Global;
use std::marker::Model;

/// A session with the keys of its words, which contracts see as both.
#[derive(Drop)]
pub struct Sitting {
    alloc: Global,
    request: Request,
    session: Session,
}

impl Model for Sitting {
    ghost use Rattle.sk_cli.specs.LiveAnswer.{Sat};

    ghost Value = { Sat };

    ghost view = { λ s. record { request = s.request; state = s.session } };
}

impl Replier for Sitting {
    ghost use Rattle.sk_cli.specs.LiveAnswer.{IsSaid, IsEnd, long_alike, long_goes_on};

    ghost replies = { IsSaid };

    ghost ends = { IsEnd };

    ghost long_alike = { long_alike };

    ghost long_goes_on = { long_goes_on };

    fn reply(&mut self, line: &[u8]) -> Result<Option<Text>, NoMemory> {
        let reply = self.session.command(line)?;
        if !goes_on(&reply) {
            return Ok(None);
        }
        let text = reply_text(self.alloc, self.request, self.session.sketch(), &reply)?;
        Ok(Some(text))
    }
}

/// Answers the lines of what the source has left, turn by turn, up to the end of the session.
pub(crate) fn live<S: Source, K: Sink>(
    alloc: Global,
    request: Request,
    source: &mut S,
    sink: &mut K,
) -> Status
    ensures outcome { (bytes gained : List ℕ) × IsTold (S.left source.old) bytes
        × Appends (K.written sink.old) (K.written sink.new) gained × LiveEnds request bytes result gained }
    ensures taken { (gained : List ℕ) × Appends (K.written sink.old) (K.written sink.new) gained
        × LiveTakes request result (S.left source.old) (S.left source.new) gained }
    ensures few { TakesAtMost 4294967296 (S.left source.old) (S.left source.new) }
    ensures reads { StopsAtEnd S.is_read_on S.is_read_last source.old source.new }
    ensures flushed { (result ≡ Status.WriteFault → ⊥) → K.is_flushed sink.old → K.is_flushed sink.new }
    ensures read_fault { AnswersFault (result ≡ Status.ReadFault) (S.faults source.old) (S.faults source.new) }
    ensures write_fault { AnswersFault (result ≡ Status.WriteFault) (K.faults sink.old) (K.faults sink.new) }
    ensures sure_source { S.is_sure source.old
        → (S.faults source.new ≡ S.faults source.old) × (result ≡ Status.ReadFault → ⊥) }
    ensures sure_sink { K.is_steady sink.old → AllLiveFit request (S.left source.old) (K.sure_room sink.old) → result ≡ Status.WriteFault → ⊥ }
{
    let Ok(session) = Session::new(alloc, request.order, Closing::InAnyOrder) else {
        return Status::NoMemory;
    };
    let mut sitting = Sitting {
        alloc,
        request,
        session,
    };
    let mut hearing = Hearing::new(alloc);
    loop {
        match turn(&mut hearing, &mut sitting, source, sink) {
            Ok(()) => {}
            Err(end) => return ended(alloc, end, sink),
        }
    }
}

/// The status of an end. Where the input was too long, that is written.
fn ended<K: Sink>(alloc: Global, end: TurnEnd, sink: &mut K) -> Status
    ensures told { EndsWith end (K.written sink.old) (K.written sink.new) result }
    ensures same { (end ≡ TurnEnd.TooLong → ⊥) → sink.new ≡ sink.old }
    ensures flushed { (result ≡ Status.WriteFault → ⊥) → K.is_flushed sink.old → K.is_flushed sink.new }
    ensures fault { end ≡ TurnEnd.TooLong → AnswersFault (result ≡ Status.WriteFault) (K.faults sink.old) (K.faults sink.new) }
    ensures sure { end ≡ TurnEnd.TooLong → K.is_steady sink.old → length late_line ≤ K.sure_room sink.old → result ≡ Status.WriteFault → ⊥ }
{
    match end {
        TurnEnd::Done => Status::Done,
        TurnEnd::TooLong => refuse(alloc, sink),
        TurnEnd::ReadFault => Status::ReadFault,
        TurnEnd::WriteFault => Status::WriteFault,
        TurnEnd::NoMemory => Status::NoMemory,
    }
}

/// Writes that the input is too long, and flushes it.
fn refuse<K: Sink>(alloc: Global, sink: &mut K) -> Status
    ensures told { TellsLate (K.written sink.old) (K.written sink.new) result }
    ensures flushed { (result ≡ Status.WriteFault → ⊥) → K.is_flushed sink.old → K.is_flushed sink.new }
    ensures fault { AnswersFault (result ≡ Status.WriteFault) (K.faults sink.old) (K.faults sink.new) }
    ensures sure { K.is_steady sink.old → length late_line ≤ K.sure_room sink.old → result ≡ Status.WriteFault → ⊥ }
{
    let Ok(answer) = refused(alloc, &TOO_LONG) else {
        return Status::NoMemory;
    };
    match hand_over(answer.text.as_bytes(), sink) {
        Ok(()) => Status::Refused,
        Err(_) => Status::WriteFault,
    }
}
