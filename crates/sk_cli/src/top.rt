// The top call.
ghost use Rattle.std.specs.Prelude.{◌≡◌, ◌↔◌, ◌<◌, ◌≤◌, ℕ, List, length, drop, map, Some, string_bytes, IfOk, IfSome, IsErrOf, IsTrue};
ghost use Rattle.std.specs.Io.KnownBytes.{Appends};
ghost use Rattle.sk_io.specs.Causes.{AnswersFault};
ghost use Rattle.sk_io.specs.Reads.{StopsAtEnd};
ghost use Rattle.sk_io.specs.Transfer.{TakesUpTo, TakesAtMost};
ghost use Rattle.sk_request.specs.Asking.{Asks, HasFitSize, TakesInput, AskForInput};
ghost use Rattle.sk_cli.specs.Outcome.{IsAnswer, IsWritten};
ghost use Rattle.sk_cli.specs.Ending.{IsTold, AskForLive, Ends, HasInput, Sends};
ghost use Rattle.sk_cli.specs.LiveEnding.{LiveTakes};

use crate::accounts::account_of;
use crate::complete::completed;
use crate::flips::flips;
use crate::grow::grow;
use crate::live::live;
use crate::plan::plan;
use crate::session::{TOO_LONG, session};
use crate::solve::solve;
use crate::solving::Report;
use sk_answers::{Answer, Status, claimed, measured, offered, refused};
use sk_base::{NoMemory, Text};
use sk_io::{ReadEnd, Sink, Source, read_all, write_all};
use sk_request::{Command, Request, request_of};
use std::alloc::Global;

const USAGE: &str =
    "usage: sketch check|plan|solve|dxf|offers|session|grow|migrate|verify|spare|flips|derive|parts|live|excess|complete|measure|why [order=first|last|0..65535] [bits=16|27|38] [within=1..1000000] [place=boxes|points] [frame=base|drawn] [n=3..1000]\n";

/// The most bytes of an input.
const MOST_BYTES: usize = 1_048_576;

/// One byte more than an input may have.
const MOST_TAKEN: u64 = 1_048_577;

/// Does what the words after the program's name ask for, on what the source has left, and writes the
/// answer to the sink.
pub fn run<S: Source, K: Sink>(
    alloc: Global,
    words: &[String],
    source: &mut S,
    sink: &mut K,
) -> Status
    // On the bytes that the source had left, the status and what the sink gained are the outcome: a
    // front of its text where the sink failed, and nothing where the source failed or memory ran out. A
    // session writes as it goes on: where the sink failed, a front of the replies so far, and where
    // memory ran out, those that are whole.
    ensures outcome { (bytes gained : List ℕ) × IsTold (S.left source.old) bytes
        × Appends (K.written sink.old) (K.written sink.new) gained
        × Ends (map string_bytes words.now) bytes result gained }

    // The input is read to its end, or to the byte that is one too many. Where the words aren't of the form, or their
    // command makes its sketch, the source is as it was.
    ensures read { AskForInput (map string_bytes words.now) → (AskForLive (map string_bytes words.now) → ⊥) → HasInput result
        → IfSome (S.left source.old) (λ bytes. S.left source.new ≡ Some (drop 1048577 bytes)) }
    ensures untouched { (AskForInput (map string_bytes words.now) → ⊥) → source.new ≡ source.old }

    // Whatever is answered, each read of the source but the last gave bytes, so no read follows one that failed or gave
    // nothing.
    ensures reads { StopsAtEnd S.is_read_on S.is_read_last source.old source.new }

    // `live` takes no byte beyond the one that is too many, and no more than 4,095 bytes behind the line that ends the
    // session. Except where a write failed, a sink that held nothing back before holds nothing back then.
    ensures live_taken { AskForLive (map string_bytes words.now) → (request : Request) × (gained : List ℕ) × Asks (map string_bytes words.now) request
        × Appends (K.written sink.old) (K.written sink.new) gained × LiveTakes request result (S.left source.old) (S.left source.new) gained }
    ensures live_few { AskForLive (map string_bytes words.now) → TakesAtMost 4294967296 (S.left source.old) (S.left source.new) }
    ensures live_flushed { AskForLive (map string_bytes words.now) → (result ≡ Status.WriteFault → ⊥) → K.is_flushed sink.old → K.is_flushed sink.new }

    // A fault is answered exactly where the source or the sink counted one in this call.
    ensures read_fault { AnswersFault (result ≡ Status.ReadFault) (S.faults source.old) (S.faults source.new) }
    ensures write_fault { AnswersFault (result ≡ Status.WriteFault) (K.faults sink.old) (K.faults sink.new) }

    // Where no read fails, and the sink has room for every text that is written and no write of it fails, no fault is
    // counted and none is answered. `live` flushes the sink, so there no flush may fail either.
    ensures sure_source { S.is_sure source.old
        → (S.faults source.new ≡ S.faults source.old) × (result ≡ Status.ReadFault → ⊥) }
    ensures sure_sink { (AskForLive (map string_bytes words.now) → K.is_steady sink.old) → ((bytes text : List ℕ) → IsTold (S.left source.old) bytes
        → IsWritten (map string_bytes words.now) bytes text → length text ≤ K.sure_room sink.old)
        → (K.faults sink.new ≡ K.faults sink.old) × (result ≡ Status.WriteFault → ⊥) }
{
    let Some(request) = request_of(words) else {
        return send(sink, Status::Usage, USAGE.as_bytes());
    };
    if asks_for_live(request) {
        return live(alloc, request, source, sink);
    }
    let bytes = match input(alloc, request.command, source) {
        Ok(bytes) => bytes,
        Err(ReadEnd::ReadFault) => return Status::ReadFault,
        Err(ReadEnd::NoMemory) => return Status::NoMemory,
    };
    let input = bytes.as_bytes();
    if asks_for_session(request, input) {
        return session(alloc, request, input, sink);
    }
    match answer(alloc, request, input) {
        Ok(answer) => send(sink, answer.status, answer.text.as_bytes()),
        Err(NoMemory) => Status::NoMemory,
    }
}

/// What the command works on: what the source has left, up to a byte more than an input may have. A
/// command that makes its sketch takes nothing.
fn input<S: Source>(alloc: Global, command: Command, source: &mut S) -> Result<Text, ReadEnd>
    ensures taken { TakesInput command → IfOk result (TakesUpTo 1048577 (S.left source.old) (S.left source.new)) }
    ensures bound { IfOk result (λ text. length text ≤ 1048577) }
    ensures untouched { (TakesInput command → ⊥) → source.new ≡ source.old }
    ensures reads { StopsAtEnd S.is_read_on S.is_read_last source.old source.new }
    ensures tried { IsErrOf result ReadEnd.ReadFault → TakesInput command }
    ensures fault { AnswersFault (IsErrOf result ReadEnd.ReadFault) (S.faults source.old) (S.faults source.new) }
    ensures sure { S.is_sure source.old
        → (S.faults source.new ≡ S.faults source.old) × (IsErrOf result ReadEnd.ReadFault → ⊥) }
{
    if command.makes() {
        return Ok(Text::new(alloc));
    }
    read_all(alloc, source, MOST_TAKEN)
}

/// Whether a session is asked for that answers as it is asked.
fn asks_for_live(request: Request) -> bool
    ensures { IsTrue result ↔ (request.command ≡ Command.Live) }
{
    request.command == Command::Live
}

/// Whether a session is asked for, and the input isn't too long.
fn asks_for_session(request: Request, bytes: &[u8]) -> bool
    ensures { IsTrue result ↔ ((request.command ≡ Command.Session) × (length bytes.now ≤ 1048576)) }
{
    request.command == Command::Session && bytes.len() <= MOST_BYTES
}

/// The answer to an input that is taken whole, but to that of a session.
fn answer(alloc: Global, request: Request, bytes: &[u8]) -> Result<Answer, NoMemory>
    requires whole { request.command ≡ Command.Live → ⊥ }
    requires size { HasFitSize request.command }
    requires long { request.command ≡ Command.Session → 1048576 < length bytes.now }
    ensures { IfOk result (λ answer. IsAnswer request bytes.now answer.status answer.text) }
{
    match request.command {
        Command::Tell(account) => account_of(alloc, account, request, bytes),
        Command::Plan => plan(alloc, request.order, bytes),
        Command::Solve => solve(alloc, request, Report::Places, bytes),
        Command::Dxf => solve(alloc, request, Report::Drawing, bytes),
        Command::Offers => offered(alloc, request.order, bytes),
        Command::Session | Command::Live => refused(alloc, &TOO_LONG),
        Command::Grow(n) => grow(alloc, n, request),
        Command::Verify => claimed(alloc, bytes),
        Command::Flips => flips(alloc, request, bytes),
        Command::Complete => completed(alloc, bytes),
        Command::Measure => measured(alloc, request.within, bytes),
    }
}

/// Writes the text, and answers the status, or that the sink failed.
fn send<K: Sink>(sink: &mut K, status: Status, text: &[u8]) -> Status
    ensures sent { Sends (K.written sink.old) (K.written sink.new) status text.now result }
    ensures fault { (status ≡ Status.WriteFault → ⊥)
        → AnswersFault (result ≡ Status.WriteFault) (K.faults sink.old) (K.faults sink.new) }
    ensures sure { length text.now ≤ K.sure_room sink.old
        → (K.faults sink.new ≡ K.faults sink.old) × (result ≡ status) }
{
    match write_all(sink, text) {
        Ok(()) => status,
        Err(_) => Status::WriteFault,
    }
}
