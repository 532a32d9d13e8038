// The command `session`.
ghost use Rattle.std.specs.Prelude.{◌≡◌, ◌≢◌, ◌<◌, ◌≤◌, ◌+◌, ◌↔◌, ℕ, List, length, IfOk, IfErr, IsErrOf, IsTrue};
ghost use Rattle.std.specs.Io.KnownBytes.{Appends};
ghost use Rattle.sk_io.specs.Causes.{AnswersFault};
ghost use Rattle.sk_session.specs.State.{State as AState};
ghost use Rattle.sk_session.specs.declared.Reply.{Reply as AReply};
ghost use Rattle.sk_session.specs.declared.Reply.TheVariants as a_reply;
ghost use Rattle.sk_cli.specs.SessionAnswer.{IsReplied, RepliesToFront};
ghost use Rattle.sk_cli.specs.SessionEnding.{SessionEnds, IsStopped};

use crate::reply::reply_text;
use sk_answers::Status;
use sk_io::{Sink, write_all};
use sk_lines::{Code, Refusal, split_line};
use sk_request::Request;
use sk_session::{Closing, Reply, Session};
use std::alloc::Global;

/// What an input that is too long is refused with.
pub(crate) const TOO_LONG: Refusal = Refusal {
    line: 0,
    code: Code::E20,
};

/// Answers the lines of an input that isn't too long, up to the end of the session, and writes the
/// text of each reply.
pub(crate) fn session<K: Sink>(
    alloc: Global,
    request: Request,
    bytes: &[u8],
    sink: &mut K,
) -> Status
    requires { length bytes.now ≤ 1048576 }
    ensures written { (text : List ℕ) × Appends (K.written sink.old) (K.written sink.new) text
        × SessionEnds request bytes.now result text }
    ensures fault { AnswersFault (result ≡ Status.WriteFault) (K.faults sink.old) (K.faults sink.new) }
    ensures sure { ((text : List ℕ) → RepliesToFront request bytes.now text → length text ≤ K.sure_room sink.old)
        → (K.faults sink.new ≡ K.faults sink.old) × (result ≡ Status.WriteFault → ⊥) }
{
    let Ok(mut session) = Session::new(alloc, request.order, Closing::InAnyOrder) else {
        return Status::NoMemory;
    };
    let mut rest = bytes;
    while !rest.is_empty() {
        let (line, after) = split_line(rest);
        match reply_to(alloc, request, &mut session, line, sink) {
            Ok(goes_on) => {
                if !goes_on {
                    return Status::Done;
                }
            }
            Err(status) => return status,
        }
        rest = after;
    }
    Status::Done
}

/// Answers a line, and writes the text of the reply. Whether the session goes on.
fn reply_to<K: Sink>(
    alloc: Global,
    request: Request,
    session: &mut Session,
    line: &[u8],
    sink: &mut K,
) -> Result<bool, Status>
    ensures ok { IfOk result (λ goes_on. (r : AReply) × (text : List ℕ)
        × IsReplied request session.old line.now session.new r text
        × Appends (K.written sink.old) (K.written sink.new) text
        × (IsTrue goes_on ↔ (r ≢ a_reply.End))
        × (length text ≤ K.sure_room sink.old → K.sure_room sink.old ≤ K.sure_room sink.new + length text)) }
    ensures err { IfErr result (IsStopped request session.old line.now session.new (K.written sink.old) (K.written sink.new)) }
    ensures fault { AnswersFault (IsErrOf result Status.WriteFault) (K.faults sink.old) (K.faults sink.new) }
    ensures sure { ((new : AState) (r : AReply) (text : List ℕ) → IsReplied request session.old line.now new r text → length text ≤ K.sure_room sink.old)
        → (K.faults sink.new ≡ K.faults sink.old) × (IsErrOf result Status.WriteFault → ⊥) }
{
    let reply = session.command(line)?;
    let text = reply_text(alloc, request, session.sketch(), &reply)?;
    match write_all(sink, text.as_bytes()) {
        Ok(()) => Ok(goes_on(&reply)),
        Err(_) => Err(Status::WriteFault),
    }
}

/// Whether a session goes on after the reply.
pub(crate) fn goes_on(reply: &Reply) -> bool
    ensures { IsTrue result ↔ (reply.now ≢ a_reply.End) }
{
    match reply {
        Reply::End => false,
        _ => true,
    }
}
