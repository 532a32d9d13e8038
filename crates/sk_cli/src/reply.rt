// What a session writes in reply to a line.
ghost use Rattle.std.specs.Prelude.{◌≡◌, ◌≢◌, ◌<◌, length, IfOk};
ghost use Rattle.sk_base.specs.SoundSketch.{IsSoundSketch};
ghost use Rattle.sk_session.specs.declared.Reply.TheVariants as a_reply;
ghost use Rattle.sk_cli.specs.SessionAnswer.{IsReplyText, session_keys};
ghost use Rattle.sk_cli.specs.Told.{told};

use crate::solving::{Report, solved};
use sk_base::{NoMemory, Sketch, Text};
use sk_lang::write_sketch;
use sk_report::{check_text, code_text, constrained_text, declared_text, done_text, plan_text};
use sk_request::{Command, Request};
use sk_session::Reply;
use std::alloc::Global;

/// The text of a reply. The sketch is the session's after the line, and the request says how it is merged,
/// placed and measured.
pub fn reply_text(alloc: Global, request: Request, s: &Sketch, r: &Reply) -> Result<Text, NoMemory>
    requires sound { IsSoundSketch s.now }
    requires some { r.now ≡ a_reply.Solve → 0 < length s.now.elements }
    ensures { IfOk result (IsReplyText (session_keys request) s.now r.now) }
{
    match r {
        Reply::Solve => solve_text(alloc, request, s),
        _ => told_text(alloc, s, r),
    }
}

/// What `solve` writes for the sketch.
fn solve_text(alloc: Global, request: Request, s: &Sketch) -> Result<Text, NoMemory>
    requires sound { IsSoundSketch s.now }
    requires some { 0 < length s.now.elements }
    ensures { IfOk result (IsReplyText (session_keys request) s.now a_reply.Solve) }
{
    let solve = Request {
        command: Command::Solve,
        ..request
    };
    Ok(solved(alloc, solve, Report::Places, s)?.text)
}

/// The text of a reply, but of that to `solve`. The sketch is the session's after the line.
fn told_text(alloc: Global, s: &Sketch, r: &Reply) -> Result<Text, NoMemory>
    requires { r.now ≢ a_reply.Solve }
    ensures { IfOk result (λ text. text ≡ told s.now r.now) }
{
    match r {
        Reply::Blank | Reply::End => Ok(Text::new(alloc)),
        Reply::Done => done_text(alloc),
        Reply::Declared(e) => declared_text(alloc, s, *e),
        Reply::Constrained(k) => constrained_text(alloc, *k),
        Reply::Refused(code) => code_text(alloc, *code),
        Reply::Checked(judgement) | Reply::NotWell(judgement) => check_text(alloc, s, judgement),
        Reply::Planned(plan) => plan_text(alloc, s, plan),
        Reply::Write => write_sketch(alloc, s),
        Reply::Solve => unreachable!(),
    }
}
