// Random sessions: what a session answers on its sketch is what the commands answer on the sketch as it is written.
use crate::row::{answer, joined};
use sk_test_tables::scripts::{LOOSE, START, STEADY};
use std::alloc::Global;
use std::process::Abort;

/// The number behind that one, by a fixed recurrence.
fn next(number: u32) -> u32 {
    number % 65537 * 75 + 74
}

fn put_step(rt: &impl Abort, script: &mut String, step: &str) {
    for line in step.split(", ") {
        script.push_str(line).expect(rt, "memory");
        script.push_str("\n").expect(rt, "memory");
    }
}

/// The start, and twelve of the steps.
fn script(rt: &impl Abort, alloc: Global, steps: &str, number: u32) -> String {
    let mut script = String::from_str(alloc, START).expect(rt, "memory");
    let mut number = number;
    for _ in 0..12u32 {
        number = next(number);
        let step = steps.lines().nth((number % 16) as usize);
        put_step(rt, &mut script, step.expect(rt, "sixteen steps"));
    }
    script
}

/// The sketch as it stands behind the lines, as the session writes it.
fn sketch_behind(rt: &impl Abort, alloc: Global, script: &str) -> String {
    let lines = joined(rt, alloc, &[script, "write\n"]);
    let (_, sink) = answer(rt, alloc, " session", lines.as_bytes());
    let replies = str::from_utf8(sink.written()).expect(rt, "a text");
    let (_, sketch) = replies.split_once("\nsketch ").expect(rt, "a sketch");
    joined(rt, alloc, &["sketch ", sketch])
}

/// At its end the session answers the questions as the commands do on the sketch that it writes there.
fn ends_alike(rt: &impl Abort, alloc: Global, script: &str, questions: &[&str]) {
    let sketch = sketch_behind(rt, alloc, script);
    let mut lines = String::from_str(alloc, script).expect(rt, "memory");
    let mut wanted = Vec::new(alloc);
    for question in questions {
        put_step(rt, &mut lines, question);
        let line = joined(rt, alloc, &[" ", question]);
        let (_, sink) = answer(rt, alloc, line.as_str(), sketch.as_bytes());
        wanted
            .extend_from_slice(sink.written())
            .expect(rt, "memory");
    }
    let (_, sink) = answer(rt, alloc, " session", lines.as_bytes());
    assert!(rt; sink.written().ends_with(wanted.as_slice()), "{script}");
}

/// Behind each line of its steps the session answers `check` as the command does, and at its end all the questions.
fn answers_alike(rt: &impl Abort, alloc: Global, script: &str, questions: &[&str]) {
    let mut front = String::from_str(alloc, START).expect(rt, "memory");
    for line in script.lines().skip(START.lines().count()) {
        put_step(rt, &mut front, line);
        ends_alike(rt, alloc, front.as_str(), &["check"]);
    }
    ends_alike(rt, alloc, script, questions);
}

/// So do 200 sessions by those steps.
fn all_answer_alike(rt: &impl Abort, alloc: Global, steps: &str, questions: &[&str]) {
    for number in 0..200u32 {
        let script = script(rt, alloc, steps, number);
        answers_alike(rt, alloc, script.as_str(), questions);
    }
}

#[test]
fn sessions_answer_as_the_commands(rt: HostRuntime) {
    all_answer_alike(&rt, rt.alloc(), STEADY, &["check", "plan", "solve"]);
}

#[test]
fn dropped_constraints_leave_no_trace(rt: HostRuntime) {
    all_answer_alike(&rt, rt.alloc(), LOOSE, &["check"]);
}
