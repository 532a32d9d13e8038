// Calls of the program over a source and a sink in memory, and what they are to answer and write.
//
// The words of a call stand on a line, each behind a blank. What a call comes to is a text: its status, a line feed, and
// what it writes. A table of calls is a text too. Each row begins with `$` and the words, and then has the input, and
// behind `> ` what the call is to come to.
ghost use Rattle.std.specs.Prelude.{◌≤◌, length};

use sk_base::Text;
use sk_cli::run;
use sk_io::{MemSink, MemSource, Sink, Source};
use std::alloc::Global;
use std::fmt::Debug;
use std::process::Abort;

/// Room for every text of these tests.
pub const ROOM: u32 = 300_000;

/// The status of a call over the source and the sink. A line of no word is empty; any other begins with a blank.
pub fn status_of<R: Abort, S: Source, K: Sink>(
    rt: &R,
    alloc: Global,
    line: &str,
    source: &mut S,
    sink: &mut K,
) -> u8 {
    assert!(rt; line.is_empty() || line.starts_with(' '), "no blank");
    let mut words = Vec::new(alloc);
    for word in line.split(' ').skip(1) {
        let word = String::from_str(alloc, word).expect(rt, "memory");
        words.push(word).expect(rt, "memory");
    }
    run(alloc, words.as_slice(), source, sink).code()
}

/// The status of a call and what it writes, where the source and the sink have numbers of failing calls, and the sink has
/// so much room.
pub fn answer_over(
    rt: &impl Abort,
    alloc: Global,
    line: &str,
    (input, failing_reads): (&[u8], &[u64]),
    (room, failing_writes): (u32, &[u64]),
) -> (u8, MemSink) {
    let mut source = MemSource::new(alloc, input, failing_reads).expect(rt, "memory");
    let mut sink = MemSink::new(alloc, room, failing_writes).expect(rt, "memory");
    let status = status_of(rt, alloc, line, &mut source, &mut sink);
    (status, sink)
}

/// The status of a call and what it writes.
pub fn answer(rt: &impl Abort, alloc: Global, line: &str, input: &[u8]) -> (u8, MemSink) {
    answer_over(rt, alloc, line, (input, &[]), (ROOM, &[]))
}

/// The texts behind one another.
pub fn joined(rt: &impl Abort, alloc: Global, texts: &[&str]) -> String {
    texts.concat(alloc).expect(rt, "memory")
}

/// The bytes are those that are wanted, or the test ends, and tells whose they are.
pub fn same(rt: &impl Abort, whose: &str, found: &[u8], wanted: &[u8]) {
    let told = str::from_utf8(found).unwrap_or("no text");
    assert!(rt; found == wanted, "{whose} tells:\n{told}");
}

/// What a call is to come to: its status, and what it writes.
pub type Ending<'a> = (u64, &'a [u8]);

/// The status and what is written are those that are wanted.
pub fn ends(rt: &impl Abort, line: &str, (status, written): (u8, &[u8]), wanted: Ending) {
    same(rt, line, written, wanted.1);
    assert!(rt; u64::from(status) == wanted.0, "{line} has status {status}");
}

/// The status of a text that a call is to come to, and what is to be written.
pub fn ending_of<'a>(rt: &impl Abort, text: &'a str) -> Ending<'a> {
    let (status, written) = text.split_once('\n').expect(rt, "a status");
    (number(rt, status), written.as_bytes())
}

pub fn number(rt: &impl Abort, text: &str) -> u64 {
    text.parse::<u64>().expect(rt, "a number")
}

/// The call comes to that text.
pub fn answers(rt: &impl Abort, alloc: Global, line: &str, input: &[u8], wanted: &str) {
    let (status, sink) = answer(rt, alloc, line, input);
    ends(rt, line, (status, sink.written()), ending_of(rt, wanted));
}

/// A row: its words, its input, and the text that is wanted.
pub type Row<'a> = (&'a str, &'a str, &'a str);

/// The parts of a row, which stands behind its `$`.
pub fn parts_of<'a>(rt: &impl Abort, row: &'a str) -> Row<'a> {
    let (line, rest) = row.split_once('\n').expect(rt, "an input");
    let (input, wanted) = rest.split_once("> ").expect(rt, "a text that is wanted");
    (line, input, wanted)
}

/// The three numbers of a row before `:` and its words.
pub fn numbers_of<'a>(rt: &impl Abort, line: &'a str) -> ([u64; 3], &'a str) {
    let (numbers, words) = line.split_once(':').expect(rt, "numbers");
    let (first, numbers) = numbers.split_once(' ').expect(rt, "two numbers");
    let (second, third) = numbers.split_once(' ').expect(rt, "three numbers");
    let numbers = [number(rt, first), number(rt, second), number(rt, third)];
    (numbers, words)
}

/// The commands that place elements.
const PLACING: [&str; 6] = ["solve", "dxf", "flips", "grow", "session", "parts"];

/// Whether the call places elements by boxes, as its words don't say by what, and is done.
fn is_done_by_boxes(line: &str, wanted: &str) -> bool {
    match line.split(' ').nth(1) {
        Some(command) => {
            PLACING.contains(&command) && wanted.starts_with("0\n") && !line.contains(" place=")
        }
        None => false,
    }
}

/// The row of a call passes; one that is done by boxes comes to the same by points.
pub fn is_answered(rt: &impl Abort, alloc: Global, (line, input, wanted): Row) {
    answers(rt, alloc, line, input.as_bytes(), wanted);
    if is_done_by_boxes(line, wanted) {
        let by_points = joined(rt, alloc, &[line, " place=points"]);
        answers(rt, alloc, by_points.as_str(), input.as_bytes(), wanted);
    }
}

/// Puts each of these on a line of its own.
pub fn put_each<R: Abort, T: Debug>(rt: &R, alloc: Global, told: &mut Text, items: &[T]) {
    for item in items {
        let line = format!(in alloc; "{item:?}\n").expect(rt, "memory");
        told.put(line.as_bytes()).expect(rt, "memory");
    }
}

/// The bytes of a text of no more than 1,000.
pub fn few_bytes<'a>(rt: &impl Abort, text: &'a str) -> &'a [u8]
    ensures { length result.now ≤ 1000 }
{
    let bytes = text.as_bytes();
    assert!(rt; bytes.len() <= 1000, "a short text");
    bytes
}
