// Devices of which a call fails, or that move little at a time, and calls over them.
use crate::row::{
    Ending, ROOM, Row, answer_over, ending_of, ends, number, numbers_of, put_each, status_of,
};
use crate::usage::USAGE;
use sk_base::Text;
use sk_io::{MemSink, ReadEnd, Sink, StdSink, StdSource, read_all, write_all};
use std::alloc::Global;
use std::io::{self, ErrorKind, Read, Write};
use std::process::Abort;

/// Gives no more than so many bytes a call. The call with that number fails, and those behind it go on.
#[derive(Drop)]
struct HaltingReader<'a> {
    rest: &'a [u8],
    most: usize,
    calls: u64,
    failing: u64,
}

impl Read for HaltingReader<'_> {
    fn read(&mut self, buf: &mut [u8]) -> io::Result<usize> {
        self.calls = self.calls.saturating_add(1);
        if self.calls == self.failing {
            return Err(ErrorKind::Other.into());
        }
        let count = self.most.min(self.rest.len()).min(buf.len());
        buf[..count].copy_from_slice(&self.rest[..count]);
        self.rest = &self.rest[count..];
        Ok(count)
    }
}

/// Takes one byte a call, and counts flushes among its calls. The call with that number fails, or takes nothing if it is a
/// write and that is wanted, and those behind it go on.
#[derive(Drop)]
struct HaltingWriter {
    taken: Vec<u8>,
    calls: u64,
    failing: u64,
    takes_none: bool,
}

impl Write for HaltingWriter {
    fn write(&mut self, buf: &[u8]) -> io::Result<usize> {
        self.calls = self.calls.saturating_add(1);
        if self.calls == self.failing && !self.takes_none {
            return Err(ErrorKind::StorageFull.into());
        }
        if self.calls == self.failing || buf.is_empty() {
            return Ok(0);
        }
        self.taken.push(buf[0])?;
        Ok(1)
    }

    fn flush(&mut self) -> io::Result<()> {
        self.calls = self.calls.saturating_add(1);
        if self.calls == self.failing {
            return Err(ErrorKind::StorageFull.into());
        }
        Ok(())
    }
}

/// A reader of the text, of which no call was made.
fn reader(input: &str, most: usize, failing: u64) -> HaltingReader<'_> {
    HaltingReader {
        rest: input.as_bytes(),
        most,
        calls: 0,
        failing,
    }
}

fn writer(alloc: Global, failing: u64, takes_none: bool) -> HaltingWriter {
    HaltingWriter {
        taken: Vec::new(alloc),
        calls: 0,
        failing,
        takes_none,
    }
}

/// Over devices that move a byte a call, where the calls with these numbers fail, or none where the number is 0, the call ends
/// so.
fn halts(
    rt: &impl Abort,
    alloc: Global,
    (line, input): (&str, &str),
    failing_read: u64,
    (failing_write, takes_none): (u64, bool),
    wanted: Ending,
) {
    let mut source = StdSource::new(reader(input, 1, failing_read));
    let mut writer = writer(alloc, failing_write, takes_none);
    let mut sink = StdSink::new(&mut writer);
    let status = status_of(rt, alloc, line, &mut source, &mut sink);
    drop(sink);
    ends(rt, line, (status, writer.taken.as_slice()), wanted);
}

/// One byte a call is read, and then the end: a failure of any of these calls leaves nothing written.
fn each_read_fails(rt: &impl Abort, alloc: Global, call: (&str, &str), whole: Ending) {
    let calls = (call.1.len() as u64).saturating_add(1);
    for read in 1..=calls {
        halts(rt, alloc, call, read, (0, false), (3, b""));
    }
    halts(rt, alloc, call, calls.saturating_add(1), (0, false), whole);
}

/// One byte a call is written: where a call fails, or takes nothing, the bytes of the calls before it are left.
fn each_write_fails(
    rt: &impl Abort,
    alloc: Global,
    call: (&str, &str),
    failing_read: u64,
    takes_none: bool,
    whole: Ending,
) {
    let mut write = 0u64;
    for done in 0..whole.1.len() {
        write = write.saturating_add(1);
        let front = (4, &whole.1[..done]);
        halts(rt, alloc, call, failing_read, (write, takes_none), front);
    }
    write = write.saturating_add(1);
    halts(rt, alloc, call, failing_read, (write, takes_none), whole);
}

/// Each read and each write of the call fails, and each write takes nothing.
pub(crate) fn tells_failures(rt: &impl Abort, alloc: Global, (line, input, wanted): Row) {
    let whole = ending_of(rt, wanted);
    each_read_fails(rt, alloc, (line, input), whole);
    each_write_fails(rt, alloc, (line, input), 0, false, whole);
    each_write_fails(rt, alloc, (line, input), 0, true, whole);
}

/// Each write of a call that reads nothing fails, and the first read would; so of other words.
pub(crate) fn tells_failures_unread(rt: &impl Abort, alloc: Global, (line, _, wanted): Row) {
    let whole = ending_of(rt, wanted);
    each_write_fails(rt, alloc, (line, ""), 1, false, whole);
    each_write_fails(rt, alloc, (line, ""), 1, true, whole);
    let usage = ending_of(rt, USAGE);
    each_write_fails(rt, alloc, (" check check", ""), 1, false, usage);
    each_write_fails(rt, alloc, (" check check", ""), 1, true, usage);
}

/// Over its devices in memory the call of the row ends so.
pub(crate) fn is_faulty(rt: &impl Abort, alloc: Global, (line, input, wanted): Row) {
    let ([read, room, write], words) = numbers_of(rt, line);
    let room = u32::try_from(room).expect(rt, "a room");
    let (source, sink) = ((input.as_bytes(), [read]), (room, [write]));
    let (status, sink) = answer_over(rt, alloc, words, (source.0, &source.1), (sink.0, &sink.1));
    ends(rt, line, (status, sink.written()), ending_of(rt, wanted));
}

/// Over a source that gives so many bytes at a call, and where one call of each device fails, or none where its number is 0,
/// the call ends so.
pub(crate) fn ends_in_pieces(
    rt: &impl Abort,
    alloc: Global,
    (line, input): (&str, &str),
    most: usize,
    (failing_read, failing_write): (u64, u64),
    wanted: &str,
) {
    let mut source = StdSource::new(reader(input, most, failing_read));
    let mut sink = MemSink::new(alloc, ROOM, &[failing_write]).expect(rt, "memory");
    let status = status_of(rt, alloc, line, &mut source, &mut sink);
    ends(rt, line, (status, sink.written()), ending_of(rt, wanted));
}

pub(crate) fn is_handed_in_pieces(rt: &impl Abort, alloc: Global, (line, input, wanted): Row) {
    let ([most, read, write], words) = numbers_of(rt, line);
    let call = (words, input);
    ends_in_pieces(rt, alloc, call, most as usize, (read, write), wanted);
}

pub(crate) fn is_handed_in_bytes(rt: &impl Abort, alloc: Global, (line, input, wanted): Row) {
    let ([read, write, none], words) = numbers_of(rt, line);
    assert!(rt; none <= 1, "0 or 1");
    let writes = (write, none == 1);
    halts(
        rt,
        alloc,
        (words, input),
        read,
        writes,
        ending_of(rt, wanted),
    );
}

/// How many calls read the text a byte a call, of which that one fails, and what is read.
pub(crate) fn read_told(rt: &impl Abort, alloc: Global, text: &str, failing: &str) -> Text {
    let mut reader = reader(text, 1, number(rt, failing));
    let mut source = StdSource::new(&mut reader);
    let read = read_all(alloc, &mut source, 10);
    drop(source);
    let mut told = Text::new(alloc);
    put_each(rt, alloc, &mut told, &[reader.calls]);
    let read = match read {
        Ok(read) => told.put(read.as_bytes()),
        Err(ReadEnd::ReadFault) => told.put(b"fault"),
        Err(ReadEnd::NoMemory) => panic!(rt; "memory"),
    };
    read.expect(rt, "memory");
    told
}

/// Whether all of the text and a flush behind it were done a byte a call, of which that one fails, or takes nothing, and what
/// is taken.
pub(crate) fn put_told(
    rt: &impl Abort,
    alloc: Global,
    text: &str,
    failing: &str,
    takes_none: bool,
) -> Text {
    let mut writer = writer(alloc, number(rt, failing), takes_none);
    let mut sink = StdSink::new(&mut writer);
    let done = write_all(&mut sink, text.as_bytes()).is_ok() && sink.flush().is_ok();
    drop(sink);
    let mut told = Text::new(alloc);
    put_each(rt, alloc, &mut told, &[done]);
    told.put(writer.taken.as_slice()).expect(rt, "memory");
    told
}

/// Over std's reader and writer a check comes to the text.
fn is_handed_on<R: Abort, S: Read + Drop>(rt: &R, alloc: Global, reader: S, wanted: &str) {
    let mut written = Vec::new(alloc);
    let mut sink = StdSink::new(&mut written);
    let status = status_of(rt, alloc, " check", &mut StdSource::new(reader), &mut sink);
    drop(sink);
    ends(
        rt,
        "check",
        (status, written.as_slice()),
        ending_of(rt, wanted),
    );
}

/// The adapters over std's readers and writers hand on what they are given. Blanks without end are read to the limit of a
/// sketch and a byte beyond it.
#[test]
fn the_adapters_hand_on(rt: HostRuntime) {
    let point = b"sketch 1\npoint A 7 7\nend\n".as_slice();
    let report =
        "0\nverdict well\nelements 1\nconstraints 0\nparts 1\npart 1 sound elements 1 held 0 due 0 : A\n";
    is_handed_on(&rt, rt.alloc(), point, report);
    let blanks = io::repeat(b' ');
    is_handed_on(&rt, rt.alloc(), blanks, "1\nrefused line 0 E20 too-long\n");
}
