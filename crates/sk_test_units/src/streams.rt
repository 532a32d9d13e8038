use sk_io::{MemSink, MemSource, ReadEnd, StdSink, StdSource, read_all, write_all};
use std::alloc::Global;
use std::process::Abort;

/// What is taken of the bytes where these reads fail, or nothing if one of them does, and what is left.
fn reads(
    rt: &impl Abort,
    alloc: Global,
    (bytes, most, fails): (&[u8], u64, &[u64]),
    taken: Option<&[u8]>,
    left: &[u8],
) {
    assert!(rt; most <= 10);
    let mut source = MemSource::new(alloc, bytes, fails).expect(rt, "memory");
    match read_all(alloc, &mut source, most) {
        Ok(text) => assert!(rt; taken == Some(text.as_bytes())),
        Err(ReadEnd::ReadFault) => assert!(rt; taken.is_none()),
        Err(ReadEnd::NoMemory) => panic!(rt; "memory"),
    }
    assert!(rt; source.left() == left);
}

#[test]
fn reads_to_the_end_or_to_the_most(rt: HostRuntime) {
    let alloc = rt.alloc();
    reads(&rt, alloc, (b"abc", 10, &[]), Some(b"abc"), b"");
    reads(&rt, alloc, (b"abc", 2, &[]), Some(b"ab"), b"c");
    reads(&rt, alloc, (b"", 10, &[]), Some(b""), b"");
    reads(&rt, alloc, (b"abc", 10, &[1]), None, b"abc");
    reads(&rt, alloc, (b"abc", 10, &[2]), None, b"");
}

/// What is written of a word where there is so much room and these writes fail, and whether all of it is.
fn writes(rt: &impl Abort, alloc: Global, (room, fails): (u32, &[u64]), all: bool, written: &[u8]) {
    let mut sink = MemSink::new(alloc, room, fails).expect(rt, "memory");
    assert!(rt; write_all(&mut sink, b"verdict").is_ok() == all);
    assert!(rt; sink.written() == written);
}

#[test]
fn writes_all_or_a_front(rt: HostRuntime) {
    let alloc = rt.alloc();
    writes(&rt, alloc, (7, &[]), true, b"verdict");
    writes(&rt, alloc, (5, &[]), false, b"verdi");
    writes(&rt, alloc, (7, &[1]), false, b"");
    writes(&rt, alloc, (7, &[2]), true, b"verdict");
}

#[test]
fn the_adapters_hand_on(rt: HostRuntime) {
    let mut written = Vec::new(rt.alloc());
    let mut source = StdSource::new(b"abc".as_slice());
    let mut sink = StdSink::new(&mut written);
    let text = read_all(rt.alloc(), &mut source, 10).expect(&rt, "a text");
    assert!(rt; write_all(&mut sink, text.as_bytes()).is_ok());
    drop(sink);
    assert!(rt; written.as_slice() == b"abc".as_slice());
}
