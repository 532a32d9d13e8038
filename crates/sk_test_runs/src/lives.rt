// Sessions that answer as they are asked, over sources that give their input in pieces.
use crate::devices::ends_in_pieces;
use crate::row::{Row, joined};
use std::alloc::Global;
use std::process::Abort;

/// Whatever the pieces are, the answer is the same. A session is one of `live`.
pub(crate) fn is_answered_in_pieces(rt: &impl Abort, alloc: Global, (line, input, wanted): Row) {
    let words = match line.strip_prefix(" session") {
        Some(words) => words,
        None => line.strip_prefix(" live").expect(rt, "a session"),
    };
    let live = joined(rt, alloc, &[" live", words]);
    let call = (live.as_str(), input);
    ends_in_pieces(rt, alloc, call, 1, (0, 0), wanted);
    ends_in_pieces(rt, alloc, call, 2, (0, 0), wanted);
    ends_in_pieces(rt, alloc, call, 7, (0, 0), wanted);
    ends_in_pieces(rt, alloc, call, 4096, (0, 0), wanted);
}
