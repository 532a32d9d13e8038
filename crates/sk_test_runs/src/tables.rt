// Runs the tables: each of their rows in the way of its table.
use crate::below::is_told;
use crate::devices::{
    is_faulty, is_handed_in_bytes, is_handed_in_pieces, tells_failures, tells_failures_unread,
};
use crate::limits::is_answered_at_length;
use crate::lives::is_answered_in_pieces;
use crate::offers::is_offered;
use crate::row::{is_answered, parts_of};
use sk_test_tables::devices::{BYTES, ENDS, FAULTS, PIECES, READERS, UNREAD};
use sk_test_tables::limits::{LONG, MANY_FLIPS};
use sk_test_tables::lists::{CALLS, DRAWINGS, TOLD};
use sk_test_tables::offers::OFFERED;
use sk_test_tables::sessions::SESSIONS;
use std::alloc::Global;
use std::process::Abort;

/// In which way the rows of a table are run.
#[derive(Clone, Copy)]
enum Way {
    Answered,
    Told,
    Long,
    Faulty,
    Pieces,
    Bytes,
    Reader,
    Unread,
    Live,
    Offered,
}

/// The row passes.
fn row_passes(rt: &impl Abort, alloc: Global, way: Way, row: &str) {
    let row = parts_of(rt, row);
    match way {
        Way::Answered => is_answered(rt, alloc, row),
        Way::Told => is_told(rt, alloc, row),
        Way::Long => is_answered_at_length(rt, alloc, row),
        Way::Faulty => is_faulty(rt, alloc, row),
        Way::Pieces => is_handed_in_pieces(rt, alloc, row),
        Way::Bytes => is_handed_in_bytes(rt, alloc, row),
        Way::Reader => tells_failures(rt, alloc, row),
        Way::Unread => tells_failures_unread(rt, alloc, row),
        Way::Live => is_answered_in_pieces(rt, alloc, row),
        Way::Offered => is_offered(rt, alloc, row),
    }
}

/// The rows of a table, each of which stands behind the mark: what is behind the first one. No table is without a row.
pub fn rows_of<'a>(rt: &impl Abort, table: &'a str, mark: char) -> &'a str {
    let (before, rows) = table.split_once(mark).expect(rt, "a row");
    assert!(rt; before.trim().is_empty(), "no mark");
    rows
}

/// Each row of each table passes.
fn pass(rt: &impl Abort, alloc: Global, way: Way, tables: &[&str]) {
    for table in tables {
        for row in rows_of(rt, table, '$').split('$') {
            row_passes(rt, alloc, way, row);
        }
    }
}

#[test]
fn texts_get_their_answers(rt: HostRuntime) {
    pass(&rt, rt.alloc(), Way::Answered, &CALLS);
}

#[test]
fn drawings_are_placed(rt: HostRuntime) {
    pass(&rt, rt.alloc(), Way::Answered, &DRAWINGS);
}

#[test]
fn calls_below_the_top_call_tell_their_texts(rt: HostRuntime) {
    pass(&rt, rt.alloc(), Way::Told, &TOLD);
}

#[test]
fn long_texts_are_answered(rt: HostRuntime) {
    pass(&rt, rt.alloc(), Way::Long, &[LONG, MANY_FLIPS]);
}

/// Whole pieces in memory, pieces of a few bytes, and single bytes.
#[test]
fn faults_have_their_statuses(rt: HostRuntime) {
    pass(&rt, rt.alloc(), Way::Faulty, &[FAULTS]);
    pass(&rt, rt.alloc(), Way::Pieces, &[PIECES]);
    pass(&rt, rt.alloc(), Way::Bytes, &[BYTES]);
}

/// A reader that fails isn't at its end, and a writer that fails, or takes nothing of a piece, has not taken it. A reader that
/// fails at its first call is no fault of a call that reads nothing.
#[test]
fn the_adapters_tell_failures(rt: HostRuntime) {
    pass(&rt, rt.alloc(), Way::Reader, &[READERS]);
    pass(&rt, rt.alloc(), Way::Unread, &[UNREAD]);
}

/// Each session of the table is answered by `live` as by `session`.
#[test]
fn live_answers_in_pieces(rt: HostRuntime) {
    pass(&rt, rt.alloc(), Way::Live, &[ENDS, SESSIONS]);
}

/// Whatever pair or triple of the clusters is offered first, and in whatever order its names stand, the
/// report that follows is the same, in every order. A triangle merge is taken although a pair of clusters could merge.
#[test]
fn every_offer_comes_to_the_same_report(rt: HostRuntime) {
    pass(&rt, rt.alloc(), Way::Offered, &[OFFERED]);
}
