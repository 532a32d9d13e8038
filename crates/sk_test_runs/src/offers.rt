// Offered merges, orders of merges, and what both come to.
use crate::row::{Row, answers, joined};
use sk_test_tables::offers::{DOUBLED, DOUBLED_REPORT};
use std::alloc::Global;
use std::process::Abort;

/// In each order the offers get their answers, and the report.
pub(crate) fn is_offered(rt: &impl Abort, alloc: Global, (line, offers, lines): Row) {
    assert!(rt; line.is_empty(), "no words");
    let input = joined(rt, alloc, &[DOUBLED, "\n", offers, "end\n"]);
    let wanted = joined(rt, alloc, &["0\n", lines, DOUBLED_REPORT]);
    let (input, wanted) = (input.as_bytes(), wanted.as_str());
    answers(rt, alloc, " offers order=first", input, wanted);
    answers(rt, alloc, " offers order=last", input, wanted);
    answers(rt, alloc, " offers order=5", input, wanted);
}
