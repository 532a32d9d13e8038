// Words that aren't of the form: no byte is read.
use crate::row::{answer_over, ending_of, ends};
use crate::tables::rows_of;
use sk_test_tables::usage::NO_FORMS;

/// What such words come to: the one copy of the usage line in the tests, which those in Python read here too.
pub const USAGE: &str =
    "2\nusage: sketch check|plan|solve|dxf|offers|session|grow|migrate|verify|spare|flips|derive|parts|live|excess|complete|measure|why [order=first|last|0..65535] [bits=16|27|38] [within=1..1000000] [place=boxes|points] [frame=base|drawn] [n=3..1000]\n";

/// The first read would fail, so a call that reads would end with another status.
#[test]
fn other_words_get_the_usage_line(rt: HostRuntime) {
    let failing = (b"end\n".as_slice(), [1].as_slice());
    for line in rows_of(&rt, NO_FORMS, '\n').split('\n') {
        let (status, sink) = answer_over(&rt, rt.alloc(), line, failing, (1000, &[]));
        ends(&rt, line, (status, sink.written()), ending_of(&rt, USAGE));
    }
}
