// Drawings at the limits of the language, one element, constraint or byte beyond them, and long chains.
use crate::row::{Row, answer, ending_of, ends, joined, number};
use crate::tables::rows_of;
use sk_test_tables::limits::CHAINS;
use std::alloc::Global;
use std::process::Abort;

/// Puts the lines with the number in the place of each `#`, the two numbers before it in those of `<` and `=`, whether it is
/// even in that of `~`, and what it leaves by 7 in that of `^`.
fn put_numbered(rt: &impl Abort, alloc: Global, text: &mut String, lines: &str, number: u32) {
    for mark in lines.chars() {
        let shown = match mark {
            '#' => number,
            '<' => number.saturating_sub(1),
            '=' => number.saturating_sub(2),
            '~' => number.saturating_sub(1) % 2,
            '^' => number % 7,
            _ => {
                text.push(mark).expect(rt, "memory");
                continue;
            }
        };
        let shown = format!(in alloc; "{shown}").expect(rt, "memory");
        text.push_str(shown.as_str()).expect(rt, "memory");
    }
}

/// A text by its parts, the second of each two of them once for each number from 3 to the last.
fn long_text(rt: &impl Abort, alloc: Global, parts: &str, last: u32) -> String {
    let mut text = String::new(alloc);
    for (i, part) in parts.split("..\n").enumerate() {
        if i % 2 == 0 {
            text.push_str(part).expect(rt, "memory");
        } else {
            for number in 3..=last {
                put_numbered(rt, alloc, &mut text, part, number);
            }
        }
    }
    text
}

/// What the bytes come to by a fixed recurrence.
fn fingerprint(bytes: &[u8]) -> u32 {
    let mut print = 0u32;
    for byte in bytes {
        print = print % 65537 * 257 + u32::from(*byte);
    }
    print
}

/// A number of a row that isn't large.
fn small(rt: &impl Abort, text: &str) -> u32 {
    u32::try_from(number(rt, text)).expect(rt, "a small number")
}

/// The call of the row comes to its text.
pub(crate) fn is_answered_at_length(rt: &impl Abort, alloc: Global, (line, input, wanted): Row) {
    let (last, words) = line.split_once(':').expect(rt, "a number");
    let last = small(rt, last);
    let input = long_text(rt, alloc, input, last);
    let (status, sink) = answer(rt, alloc, words, input.as_bytes());
    match wanted.split_once(" print ") {
        Some((wanted_status, print)) => {
            let wanted_status = number(rt, wanted_status);
            let print = small(rt, print.trim());
            assert!(rt;
                u64::from(status) == wanted_status && fingerprint(sink.written()) == print,
                "{line}"
            );
        }
        None => {
            let wanted = long_text(rt, alloc, wanted, last);
            let wanted = ending_of(rt, wanted.as_str());
            ends(rt, line, (status, sink.written()), wanted);
        }
    }
}

/// The drawing is placed by points in the order.
fn is_placed(rt: &impl Abort, alloc: Global, within: &str, text: &str, order: &str) {
    let words = [" solve within=", within, " place=points order=", order];
    let line = joined(rt, alloc, &words);
    let (status, _sink) = answer(rt, alloc, line.as_str(), text.as_bytes());
    assert!(rt; status == 0, "{line} of {text}");
}

/// The chain is placed in four orders.
fn is_placed_at_length(rt: &impl Abort, alloc: Global, within: &str, parts: &str, last: u32) {
    let chain = long_text(rt, alloc, parts, last);
    let text = joined(rt, alloc, &["sketch 2\n", chain.as_str(), "end\n"]);
    is_placed(rt, alloc, within, text.as_str(), "first");
    is_placed(rt, alloc, within, text.as_str(), "last");
    is_placed(rt, alloc, within, text.as_str(), "7");
    is_placed(rt, alloc, within, text.as_str(), "64");
}

#[test]
fn long_chains_are_placed(rt: HostRuntime) {
    for row in rows_of(&rt, CHAINS, '$').split('$') {
        let (numbers, parts) = row.split_once('\n').expect(&rt, "parts");
        let (within, lengths) = numbers.split_once(' ').expect(&rt, "lengths");
        for length in lengths.split(' ') {
            is_placed_at_length(&rt, rt.alloc(), within, parts, small(&rt, length));
        }
    }
}
