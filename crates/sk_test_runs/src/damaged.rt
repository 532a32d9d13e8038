// A small sketch, cut before each of its bytes, and with each byte changed: what each text is answered.
use crate::row::answers;
use sk_test_tables::damaged::{
    BLANK, CARRIAGE_RETURN, CUT, DIGIT, LETTER, LINE_FEED, OTHER, REPORT, SIGN, TRIANGLE,
};
use std::alloc::Global;
use std::process::Abort;

/// The line that a mark of that line names, and its code.
fn refusal(mark: u8, line: u32) -> (u32, &'static str) {
    let next = line.saturating_add(1);
    match mark {
        b'0' => (0, "E18 empty"),
        b'1' => (line, "E1 header"),
        b'2' => (line, "E2 word"),
        b'3' => (line, "E3 shape"),
        b'4' => (line, "E4 name"),
        b'6' => (line, "E6 unknown"),
        b'8' => (line, "E8 number"),
        b'9' => (line, "E9 zero"),
        b'E' => (line, "E16 no-end"),
        b'e' => (next, "E16 no-end"),
        b'h' => (next, "E1 header"),
        b'n' => (line, "E19 not-ascii"),
        b'u' => (5, "E6 unknown"),
        b'v' => (6, "E6 unknown"),
        _ => (next, "E2 word"),
    }
}

/// The text gets the report, or the refusal of the mark.
fn is_answered(rt: &impl Abort, alloc: Global, text: &[u8], mark: u8, line: u32) {
    if mark == b'.' {
        answers(rt, alloc, " check", text, REPORT);
    } else {
        let (number, code) = refusal(mark, line);
        let wanted = format!(in alloc; "1\nrefused line {number} {code}\n").expect(rt, "memory");
        answers(rt, alloc, " check", text, wanted.as_str());
    }
}

/// The sketch with that byte in that place, or cut there.
fn damaged_text(rt: &impl Abort, alloc: Global, place: usize, byte: Option<u8>) -> Vec<u8> {
    let mut text = TRIANGLE.to_vec(alloc).expect(rt, "memory");
    match byte {
        None => text.truncate(place),
        Some(byte) => {
            if place < text.len() {
                text[place] = byte;
            }
        }
    }
    text
}

/// Each text with that byte in the place of another passes, or each that is cut.
fn mask_passes(rt: &impl Abort, alloc: Global, byte: Option<u8>, mask: &str) {
    let (mut place, mut line) = (0usize, 0u32);
    for mark in mask.bytes() {
        if mark == b'\n' {
            line = line.saturating_add(1);
        } else {
            let text = damaged_text(rt, alloc, place, byte);
            is_answered(rt, alloc, text.as_slice(), mark, line);
            place = place.saturating_add(1);
        }
    }
    assert!(rt; place == TRIANGLE.len(), "a mark for each byte");
}

/// Each text with one of those bytes in the place of another passes.
fn masks_pass(rt: &impl Abort, alloc: Global, bytes: &[u8], mask: &str) {
    for byte in bytes {
        mask_passes(rt, alloc, Some(*byte), mask);
    }
}

/// The sketch is cut before each byte; each byte is changed to each of some, and to bytes beyond ASCII.
#[test]
fn each_damaged_text_has_its_answer(rt: HostRuntime) {
    mask_passes(&rt, rt.alloc(), None, CUT);
    masks_pass(&rt, rt.alloc(), b" \t", BLANK);
    masks_pass(&rt, rt.alloc(), b"\n", LINE_FEED);
    masks_pass(&rt, rt.alloc(), b"\r", CARRIAGE_RETURN);
    masks_pass(&rt, rt.alloc(), b"\0\x0b\x7f\xc3\xff", OTHER);
    masks_pass(&rt, rt.alloc(), b".-/_", SIGN);
    masks_pass(&rt, rt.alloc(), b"Z", LETTER);
    masks_pass(&rt, rt.alloc(), b"0", DIGIT);
}
