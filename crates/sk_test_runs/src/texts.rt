// The datum sketch as text and as a plan, lists, texts, and numbers of millimetres, with ample memory.
use crate::calls::planned;
use crate::row::put_each;
use sk_base::{ConId, List, Text, parse_mm};
use sk_gen::datum_sketch;
use sk_graph::reduce;
use sk_lang::write_sketch;
use std::alloc::Global;
use std::process::Abort;

/// The least datum sketch, and how many steps its plan has.
pub(crate) fn datum_told(rt: &impl Abort, alloc: Global) -> Text {
    let sketch = datum_sketch(alloc, 3).expect(rt, "memory");
    let mut told = write_sketch(alloc, &sketch).expect(rt, "memory");
    let graph = reduce(alloc, &sketch).expect(rt, "memory");
    let steps = planned(rt, alloc, &sketch, &graph).steps.len();
    let line = format!(in alloc; "steps {steps}\n").expect(rt, "memory");
    told.put(line.as_bytes()).expect(rt, "memory");
    told
}

/// Three numbers, of which the second was put between the others; then the one whose place another took, the one that was
/// taken out, and what is left.
pub(crate) fn list_told(rt: &impl Abort, alloc: Global) -> Text {
    let mut list = List::new(alloc);
    list.push(ConId(1)).expect(rt, "memory");
    list.push(ConId(3)).expect(rt, "memory");
    list.insert(1, ConId(2)).expect(rt, "memory");
    let mut told = Text::new(alloc);
    put_each(rt, alloc, &mut told, list.as_slice());
    let changed = [list.set(0, ConId(5)), list.remove(2)];
    put_each(rt, alloc, &mut told, &changed);
    put_each(rt, alloc, &mut told, list.as_slice());
    told
}

/// A text put down in three pieces.
pub(crate) fn pieces_told(rt: &impl Abort, alloc: Global) -> Text {
    let mut text = Text::new(alloc);
    text.put(b"sketch").expect(rt, "memory");
    text.put(b"").expect(rt, "memory");
    text.put(b" 1\n").expect(rt, "memory");
    text
}

/// What each line reads as, as a number of millimetres.
pub(crate) fn numbers_told(rt: &impl Abort, alloc: Global, lines: &str) -> Text {
    let mut told = Text::new(alloc);
    for line in lines.lines() {
        let um = parse_mm(line.as_bytes()).ok();
        let line = format!(in alloc; "{line} {um:?}\n").expect(rt, "memory");
        told.put(line.as_bytes()).expect(rt, "memory");
    }
    told
}
