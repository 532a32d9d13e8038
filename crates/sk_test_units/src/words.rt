use sk_lines::words_of;

#[test]
fn words_stand_between_blanks(rt: HostRuntime) {
    let words = words_of(rt.alloc(), b" point\tA  0 -1.5").expect(&rt, "a line");
    let wanted = [(1, 6), (7, 8), (10, 11), (12, 16)];
    assert!(rt; words.items.len() == wanted.len());
    for (word, (start, end)) in words.items.as_slice().iter().zip(wanted) {
        assert!(rt; word.start == start && word.end == end, "at {start}");
    }
}
