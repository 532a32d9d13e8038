use sk_base::Um;
use sk_text::{Puts, Text};

#[test]
fn spellings(rt: HostRuntime) {
    let mut text = Text::new(rt.alloc());
    for n in [0, -1, i128::MAX, i128::MIN] {
        text.put_whole(n).expect(&rt, "memory");
        text.put(b" ").expect(&rt, "memory");
    }
    for um in [0, 500, -2050, 1_000_000_000] {
        text.put_mm(Um(um)).expect(&rt, "memory");
        text.put(b" ").expect(&rt, "memory");
    }
    for nm in [-5_000_000, 1, -500_000] {
        text.put_fixed(nm).expect(&rt, "memory");
        text.put(b" ").expect(&rt, "memory");
    }
    let wanted =
        "0 -1 170141183460469231731687303715884105727 -170141183460469231731687303715884105728 0 0.5 -2.05 1000000 -5.000000 0.000001 -0.500000 ";
    assert!(rt; text.as_bytes() == wanted.as_bytes());
}
