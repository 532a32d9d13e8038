use sk_root::{root_ceil, root_floor};
use std::process::Abort;

const TWO_TO_63: u64 = 0x8000_0000_0000_0000;

const TWO_TO_126: u128 = 0x4000_0000_0000_0000_0000_0000_0000_0000;

fn lies_between(rt: &impl Abort, n: u128, floor: u64, ceil: u64) {
    assert!(rt; n <= TWO_TO_126);
    assert!(rt;
        root_floor(n) == floor && root_ceil(n) == ceil,
        "the roots of {n}"
    );
}

#[test]
fn roots_at_and_beside_squares(rt: HostRuntime) {
    lies_between(&rt, 0, 0, 0);
    lies_between(&rt, 1, 1, 1);
    lies_between(&rt, 2, 1, 2);
    lies_between(&rt, 99, 9, 10);
    lies_between(&rt, 100, 10, 10);
    lies_between(&rt, TWO_TO_126, TWO_TO_63, TWO_TO_63);
    assert!(rt; root_floor(u128::MAX) == u64::MAX);
}
