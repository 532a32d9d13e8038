//! Whole square roots of numbers of up to 128 bits, rounded down and up.
#![tactic(auto)]

ghost use Rattle.std.specs.Prelude.{◌≡◌, ◌≤◌, ◌^◌};
ghost use Rattle.sk_root.specs.Roots.{floor_root, ceil_root, IsGreatestBelow, IsLeastAbove};

/// The root of `n`, rounded down.
#[tactic(auto, using(crate::proofs::RootLemmas::root_lemmas))]
pub fn root_floor(n: u128) -> u64
    ensures value { result ≡ floor_root n }
    ensures greatest { IsGreatestBelow n result }
{
    n.isqrt() as u64
}

/// The root of `n`, rounded up.
#[tactic(auto, using(crate::proofs::RootLemmas::root_lemmas))]
pub fn root_ceil(n: u128) -> u64
    requires { n ≤ 2 ^ 126 }
    ensures value { result ≡ ceil_root n }
    ensures least { IsLeastAbove n result }
{
    let root = n.isqrt();
    if root * root == n {
        root as u64
    } else {
        (root + 1) as u64
    }
}
