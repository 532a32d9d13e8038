ghost use Rattle.std.specs.Prelude.{◌≤◌, ◌<◌, ◌*◌, ◌^◌, ◌↔◌, IsTrue};
ghost use Rattle.sk_measure.specs.Least.{IsLeast};
ghost use Rattle.sk_measure.specs.Holding.{IsOffset};

/// Tells whether the offset is at most `t` units.
pub fn offset_holds(offset: u128, unit: u64, t: u64) -> bool
    ensures { IsTrue result ↔ IsOffset unit offset t }
{
    offset <= t as u128 * unit as u128
}

/// The least number of units that an offset is at most.
#[tactic(auto, using(crate::proofs::OffsetLemmas::least_offset, crate::proofs::OffsetLemmas::few_units))]
pub fn least_of_offset(offset: u128, unit: u64) -> u64
    requires some { 0 < unit }
    requires within { offset ≤ 2 ^ 63 * unit }
    ensures { IsLeast (IsOffset unit offset) result }
{
    offset.div_ceil(unit as u128) as u64
}
