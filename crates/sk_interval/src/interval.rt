//! Intervals, and what can go wrong with them.
ghost use Rattle.std.specs.Prelude.{◌≡◌, ◌≤◌, ◌^◌, ℕ, ◌≤ℤ◌, ◌*ℤ◌, pos, max, unsigned_abs, IfOk, IsFalse};
ghost use Rattle.sk_interval.specs.Interval.{Interval, one, IsInterval};
ghost use Rattle.sk_interval.specs.Around.{IsLeastAround, GivesLeast, BelowLength, AboveLength, BelowSums, AboveSums, BelowDifferences, AboveDifferences, BelowProducts, AboveProducts, BelowQuotients, AboveQuotients, BelowRoots, AboveRoots};
ghost use Rattle.sk_interval.specs.Nesting.{IsInside, IsRefinedInside, IsRefinedInsideOne, HoldsFiner};
ghost use Rattle.sk_interval.specs.Operations.{of_micrometres, whole, negative, bounded, sum, difference, product, quotient, root, middle, length_of, normal_of, holds_zero};

use crate::grid::Grid;
use crate::quotient::{
    ceil, extreme_products, extreme_quotients, floor, product_is_within, two_to,
};
use sk_base::Um;
use sk_root::{root_ceil, root_floor};
use std::marker::{Model, PhantomData};

/// Why an operation has no interval. The ends are whole numbers of grid units, of which `2^BITS` stand
/// for 1.
#[derive(Clone, Copy, PartialEq, Eq, Debug)]
pub enum Cause {
    /// A divisor or a radicand that holds zero, by its ends.
    Flat { lo: i128, hi: i128 },
    /// A radicand below zero, by its ends.
    Gap { lo: i128, hi: i128 },
    /// An end of the result passes the limit.
    Range,
}

/// An interval of the grid `G`, by its ends.
#[derive(Clone, Copy)]
pub struct Iv<G: Grid> {
    lo: i128,
    hi: i128,
    grid: PhantomData<G>,
}

impl<G: Grid> Model for Iv<G> {
    ghost use Rattle.sk_interval.specs.Interval.{Interval, IsInterval};

    ghost Value = { Interval };

    ghost view = { λ x. record { lo = x.lo; hi = x.hi } };

    ghost invariant = { λ x. IsInterval G.BITS (record { lo = x.lo; hi = x.hi }) };

    ghost inverse = { λ x. record { lo = x.lo; hi = x.hi; grid = record {} } };
}

/// The number of the grid that stands for 1.
#[tactic(auto, using(crate::proofs::PowerLemmas::powers))]
fn unit<G: Grid>() -> i128
    ensures value { result ≡ pos (one G.BITS) }
    ensures limit { result ≤ℤ pos (2 ^ 38) }
    ensures positive { pos 256 ≤ℤ result }
{
    two_to(G::BITS) as i128
}

/// `n` times the number that stands for 1.
fn scaled<G: Grid>(n: i128) -> i128
    requires { unsigned_abs n ≤ 2 ^ 88 }
    ensures value { result ≡ n *ℤ pos (one G.BITS) }
    ensures within { unsigned_abs result ≤ 2 ^ 126 }
{
    n * unit::<G>()
}

impl<G: Grid> Iv<G> {
    /// The interval with these ends, unless one passes `2^bits` in value.
    #[tactic(auto, using(crate::proofs::PowerLemmas::powers))]
    fn bounded(lo: i128, hi: i128, bits: u32) -> Result<Iv<G>, Cause>
        requires ordered { lo ≤ℤ hi }
        requires bits { bits ≤ 50 }
        ensures { result ≡ bounded bits G.BITS (record { lo = lo; hi = hi }) }
    {
        let most = two_to(bits + G::BITS);
        if lo.unsigned_abs() <= most && hi.unsigned_abs() <= most {
            Ok(Iv {
                lo,
                hi,
                grid: PhantomData,
            })
        } else {
            Err(Cause::Range)
        }
    }

    /// The interval with these ends.
    fn of_ends(lo: i128, hi: i128) -> Iv<G>
        requires { IsInterval G.BITS (record { lo = lo; hi = hi }) }
        ensures { result ≡ record { lo = lo; hi = hi } }
    {
        Iv {
            lo,
            hi,
            grid: PhantomData,
        }
    }

    /// The ends, in grid units, of which `2^BITS` stand for 1.
    pub fn ends(&self) -> (i128, i128)
        ensures { result ≡ record { 0 = self.now.lo; 1 = self.now.hi } }
    {
        (self.lo, self.hi)
    }

    /// Tells whether zero lies between the ends.
    fn holds_zero(&self) -> bool
        ensures { result ≡ holds_zero self.now }
    {
        self.lo <= 0 && 0 <= self.hi
    }

    /// That it holds zero, where it may not.
    fn flat(&self) -> Cause
        ensures { result ≡ Cause.Flat self.now.lo self.now.hi }
    {
        Cause::Flat {
            lo: self.lo,
            hi: self.hi,
        }
    }

    /// The greater size of an end.
    #[tactic(auto, using(crate::proofs::PowerLemmas::limits))]
    fn size(&self) -> u128
        ensures value { result ≡ max (unsigned_abs self.now.lo) (unsigned_abs self.now.hi) }
        ensures within { result ≤ 2 ^ 88 }
    {
        self.lo.unsigned_abs().max(self.hi.unsigned_abs())
    }

    /// The least interval around a length that is given in micrometres, in millimetres.
    pub fn of_um(v: Um) -> Iv<G>
        requires { unsigned_abs v.0 ≤ 2000000000 }
        ensures value { result ≡ of_micrometres G.BITS v.0 }
        ensures least { IsLeastAround (BelowLength G.BITS v.0) (AboveLength G.BITS v.0) result }
        ensures nested { HoldsFiner of_micrometres G.BITS v.0 result }
    {
        let thousandths = scaled::<G>(i128::from(v.0));
        Iv::of_ends(floor(thousandths, 1000), ceil(thousandths, 1000))
    }

    /// A whole number.
    pub fn whole(n: i64) -> Iv<G>
        requires { unsigned_abs n ≤ 2 ^ 40 }
        ensures value { result ≡ whole G.BITS n }
        ensures nested { HoldsFiner whole G.BITS n result }
    {
        let end = scaled::<G>(i128::from(n));
        Iv::of_ends(end, end)
    }

    /// The interval on the other side of zero.
    #[tactic(auto, using(crate::proofs::PowerLemmas::limits))]
    pub fn neg(self) -> Iv<G>
        ensures value { result ≡ negative self }
        ensures nested { (k : ℕ) (x : Interval) → IsInside k x self → IsInside k (negative x) result }
    {
        Iv {
            lo: -self.hi,
            hi: -self.lo,
            grid: PhantomData,
        }
    }

    /// The sums.
    #[tactic(auto, using(crate::proofs::PowerLemmas::limits))]
    pub fn add(self, other: Iv<G>) -> Result<Iv<G>, Cause>
        ensures value { result ≡ sum G.BITS self other }
        ensures least { GivesLeast G.BITS (BelowSums self other) (AboveSums self other) result }
        ensures nested { IsRefinedInside sum G.BITS self other result }
    {
        Iv::bounded(self.lo + other.lo, self.hi + other.hi, 50)
    }

    /// The differences.
    #[tactic(auto, using(crate::proofs::PowerLemmas::limits))]
    pub fn sub(self, other: Iv<G>) -> Result<Iv<G>, Cause>
        ensures value { result ≡ difference G.BITS self other }
        ensures least { GivesLeast G.BITS (BelowDifferences self other) (AboveDifferences self other) result }
        ensures nested { IsRefinedInside difference G.BITS self other result }
    {
        Iv::bounded(self.lo - other.hi, self.hi - other.lo, 50)
    }

    /// The products.
    pub fn mul(self, other: Iv<G>) -> Result<Iv<G>, Cause>
        ensures value { result ≡ product G.BITS self other }
        ensures least { GivesLeast G.BITS (BelowProducts G.BITS self other) (AboveProducts G.BITS self other) result }
        ensures nested { IsRefinedInside product G.BITS self other result }
    {
        let most = two_to(50 + 2 * G::BITS);
        if product_is_within(self.size(), other.size(), most) {
            let (least, greatest) = extreme_products(self.lo, self.hi, other.lo, other.hi);
            let one = unit::<G>();
            Iv::bounded(floor(least, one), ceil(greatest, one), 50)
        } else {
            Err(Cause::Range)
        }
    }

    /// The quotients.
    #[tactic(auto, using(crate::proofs::PowerLemmas::limits))]
    pub fn div(self, other: Iv<G>) -> Result<Iv<G>, Cause>
        ensures value { result ≡ quotient G.BITS self other }
        ensures least { IsFalse (holds_zero other) → GivesLeast G.BITS (BelowQuotients G.BITS self other) (AboveQuotients G.BITS self other) result }
        ensures nested { IsRefinedInside quotient G.BITS self other result }
    {
        if other.holds_zero() {
            Err(other.flat())
        } else {
            let (lo, hi) = (scaled::<G>(self.lo), scaled::<G>(self.hi));
            let (least, greatest) = extreme_quotients(lo, hi, other.lo, other.hi);
            Iv::bounded(least, greatest, 50)
        }
    }

    /// The square roots.
    #[tactic(auto, using(crate::proofs::PowerLemmas::limits))]
    pub fn sqrt(self) -> Result<Iv<G>, Cause>
        ensures value { result ≡ root G.BITS self }
        ensures least { IfOk result (IsLeastAround (BelowRoots G.BITS self) (AboveRoots G.BITS self)) }
        ensures nested { IsRefinedInsideOne root G.BITS self result }
    {
        let (lo, hi) = (self.lo, self.hi);
        if lo > 0 {
            let least = root_floor(scaled::<G>(lo).unsigned_abs());
            let greatest = root_ceil(scaled::<G>(hi).unsigned_abs());
            Ok(Iv::of_ends(i128::from(least), i128::from(greatest)))
        } else if hi < 0 {
            Err(Cause::Gap { lo, hi })
        } else {
            Err(self.flat())
        }
    }

    /// The midpoint, rounded down to the grid, as both ends.
    #[tactic(auto, using(crate::proofs::PowerLemmas::limits))]
    pub fn middle(self) -> Iv<G>
        ensures value { result ≡ middle self }
        ensures inside { (self.lo ≤ℤ result.lo) × (result.hi ≤ℤ self.hi) }
    {
        let midpoint = floor(self.lo + self.hi, 2);
        Iv::of_ends(midpoint, midpoint)
    }

    /// The interval itself, unless an end passes 2^40 in value.
    pub fn length_box(self) -> Result<Iv<G>, Cause>
        ensures value { result ≡ length_of G.BITS self }
        ensures nested { IsRefinedInsideOne length_of G.BITS self result }
    {
        Iv::bounded(self.lo, self.hi, 40)
    }

    /// The interval itself, unless an end passes 2 in value.
    pub fn normal_box(self) -> Result<Iv<G>, Cause>
        ensures value { result ≡ normal_of G.BITS self }
        ensures nested { IsRefinedInsideOne normal_of G.BITS self result }
    {
        Iv::bounded(self.lo, self.hi, 1)
    }
}
