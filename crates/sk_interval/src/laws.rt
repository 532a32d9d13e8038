//! What holds on every grid, whatever its number of digits.
ghost use Rattle.std.specs.Prelude.{ℕ, ℤ, ◌≤ℤ◌, IfOk, IsFalse};
ghost use Rattle.sk_interval.specs.Interval.{Interval};
ghost use Rattle.sk_interval.specs.Around.{IsLeastAround, GivesLeast, BelowLength, AboveLength, BelowSums, AboveSums, BelowDifferences, AboveDifferences, BelowProducts, AboveProducts, BelowQuotients, AboveQuotients, BelowRoots, AboveRoots};
ghost use Rattle.sk_interval.specs.Operations.{of_micrometres, sum, difference, product, quotient, root, holds_zero};

/// Each operation gives the least interval around the exact results of all pairs of ends, on the finer grids too that
/// no program has.
pub fn operations_are_least_on_every_grid()
    ensures lengths { (F : ℕ) (v : ℤ) → IsLeastAround (BelowLength F v) (AboveLength F v) (of_micrometres F v) }
    ensures sums { (F : ℕ) (x y : Interval) → x.lo ≤ℤ x.hi → y.lo ≤ℤ y.hi → GivesLeast F (BelowSums x y) (AboveSums x y) (sum F x y) }
    ensures differences { (F : ℕ) (x y : Interval) → x.lo ≤ℤ x.hi → y.lo ≤ℤ y.hi → GivesLeast F (BelowDifferences x y) (AboveDifferences x y) (difference F x y) }
    ensures products { (F : ℕ) (x y : Interval) → GivesLeast F (BelowProducts F x y) (AboveProducts F x y) (product F x y) }
    ensures quotients { (F : ℕ) (x y : Interval) → y.lo ≤ℤ y.hi → IsFalse (holds_zero y) → GivesLeast F (BelowQuotients F x y) (AboveQuotients F x y) (quotient F x y) }
    ensures roots { (F : ℕ) (x : Interval) → x.lo ≤ℤ x.hi → IfOk (root F x) (IsLeastAround (BelowRoots F x) (AboveRoots F x)) }
{}
