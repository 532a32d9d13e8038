// The report on a sketch that was made.
ghost use Rattle.std.specs.Prelude.{◌≡◌, ◌+◌, ◌+ℤ◌, ◌++◌, ℕ, IfOk, OnOk};
ghost use Rattle.sk_base.specs.Bounds.{IsWithin};
ghost use Rattle.sk_report.specs.GrowReport.{x_of, y_of, x_sum, y_sum, grow_counts, sum_line, grow_report};

use crate::solve::{put_named, put_number, put_tolerance};
use sk_base::{At, NoMemory, Placed, Sketch, Spot, Text};
use sk_tolerance::Tolerance;
use sk_tree::Plan;
use std::alloc::Global;

/// The summary of a sketch that was made: how many elements, constraints and steps it has, the sums of
/// the coordinates of all points and centres, in nanometres, and the tolerance.
pub fn grow_text(
    alloc: Global,
    s: &Sketch,
    p: &Plan,
    at: &Placed,
    t: &Tolerance,
) -> Result<Text, NoMemory>
    ensures { IfOk result (λ text. text ≡ grow_report s.now p.now at.now t.now) }
{
    let sums = sums(at.spots.as_slice());
    let mut text = Text::new(alloc);
    put_counts(alloc, &mut text, s, p)?;
    put_sum(&mut text, b"x", sums.x)?;
    put_sum(&mut text, b"y", sums.y)?;
    put_tolerance(alloc, &mut text, s, t)?;
    Ok(text)
}

/// Puts the numbers of elements, constraints and steps.
fn put_counts(alloc: Global, text: &mut Text, s: &Sketch, p: &Plan) -> Result<(), NoMemory>
    ensures { OnOk result (text.new ≡ text.old ++ grow_counts s.now p.now) }
{
    let elements = s.elements.len();
    let constraints = s.constraints.len();
    let steps = p.steps.len();
    let counts = format!(in alloc;
        "grow {elements}\nelements {elements}\nconstraints {constraints}\nverdict well\nsteps {steps}\n"
    )?;
    text.put(counts.as_bytes())
}

/// Puts the sum along an axis.
fn put_sum(text: &mut Text, axis: &[u8], sum: i128) -> Result<(), NoMemory>
    ensures { OnOk result (text.new ≡ text.old ++ sum_line axis.now sum) }
{
    put_named(text, b"sum ", axis)?;
    put_number(text, sum)?;
    text.put(b" nm\n")
}

/// The sums of the coordinates of all points and centres.
fn sums(spots: &[Spot]) -> Totals
    ensures x { result.x ≡ x_sum spots.now }
    ensures y { result.y ≡ y_sum spots.now }
{
    let mut sums = Totals { x: 0, y: 0 };
    for spot in spots {
        sums = sums.with(spot.at);
    }
    sums
}

/// Sums along both axes, in nanometres.
#[derive(Clone, Copy, Debug, PartialEq, Eq)]
struct Totals {
    x: i128,
    y: i128,
}

impl Totals {
    /// The sums with the coordinates of a point or a centre. A line adds nothing.
    fn with(self, at: At) -> Totals
        requires x { IsWithin 170141183460469231713240559642174554112 self.x }
        requires y { IsWithin 170141183460469231713240559642174554112 self.y }
        ensures x { result.x ≡ self.x +ℤ x_of at }
        ensures y { result.y ≡ self.y +ℤ y_of at }
        ensures x_within { (most : ℕ) → IsWithin most self.x → IsWithin (most + 9223372036854775808) result.x }
        ensures y_within { (most : ℕ) → IsWithin most self.y → IsWithin (most + 9223372036854775808) result.y }
    {
        match at {
            At::Point { x, y } => Totals {
                x: self.x + i128::from(x),
                y: self.y + i128::from(y),
            },
            At::Line { .. } => self,
        }
    }
}
