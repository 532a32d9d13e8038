// The whole datum sketch.
ghost use Rattle.std.specs.Prelude.{◌≡◌, ◌≤◌, ◌+◌, ◌*◌, length, IfOk};
ghost use Rattle.sk_base.specs.SoundSketch.{IsSoundSketch};
ghost use Rattle.sk_gen.specs.DatumSketch.{datum_sketch};

use crate::constraints::constraints;
use crate::elements::elements;
use sk_base::{NoMemory, Sketch};
use std::alloc::Global;

/// The datum sketch of `n` elements: two axes, and points that are measured from both.
pub fn datum_sketch(alloc: Global, n: u32) -> Result<Sketch, NoMemory>
    requires least { 3 ≤ n }
    requires most { n ≤ 1000 }
    ensures sketch { IfOk result (λ s. s ≡ datum_sketch n) }
    ensures sound { IfOk result IsSoundSketch }
    ensures elements { IfOk result (λ s. length s.elements ≡ n) }
    ensures constraints { IfOk result (λ s. length s.constraints + 3 ≡ 2 * n) }
{
    let points = n - 2;
    let elements = elements(alloc, points)?;
    let constraints = constraints(alloc, points)?;
    Ok(Sketch {
        elements,
        constraints,
    })
}
