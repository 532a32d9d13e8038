// How far the pins of a block are from where they are given to lie.
ghost use Rattle.sk_base.specs.Pins.{IsOnSheet};
ghost use Rattle.sk_measure.specs.Least.{IsLeast};
ghost use Rattle.sk_measure.specs.Placing.{IsPinPlaced, AreMeasurable};
ghost use Rattle.sk_measure.specs.Items.{IsPairMet, ArePinsMet, AreMetWith};

use crate::lookup::place;
use crate::measured::least_of_pair;
use sk_base::{Pin, Placed};

/// The least number within which each two of the pins lie as far apart as they are given.
pub fn least_of_pins(p: &Placed, pins: &[Pin]) -> u64
    requires { AreMeasurable p.now pins.now }
    ensures { IsLeast (ArePinsMet p.now pins.now) result }
{
    let mut least = 0;
    for (i, pin) in pins.iter().enumerate() {
        least = least.max(least_with(p, &pins[..i], pin));
    }
    least
}

/// The least number within which each of some pins and a further one lie as far apart as they are given.
fn least_with(p: &Placed, pins: &[Pin], further: &Pin) -> u64
    requires pins { AreMeasurable p.now pins.now }
    requires on_sheet { IsOnSheet further.now }
    requires placed { IsPinPlaced p.now further.now }
    ensures { IsLeast (AreMetWith p.now pins.now further.now) result }
{
    let mut least = 0;
    for pin in pins {
        least = least.max(least_between(p, pin, further));
    }
    least
}

/// The least number within which the two pins lie as far apart as they are given.
fn least_between(p: &Placed, a: &Pin, b: &Pin) -> u64
    requires a { IsOnSheet a.now × IsPinPlaced p.now a.now }
    requires b { IsOnSheet b.now × IsPinPlaced p.now b.now }
    ensures { IsLeast (λ t. IsPairMet p.now t a.now b.now) result }
{
    least_of_pair(a, b, place(p, a.elem), place(p, b.elem))
}
