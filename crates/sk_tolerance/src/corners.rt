// The first three pins of a block that don't lie on one line.
ghost use Rattle.std.specs.Prelude.{◌≡◌, All, find};
ghost use Rattle.sk_base.specs.Pins.{IsOnSheet};
ghost use Rattle.sk_base.specs.Places.{IsPoint, IsBounded};
ghost use Rattle.sk_tolerance.specs.BlockTurns.{twos, given_place, turn_given, is_turn, corners as first_corners};

use sk_base::{At, Pin};
use sk_orient::turn_placed;

/// The first three pins, compared by place, that don't lie on one line as they are given.
pub fn corners_of(pins: &[Pin]) -> Option<(Pin, Pin, Pin)>
    requires { All IsOnSheet pins.now }
    ensures { result ≡ first_corners pins.now }
{
    for (i, a) in pins.iter().enumerate() {
        if let Some((b, c)) = two_beside(*a, &pins[i + 1..]) {
            return Some((*a, b, c));
        }
    }
    None
}

/// The first two of the pins that don't lie on one line with `a`.
fn two_beside(a: Pin, pins: &[Pin]) -> Option<(Pin, Pin)>
    requires a { IsOnSheet a }
    requires pins { All IsOnSheet pins.now }
    ensures { result ≡ find (λ two. is_turn (turn_given (a, two.0, two.1))) (twos pins.now) }
{
    for (i, b) in pins.iter().enumerate() {
        if let Some(c) = one_beside(a, *b, &pins[i + 1..]) {
            return Some((*b, c));
        }
    }
    None
}

/// The first of the pins that doesn't lie on one line with `a` and `b`.
fn one_beside(a: Pin, b: Pin, pins: &[Pin]) -> Option<Pin>
    requires a { IsOnSheet a }
    requires b { IsOnSheet b }
    requires pins { All IsOnSheet pins.now }
    ensures { result ≡ find (λ c. is_turn (turn_given (a, b, c))) pins.now }
{
    for c in pins {
        if is_turn(turn_given(a, b, *c)) {
            return Some(*c);
        }
    }
    None
}

fn is_turn(turn: i8) -> bool
    ensures { result ≡ is_turn turn }
{
    turn != 0
}

/// The turn of three pins as they are given: −1, 0 or 1.
pub fn turn_given(a: Pin, b: Pin, c: Pin) -> i8
    requires a { IsOnSheet a }
    requires b { IsOnSheet b }
    requires c { IsOnSheet c }
    ensures { result ≡ turn_given (a, b, c) }
{
    turn_placed(given_place(a), given_place(b), given_place(c))
}

/// Where the pin lies in its block.
fn given_place(pin: Pin) -> At
    requires { IsOnSheet pin }
    ensures place { result ≡ given_place pin }
    ensures bounded { IsPoint result × IsBounded result }
{
    At::Point {
        x: pin.x.0,
        y: pin.y.0,
    }
}
