ghost use Rattle.sk_base.specs.Drawn.{HasCentre, IsLine};
ghost use Rattle.sk_base.specs.Places.{IsPoint, IsBounded, IsLine as IsPlacedLine};
ghost use Rattle.sk_orient.specs.DrawnSigns.{IsOnPaper};

use sk_base::{At, Ratio, Shape, Sign, Um};
use sk_orient::{
    advance_drawn, advance_placed, sense_drawn, sense_placed, side_drawn, side_placed, turn_drawn,
    turn_placed,
};
use std::process::Abort;

fn point(x: i8, y: i8) -> Shape
    ensures kind { HasCentre result }
    ensures within { IsOnPaper result }
{
    Shape::Point {
        x: Um(i64::from(x)),
        y: Um(i64::from(y)),
    }
}

/// The line from (0, 0) to that place.
fn line(x: i8, y: i8) -> Shape
    ensures kind { IsLine result }
    ensures within { IsOnPaper result }
{
    Shape::Line {
        x1: Um(0),
        y1: Um(0),
        x2: Um(i64::from(x)),
        y2: Um(i64::from(y)),
    }
}

fn spot(x: i8, y: i8) -> At
    ensures kind { IsPoint result }
    ensures within { IsBounded result }
{
    At::Point {
        x: i64::from(x),
        y: i64::from(y),
    }
}

/// The line through (0, 0) with that direction.
fn placed_line(x: i8, y: i8) -> At
    ensures kind { IsPlacedLine result }
    ensures within { IsBounded result }
{
    At::Line {
        a: -i64::from(y),
        b: i64::from(x),
        c: 0,
    }
}

fn turns_to(rt: &impl Abort, x: i8, y: i8, drawn: Sign, placed: i8) {
    let seen = turn_drawn(&point(0, 0), &point(4, 0), &point(x, y));
    let found = turn_placed(spot(0, 0), spot(4, 0), spot(x, y));
    assert!(rt; seen == drawn && found == placed, "at {x} {y}");
}

#[test]
fn turns(rt: HostRuntime) {
    turns_to(&rt, 4, 3, Sign::Plus, 1);
    turns_to(&rt, 8, 0, Sign::Plus, 0);
    turns_to(&rt, 4, -3, Sign::Minus, -1);
}

/// A point at (3, way) beside a line, and the way along it from (3, 7) to (end, 2).
fn goes(rt: &impl Abort, way: i8, end: i8, drawn: Sign, placed: i8) {
    let side = side_drawn(&line(10, 0), &point(3, way));
    let advance = advance_drawn(&line(10, 0), &point(3, 7), &point(end, 2));
    assert!(rt; side == drawn && advance == drawn, "drawn at {way}");
    let side = side_placed(placed_line(10, 0), spot(3, way));
    let advance = advance_placed(placed_line(10, 0), spot(3, 7), spot(end, 2));
    assert!(rt; side == placed && advance == placed, "placed at {way}");
}

#[test]
fn sides_and_advances(rt: HostRuntime) {
    goes(&rt, 5, 8, Sign::Plus, 1);
    goes(&rt, 0, 3, Sign::Plus, 0);
    goes(&rt, -5, -2, Sign::Minus, -1);
}

/// The sense of the angle from the line to (length, 0) to that to (x, y), of that tangent.
fn senses(rt: &impl Abort, length: i8, (x, y): (i8, i8), q: i8, drawn: Sign, placed: i8) {
    let ratio = Ratio {
        p: 1,
        q: i32::from(q),
    };
    let seen = sense_drawn(&line(length, 0), &line(x, y), ratio);
    let found = sense_placed(placed_line(length, 0), placed_line(x, y), ratio);
    assert!(rt; seen == drawn && found == placed, "at {x} {y}");
}

#[test]
fn senses_of_a_right_angle_and_half_of_it(rt: HostRuntime) {
    senses(&rt, 40, (0, 25), 0, Sign::Plus, 1);
    senses(&rt, 40, (25, 0), 0, Sign::Plus, 0);
    senses(&rt, 40, (0, -25), 0, Sign::Minus, -1);
    senses(&rt, 1, (1, 1), 1, Sign::Plus, 1);
    senses(&rt, 1, (1, -1), 1, Sign::Plus, 0);
    senses(&rt, 1, (-1, -1), 1, Sign::Minus, -1);
}
