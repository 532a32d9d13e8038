// The signs of a drawing. Coordinates are in micrometres.
ghost use Rattle.std.specs.Prelude.{◌≡◌};
ghost use Rattle.sk_base.specs.Drawn.{IsLine, HasCentre};
ghost use Rattle.sk_orient.specs.Vectors.{IsShort, IsSmall};
ghost use Rattle.sk_orient.specs.DrawnSigns.{IsOnPaper, place_of, direction_of, drawn_sign, side_drawn, sense_drawn, turn_drawn, advance_drawn};

use crate::vector::{Vector, cross, dot, rotation, way};
use sk_base::{Ratio, Shape, Sign, Um};

/// Plus where the point or centre lies to the left of the line, or on it.
pub fn side_drawn(line: &Shape, p: &Shape) -> Sign
    requires line { IsLine line.now × IsOnPaper line.now }
    requires p { HasCentre p.now × IsOnPaper p.now }
    ensures { result ≡ side_drawn line.now p.now }
{
    drawn_sign(cross(direction(line), way(place(line), place(p))))
}

/// The sense of the angle of tangent `r` from line `l` to line `m`: Plus where `m` goes forward along
/// `l` when that is turned by the angle, or straight across it.
pub fn sense_drawn(l: &Shape, m: &Shape, r: Ratio) -> Sign
    requires l { IsLine l.now × IsOnPaper l.now }
    requires m { IsLine m.now × IsOnPaper m.now }
    requires r { IsSmall r }
    ensures { result ≡ sense_drawn l.now m.now r }
{
    drawn_sign(rotation(direction(l), direction(m), r))
}

/// Plus where the three points or centres go round to the left, or lie on one line.
pub fn turn_drawn(p: &Shape, q: &Shape, r: &Shape) -> Sign
    requires p { HasCentre p.now × IsOnPaper p.now }
    requires q { HasCentre q.now × IsOnPaper q.now }
    requires r { HasCentre r.now × IsOnPaper r.now }
    ensures { result ≡ turn_drawn p.now q.now r.now }
{
    let first = place(p);
    drawn_sign(cross(way(first, place(q)), way(first, place(r))))
}

/// Plus where the way from `p` to `q` goes forward along the line, or straight across it.
pub fn advance_drawn(line: &Shape, p: &Shape, q: &Shape) -> Sign
    requires line { IsLine line.now × IsOnPaper line.now }
    requires p { HasCentre p.now × IsOnPaper p.now }
    requires q { HasCentre q.now × IsOnPaper q.now }
    ensures { result ≡ advance_drawn line.now p.now q.now }
{
    drawn_sign(dot(direction(line), way(place(p), place(q))))
}

/// Where a point is drawn, a circle its centre, and a line its first place, in micrometres.
pub fn place(shape: &Shape) -> Vector
    requires { IsOnPaper shape.now }
    ensures place { result ≡ place_of shape.now }
    ensures short { IsShort 1000000000 result }
{
    match shape {
        Shape::Point { x, y } | Shape::Circle { x, y, .. } => vector(*x, *y),
        Shape::Line { x1, y1, .. } => vector(*x1, *y1),
    }
}

/// From a line's first place to its second, in micrometres. A point and a circle have no direction: 0.
pub fn direction(shape: &Shape) -> Vector
    requires { IsOnPaper shape.now }
    ensures direction { result ≡ direction_of shape.now }
    ensures short { IsShort 2000000000 result }
{
    match shape {
        Shape::Line { x1, y1, x2, y2 } => way(vector(*x1, *y1), vector(*x2, *y2)),
        Shape::Point { .. } | Shape::Circle { .. } => Vector { x: 0, y: 0 },
    }
}

fn vector(x: Um, y: Um) -> Vector
    ensures { result ≡ record { x = x.0; y = y.0 } }
{
    Vector {
        x: i128::from(x.0),
        y: i128::from(y.0),
    }
}

fn drawn_sign(number: i128) -> Sign
    ensures { result ≡ drawn_sign number }
{
    if number < 0 { Sign::Minus } else { Sign::Plus }
}
