// What lengths, angles and signs are counted in.

/// Micrometres.
#[derive(Clone, Copy, Debug, PartialEq, Eq, PartialOrd, Ord)]
pub struct Um(pub i64);

/// The tangent `p / q` of an angle, as it is written; `q = 0` is a right angle.
#[derive(Clone, Copy, Debug, PartialEq, Eq)]
pub struct Ratio {
    pub p: i32,
    pub q: i32,
}

/// What an element is to the graph. A circle is its centre, a point.
#[derive(Clone, Copy, Debug, PartialEq, Eq)]
pub enum Kind {
    Point,
    Line,
}

/// One of two sides, turns, advances or senses. Plus is to the left of a line or in a turn, and forward
/// in an advance or a sense.
#[derive(Clone, Copy, Debug, PartialEq, Eq)]
pub enum Sign {
    Plus,
    Minus,
}

/// What a constraint measures between its ends: the distance of two points, the distance of a point
/// from a line and its side, or the angle between two lines and its sense.
#[derive(Clone, Copy, Debug, PartialEq, Eq)]
pub enum Measure {
    PointPoint(Um),
    PointLine(Um, Sign),
    LineLine(Ratio, Sign),
}
