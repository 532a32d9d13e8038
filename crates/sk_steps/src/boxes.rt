//! The boxes of elements, and what a construction is given.
ghost use Rattle.std.specs.Prelude.{◌≡◌};

use sk_base::{Kind, Sign};
use sk_interval::{Grid, Iv};

/// Where a point lies.
#[derive(Clone, Copy)]
pub struct PointBox<G: Grid> {
    pub x: Iv<G>,
    pub y: Iv<G>,
}

/// Where the line `a x + b y = c` lies. `(a, b)` is its normal, of length 1.
#[derive(Clone, Copy)]
pub struct LineBox<G: Grid> {
    pub a: Iv<G>,
    pub b: Iv<G>,
    pub c: Iv<G>,
}

/// Where an element lies, in millimetres: a point, or the line `a x + b y = c`.
#[derive(Clone, Copy)]
pub enum BoxOf<G: Grid> {
    Point { x: Iv<G>, y: Iv<G> },
    Line { a: Iv<G>, b: Iv<G>, c: Iv<G> },
}

/// What is known of u, v and w before w is constructed.
#[derive(Clone, Copy)]
pub struct Given<G: Grid> {
    /// u in the child that is kept.
    pub u: BoxOf<G>,
    /// v in the child that is kept.
    pub v: BoxOf<G>,
    /// u in the child that holds u and w.
    pub ux: BoxOf<G>,
    /// w in the child that holds u and w.
    pub wx: BoxOf<G>,
    /// v in the child that holds v and w.
    pub vy: BoxOf<G>,
    /// w in the child that holds v and w.
    pub wy: BoxOf<G>,
    /// Which of the two roots is taken, where there are two.
    pub root: Sign,
}

impl<G: Grid> BoxOf<G> {
    ghost use Rattle.sk_base.specs.declared.Kind.{Kind};
    ghost use Rattle.sk_steps.specs.Boxes.{kind_of};

    /// Whether it is a point's or a line's.
    pub fn kind(&self) -> Kind
        ensures { result ≡ kind_of self.now }
    {
        match self {
            BoxOf::Point { .. } => Kind::Point,
            BoxOf::Line { .. } => Kind::Line,
        }
    }

    /// The box of a point.
    pub(crate) fn point(&self) -> PointBox<G>
        requires { kind_of self.now ≡ Kind.Point }
        ensures { self.now ≡ BoxOf.Point result.x result.y }
    {
        match self {
            BoxOf::Point { x, y } => PointBox { x: *x, y: *y },
            BoxOf::Line { .. } => unreachable!(),
        }
    }

    /// The box of a line.
    pub(crate) fn line(&self) -> LineBox<G>
        requires { kind_of self.now ≡ Kind.Line }
        ensures { self.now ≡ BoxOf.Line result.a result.b result.c }
    {
        match self {
            BoxOf::Point { .. } => unreachable!(),
            BoxOf::Line { a, b, c } => LineBox {
                a: *a,
                b: *b,
                c: *c,
            },
        }
    }
}
