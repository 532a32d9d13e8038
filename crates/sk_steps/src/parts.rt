//! What the quantities are made of.
ghost use Rattle.std.specs.Prelude.{◌≡◌, ◌∷◌, ◌++◌, [], pos};
ghost use Rattle.sk_steps.specs.Expressions.{value, with_sign, input, number, ◌⊕◌, ◌⊖◌, ◌⊗◌, ◌⊘◌, square_root, length_box, normal_box};
ghost use Rattle.sk_steps.specs.Quantities.{named};
ghost use Rattle.sk_steps.specs.Boxes.{point_numbers, line_numbers};
ghost use Rattle.sk_steps.specs.PointsAndLines.{dist2, gap, point, line};

use crate::boxes::{LineBox, PointBox};
use crate::what::What;
use sk_base::Sign;
use sk_interval::{Cause, Grid, Iv};

/// The square of the distance of two points.
pub fn dist2<G: Grid>(p: &PointBox<G>, q: &PointBox<G>) -> Result<Iv<G>, Cause>
    ensures { result ≡ value G.BITS (point_numbers p.now ++ point_numbers q.now) [] (dist2 (point 0) (point 1)) }
{
    let dx = q.x.sub(p.x)?;
    let across = dx.mul(dx)?;
    let dy = q.y.sub(p.y)?;
    across.add(dy.mul(dy)?)
}

/// `p q + r s`.
pub fn dot<G: Grid>(p: Iv<G>, q: Iv<G>, r: Iv<G>, s: Iv<G>) -> Result<Iv<G>, Cause>
    ensures { result ≡ value G.BITS (p ∷ q ∷ r ∷ s ∷ []) [] (input 0 ⊗ input 1 ⊕ input 2 ⊗ input 3) }
{
    p.mul(q)?.add(r.mul(s)?)
}

/// `p q - r s`.
pub fn cross<G: Grid>(p: Iv<G>, q: Iv<G>, r: Iv<G>, s: Iv<G>) -> Result<Iv<G>, Cause>
    ensures { result ≡ value G.BITS (p ∷ q ∷ r ∷ s ∷ []) [] (input 0 ⊗ input 1 ⊖ input 2 ⊗ input 3) }
{
    p.mul(q)?.sub(r.mul(s)?)
}

/// The length of a vector, by its two parts.
pub fn size_of<G: Grid>(p: Iv<G>, q: Iv<G>) -> Result<Iv<G>, Cause>
    ensures { result ≡ value G.BITS (p ∷ q ∷ []) [] (square_root (input 0 ⊗ input 0 ⊕ input 1 ⊗ input 1)) }
{
    dot(p, p, q, q)?.sqrt()
}

/// How far a point lies on the left of a line.
pub fn gap<G: Grid>(p: &PointBox<G>, l: &LineBox<G>) -> Result<Iv<G>, Cause>
    ensures { result ≡ value G.BITS (point_numbers p.now ++ line_numbers l.now) [] (gap (point 0) (line 1)) }
{
    dot(l.a, p.x, l.b, p.y)?.sub(l.c)
}

/// What is gained between two numbers, by the length of the base.
pub fn slope_of<G: Grid>(from: Iv<G>, to: Iv<G>, base: Iv<G>) -> Result<Iv<G>, Cause>
    ensures { result ≡ value G.BITS (from ∷ to ∷ base ∷ []) [] ((input 1 ⊖ input 0) ⊘ input 2) }
{
    to.sub(from)?.div(base)
}

/// Where the height of a triangle stands on its base, by the squares of the base and of the two other sides.
pub fn foot_of<G: Grid>(
    base2: Iv<G>,
    first2: Iv<G>,
    second2: Iv<G>,
    base: Iv<G>,
) -> Result<Iv<G>, Cause>
    ensures { result ≡ value G.BITS (base2 ∷ first2 ∷ second2 ∷ base ∷ []) [] (((input 0 ⊕ input 1) ⊖ input 2) ⊘ (input 3 ⊕ input 3)) }
{
    let double = base2.add(first2)?.sub(second2)?;
    double.div(base.add(base)?)
}

/// A leg of a right triangle, by the square of its longest side and by its other leg.
pub fn leg_of<G: Grid>(longest2: Iv<G>, other: Iv<G>) -> Result<Iv<G>, Cause>
    ensures { result ≡ value G.BITS (longest2 ∷ other ∷ []) [] (square_root (input 0 ⊖ input 1 ⊗ input 1)) }
{
    longest2.sub(other.mul(other)?)?.sqrt()
}

/// The other part of a direction, by its part along the base.
pub fn rise_of<G: Grid>(tilt: Iv<G>) -> Result<Iv<G>, Cause>
    ensures { result ≡ value G.BITS (tilt ∷ []) [] (square_root (number (pos 1) ⊖ input 0 ⊗ input 0)) }
{
    leg_of(Iv::whole(1), tilt)
}

/// How much further a point is to lie on the left of a line, where it is to lie `at`.
pub fn lift_of<G: Grid>(p: &PointBox<G>, l: &LineBox<G>, at: Iv<G>) -> Result<Iv<G>, Cause>
    ensures { result ≡ value G.BITS (point_numbers p.now ++ (line_numbers l.now ++ at ∷ [])) [] (input 6 ⊖ gap (point 0) (line 1)) }
{
    at.sub(gap(p, l)?)
}

/// `(start + p q) + r s`, as a length.
pub fn length_plus<G: Grid>(
    start: Iv<G>,
    p: Iv<G>,
    q: Iv<G>,
    r: Iv<G>,
    s: Iv<G>,
) -> Result<Iv<G>, Cause>
    ensures { result ≡ value G.BITS (start ∷ p ∷ q ∷ r ∷ s ∷ []) [] (length_box ((input 0 ⊕ input 1 ⊗ input 2) ⊕ input 3 ⊗ input 4)) }
{
    let there = start.add(p.mul(q)?)?;
    there.add(r.mul(s)?)?.length_box()
}

/// `(start + p q) - r s`, as a length.
pub fn length_less<G: Grid>(
    start: Iv<G>,
    p: Iv<G>,
    q: Iv<G>,
    r: Iv<G>,
    s: Iv<G>,
) -> Result<Iv<G>, Cause>
    ensures { result ≡ value G.BITS (start ∷ p ∷ q ∷ r ∷ s ∷ []) [] (length_box ((input 0 ⊕ input 1 ⊗ input 2) ⊖ input 3 ⊗ input 4)) }
{
    let there = start.add(p.mul(q)?)?;
    there.sub(r.mul(s)?)?.length_box()
}

/// `p q + r s`, as a part of a normal.
pub fn normal_dot<G: Grid>(p: Iv<G>, q: Iv<G>, r: Iv<G>, s: Iv<G>) -> Result<Iv<G>, Cause>
    ensures { result ≡ value G.BITS (p ∷ q ∷ r ∷ s ∷ []) [] (normal_box (input 0 ⊗ input 1 ⊕ input 2 ⊗ input 3)) }
{
    dot(p, q, r, s)?.normal_box()
}

/// `p q - r s`, as a part of a normal.
pub fn normal_cross<G: Grid>(p: Iv<G>, q: Iv<G>, r: Iv<G>, s: Iv<G>) -> Result<Iv<G>, Cause>
    ensures { result ≡ value G.BITS (p ∷ q ∷ r ∷ s ∷ []) [] (normal_box (input 0 ⊗ input 1 ⊖ input 2 ⊗ input 3)) }
{
    cross(p, q, r, s)?.normal_box()
}

/// How far the line with the normal `(a, b)` lies from the origin, where `p` lies `left` on its left.
pub fn offset_of<G: Grid>(p: &PointBox<G>, a: Iv<G>, b: Iv<G>, left: Iv<G>) -> Result<Iv<G>, Cause>
    ensures { result ≡ value G.BITS (point_numbers p.now ++ a ∷ b ∷ left ∷ []) [] (length_box ((input 3 ⊗ input 0 ⊕ input 4 ⊗ input 1) ⊖ input 5)) }
{
    dot(a, p.x, b, p.y)?.sub(left)?.length_box()
}

/// `(p q - r s) / det`, as a length.
pub fn solution<G: Grid>(p: Iv<G>, q: Iv<G>, r: Iv<G>, s: Iv<G>, det: Iv<G>) -> Result<Iv<G>, Cause>
    ensures { result ≡ value G.BITS (p ∷ q ∷ r ∷ s ∷ det ∷ []) [] (length_box ((input 0 ⊗ input 1 ⊖ input 2 ⊗ input 3) ⊘ input 4)) }
{
    cross(p, q, r, s)?.div(det)?.length_box()
}

/// The root, or its negative.
pub fn signed<G: Grid>(root: Iv<G>, sign: Sign) -> Iv<G>
    ensures { result ≡ with_sign sign root }
{
    match sign {
        Sign::Plus => root,
        Sign::Minus => root.neg(),
    }
}

/// An answer under the name of its quantity.
pub fn named<G: Grid>(what: What, answer: Result<Iv<G>, Cause>) -> Result<Iv<G>, (What, Cause)>
    ensures { result ≡ named what answer }
{
    match answer {
        Ok(interval) => Ok(interval),
        Err(cause) => Err((what, cause)),
    }
}
