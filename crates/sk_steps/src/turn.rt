//! The three motions, each by the boxes of p and q in the child's frame, `old`, and in the kept child's, `new`.
ghost use Rattle.std.specs.Prelude.{◌≡◌, ◌++◌, ◌∷◌, []};
ghost use Rattle.sk_base.specs.declared.Kind.{Kind};
ghost use Rattle.sk_steps.specs.Expressions.{value, input, ◌⊕◌, ◌⊖◌, ◌⊗◌, ◌⊘◌};
ghost use Rattle.sk_steps.specs.Quantities.{evaluate};
ghost use Rattle.sk_steps.specs.Boxes.{point_numbers, line_numbers};
ghost use Rattle.sk_steps.specs.Motions.{by_points, by_point_and_line, by_lines, motion_of};

use crate::boxes::{LineBox, PointBox};
use crate::frames::Motion;
use crate::parts::{cross, dist2, dot, named};
use crate::what::What;
use sk_interval::{Cause, Grid, Iv};

/// The cosine of the turn from the way between two points to the way between two others.
fn cos_of<G: Grid>(
    old_p: &PointBox<G>,
    old_q: &PointBox<G>,
    new_p: &PointBox<G>,
    new_q: &PointBox<G>,
    span2: Iv<G>,
) -> Result<Iv<G>, Cause>
    ensures { result ≡ value G.BITS (point_numbers old_p.now ++ (point_numbers old_q.now ++ (point_numbers new_p.now ++ (point_numbers new_q.now ++ span2 ∷ [])))) [] (((input 3 ⊖ input 0) ⊗ (input 9 ⊖ input 6) ⊕ (input 4 ⊖ input 1) ⊗ (input 10 ⊖ input 7)) ⊘ input 12) }
{
    let old_x = old_q.x.sub(old_p.x)?;
    let in_x = old_x.mul(new_q.x.sub(new_p.x)?)?;
    let old_y = old_q.y.sub(old_p.y)?;
    let in_y = old_y.mul(new_q.y.sub(new_p.y)?)?;
    in_x.add(in_y)?.div(span2)
}

/// The sine of that turn.
fn sin_of<G: Grid>(
    old_p: &PointBox<G>,
    old_q: &PointBox<G>,
    new_p: &PointBox<G>,
    new_q: &PointBox<G>,
    span2: Iv<G>,
) -> Result<Iv<G>, Cause>
    ensures { result ≡ value G.BITS (point_numbers old_p.now ++ (point_numbers old_q.now ++ (point_numbers new_p.now ++ (point_numbers new_q.now ++ span2 ∷ [])))) [] (((input 3 ⊖ input 0) ⊗ (input 10 ⊖ input 7) ⊖ (input 4 ⊖ input 1) ⊗ (input 9 ⊖ input 6)) ⊘ input 12) }
{
    let old_x = old_q.x.sub(old_p.x)?;
    let in_xy = old_x.mul(new_q.y.sub(new_p.y)?)?;
    let old_y = old_q.y.sub(old_p.y)?;
    let in_yx = old_y.mul(new_q.x.sub(new_p.x)?)?;
    in_xy.sub(in_yx)?.div(span2)
}

/// A quotient of two determinants.
fn solution<G: Grid>(p: Iv<G>, q: Iv<G>, r: Iv<G>, s: Iv<G>, det: Iv<G>) -> Result<Iv<G>, Cause>
    ensures { result ≡ value G.BITS (p ∷ q ∷ r ∷ s ∷ det ∷ []) [] ((input 0 ⊗ input 1 ⊖ input 2 ⊗ input 3) ⊘ input 4) }
{
    cross(p, q, r, s)?.div(det)
}

/// The motion by two points.
#[tactic(auto, unfolding(crate::specs::Motions::by_points))]
pub fn by_points<G: Grid>(
    old_p: &PointBox<G>,
    old_q: &PointBox<G>,
    new_p: &PointBox<G>,
    new_q: &PointBox<G>,
) -> Result<Motion<G>, (What, Cause)>
    ensures { result ≡ motion_of Kind.Point (evaluate G.BITS (point_numbers old_p.now ++ (point_numbers old_q.now ++ (point_numbers new_p.now ++ point_numbers new_q.now))) by_points) }
{
    let span2 = named(What::Span2, dist2(old_p, old_q))?;
    let cos = named(What::Cos, cos_of(old_p, old_q, new_p, new_q, span2))?;
    let sin = named(What::Sin, sin_of(old_p, old_q, new_p, new_q, span2))?;
    let (fx, fy) = (old_p.x, old_p.y);
    let (tx, ty) = (new_p.x, new_p.y);
    Ok(Motion {
        cos,
        sin,
        fx,
        fy,
        tx,
        ty,
    })
}

/// The motion by a point and a line.
#[tactic(auto, unfolding(crate::specs::Motions::by_point_and_line))]
pub fn by_point_and_line<G: Grid>(
    old_p: &PointBox<G>,
    old_q: &LineBox<G>,
    new_p: &PointBox<G>,
    new_q: &LineBox<G>,
) -> Result<Motion<G>, (What, Cause)>
    ensures { result ≡ motion_of Kind.Point (evaluate G.BITS (point_numbers old_p.now ++ (line_numbers old_q.now ++ (point_numbers new_p.now ++ line_numbers new_q.now))) by_point_and_line) }
{
    let cos = named(What::Cos, dot(old_q.a, new_q.a, old_q.b, new_q.b))?;
    let sin = named(What::Sin, cross(old_q.a, new_q.b, old_q.b, new_q.a))?;
    let (fx, fy) = (old_p.x, old_p.y);
    let (tx, ty) = (new_p.x, new_p.y);
    Ok(Motion {
        cos,
        sin,
        fx,
        fy,
        tx,
        ty,
    })
}

/// The motion by two lines.
#[tactic(auto, unfolding(crate::specs::Motions::by_lines))]
pub fn by_lines<G: Grid>(
    old_p: &LineBox<G>,
    old_q: &LineBox<G>,
    new_p: &LineBox<G>,
    new_q: &LineBox<G>,
) -> Result<Motion<G>, (What, Cause)>
    ensures { result ≡ motion_of Kind.Line (evaluate G.BITS (line_numbers old_p.now ++ (line_numbers old_q.now ++ (line_numbers new_p.now ++ line_numbers new_q.now))) by_lines) }
{
    let cos = named(What::Cos, dot(old_p.a, new_p.a, old_p.b, new_p.b))?;
    let sin = named(What::Sin, cross(old_p.a, new_p.b, old_p.b, new_p.a))?;
    let det1 = named(What::Det1, cross(old_p.a, old_q.b, old_q.a, old_p.b))?;
    let fx = named(What::Fx, solution(old_p.c, old_q.b, old_q.c, old_p.b, det1))?;
    let fy = named(What::Fy, solution(old_p.a, old_q.c, old_q.a, old_p.c, det1))?;
    let det2 = named(What::Det2, cross(new_p.a, new_q.b, new_q.a, new_p.b))?;
    let tx = named(What::Tx, solution(new_p.c, new_q.b, new_q.c, new_p.b, det2))?;
    let ty = named(What::Ty, solution(new_p.a, new_q.c, new_q.a, new_p.c, det2))?;
    Ok(Motion {
        cos,
        sin,
        fx,
        fy,
        tx,
        ty,
    })
}
