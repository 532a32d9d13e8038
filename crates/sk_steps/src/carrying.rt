//! Boxes carried by a motion.
ghost use Rattle.std.specs.Prelude.{◌≡◌, ◌++◌, ◌∷◌, [], IfOk};
ghost use Rattle.sk_base.specs.declared.Kind.{Kind};
ghost use Rattle.sk_steps.specs.Expressions.{value, input, ◌⊕◌, ◌⊖◌, ◌⊗◌, length_box};
ghost use Rattle.sk_steps.specs.Quantities.{evaluate};
ghost use Rattle.sk_steps.specs.Boxes.{kind_of, box_of, point_numbers, line_numbers};
ghost use Rattle.sk_steps.specs.Carried.{carried, carried_point, carried_line, motion_numbers};
ghost use Rattle.sk_steps.specs.MotionNesting.{IsKeptByMotion};

use crate::boxes::{BoxOf, LineBox, PointBox};
use crate::frames::Motion;
use crate::parts::{dot, named, normal_cross, normal_dot};
use crate::what::What;
use sk_base::Kind;
use sk_interval::{Cause, Grid, Iv};

/// `(to + p (x - from_x)) - q (y - from_y)`, as a length.
fn across<G: Grid>(
    to: Iv<G>,
    p: Iv<G>,
    x: Iv<G>,
    from_x: Iv<G>,
    q: Iv<G>,
    y: Iv<G>,
    from_y: Iv<G>,
) -> Result<Iv<G>, Cause>
    ensures { result ≡ value G.BITS (to ∷ p ∷ x ∷ from_x ∷ q ∷ y ∷ from_y ∷ []) [] (length_box ((input 0 ⊕ input 1 ⊗ (input 2 ⊖ input 3)) ⊖ input 4 ⊗ (input 5 ⊖ input 6))) }
{
    let there = to.add(p.mul(x.sub(from_x)?)?)?;
    there.sub(q.mul(y.sub(from_y)?)?)?.length_box()
}

/// `(to + p (x - from_x)) + q (y - from_y)`, as a length.
fn along<G: Grid>(
    to: Iv<G>,
    p: Iv<G>,
    x: Iv<G>,
    from_x: Iv<G>,
    q: Iv<G>,
    y: Iv<G>,
    from_y: Iv<G>,
) -> Result<Iv<G>, Cause>
    ensures { result ≡ value G.BITS (to ∷ p ∷ x ∷ from_x ∷ q ∷ y ∷ from_y ∷ []) [] (length_box ((input 0 ⊕ input 1 ⊗ (input 2 ⊖ input 3)) ⊕ input 4 ⊗ (input 5 ⊖ input 6))) }
{
    let there = to.add(p.mul(x.sub(from_x)?)?)?;
    there.add(q.mul(y.sub(from_y)?)?)?.length_box()
}

/// How far the carried line lies from the origin: `(a, b)` is its normal, and `l` the line before.
fn offset_of<G: Grid>(m: &Motion<G>, l: &LineBox<G>, a: Iv<G>, b: Iv<G>) -> Result<Iv<G>, Cause>
    ensures { result ≡ value G.BITS (motion_numbers m.now ++ (line_numbers l.now ++ a ∷ b ∷ [])) [] (length_box ((input 9 ⊗ input 4 ⊕ input 10 ⊗ input 5) ⊕ (input 8 ⊖ (input 6 ⊗ input 2 ⊕ input 7 ⊗ input 3)))) }
{
    let there = dot(a, m.tx, b, m.ty)?;
    let before = l.c.sub(dot(l.a, m.fx, l.b, m.fy)?)?;
    there.add(before)?.length_box()
}

/// The carried point.
#[tactic(auto, unfolding(crate::specs::Carried::carried_point))]
fn carry_point<G: Grid>(m: &Motion<G>, p: &PointBox<G>) -> Result<BoxOf<G>, (What, Cause)>
    ensures { result ≡ box_of Kind.Point (evaluate G.BITS (motion_numbers m.now ++ point_numbers p.now) carried_point) }
{
    let x = named(What::X, across(m.tx, m.cos, p.x, m.fx, m.sin, p.y, m.fy))?;
    let y = named(What::Y, along(m.ty, m.sin, p.x, m.fx, m.cos, p.y, m.fy))?;
    Ok(BoxOf::Point { x, y })
}

/// The carried line.
#[tactic(auto, unfolding(crate::specs::Carried::carried_line))]
fn carry_line<G: Grid>(m: &Motion<G>, l: &LineBox<G>) -> Result<BoxOf<G>, (What, Cause)>
    ensures { result ≡ box_of Kind.Line (evaluate G.BITS (motion_numbers m.now ++ line_numbers l.now) carried_line) }
{
    let a = named(What::A, normal_cross(m.cos, l.a, m.sin, l.b))?;
    let b = named(What::B, normal_dot(m.sin, l.a, m.cos, l.b))?;
    let c = named(What::C, offset_of(m, l, a, b))?;
    Ok(BoxOf::Line { a, b, c })
}

/// The box of an element, carried, by its kind.
fn carry_box<G: Grid>(m: &Motion<G>, b: &BoxOf<G>) -> Result<BoxOf<G>, (What, Cause)>
    ensures { result ≡ carried G.BITS m.now b.now }
{
    match b.kind() {
        Kind::Point => carry_point(m, &b.point()),
        Kind::Line => carry_line(m, &b.line()),
    }
}

/// The box of an element, carried, or the first quantity that has a cause, with that.
pub fn carry<G: Grid>(m: &Motion<G>, b: &BoxOf<G>) -> Result<BoxOf<G>, (What, Cause)>
    ensures value { result ≡ carried G.BITS m.now b.now }
    ensures kind { IfOk result (λ c. kind_of c ≡ kind_of b.now) }
    ensures nested { IsKeptByMotion G.BITS m.now b.now result }
{
    carry_box(m, b)
}
