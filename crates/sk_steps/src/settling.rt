//! Boxes that are settled at points of the grid, and motions whose turn is brought to length 1.
ghost use Rattle.std.specs.Prelude.{◌≡◌, ◌∷◌, [], IfOk};
ghost use Rattle.sk_steps.specs.Expressions.{value, input, ◌⊘◌, normal_box};
ghost use Rattle.sk_steps.specs.Quantities.{evaluate};
ghost use Rattle.sk_steps.specs.Boxes.{kind_of};
ghost use Rattle.sk_steps.specs.Settling.{unit_normal, settled_line, settled};
ghost use Rattle.sk_steps.specs.SettledMotions.{unit_turn, settled_motion};

use crate::boxes::{BoxOf, LineBox};
use crate::frames::Motion;
use crate::parts::{named, size_of};
use crate::what::What;
use sk_interval::{Cause, Grid, Iv};

/// A part of a normal, by the normal's length.
fn unit_part<G: Grid>(part: Iv<G>, size: Iv<G>) -> Result<Iv<G>, Cause>
    ensures { result ≡ value G.BITS (part ∷ size ∷ []) [] (normal_box (input 0 ⊘ input 1)) }
{
    part.div(size)?.normal_box()
}

/// The line, settled.
#[tactic(auto, unfolding(crate::specs::Settling::unit_normal))]
fn settle_line<G: Grid>(l: &LineBox<G>) -> Result<BoxOf<G>, (What, Cause)>
    ensures { result ≡ settled_line l.now.c (evaluate G.BITS (l.now.a ∷ l.now.b ∷ []) unit_normal) }
{
    let size = named(What::Size, size_of(l.a, l.b))?;
    let a = named(What::A, unit_part(l.a, size))?;
    let b = named(What::B, unit_part(l.b, size))?;
    Ok(BoxOf::Line {
        a: a.middle(),
        b: b.middle(),
        c: l.c.middle(),
    })
}

/// The box, settled, by its kind.
fn settle_box<G: Grid>(b: &BoxOf<G>) -> Result<BoxOf<G>, (What, Cause)>
    ensures { result ≡ settled G.BITS b.now }
{
    match b {
        BoxOf::Point { x, y } => Ok(BoxOf::Point {
            x: x.middle(),
            y: y.middle(),
        }),
        BoxOf::Line { .. } => settle_line(&b.line()),
    }
}

/// The box with its numbers at their midpoints, a line's normal being brought to length 1 before; or the first quantity
/// that has a cause, with that.
pub fn settle<G: Grid>(b: &BoxOf<G>) -> Result<BoxOf<G>, (What, Cause)>
    ensures value { result ≡ settled G.BITS b.now }
    ensures kind { IfOk result (λ c. kind_of c ≡ kind_of b.now) }
{
    settle_box(b)
}

/// The motion with its cosine and sine brought to length 1, or the first quantity that has a cause, with that.
#[tactic(auto, unfolding(crate::specs::SettledMotions::unit_turn))]
pub fn settle_motion<G: Grid>(m: &Motion<G>) -> Result<Motion<G>, (What, Cause)>
    ensures { result ≡ settled_motion G.BITS m.now }
{
    let size = named(What::Size, size_of(m.cos, m.sin))?;
    let cos = named(What::Cos, m.cos.div(size))?;
    let sin = named(What::Sin, m.sin.div(size))?;
    Ok(Motion {
        cos,
        sin,
        fx: m.fx,
        fy: m.fy,
        tx: m.tx,
        ty: m.ty,
    })
}
