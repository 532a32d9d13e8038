// What the drawing chooses where a step leaves something open.
ghost use Rattle.std.specs.Prelude.{◌≡◌, ◌≢◌, [], ◌∷◌, IsSome};
ghost use Rattle.sk_base.specs.Drawn.{shape_of};
ghost use Rattle.sk_base.specs.SoundSketch.{IsSoundSketch};
ghost use Rattle.sk_orient.specs.DrawnSigns.{IsOnPaper};
ghost use Rattle.sk_tree.specs.ByNumber.{by_number};
ghost use Rattle.sk_tree.specs.DrawnChoice.{drawn_choice, shapes_of};

use crate::order::in_order;
use crate::plan::Choice;
use sk_base::{Elem, Shape, Sketch};
use sk_graph::shape;
use sk_orient::{advance_drawn, turn_drawn};

/// The choice of the drawing at three drawn elements: the turn of three points, the advance of two
/// points along a line, both by rising number, or nothing.
pub fn choice_of(sketch: &Sketch, a: Elem, b: Elem, c: Elem) -> Choice
    requires sound { IsSoundSketch sketch.now }
    requires a_b { a ≢ b }
    requires b_c { b ≢ c }
    requires c_a { c ≢ a }
    requires a_drawn { IsSome (shape_of sketch.now a) }
    requires b_drawn { IsSome (shape_of sketch.now b) }
    requires c_drawn { IsSome (shape_of sketch.now c) }
    ensures { result ≡ drawn_choice (shapes_of sketch.now (by_number a b c)) }
{
    let (p, q, r) = in_order(a, b, c);
    choice_between(&shape(sketch, p), &shape(sketch, q), &shape(sketch, r))
}

/// Three points turn, two points advance along a line, else nothing is open.
fn choice_between(p: &Shape, q: &Shape, r: &Shape) -> Choice
    requires p { IsOnPaper p.now }
    requires q { IsOnPaper q.now }
    requires r { IsOnPaper r.now }
    ensures { result ≡ drawn_choice (p.now ∷ q.now ∷ r.now ∷ []) }
{
    match (p.is_line(), q.is_line(), r.is_line()) {
        (false, false, false) => Choice::Turn(turn_drawn(p, q, r)),
        (true, false, false) => Choice::Advance(advance_drawn(p, q, r)),
        (false, true, false) => Choice::Advance(advance_drawn(q, p, r)),
        (false, false, true) => Choice::Advance(advance_drawn(r, p, q)),
        _ => Choice::Nothing,
    }
}
