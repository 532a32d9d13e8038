// Who is who in a step.
ghost use Rattle.std.specs.Prelude.{◌≡◌};
ghost use Rattle.sk_place.specs.Steps.{setting, ordered, chosen, is_opposite, root, given, HasCorners};

use crate::boxes::BoxAt;
use crate::carry::comes_first;
use crate::lookup::box_of;
use sk_base::{Elem, Kind, List, Sign};
use sk_interval::Grid;
use sk_steps::{Given, opposite};
use sk_tree::{Choice, PlanStep};

/// The three children of a step, and the elements that each two of them share: the kept one shares
/// `u` with the first of the others and `v` with the second, and these two share `w`.
#[derive(Drop)]
pub(crate) struct Setting<G: Grid> {
    pub(crate) kept: List<BoxAt<G>>,
    pub(crate) first: List<BoxAt<G>>,
    pub(crate) second: List<BoxAt<G>>,
    pub(crate) u: Elem,
    pub(crate) v: Elem,
    pub(crate) w: Elem,
}

/// The setting of a step, as the children and the elements stand in it.
pub(crate) fn setting_of<G: Grid>(
    step: &PlanStep,
    one: List<BoxAt<G>>,
    two: List<BoxAt<G>>,
    three: List<BoxAt<G>>,
) -> Setting<G>
    ensures { result ≡ setting step.now one two three }
{
    let (a, b, c) = (step.a, step.b, step.c);
    if step.keeps == step.one {
        in_setting(one, two, three, a, c, b)
    } else if step.keeps == step.two {
        in_setting(two, one, three, a, b, c)
    } else {
        in_setting(three, one, two, c, b, a)
    }
}

/// These, in their order.
fn in_setting<G: Grid>(
    kept: List<BoxAt<G>>,
    first: List<BoxAt<G>>,
    second: List<BoxAt<G>>,
    u: Elem,
    v: Elem,
    w: Elem,
) -> Setting<G>
    ensures { result ≡ record { kept = kept; first = first; second = second; u = u; v = v; w = w } }
{
    Setting {
        kept,
        first,
        second,
        u,
        v,
        w,
    }
}

/// The setting with u before v.
pub(crate) fn ordered<G: Grid>(t: Setting<G>) -> Setting<G>
    requires { HasCorners t }
    ensures { result ≡ ordered t }
{
    if comes_first(t.kept.as_slice(), t.u, t.v) {
        t
    } else {
        in_setting(t.kept, t.second, t.first, t.v, t.u, t.w)
    }
}

/// The sign that is chosen; where nothing is open, plus.
fn chosen(choice: Choice) -> Sign
    ensures { result ≡ chosen choice }
{
    match choice {
        Choice::Turn(sign) | Choice::Advance(sign) => sign,
        Choice::Nothing => Sign::Plus,
    }
}

/// Whether the sign of the root is the other one than the chosen.
fn is_opposite(kinds: (Kind, Kind, Kind), u: Elem, v: Elem, w: Elem) -> bool
    ensures { result ≡ is_opposite kinds.0 kinds.1 kinds.2 u v w }
{
    match kinds {
        (Kind::Point, Kind::Point, Kind::Point) => u.0 < w.0 && w.0 < v.0,
        (Kind::Point, Kind::Line, Kind::Point) => w.0 < u.0,
        _ => false,
    }
}

/// The sign of the root.
fn root(choice: Choice, kinds: (Kind, Kind, Kind), u: Elem, v: Elem, w: Elem) -> Sign
    ensures { result ≡ root choice kinds.0 kinds.1 kinds.2 u v w }
{
    if is_opposite(kinds, u, v, w) {
        opposite(chosen(choice))
    } else {
        chosen(choice)
    }
}

/// The boxes that w is constructed from.
pub(crate) fn given<G: Grid>(choice: Choice, t: &Setting<G>) -> Given<G>
    requires { HasCorners t.now }
    ensures { result ≡ given choice t.now }
{
    let (kept, first, second) = (t.kept.as_slice(), t.first.as_slice(), t.second.as_slice());
    let (u, v) = (box_of(kept, t.u), box_of(kept, t.v));
    let (ux, wx) = (box_of(first, t.u), box_of(first, t.w));
    let (vy, wy) = (box_of(second, t.v), box_of(second, t.w));
    let root = root(choice, (u.kind(), v.kind(), wx.kind()), t.u, t.v, t.w);
    Given {
        u,
        v,
        ux,
        wx,
        vy,
        wy,
        root,
    }
}
