//! The five constructions, each on the boxes of u and v in the kept child, of u and w in the child that holds those, and
//! of v and w in the child that holds those.
ghost use Rattle.std.specs.Prelude.{◌≡◌, ◌++◌};
ghost use Rattle.sk_base.specs.declared.Kind.{Kind};
ghost use Rattle.sk_steps.specs.Quantities.{evaluate};
ghost use Rattle.sk_steps.specs.Boxes.{box_of, point_numbers, line_numbers};
ghost use Rattle.sk_steps.specs.Constructions.{point_by_points, line_by_points, point_by_line, line_by_line, point_by_lines};

use crate::boxes::{BoxOf, LineBox, PointBox};
use crate::parts::{
    cross, dist2, dot, foot_of, gap, leg_of, length_less, length_plus, lift_of, named,
    normal_cross, normal_dot, offset_of, rise_of, signed, slope_of, solution,
};
use crate::what::What;
use sk_base::Sign;
use sk_interval::{Cause, Grid};

/// The third corner of a triangle whose sides are known.
#[tactic(auto, unfolding(crate::specs::Constructions::point_by_points))]
pub fn point_by_points<G: Grid>(
    u: &PointBox<G>,
    v: &PointBox<G>,
    ux: &PointBox<G>,
    wx: &PointBox<G>,
    vy: &PointBox<G>,
    wy: &PointBox<G>,
    root: Sign,
) -> Result<BoxOf<G>, (What, Cause)>
    ensures { result ≡ box_of Kind.Point (evaluate G.BITS (point_numbers u.now ++ (point_numbers v.now ++ (point_numbers ux.now ++ (point_numbers wx.now ++ (point_numbers vy.now ++ point_numbers wy.now))))) (point_by_points root)) }
{
    let base2 = named(What::Base2, dist2(u, v))?;
    let base = named(What::Base, base2.sqrt())?;
    let first2 = named(What::First2, dist2(ux, wx))?;
    let second2 = named(What::Second2, dist2(vy, wy))?;
    let foot = named(What::Foot, foot_of(base2, first2, second2, base))?;
    let height = named(What::Height, leg_of(first2, foot))?;
    let ex = named(What::Ex, slope_of(u.x, v.x, base))?;
    let ey = named(What::Ey, slope_of(u.y, v.y, base))?;
    let k = signed(height, root);
    let x = named(What::X, length_less(u.x, ex, foot, ey, k))?;
    let y = named(What::Y, length_plus(u.y, ey, foot, ex, k))?;
    Ok(BoxOf::Point { x, y })
}

/// The line at known distances from two points.
#[tactic(auto, unfolding(crate::specs::Constructions::line_by_points))]
pub fn line_by_points<G: Grid>(
    u: &PointBox<G>,
    v: &PointBox<G>,
    ux: &PointBox<G>,
    wx: &LineBox<G>,
    vy: &PointBox<G>,
    wy: &LineBox<G>,
    root: Sign,
) -> Result<BoxOf<G>, (What, Cause)>
    ensures { result ≡ box_of Kind.Line (evaluate G.BITS (point_numbers u.now ++ (point_numbers v.now ++ (point_numbers ux.now ++ (line_numbers wx.now ++ (point_numbers vy.now ++ line_numbers wy.now))))) (line_by_points root)) }
{
    let base2 = named(What::Base2, dist2(u, v))?;
    let base = named(What::Base, base2.sqrt())?;
    let gap1 = named(What::Gap1, gap(ux, wx))?;
    let gap2 = named(What::Gap2, gap(vy, wy))?;
    let tilt = named(What::Tilt, slope_of(gap1, gap2, base))?;
    let rise = named(What::Rise, rise_of(tilt))?;
    let ex = named(What::Ex, slope_of(u.x, v.x, base))?;
    let ey = named(What::Ey, slope_of(u.y, v.y, base))?;
    let k = signed(rise, root);
    let a = named(What::A, normal_cross(ex, tilt, ey, k))?;
    let b = named(What::B, normal_dot(ey, tilt, ex, k))?;
    let c = named(What::C, offset_of(u, a, b, gap1))?;
    Ok(BoxOf::Line { a, b, c })
}

/// The point at known distances from a point and a line.
#[tactic(auto, unfolding(crate::specs::Constructions::point_by_line))]
pub fn point_by_line<G: Grid>(
    u: &PointBox<G>,
    v: &LineBox<G>,
    ux: &PointBox<G>,
    wx: &PointBox<G>,
    vy: &LineBox<G>,
    wy: &PointBox<G>,
    root: Sign,
) -> Result<BoxOf<G>, (What, Cause)>
    ensures { result ≡ box_of Kind.Point (evaluate G.BITS (point_numbers u.now ++ (line_numbers v.now ++ (point_numbers ux.now ++ (point_numbers wx.now ++ (line_numbers vy.now ++ point_numbers wy.now))))) (point_by_line root)) }
{
    let first2 = named(What::First2, dist2(ux, wx))?;
    let gap2 = named(What::Gap2, gap(wy, vy))?;
    let lift = named(What::Lift, lift_of(u, v, gap2))?;
    let reach = named(What::Reach, leg_of(first2, lift))?;
    let k = signed(reach, root);
    let x = named(What::X, length_plus(u.x, v.a, lift, v.b, k))?;
    let y = named(What::Y, length_less(u.y, v.b, lift, v.a, k))?;
    Ok(BoxOf::Point { x, y })
}

/// The line at a known distance from a point and at a known angle to a line.
#[tactic(auto, unfolding(crate::specs::Constructions::line_by_line))]
pub fn line_by_line<G: Grid>(
    u: &PointBox<G>,
    v: &LineBox<G>,
    ux: &PointBox<G>,
    wx: &LineBox<G>,
    vy: &LineBox<G>,
    wy: &LineBox<G>,
) -> Result<BoxOf<G>, (What, Cause)>
    ensures { result ≡ box_of Kind.Line (evaluate G.BITS (point_numbers u.now ++ (line_numbers v.now ++ (point_numbers ux.now ++ (line_numbers wx.now ++ (line_numbers vy.now ++ line_numbers wy.now))))) line_by_line) }
{
    let gap1 = named(What::Gap1, gap(ux, wx))?;
    let cos = named(What::Cos, dot(vy.a, wy.a, vy.b, wy.b))?;
    let sin = named(What::Sin, cross(vy.a, wy.b, vy.b, wy.a))?;
    let a = named(What::A, normal_cross(cos, v.a, sin, v.b))?;
    let b = named(What::B, normal_dot(sin, v.a, cos, v.b))?;
    let c = named(What::C, offset_of(u, a, b, gap1))?;
    Ok(BoxOf::Line { a, b, c })
}

/// The point at known distances from two lines.
#[tactic(auto, unfolding(crate::specs::Constructions::point_by_lines))]
pub fn point_by_lines<G: Grid>(
    u: &LineBox<G>,
    v: &LineBox<G>,
    ux: &LineBox<G>,
    wx: &PointBox<G>,
    vy: &LineBox<G>,
    wy: &PointBox<G>,
) -> Result<BoxOf<G>, (What, Cause)>
    ensures { result ≡ box_of Kind.Point (evaluate G.BITS (line_numbers u.now ++ (line_numbers v.now ++ (line_numbers ux.now ++ (point_numbers wx.now ++ (line_numbers vy.now ++ point_numbers wy.now))))) point_by_lines) }
{
    let gap1 = named(What::Gap1, gap(wx, ux))?;
    let gap2 = named(What::Gap2, gap(wy, vy))?;
    let det = named(What::Det, cross(u.a, v.b, v.a, u.b))?;
    let f = named(What::F, u.c.add(gap1))?;
    let g = named(What::G, v.c.add(gap2))?;
    let x = named(What::X, solution(f, v.b, g, u.b, det))?;
    let y = named(What::Y, solution(u.a, g, v.a, f, det))?;
    Ok(BoxOf::Point { x, y })
}
