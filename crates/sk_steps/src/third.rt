//! The third element, by the kinds of the three.
ghost use Rattle.std.specs.Prelude.{◌≡◌, IfOk};
ghost use Rattle.sk_steps.specs.Boxes.{kind_of};
ghost use Rattle.sk_steps.specs.ThirdElement.{third_element, IsConstructible};
ghost use Rattle.sk_steps.specs.Nesting.{IsKeptInside};

use crate::boxes::{BoxOf, Given};
use crate::rows::{line_by_line, line_by_points, point_by_line, point_by_lines, point_by_points};
use crate::what::What;
use sk_base::Kind;
use sk_interval::{Cause, Grid};

/// The box of w, or the first quantity that has a cause, with that.
pub fn third_element<G: Grid>(g: &Given<G>) -> Result<BoxOf<G>, (What, Cause)>
    requires { IsConstructible g.now }
    ensures value { result ≡ third_element G.BITS g.now }
    ensures kind { IfOk result (λ w. kind_of w ≡ kind_of g.now.wx) }
    ensures nested { IsKeptInside G.BITS g.now result }
{
    construct(g)
}

/// The construction for the kinds of the three.
fn construct<G: Grid>(g: &Given<G>) -> Result<BoxOf<G>, (What, Cause)>
    requires { IsConstructible g.now }
    ensures { result ≡ third_element G.BITS g.now }
{
    match (g.u.kind(), g.v.kind(), g.wx.kind()) {
        (Kind::Point, Kind::Point, Kind::Point) => {
            let (u, v) = (g.u.point(), g.v.point());
            let (ux, wx) = (g.ux.point(), g.wx.point());
            let (vy, wy) = (g.vy.point(), g.wy.point());
            point_by_points(&u, &v, &ux, &wx, &vy, &wy, g.root)
        }
        (Kind::Point, Kind::Point, Kind::Line) => {
            let (u, v) = (g.u.point(), g.v.point());
            let (ux, wx) = (g.ux.point(), g.wx.line());
            let (vy, wy) = (g.vy.point(), g.wy.line());
            line_by_points(&u, &v, &ux, &wx, &vy, &wy, g.root)
        }
        (Kind::Point, Kind::Line, Kind::Point) => {
            let (u, v) = (g.u.point(), g.v.line());
            let (ux, wx) = (g.ux.point(), g.wx.point());
            let (vy, wy) = (g.vy.line(), g.wy.point());
            point_by_line(&u, &v, &ux, &wx, &vy, &wy, g.root)
        }
        (Kind::Point, Kind::Line, Kind::Line) => {
            let (u, v) = (g.u.point(), g.v.line());
            let (ux, wx) = (g.ux.point(), g.wx.line());
            let (vy, wy) = (g.vy.line(), g.wy.line());
            line_by_line(&u, &v, &ux, &wx, &vy, &wy)
        }
        (Kind::Line, Kind::Line, Kind::Point) => {
            let (u, v) = (g.u.line(), g.v.line());
            let (ux, wx) = (g.ux.line(), g.wx.point());
            let (vy, wy) = (g.vy.line(), g.wy.point());
            point_by_lines(&u, &v, &ux, &wx, &vy, &wy)
        }
        (Kind::Line, Kind::Line, Kind::Line) | (Kind::Line, Kind::Point, _) => unreachable!(),
    }
}
