//! The motion by a pair, by its kinds.
ghost use Rattle.std.specs.Prelude.{◌≡◌};
ghost use Rattle.sk_steps.specs.Motions.{motion, AreAlike};
ghost use Rattle.sk_steps.specs.MotionNesting.{IsKeptByPairs};

use crate::frames::{Motion, Pair};
use crate::turn::{by_lines, by_point_and_line, by_points};
use crate::what::What;
use sk_base::Kind;
use sk_interval::{Cause, Grid};

/// The motion for the kinds of a pair.
fn by_kinds<G: Grid>(old: &Pair<G>, new: &Pair<G>) -> Result<Motion<G>, (What, Cause)>
    requires { AreAlike old.now new.now }
    ensures { result ≡ motion G.BITS old.now new.now }
{
    match (new.p.kind(), new.q.kind()) {
        (Kind::Point, Kind::Point) => {
            let (old_p, old_q) = (old.p.point(), old.q.point());
            let (new_p, new_q) = (new.p.point(), new.q.point());
            by_points(&old_p, &old_q, &new_p, &new_q)
        }
        (Kind::Point, Kind::Line) => {
            let (old_p, old_q) = (old.p.point(), old.q.line());
            let (new_p, new_q) = (new.p.point(), new.q.line());
            by_point_and_line(&old_p, &old_q, &new_p, &new_q)
        }
        (Kind::Line, Kind::Line) => {
            let (old_p, old_q) = (old.p.line(), old.q.line());
            let (new_p, new_q) = (new.p.line(), new.q.line());
            by_lines(&old_p, &old_q, &new_p, &new_q)
        }
        (Kind::Line, Kind::Point) => unreachable!(),
    }
}

/// The motion that takes the boxes of the old pair to those of the new one, or the first quantity that has a cause, with
/// that.
pub fn motion_by<G: Grid>(old: &Pair<G>, new: &Pair<G>) -> Result<Motion<G>, (What, Cause)>
    requires { AreAlike old.now new.now }
    ensures value { result ≡ motion G.BITS old.now new.now }
    ensures nested { IsKeptByPairs G.BITS old.now new.now result }
{
    by_kinds(old, new)
}
