// The motion that takes a frame to where it is drawn.
ghost use Rattle.std.specs.Prelude.{◌≡◌, ◌≤◌, ◌<◌, Ok};
ghost use Rattle.sk_base.specs.Bounds.{IsWithin};
ghost use Rattle.sk_interval.specs.Operations.{of_micrometres};
ghost use Rattle.sk_frame.specs.Frames.{IsSoundFrame};
ghost use Rattle.sk_frame.specs.FrameMotions.{ratio, parts_motion, frame_motion, IsExactAlongAxes, HoldsFinerMotion};

use crate::frames::Frame;
use sk_base::Um;
use sk_interval::{Grid, Iv};
use sk_steps::{Motion, settle_motion};

/// The motion that takes the frame to where it is drawn. It has no fault on any grid.
pub fn frame_motion<G: Grid>(f: &Frame) -> Motion<G>
    requires { IsSoundFrame f.now }
    ensures value { Ok result ≡ frame_motion G.BITS f.now }
    ensures exact { 16 ≤ G.BITS → IsExactAlongAxes G.BITS f.now.turn result }
    ensures nested { HoldsFinerMotion G.BITS f.now result }
{
    unit_motion(f)
}

/// The motion with its turn at length 1.
fn unit_motion<G: Grid>(f: &Frame) -> Motion<G>
    requires { IsSoundFrame f.now }
    ensures { Ok result ≡ frame_motion G.BITS f.now }
{
    match settle_motion(&parts_motion(f)) {
        Ok(motion) => motion,
        Err(_) => unreachable!(),
    }
}

/// The motion by the parts of the turn.
fn parts_motion<G: Grid>(f: &Frame) -> Motion<G>
    requires { IsSoundFrame f.now }
    ensures { result ≡ parts_motion G.BITS f.now }
{
    Motion {
        cos: ratio(f.turn.x, 256),
        sin: ratio(f.turn.y, 256),
        fx: length(f.from.x),
        fy: length(f.from.y),
        tx: ratio(f.to.x, 1_000_000),
        ty: ratio(f.to.y, 1_000_000),
    }
}

/// So many micrometres.
fn length<G: Grid>(n: i128) -> Iv<G>
    requires { IsWithin 1000000000 n }
    ensures { result ≡ of_micrometres G.BITS n }
{
    Iv::of_um(Um(n as i64))
}

/// `n / d`.
fn ratio<G: Grid>(n: i128, d: u32) -> Iv<G>
    requires n { IsWithin 1000000000000 n }
    requires positive { 0 < d }
    requires d { d ≤ 1000000 }
    ensures { result ≡ ratio G.BITS d n }
{
    Iv::whole(n as i64).div(Iv::whole(i64::from(d))).unwrap()
}
