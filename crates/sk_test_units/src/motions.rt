//! Elements carried to places that were worked out by hand.
ghost use Rattle.std.specs.Prelude.{IsTrue};
ghost use Rattle.sk_steps.specs.Motions.{HasMotion};

use crate::boxes::{Answer, Ends, are_alike, ends_of, lies_at, line, point, same};
use sk_base::{Kind, Um};
use sk_interval::{Cause, G16, G27, G38, Grid, Iv};
use sk_steps::{BoxOf, Motion, Pair, What, carry, motion_by, settle_motion};
use std::process::Abort;

fn has_motion(p: Kind, q: Kind) -> bool
    ensures { IsTrue result → HasMotion p q }
{
    match (p, q) {
        (Kind::Line, Kind::Point) => false,
        _ => true,
    }
}

/// The motion by two elements, from where they were to where they are.
fn moved<G: Grid>(
    rt: &impl Abort,
    (p, q): (BoxOf<G>, BoxOf<G>),
    (p_now, q_now): (BoxOf<G>, BoxOf<G>),
) -> Answer<Motion<G>> {
    assert!(rt; are_alike(p.kind(), p_now.kind()) && are_alike(q.kind(), q_now.kind()));
    assert!(rt; has_motion(p_now.kind(), q_now.kind()));
    motion_by(&Pair { p, q }, &Pair { p: p_now, q: q_now })
}

/// Where a quarter turn to the left that takes the origin to (4, 0) carries a point and a line, on a grid with so many units to
/// the millimetre.
fn carries<G: Grid>(rt: &impl Abort, unit: i128, turn: Answer<Motion<G>>) {
    match turn {
        Ok(turn) => {
            let corner = carry(&turn, &point(4, 3));
            lies_at(rt, unit, ends_of(&corner), [1, 4, 0]);
            let side = carry(&turn, &line(1, 0, 7));
            lies_at(rt, unit, ends_of(&side), [0, 1, 7]);
        }
        Err(_) => panic!(rt; "a quarter turn"),
    }
}

/// The turn by each kind of pair.
fn carried<G: Grid>(rt: &impl Abort, unit: i128) {
    let (old, new) = ((point(0, 0), point(4, 0)), (point(4, 0), point(4, 4)));
    carries(rt, unit, moved::<G>(rt, old, new));
    let (old, new) = ((point(0, 0), line(0, 1, 0)), (point(4, 0), line(-1, 0, -4)));
    carries(rt, unit, moved::<G>(rt, old, new));
    let (old, new) = (
        (line(0, 1, 0), line(1, 0, 0)),
        (line(-1, 0, -4), line(0, 1, 0)),
    );
    carries(rt, unit, moved::<G>(rt, old, new));
}

#[test]
fn quarter_turns_on_each_grid(rt: HostRuntime) {
    carried::<G16>(&rt, 65536);
    carried::<G27>(&rt, 134217728);
    carried::<G38>(&rt, 274877906944);
}

/// Two elements that give no turn.
fn fails_by(
    rt: &impl Abort,
    pair: (BoxOf<G16>, BoxOf<G16>),
    same: (BoxOf<G16>, BoxOf<G16>),
    what: What,
) {
    match moved(rt, pair, same) {
        Ok(_) => panic!(rt; "no turn"),
        Err(fault) => assert!(rt; fault == (what, Cause::Flat { lo: 0, hi: 0 })),
    }
}

#[test]
fn pairs_that_give_no_turn(rt: HostRuntime) {
    let (old, new) = ((point(1, 1), point(1, 1)), (point(1, 1), point(1, 1)));
    fails_by(&rt, old, new, What::Cos);
    let (old, new) = (
        (line(0, 1, 0), line(0, 1, 5)),
        (line(0, 1, 0), line(0, 1, 5)),
    );
    fails_by(&rt, old, new, What::Fx);
}

/// The ends of the cosine, the sine and the shift of a turn that has these parts, once it is settled.
fn settled(cos: i8, sin: i8) -> Answer<[Ends; 3]> {
    let there = Iv::<G16>::of_um(Um(1));
    let m = settle_motion(&Motion {
        cos: Iv::whole(i64::from(cos)),
        sin: Iv::whole(i64::from(sin)),
        fx: there,
        fy: there,
        tx: there,
        ty: there,
    })?;
    Ok([m.cos.ends(), m.sin.ends(), m.tx.ends()])
}

#[test]
fn turns_are_settled_at_length_one(rt: HostRuntime) {
    let turn = [(39321, 39322), (52428, 52429), (65, 66)];
    let flat = Cause::Flat { lo: 0, hi: 0 };
    same(&rt, settled(3, 4), Ok(turn));
    same(&rt, settled(0, 0), Err((What::Size, flat)));
}
