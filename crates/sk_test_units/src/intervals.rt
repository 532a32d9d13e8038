//! Ends that were worked out by hand.

use sk_base::Um;
use sk_interval::{Cause, G16, G27, G38, Grid, Iv};
use std::process::Abort;

const TWO_TO_25: i64 = 33554432;

const TWO_TO_40: i64 = 1099511627776;

type Answer<G> = Result<Iv<G>, Cause>;

/// The interval has these ends.
fn ends<G: Grid>(rt: &impl Abort, answer: Answer<G>, lo: i128, hi: i128) {
    match answer {
        Ok(found) => assert!(rt; found.ends() == (lo, hi), "{lo} {hi}"),
        Err(_) => panic!(rt; "an interval"),
    }
}

fn um<G: Grid>(far: i16) -> Iv<G> {
    Iv::of_um(Um(i64::from(far)))
}

#[test]
fn lengths_and_roots_on_each_grid(rt: HostRuntime) {
    ends::<G16>(&rt, Ok(um(1)), 65, 66);
    ends::<G27>(&rt, Ok(um(1)), 134217, 134218);
    ends::<G38>(&rt, Ok(um(1)), 274877906, 274877907);
    ends::<G16>(&rt, Ok(um(-1)), -66, -65);
    ends::<G16>(&rt, Ok(um(3000)), 196608, 196608);
    ends::<G16>(&rt, Iv::whole(2).sqrt(), 92681, 92682);
    ends::<G38>(&rt, Iv::whole(2).sqrt(), 388736063996, 388736063997);
    ends::<G16>(&rt, Iv::whole(4).sqrt(), 131072, 131072);
    ends::<G16>(&rt, Ok(um(1).middle()), 65, 65);
    ends::<G16>(&rt, Ok(um(-1).middle()), -66, -66);
}

#[test]
fn sums_products_and_quotients(rt: HostRuntime) {
    let (thousandth, three) = (um::<G16>(1), Iv::<G16>::whole(3));
    ends(&rt, three.add(thousandth), 196673, 196674);
    ends(&rt, three.sub(thousandth), 196542, 196543);
    ends(&rt, three.mul(thousandth.neg()), -198, -195);
    ends(&rt, Iv::<G16>::whole(1).div(three), 21845, 21846);
    ends(&rt, Iv::<G16>::whole(-1).div(three), -21846, -21845);
    ends(&rt, thousandth.mul(thousandth), 0, 1);
}

/// The answer is refused for that, or just isn't.
fn refused<G: Grid>(rt: &impl Abort, answer: Answer<G>, cause: Option<Cause>) {
    assert!(rt; answer.err() == cause);
}

/// What has no root or no quotient, on a grid whose -1 mm is so many units.
fn refuses<G: Grid>(rt: &impl Abort, below: i128) {
    let (zero, one) = (Iv::<G>::whole(0), Iv::<G>::whole(1));
    let flat = Some(Cause::Flat { lo: 0, hi: 0 });
    refused(rt, zero.sqrt(), flat);
    refused(rt, one.div(zero), flat);
    let below = Cause::Gap {
        lo: below,
        hi: below,
    };
    refused(rt, one.neg().sqrt(), Some(below));
    let around_zero = there(rt, um::<G>(-1).add(um(1)));
    let flat = Some(Cause::Flat { lo: -1, hi: 1 });
    refused(rt, one.div(around_zero), flat);
}

fn there<G: Grid>(rt: &impl Abort, answer: Answer<G>) -> Iv<G> {
    answer.expect(rt, "an interval")
}

/// What just isn't out of range, and what is.
fn bounds<G: Grid>(rt: &impl Abort) {
    let (out, one, large) = (Some(Cause::Range), Iv::whole(1), Iv::whole(TWO_TO_25));
    let limit = there::<G>(rt, large.mul(large));
    let larger = there::<G>(rt, large.add(large));
    refused(rt, larger.mul(larger), out);
    refused(rt, limit.add(one), out);
    refused(rt, limit.sub(one), None);
    refused(rt, limit.neg().sub(one), out);
}

/// The same, of the lengths and the normals that a box may have.
fn bounds_of_boxes<G: Grid>(rt: &impl Abort) {
    let (out, one, length) = (Some(Cause::Range), Iv::whole(1), Iv::whole(TWO_TO_40));
    refused::<G>(rt, length.length_box(), None);
    refused(rt, there::<G>(rt, length.add(one)).length_box(), out);
    refused::<G>(rt, Iv::whole(-2).normal_box(), None);
    let normal = there::<G>(rt, Iv::whole(2).add(um(1)));
    refused(rt, normal.normal_box(), out);
}

#[test]
fn refusals_on_each_grid(rt: HostRuntime) {
    refuses::<G16>(&rt, -65536);
    refuses::<G27>(&rt, -134217728);
    refuses::<G38>(&rt, -274877906944);
}

#[test]
fn bounds_on_each_grid(rt: HostRuntime) {
    bounds::<G16>(&rt);
    bounds::<G27>(&rt);
    bounds::<G38>(&rt);
    bounds_of_boxes::<G16>(&rt);
    bounds_of_boxes::<G27>(&rt);
    bounds_of_boxes::<G38>(&rt);
}
