// What claims are read as, and a check of them, by the calls below the command.
ghost use Rattle.sk_base.specs.SoundSketch.{IsSoundSketch};
ghost use Rattle.sk_graph.specs.SketchGraph.{graph_of};
ghost use Rattle.sk_claims.specs.Claims.{IsFitting};

use crate::calls::sketch_of;
use crate::row::{few_bytes, put_each};
use sk_base::{Sketch, Text};
use sk_claims::{Claim, read_claim};
use sk_graph::reduce;
use sk_lines::ReadError;
use sk_report::refused_text;
use sk_test_tables::claims::WHEEL;
use sk_verify::{VerifyError, failure_text, verified_text, verify};
use std::alloc::Global;
use std::process::Abort;

/// What the lines are read as behind the eight of the wheel, and what a check of that tells, or the refusal of a line.
#[tactic(auto, using(sk_lines::proofs::LineCounts::few_lines))]
pub(crate) fn claim_told(rt: &impl Abort, alloc: Global, lines: &str) -> Text {
    let sketch = sketch_of(rt, alloc, WHEEL);
    match read_claim(alloc, &sketch, few_bytes(rt, lines), 8) {
        Ok(claim) => judged(rt, alloc, &sketch, &claim),
        Err(ReadError::Refused(refusal)) => refused_text(alloc, &refusal).expect(rt, "memory"),
        Err(ReadError::NoMemory) => panic!(rt; "memory"),
    }
}

/// The steps of the claim, its places, its radii and its tolerances, and what a check of it tells.
fn judged(rt: &impl Abort, alloc: Global, sketch: &Sketch, claim: &Claim) -> Text
    requires sound { IsSoundSketch sketch.now }
    requires fits { IsFitting (graph_of sketch.now) claim.now }
{
    let mut told = Text::new(alloc);
    put_each(rt, alloc, &mut told, claim.steps.as_slice());
    put_each(rt, alloc, &mut told, claim.at.spots.as_slice());
    put_each(rt, alloc, &mut told, claim.radii.as_slice());
    put_each(rt, alloc, &mut told, &[claim.t, claim.w]);
    let outcome = outcome(rt, alloc, sketch, claim);
    told.put(outcome.as_bytes()).expect(rt, "memory");
    told
}

/// What a check of the claim tells.
fn outcome(rt: &impl Abort, alloc: Global, sketch: &Sketch, claim: &Claim) -> Text
    requires sound { IsSoundSketch sketch.now }
    requires fits { IsFitting (graph_of sketch.now) claim.now }
{
    let graph = reduce(alloc, sketch).expect(rt, "memory");
    let told = match verify(alloc, sketch, &graph, claim) {
        Ok(()) => verified_text(alloc, claim),
        Err(VerifyError::Fails(failure)) => failure_text(alloc, sketch, &failure),
        Err(VerifyError::NoMemory) => panic!(rt; "memory"),
    };
    told.expect(rt, "memory")
}
