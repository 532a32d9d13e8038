// The command `measure`.
ghost use Rattle.std.specs.Prelude.{◌≡◌, ◌++◌, map, length, take, Contains, IfOk, OnOk};
ghost use Rattle.sk_base.specs.declared.Constraint.{Constraint as OfConstraint};
ghost use Rattle.sk_base.specs.SoundSketch.{IsSoundSketch};
ghost use Rattle.sk_graph.specs.SketchGraph.{graph_of};
ghost use Rattle.sk_measure.specs.Placing.{PlacesExactly};
ghost use Rattle.sk_claims.specs.Claims.{IsFitting};
ghost use Rattle.sk_tolerance.specs.declared.OffBy.{OffBy as AnyOff};
ghost use Rattle.sk_answers.specs.MeasureReport.{measured_line};
ghost use Rattle.sk_answers.specs.OffsThere.{IsOffThere, AreOffsPut};
ghost use Rattle.sk_answers.specs.MeasureAnswer.{TellsOffs, IsFaultThere, IsMeasuredThere, IsMeasurement, IsMeasureAnswer, all_numbers};

use crate::answer::{Answer, refused};
use crate::measured_lines::{put_measured, unplaced_text};
use crate::status::Status;
use sk_base::{Constraint, Graph, NoMemory, Placed, Sketch, Text};
use sk_claims::{Claim, read_places};
use sk_graph::reduce;
use sk_lang::read_sketch_front;
use sk_lines::ReadError;
use sk_report::{passed_text, put_tolerance, turned_text};
use sk_tolerance::{first_turned_constraint, least, off, passed};
use sk_verify::unplaced;
use std::alloc::Global;

/// The answer of `measure` to an input, with this limit of tolerance.
pub fn measured(alloc: Global, limit: u64, bytes: &[u8]) -> Result<Answer, NoMemory>
    ensures { IfOk result (λ answer. IsMeasureAnswer limit bytes.now answer.status answer.text) }
{
    let front = match read_sketch_front(alloc, bytes) {
        Ok(front) => front,
        Err(ReadError::Refused(refusal)) => return refused(alloc, &refusal),
        Err(ReadError::NoMemory) => return Err(NoMemory),
    };
    match read_places(
        alloc,
        &front.sketch,
        &bytes[front.used as usize..],
        front.lines,
    ) {
        Ok(claim) => measurement(alloc, limit, &front.sketch, &claim),
        Err(ReadError::Refused(refusal)) => refused(alloc, &refusal),
        Err(ReadError::NoMemory) => Err(NoMemory),
    }
}

/// The first element that isn't placed, and else how far off the places are.
fn measurement(alloc: Global, limit: u64, s: &Sketch, claim: &Claim) -> Result<Answer, NoMemory>
    requires sound { IsSoundSketch s.now }
    requires fits { IsFitting (graph_of s.now) claim.now }
    ensures { IfOk result (λ answer. IsMeasurement limit s.now claim.now answer.status answer.text) }
{
    match unplaced(s, claim) {
        Some(elem) => Ok(Answer {
            status: Status::NotVerified,
            text: unplaced_text(alloc, s, elem)?,
        }),
        None => {
            let graph = reduce(alloc, s)?;
            measured_there(alloc, limit, s, &graph, &claim.at)
        }
    }
}

/// How far off the places of all elements are, and the first fault behind that.
fn measured_there(
    alloc: Global,
    limit: u64,
    s: &Sketch,
    g: &Graph,
    at: &Placed,
) -> Result<Answer, NoMemory>
    requires sound { IsSoundSketch s.now }
    requires graph { g.now ≡ graph_of s.now }
    requires placed { PlacesExactly g.now at.now }
    ensures { IfOk result (λ answer. IsMeasuredThere limit s.now at.now answer.status answer.text) }
{
    let mut text = offs_text(alloc, s, g, at)?;
    let fault = fault_there(alloc, limit, s, g, at)?;
    text.put(fault.text.as_bytes())?;
    Ok(Answer {
        status: fault.status,
        text,
    })
}

/// By how much the places are off each constraint, and the least tolerances.
fn offs_text(alloc: Global, s: &Sketch, g: &Graph, at: &Placed) -> Result<Text, NoMemory>
    requires sound { IsSoundSketch s.now }
    requires graph { g.now ≡ graph_of s.now }
    requires placed { PlacesExactly g.now at.now }
    ensures { IfOk result (TellsOffs s.now at.now) }
{
    let mut text = each_off(alloc, s, g, at)?;
    put_tolerance(alloc, &mut text, s, &least(at, g))?;
    Ok(text)
}

/// A line for each constraint, by how much it is off.
fn each_off(alloc: Global, s: &Sketch, g: &Graph, at: &Placed) -> Result<Text, NoMemory>
    requires sound { IsSoundSketch s.now }
    requires graph { g.now ≡ graph_of s.now }
    requires placed { PlacesExactly g.now at.now }
    ensures { IfOk result (AreOffsPut (measured_line s.now) s.now at.now (all_numbers s.now)) }
{
    let mut text = Text::new(alloc);
    for constraint in s.constraints.as_slice() {
        put_one(alloc, &mut text, s, g, at, constraint)?;
    }
    Ok(text)
}

/// Puts the line of a constraint, by how much it is off.
fn put_one(
    alloc: Global,
    text: &mut Text,
    s: &Sketch,
    g: &Graph,
    at: &Placed,
    constraint: &Constraint,
) -> Result<(), NoMemory>
    requires sound { IsSoundSketch s.now }
    requires graph { g.now ≡ graph_of s.now }
    requires placed { PlacesExactly g.now at.now }
    requires there { Contains s.now.constraints constraint.now }
    ensures { OnOk result ((off : AnyOff) × IsOffThere at.now s.now constraint.now.number off × (text.new ≡ text.old ++ measured_line s.now constraint.now.number off)) }
{
    let by = off(at, s, g, constraint);
    put_measured(alloc, text, s, constraint.number, &by)
}

/// The line on the first that passes the limit, and else on the first sign that is turned over; no line where all holds.
fn fault_there(
    alloc: Global,
    limit: u64,
    s: &Sketch,
    g: &Graph,
    at: &Placed,
) -> Result<Answer, NoMemory>
    requires sound { IsSoundSketch s.now }
    requires graph { g.now ≡ graph_of s.now }
    requires placed { PlacesExactly g.now at.now }
    ensures { IfOk result (λ answer. IsFaultThere limit s.now at.now answer.status answer.text) }
{
    if let Some(beyond) = passed(at, g, limit) {
        return Ok(Answer {
            status: Status::Tolerance,
            text: passed_text(alloc, s, &beyond)?,
        });
    }
    match first_turned_constraint(at, s) {
        Some(turned) => Ok(Answer {
            status: Status::StepFault,
            text: turned_text(alloc, &turned)?,
        }),
        None => Ok(Answer {
            status: Status::Done,
            text: Text::new(alloc),
        }),
    }
}
