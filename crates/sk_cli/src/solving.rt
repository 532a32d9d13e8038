// A sketch whose plan is placed, and what is written of it.
ghost use Rattle.std.specs.Prelude.{◌≡◌, ◌<◌, length, IfOk};
ghost use Rattle.sk_base.specs.SoundSketch.{IsSoundSketch};
ghost use Rattle.sk_dxf.specs.Courses.{HasBoundedPlaces};
ghost use Rattle.sk_cli.specs.Solving.{status_of, report_words, placement_words, LiesWithinBounds};
ghost use Rattle.sk_cli.specs.Outcome.{IsSolved};

use crate::placing::placed;
use crate::planning::{Planning, plan_or_report};
use sk_answers::{Answer, Status};
use sk_base::{NoMemory, Placed, Sketch, Text};
use sk_dxf::dxf_text;
use sk_report::{
    fault_text, frame_fault_text, grow_text, passed_text, shape_text, solve_text, turned_text,
};
use sk_request::Request;
use sk_solve::Placement;
use sk_tolerance::Tolerance;
use sk_tree::Plan;
use std::alloc::Global;

/// What is written where all elements are placed and all holds.
#[derive(Clone, Copy, Debug, PartialEq, Eq)]
pub enum Report {
    /// Where each element lies, and the tolerance.
    Places,
    /// The elements as DXF.
    Drawing,
    /// The sums of all coordinates, and the tolerance.
    Sums,
    /// The lines of where each element lies and the tolerance, behind the verdict.
    Shape,
}

/// What is written of the placed plan of the sketch, or the check report where the verdict isn't well.
pub(crate) fn solved(
    alloc: Global,
    request: Request,
    report: Report,
    s: &Sketch,
) -> Result<Answer, NoMemory>
    requires sound { IsSoundSketch s.now }
    requires some { 0 < length s.now.elements }
    ensures { IfOk result (λ answer. IsSolved report request s.now answer.status answer.text) }
{
    match plan_or_report(alloc, request.order, s)? {
        Planning::Planned { graph, plan } => {
            let placement = placed(alloc, request, s, &graph, &plan)?;
            Ok(Answer {
                status: status_of(&placement),
                text: placement_text(alloc, report, request.bits.count(), s, &plan, &placement)?,
            })
        }
        Planning::NotWell(text) => Ok(Answer {
            status: Status::NotWell,
            text,
        }),
    }
}

fn status_of(placement: &Placement) -> Status
    ensures { result ≡ status_of placement.now }
{
    match placement {
        Placement::Fault(_) | Placement::Uncarried(_) | Placement::Turned(_) => Status::StepFault,
        Placement::Beyond(_) => Status::Tolerance,
        Placement::Holds(_, _) => Status::Done,
    }
}

/// What is written of a placement.
pub(crate) fn placement_text(
    alloc: Global,
    report: Report,
    bits: u32,
    s: &Sketch,
    p: &Plan,
    placement: &Placement,
) -> Result<Text, NoMemory>
    requires { LiesWithinBounds placement.now }
    ensures { IfOk result (λ text. text ≡ placement_words report bits s.now p.now placement.now) }
{
    match placement {
        Placement::Fault(fault) => fault_text(alloc, s, fault, bits),
        Placement::Uncarried(fault) => frame_fault_text(alloc, s, fault, bits),
        Placement::Beyond(beyond) => passed_text(alloc, s, beyond),
        Placement::Turned(turned) => turned_text(alloc, turned),
        Placement::Holds(at, tolerance) => report_text(alloc, report, bits, s, p, at, tolerance),
    }
}

/// What is written where elements lie so.
fn report_text(
    alloc: Global,
    report: Report,
    bits: u32,
    s: &Sketch,
    p: &Plan,
    at: &Placed,
    t: &Tolerance,
) -> Result<Text, NoMemory>
    requires { HasBoundedPlaces at.now }
    ensures { IfOk result (λ text. text ≡ report_words report bits s.now p.now at.now t.now) }
{
    match report {
        Report::Places => solve_text(alloc, s, p, bits, at, t),
        Report::Drawing => dxf_text(alloc, at, s),
        Report::Sums => grow_text(alloc, s, p, at, t),
        Report::Shape => shape_text(alloc, s, p, bits, at, t),
    }
}
