// Other drawings by turned choices, by the calls below the command.
ghost use Rattle.std.specs.Prelude.{◌≡◌, ◌<◌, length};
ghost use Rattle.sk_base.specs.SoundSketch.{IsSoundSketch};
ghost use Rattle.sk_graph.specs.SketchGraph.{graph_of};
ghost use Rattle.sk_measure.specs.Placing.{PlacesExactly};

use crate::calls::{planned, read_of};
use crate::row::{few_bytes, put_each};
use crate::tolerances::Laid;
use sk_base::{List, Name, Sign, Sketch, Text};
use sk_cli::alternative_text;
use sk_flips::{flip_plan, read_flips, turned_plan_is_legal};
use sk_interval::G38;
use sk_lines::ReadError;
use sk_place::{FrameBy, Layout, PlaceBy};
use sk_report::{refused_text, turned_text};
use sk_solve::{Alternative, alternatives, first_off};
use sk_test_tables::flips::TRIANGLE;
use sk_tolerance::Turned;
use std::alloc::Global;
use std::process::Abort;

/// The lists of steps that the lines are read as, behind three others, and what comes of the triangle with each of them, told
/// as if it were the ninth; or the refusal of a line.
#[tactic(auto, using(sk_lines::proofs::LineCounts::few_lines))]
pub(crate) fn flips_told(rt: &impl Abort, alloc: Global, lines: &str) -> Text {
    match read_flips(alloc, few_bytes(rt, lines), 3) {
        Ok(lists) => alternatives_told(rt, alloc, &lists),
        Err(ReadError::Refused(refusal)) => refused_text(alloc, &refusal).expect(rt, "memory"),
        Err(ReadError::NoMemory) => panic!(rt; "memory"),
    }
}

fn alternatives_told(rt: &impl Abort, alloc: Global, lists: &List<List<Name>>) -> Text {
    let read = read_of(rt, alloc, TRIANGLE);
    let (sketch, graph) = (&read.sketch, &read.graph);
    let plan = planned(rt, alloc, sketch, graph);
    let placing = Layout {
        by: PlaceBy::Boxes,
        frame: FrameBy::Base,
    };
    let found = alternatives::<G38>(alloc, placing, sketch, graph, &plan, lists, 1000);
    let found = found.expect(rt, "memory");
    assert!(rt; found.len() == lists.len(), "an alternative for each list");
    let mut told = Text::new(alloc);
    for (names, alternative) in lists.as_slice().iter().zip(found.as_slice()) {
        put_each(rt, alloc, &mut told, names.as_slice());
        let text = alternative_text(alloc, sketch, 9, 38, alternative).expect(rt, "memory");
        told.put(text.as_bytes()).expect(rt, "memory");
    }
    told
}

/// The first sign that isn't as the plan chooses it with its first step turned over, where the elements lie there, or no text.
pub(crate) fn off_told(rt: &impl Abort, alloc: Global, laid: &Laid) -> Text
    requires sound { IsSoundSketch laid.now.sketch }
    requires some { 0 < length laid.now.sketch.elements }
    requires graph { laid.now.graph ≡ graph_of laid.now.sketch }
    requires lies { PlacesExactly (graph_of laid.now.sketch) laid.now.at }
{
    let mut names = List::new(alloc);
    names.push(Name::Step(1)).expect(rt, "memory");
    let plan = planned(rt, alloc, &laid.sketch, &laid.graph);
    let plan = flip_plan(alloc, &plan, &names).expect(rt, "a turned plan");
    turned_plan_is_legal();
    match first_off(&laid.at, &laid.sketch, &plan) {
        Some(turned) => turned_text(alloc, &turned).expect(rt, "memory"),
        None => Text::new(alloc),
    }
}

/// What comes of a turned sign that no drawing is known for.
pub(crate) fn turned_told(rt: &impl Abort, alloc: Global) -> Text {
    let sketch = Sketch {
        elements: List::new(alloc),
        constraints: List::new(alloc),
    };
    let turned = Turned {
        at: Name::Step(2),
        drawn: Sign::Minus,
        placed: 0,
    };
    let told = alternative_text(alloc, &sketch, 7, 38, &Alternative::Turned(turned));
    told.expect(rt, "memory")
}
