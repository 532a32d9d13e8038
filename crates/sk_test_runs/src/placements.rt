// Sketches that are placed by the calls below the top call. Drawings on each grid are in `solves` of `sk_test_tables`.
ghost use Rattle.std.specs.Prelude.{◌≡◌, ◌<◌, length, All};
ghost use Rattle.sk_base.specs.Places.{IsBounded};
ghost use Rattle.sk_base.specs.SoundGraph.{IsSoundGraph};
ghost use Rattle.sk_base.specs.SoundSketch.{IsSoundSketch};
ghost use Rattle.sk_graph.specs.SketchGraph.{graph_of};

use crate::calls::planned;
use crate::row::put_each;
use crate::tolerances::Laid;
use sk_base::{Graph, Sketch, Text};
use sk_dxf::dxf_text;
use sk_interval::{G16, G38, Grid};
use sk_place::{Boxes, PlaceBy, PlaceError, place, round};
use sk_report::fault_text;
use std::alloc::Global;
use std::process::Abort;

/// Where the elements of the drawing lie as they are placed on the grid of so many digits, and its DXF text, or the first
/// fault.
pub(crate) fn places_told(
    rt: &impl Abort,
    alloc: Global,
    sketch: &Sketch,
    graph: &Graph,
    bits: &str,
) -> Text
    requires sound { IsSoundSketch sketch.now }
    requires some { 0 < length sketch.now.elements }
    requires graph { graph.now ≡ graph_of sketch.now }
    requires reduced { IsSoundGraph graph.now }
{
    let plan = planned(rt, alloc, sketch, graph);
    match bits {
        "16" => {
            let boxes = place::<G16>(alloc, PlaceBy::Boxes, &plan, graph);
            placed_told(rt, alloc, sketch, boxes)
        }
        "38" => {
            let boxes = place::<G38>(alloc, PlaceBy::Boxes, &plan, graph);
            placed_told(rt, alloc, sketch, boxes)
        }
        _ => panic!(rt; "a grid"),
    }
}

fn placed_told<R: Abort, G: Grid>(
    rt: &R,
    alloc: Global,
    sketch: &Sketch,
    boxes: Result<Boxes<G>, PlaceError>,
) -> Text {
    match boxes {
        Ok(boxes) => drawn_told(rt, alloc, sketch, &boxes),
        Err(PlaceError::Fault(fault)) => {
            fault_text(alloc, sketch, &fault, G::BITS).expect(rt, "memory")
        }
        Err(PlaceError::NoMemory) => panic!(rt; "memory"),
    }
}

fn drawn_told<R: Abort, G: Grid>(rt: &R, alloc: Global, sketch: &Sketch, boxes: &Boxes<G>) -> Text {
    let places = round(alloc, boxes).expect(rt, "memory");
    let mut told = Text::new(alloc);
    put_each(rt, alloc, &mut told, places.spots.as_slice());
    let drawn = dxf_text(alloc, &places, sketch).expect(rt, "memory");
    told.put(drawn.as_bytes()).expect(rt, "memory");
    told
}

/// The DXF text of the drawing whose elements lie there.
pub(crate) fn drawing_told(rt: &impl Abort, alloc: Global, laid: &Laid) -> Text
    requires { All (λ spot. IsBounded spot.at) laid.now.at.spots }
{
    dxf_text(alloc, &laid.at, &laid.sketch).expect(rt, "memory")
}
