// Drawings whose elements lie at places that were made by hand: their tolerances, what is beyond a limit, and turned signs.
//
// A row has a sketch, `at`, and a place for each of its elements.
ghost use Rattle.std.specs.Prelude.{◌≡◌, ◌<◌, ◌≤◌, ◌^◌, length, All, IsTrue};
ghost use Rattle.sk_base.specs.Bounds.{IsWithin};
ghost use Rattle.sk_base.specs.Places.{IsBounded};
ghost use Rattle.sk_base.specs.SoundGraph.{IsSoundGraph};
ghost use Rattle.sk_base.specs.SoundSketch.{IsSoundSketch};
ghost use Rattle.sk_graph.specs.SketchGraph.{graph_of};
ghost use Rattle.sk_measure.specs.Placing.{HasKind, PlacesExactly, AreSpotsOf};

use crate::calls::{Read, planned, read_of};
use crate::row::number;
use sk_base::{At, Graph, Kind, List, Placed, Sketch, Spot, Text};
use sk_measure::{meets, meets_block};
use sk_report::{passed_text, solve_text, turned_text};
use sk_tolerance::{first_turned, least, passed};
use std::alloc::Global;
use std::process::Abort;

/// A drawing and its graph, and where its elements lie.
#[derive(Drop)]
pub(crate) struct Laid {
    pub sketch: Sketch,
    pub graph: Graph,
    pub at: Placed,
}

/// The drawing of a row with its elements at the places of the row.
pub(crate) fn lay(rt: &impl Abort, alloc: Global, text: &str) -> Laid
    ensures sketch { IsSoundSketch result.sketch }
    ensures is { result.graph ≡ graph_of result.sketch }
    ensures some { 0 < length result.sketch.elements }
    ensures lies { PlacesExactly (graph_of result.sketch) result.at }
    ensures graph { IsSoundGraph result.graph }
    ensures placed { PlacesExactly result.graph result.at }
    ensures bounded { All (λ spot. IsBounded spot.at) result.at.spots }
{
    let (text, places) = text.split_once("at\n").expect(rt, "places");
    let Read { sketch, graph } = read_of(rt, alloc, text);
    let places = places_of(rt, alloc, places);
    let at = placed(rt, alloc, &graph, places.as_slice());
    Laid { sketch, graph, at }
}

/// The places of the lines, `point x y` or `line a b c`.
fn places_of(rt: &impl Abort, alloc: Global, lines: &str) -> Vec<At> {
    let mut places = Vec::new(alloc);
    for line in lines.lines() {
        places.push(place_of(rt, line)).expect(rt, "memory");
    }
    places
}

fn place_of(rt: &impl Abort, line: &str) -> At {
    let (kind, rest) = line.split_once(' ').expect(rt, "a kind");
    let (first, rest) = rest.split_once(' ').expect(rt, "two numbers");
    let first = whole(rt, first);
    match rest.split_once(' ') {
        Some((b, c)) if kind == "line" => At::Line {
            a: first,
            b: whole(rt, b),
            c: whole(rt, c),
        },
        None if kind == "point" => At::Point {
            x: first,
            y: whole(rt, rest),
        },
        _ => panic!(rt; "a place"),
    }
}

fn whole(rt: &impl Abort, text: &str) -> i64 {
    text.parse::<i64>().expect(rt, "a number")
}

/// Places the nodes of the graph one by one.
fn placed(rt: &impl Abort, alloc: Global, graph: &Graph, places: &[At]) -> Placed
    requires { IsSoundGraph graph.now }
    ensures exactly { PlacesExactly graph.now result }
    ensures in_order { AreSpotsOf graph.now.nodes result.spots }
    ensures bounded { All (λ spot. IsBounded spot.at) result.spots }
{
    let nodes = graph.nodes.as_slice();
    assert!(rt; places.len() == nodes.len(), "a place for each element");
    let mut spots = List::new(alloc);
    for i in 0..nodes.len() {
        if !is_place(nodes[i].kind, places[i]) {
            panic!(rt; "a place of another kind");
        }
        let spot = Spot {
            elem: nodes[i].elem,
            at: places[i],
        };
        spots.push(spot).expect(rt, "memory");
    }
    Placed { spots }
}

/// Whether the place is of that kind, and within the bounds.
fn is_place(kind: Kind, at: At) -> bool
    ensures kind { IsTrue result → HasKind kind at }
    ensures bounded { IsTrue result → IsBounded at }
{
    match (kind, at) {
        (Kind::Point, At::Point { x, y }) => is_short(x) && is_short(y),
        (Kind::Line, At::Line { a, b, c }) => is_part(a) && is_part(b) && is_short(c),
        _ => false,
    }
}

fn is_short(length: i64) -> bool
    ensures { IsTrue result → IsWithin 1152921504606846976 length }
{
    -1_152_921_504_606_846_976 <= length && length <= 1_152_921_504_606_846_976
}

fn is_part(part: i64) -> bool
    ensures { IsTrue result → IsWithin 2000000000 part }
{
    -2_000_000_000 <= part && part <= 2_000_000_000
}

/// The report on the drawing, what is first beyond the limit, and the first turned sign.
pub(crate) fn judged(rt: &impl Abort, alloc: Global, laid: &Laid, limit: &str) -> Text
    requires sketch { IsSoundSketch laid.now.sketch }
    requires some { 0 < length laid.now.sketch.elements }
    requires graph { IsSoundGraph laid.now.graph }
    requires is { laid.now.graph ≡ graph_of laid.now.sketch }
    requires placed { PlacesExactly laid.now.graph laid.now.at }
    requires lies { PlacesExactly (graph_of laid.now.sketch) laid.now.at }
{
    let limit = number(rt, limit);
    let tolerance = least(&laid.at, &laid.graph);
    let sketch = &laid.sketch;
    let plan = planned(rt, alloc, sketch, &laid.graph);
    let told = solve_text(alloc, sketch, &plan, 38, &laid.at, &tolerance);
    let mut told = told.expect(rt, "memory");
    if let Some(beyond) = passed(&laid.at, &laid.graph, limit) {
        let line = passed_text(alloc, sketch, &beyond).expect(rt, "memory");
        told.put(line.as_bytes()).expect(rt, "memory");
    }
    if let Some(turned) = first_turned(&laid.at, sketch, &plan) {
        let line = turned_text(alloc, &turned).expect(rt, "memory");
        told.put(line.as_bytes()).expect(rt, "memory");
    }
    told
}

/// Whether the edge, or behind all of them the block, at a place of the graph holds within a tolerance: if it doesn't,
/// nothing is told.
pub(crate) fn held(rt: &impl Abort, alloc: Global, laid: &Laid, numbers: &str) -> Text
    requires graph { IsSoundGraph laid.now.graph }
    requires placed { PlacesExactly laid.now.graph laid.now.at }
{
    let (place, tolerance) = numbers.split_once(' ').expect(rt, "a tolerance");
    let place = usize::try_from(number(rt, place)).expect(rt, "a place");
    let tolerance = number(rt, tolerance);
    let mut told = Text::new(alloc);
    if holds_at(rt, &laid.at, &laid.graph, place, tolerance) {
        told.put(b"holds\n").expect(rt, "memory");
    }
    told
}

/// Whether what stands at place `i` holds within `t`. Nothing stands behind the last block.
fn holds_at(rt: &impl Abort, at: &Placed, graph: &Graph, i: usize, t: u64) -> bool
    requires sound { IsSoundGraph graph.now }
    requires placed { PlacesExactly graph.now at.now }
{
    let edges = graph.edges.len();
    assert!(rt; t <= MOST, "a tolerance");
    if i < edges {
        return edge_meets(at, graph, i, t);
    }
    assert!(rt; i - edges < graph.blocks.len(), "a place of the graph");
    block_meets(at, graph, i - edges, t)
}

/// The most that a tolerance may be.
const MOST: u64 = 4_611_686_018_427_387_904;

/// Whether the edge at place `i` holds within `t`.
fn edge_meets(at: &Placed, graph: &Graph, i: usize, t: u64) -> bool
    requires sound { IsSoundGraph graph.now }
    requires placed { PlacesExactly graph.now at.now }
    requires inside { i < length graph.now.edges }
    requires few { t ≤ 2 ^ 62 }
{
    meets(at, &graph.edges.as_slice()[i], t, 0)
}

/// Whether the block at place `i` holds within `t`.
fn block_meets(at: &Placed, graph: &Graph, i: usize, t: u64) -> bool
    requires sound { IsSoundGraph graph.now }
    requires placed { PlacesExactly graph.now at.now }
    requires inside { i < length graph.now.blocks }
    requires few { t ≤ 2 ^ 62 }
{
    meets_block(at, &graph.blocks.as_slice()[i], t)
}
