// Where the frame of the base lies.
ghost use Rattle.std.specs.Prelude.{◌≡◌};
ghost use Rattle.sk_base.specs.Bounds.{IsWithin};
ghost use Rattle.sk_base.specs.Pins.{IsOnSheet, AreSoundPins};
ghost use Rattle.sk_base.specs.SoundGraph.{IsSoundGraph};
ghost use Rattle.sk_base.specs.SoundSketch.{IsSoundSketch};
ghost use Rattle.sk_graph.specs.SketchGraph.{drawn_as};
ghost use Rattle.sk_orient.specs.DrawnSigns.{IsOnPaper};
ghost use Rattle.sk_orient.specs.Vectors.{IsShort, way};
ghost use Rattle.sk_steps.specs.Leaves.{by_sign, IsSoundMeasure};
ghost use Rattle.sk_frame.specs.Frames.{frame_from, still, measured_frame, edge_frame, given_place, drawn_place, block_frame, lone_frame, constraint_frame, frame_of, IsSoundFrame};
ghost use Rattle.sk_frame.specs.TurnBounds.{IsSomewhere};
ghost use Rattle.sk_frame.specs.Turns.{origin, forward};

use crate::bases::base_of;
use crate::crossings::{meeting, nanometres};
use crate::scaling::{or_forward, turn};
use sk_base::{ConId, Edge, Elem, Graph, Measure, Node, Pin, Shape, Sign, Sketch, Um};
use sk_orient::{Vector, direction, place, way};
use sk_tree::Plan;

/// Where a frame lies: the place `from` of the frame, in micrometres, is the drawing's place `to`, in
/// nanometres. What goes forward in the frame turns by `turn.x` parts along and `turn.y` parts to the left.
#[derive(Clone, Copy)]
pub struct Frame {
    pub from: Vector,
    pub to: Vector,
    pub turn: Vector,
}

/// Where the frame of the plan's base lies in the drawing, or that of the only element.
pub fn frame_of(s: &Sketch, g: &Graph, p: &Plan) -> Frame
    requires sketch { IsSoundSketch s.now }
    requires graph { IsSoundGraph g.now }
    ensures value { result ≡ frame_of s.now g.now p.now }
    ensures sound { IsSoundFrame result }
{
    match base_of(p) {
        Some(number) => constraint_frame(s, g, number),
        None => lone_frame(s, g.nodes.as_slice()),
    }
}

/// The frame of a constraint.
fn constraint_frame(s: &Sketch, g: &Graph, number: ConId) -> Frame
    requires sketch { IsSoundSketch s.now }
    requires graph { IsSoundGraph g.now }
    ensures value { result ≡ constraint_frame s.now g.now number }
    ensures sound { IsSoundFrame result }
{
    if let Some(edge) = g.edge(number) {
        return edge_frame(s, edge);
    }
    match g.block(number) {
        Some(block) => block_frame(s, block.pins.as_slice()),
        None => still(),
    }
}

/// The frame of a constraint between two elements.
fn edge_frame(s: &Sketch, e: &Edge) -> Frame
    requires sketch { IsSoundSketch s.now }
    requires measure { IsSoundMeasure e.now.measure }
    ensures value { result ≡ edge_frame s.now e.now }
    ensures sound { IsSoundFrame result }
{
    measured_frame(e.measure, &drawn(s, e.u), &drawn(s, e.v))
}

/// The frame of two elements, by what is measured between them.
fn measured_frame(measure: Measure, a: &Shape, b: &Shape) -> Frame
    requires measure { IsSoundMeasure measure }
    requires a { IsOnPaper a.now }
    requires b { IsOnPaper b.now }
    ensures value { result ≡ measured_frame measure a.now b.now }
    ensures sound { IsSoundFrame result }
{
    match measure {
        Measure::PointPoint(_) => {
            drawn_frame(origin(), nanometres(place(a)), between(place(a), place(b)))
        }
        Measure::PointLine(far, side) => {
            let from = Vector {
                x: 0,
                y: i128::from(by_sign(far, side)),
            };
            drawn_frame(from, nanometres(place(a)), direction(b))
        }
        Measure::LineLine(..) => drawn_frame(origin(), meeting(a, b), direction(a)),
    }
}

/// From the one place to the other.
fn between(from: Vector, to: Vector) -> Vector
    requires from { IsShort 1000000000 from }
    requires to { IsShort 1000000000 to }
    ensures value { result ≡ way from to }
    ensures short { IsShort 2000000000 result }
{
    way(from, to)
}

/// The length, or its negative.
fn by_sign(far: Um, side: Sign) -> i64
    requires { IsWithin 1000000000 far.0 }
    ensures value { result ≡ by_sign side far.0 }
    ensures within { IsWithin 1000000000 result }
{
    match side {
        Sign::Plus => far.0,
        Sign::Minus => -far.0,
    }
}

/// The frame of a block, by its first two pins.
fn block_frame(s: &Sketch, pins: &[Pin]) -> Frame
    requires sketch { IsSoundSketch s.now }
    requires pins { AreSoundPins pins.now }
    ensures value { result ≡ block_frame s.now pins.now }
    ensures sound { IsSoundFrame result }
{
    match pins {
        [p, q, ..] => {
            let (first, second) = (given_place(p), given_place(q));
            let (here, there) = (drawn_place(s, p), drawn_place(s, q));
            let d = between(here, there);
            frame_from(first, nanometres(here), between(first, second), d)
        }
        _ => still(),
    }
}

/// The place that the block gives its pin, in micrometres.
fn given_place(pin: &Pin) -> Vector
    requires { IsOnSheet pin.now }
    ensures value { result ≡ given_place pin.now }
    ensures short { IsShort 1000000000 result }
{
    Vector {
        x: i128::from(pin.x.0),
        y: i128::from(pin.y.0),
    }
}

/// Where the pin's element is drawn, in micrometres.
fn drawn_place(s: &Sketch, pin: &Pin) -> Vector
    requires { IsSoundSketch s.now }
    ensures value { result ≡ drawn_place s.now pin.now }
    ensures short { IsShort 1000000000 result }
{
    place(&drawn(s, pin.elem))
}

/// The frame of an element alone.
fn lone_frame(s: &Sketch, nodes: &[Node]) -> Frame
    requires { IsSoundSketch s.now }
    ensures value { result ≡ lone_frame s.now nodes.now }
    ensures sound { IsSoundFrame result }
{
    match nodes.first() {
        Some(node) => {
            let shape = drawn(s, node.elem);
            drawn_frame(origin(), nanometres(place(&shape)), direction(&shape))
        }
        None => still(),
    }
}

/// How the element is drawn. A sound sketch draws each element that it names; any other is told as a
/// point at the origin.
fn drawn(s: &Sketch, e: Elem) -> Shape
    requires { IsSoundSketch s.now }
    ensures value { result ≡ drawn_as s.now e }
    ensures on_paper { IsOnPaper result }
{
    match s.look_up(e) {
        Some(element) => element.shape,
        None => Shape::Point { x: Um(0), y: Um(0) },
    }
}

fn origin() -> Vector
    ensures { result ≡ origin }
{
    Vector { x: 0, y: 0 }
}

fn forward() -> Vector
    ensures { result ≡ forward }
{
    Vector { x: 1, y: 0 }
}

/// As it lies.
fn still() -> Frame
    ensures value { result ≡ still }
    ensures sound { IsSoundFrame result }
{
    drawn_frame(origin(), origin(), forward())
}

/// The frame with that place drawn there, and what goes forward drawn in that direction.
fn drawn_frame(from: Vector, to: Vector, d: Vector) -> Frame
    requires from { IsShort 1000000000 from }
    requires to { IsShort 1000000000000 to }
    requires d { IsShort 2000000000 d }
    ensures value { result ≡ frame_from from to forward d }
    ensures sound { IsSoundFrame result }
{
    frame_from(from, to, forward(), d)
}

/// The frame with that place drawn there, and its direction `g` drawn as `d`.
fn frame_from(from: Vector, to: Vector, g: Vector, d: Vector) -> Frame
    requires from { IsShort 1000000000 from }
    requires to { IsShort 1000000000000 to }
    requires g { IsShort 2000000000 g }
    requires somewhere { IsSomewhere g }
    requires d { IsShort 2000000000 d }
    ensures value { result ≡ frame_from from to g d }
    ensures sound { IsSoundFrame result }
{
    Frame {
        from,
        to,
        turn: turn(g, or_forward(d)),
    }
}
