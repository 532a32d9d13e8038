// How far off one constraint is.
ghost use Rattle.std.specs.Prelude.{◌≡◌, Contains};
ghost use Rattle.sk_base.specs.SoundGraph.{IsSoundGraph};
ghost use Rattle.sk_base.specs.SoundSketch.{IsSoundSketch};
ghost use Rattle.sk_graph.specs.SketchGraph.{graph_of};
ghost use Rattle.sk_measure.specs.Placing.{PlacesExactly};
ghost use Rattle.sk_tolerance.specs.Turns.{senses};
ghost use Rattle.sk_tolerance.specs.Offs.{is_length, IsOff, HasNumber, NormalsHold, IsNear, IsBoundedOff};
ghost use Rattle.sk_tolerance.specs.Telling.{IsCompared};

use crate::turned::{Turned, turned_sense};
use sk_base::{ConId, Constraint, Graph, Measure, Placed, Sketch};
use sk_measure::{own_off, own_off_of_block};

/// How far off a constraint is where the elements are placed.
#[derive(Clone, Copy, Debug, PartialEq, Eq)]
pub struct OffBy {
    /// Whether it is on a length, a height or a block, and so `off` in nanometres; on an angle it is in
    /// parts per 10^9.
    pub length: bool,
    /// By how much the places give more than the constraint says, below zero where they give less. Its
    /// size is the constraint's own least number.
    pub off: i64,
    /// The sense of an angle or the turn of a block, where it isn't placed as it is drawn.
    pub turned: Option<Turned>,
}

/// How far off the constraint is where the elements of its sketch are placed.
pub fn off(p: &Placed, s: &Sketch, g: &Graph, c: &Constraint) -> OffBy
    requires sketch { IsSoundSketch s.now }
    requires graph { g.now ≡ graph_of s.now }
    requires constraint { Contains s.now.constraints c.now }
    requires placed { PlacesExactly g.now p.now }
    ensures off { IsOff p.now g.now c.now.number result }
    ensures turned { IsCompared (senses s.now p.now c.now.number c.now.rule) result.turned }
    ensures near { NormalsHold p.now g.now 1000000 → IsNear result }
    ensures bounded { IsBoundedOff result }
{
    off_with(p, g, c.number, turned_sense(p, s, c))
}

/// How far off the constraint of that number is, whose turned sign is known.
fn off_with(p: &Placed, g: &Graph, number: ConId, turned: Option<Turned>) -> OffBy
    requires graph { IsSoundGraph g.now }
    requires there { HasNumber g.now number }
    requires placed { PlacesExactly g.now p.now }
    ensures off { IsOff p.now g.now number result }
    ensures turned { result.turned ≡ turned }
    ensures near { NormalsHold p.now g.now 1000000 → IsNear result }
    ensures bounded { IsBoundedOff result }
{
    match g.edge(number) {
        Some(edge) => OffBy {
            length: is_length(edge.measure),
            off: own_off(p, edge),
            turned,
        },
        None => match g.block(number) {
            Some(block) => OffBy {
                length: true,
                off: own_off_of_block(p, block),
                turned,
            },
            None => unreachable!(),
        },
    }
}

/// Whether the measure is a length, and no angle.
fn is_length(measure: Measure) -> bool
    ensures { result ≡ is_length measure }
{
    match measure {
        Measure::PointPoint(_) | Measure::PointLine(_, _) => true,
        Measure::LineLine(_, _) => false,
    }
}
