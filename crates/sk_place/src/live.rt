// The boxes of live clusters.
ghost use Rattle.std.specs.Prelude.{◌≡◌, ◌≢◌, ◌+◌, ◌∷◌, ◌++◌, [], length, map, All, IfOk, OnOk, None, Some, IsSome, slice_set, slice_index_or};
ghost use Rattle.sk_base.specs.declared.Name.{Name as OfName};
ghost use Rattle.sk_base.specs.Pins.{IsOnSheet};
ghost use Rattle.sk_base.specs.SoundGraph.{IsSoundGraph};
ghost use Rattle.sk_steps.specs.Leaves.{IsSoundMeasure};
ghost use Rattle.sk_place.specs.Trees.{edge as FramedEdge, framed_of, frame_of, pin_at, pin_boxes};
ghost use Rattle.sk_place.specs.Running.{held, IsThere};

use crate::boxes::BoxAt;
use crate::lookup::{put, put_all};
use sk_base::{ConId, Edge, Graph, List, Name, NoMemory, Pin};
use sk_interval::Grid;
use sk_steps::{leaf_boxes, pin_box};
use slab::Slab;
use std::alloc::Global;
use std::marker::Model;

/// The boxes of the clusters that steps have made, by the steps' numbers; nothing stands at 0, nor
/// where a cluster is no longer live. The place of what is taken out goes to the next.
#[derive(Drop)]
pub(crate) struct Live<G: Grid> {
    boxes: Slab<List<BoxAt<G>>>,
    keys: List<Option<usize>>,
}

impl<G: Grid> Model for Live<G> {
    ghost use Rattle.std.specs.Prelude.{List as Items, Option as Maybe};
    ghost use Rattle.sk_place.specs.declared.boxes.BoxAt.{BoxAt};
    ghost use Rattle.sk_place.specs.Slots.{slots_of, HaveOwnKeys};

    ghost Value = { Items (Maybe (Items (BoxAt G))) };

    ghost view = { λ live. slots_of live.boxes live.keys };

    ghost invariant = { λ live. HaveOwnKeys live.boxes live.keys };
}

impl<G: Grid> Live<G> {
    /// Nothing is made yet.
    pub(crate) fn new(alloc: Global) -> Result<Live<G>, NoMemory>
        ensures { IfOk result (λ live. live ≡ None ∷ []) }
    {
        let mut keys = List::new(alloc);
        keys.push(None)?;
        Ok(Live {
            boxes: Slab::new(alloc),
            keys,
        })
    }

    /// Puts down what the next step made.
    pub(crate) fn push(&mut self, boxes: List<BoxAt<G>>) -> Result<(), NoMemory>
        ensures { OnOk result (self.new ≡ self.old ++ Some boxes ∷ []) }
    {
        let key = self.boxes.insert(boxes)?;
        self.keys.push(Some(key))
    }

    /// Takes out what the step of this number made.
    fn take(&mut self, step: usize) -> List<BoxAt<G>>
        requires { IsSome (slice_index_or self.old step None) }
        ensures boxes { slice_index_or self.old step None ≡ Some result }
        ensures rest { self.new ≡ slice_set self.old step None }
    {
        match self.keys.set(step, None) {
            Some(key) => self.boxes.remove(key),
            None => unreachable!(),
        }
    }
}

/// The boxes of the constraint or the block of that number, in its frame.
fn framed<G: Grid>(alloc: Global, g: &Graph, k: u32) -> Result<List<BoxAt<G>>, NoMemory>
    requires sound { IsSoundGraph g.now }
    requires there { IsSome (framed_of g.now k) }
    ensures { IfOk result (λ bs. frame_of G.BITS (framed_of g.now k) ≡ Some bs) }
{
    match g.block(ConId(k)) {
        Some(block) => pins_framed(alloc, block.pins.as_slice()),
        None => match g.edge(ConId(k)) {
            Some(edge) => ends_framed(alloc, edge),
            None => unreachable!(),
        },
    }
}

/// The boxes of a block's pins, in its frame.
fn pins_framed<G: Grid>(alloc: Global, pins: &[Pin]) -> Result<List<BoxAt<G>>, NoMemory>
    requires { All IsOnSheet pins.now }
    ensures { IfOk result (λ bs. bs ≡ pin_boxes G.BITS pins.now) }
{
    let points = points_of(alloc, pins)?;
    let mut boxes = List::new(alloc);
    put_all(&mut boxes, points.as_slice())?;
    Ok(boxes)
}

/// The point of each pin, in their order.
fn points_of<G: Grid>(alloc: Global, pins: &[Pin]) -> Result<List<BoxAt<G>>, NoMemory>
    requires { All IsOnSheet pins.now }
    ensures { IfOk result (λ points. points ≡ map (pin_at G.BITS) pins.now) }
{
    let mut points = List::new(alloc);
    for pin in pins {
        points.push(BoxAt {
            elem: pin.elem,
            at: pin_box(pin),
        })?;
    }
    Ok(points)
}

/// The boxes of a constraint's two ends, in its frame.
fn ends_framed<G: Grid>(alloc: Global, edge: &Edge) -> Result<List<BoxAt<G>>, NoMemory>
    requires { IsSoundMeasure edge.now.measure }
    ensures { IfOk result (λ bs. frame_of G.BITS (Some (FramedEdge edge.now)) ≡ Some bs) }
{
    let (u, v) = leaf_boxes(edge);
    let mut boxes = List::new(alloc);
    boxes.push(BoxAt {
        elem: edge.v,
        at: v,
    })?;
    put(
        &mut boxes,
        BoxAt {
            elem: edge.u,
            at: u,
        },
    )?;
    Ok(boxes)
}

/// The boxes of the live cluster of that name, which are no longer live where a step made them.
pub(crate) fn taken<G: Grid>(
    alloc: Global,
    g: &Graph,
    live: &mut Live<G>,
    name: Name,
) -> Result<List<BoxAt<G>>, NoMemory>
    requires sound { IsSoundGraph g.now }
    requires there { IsThere g.now live.old name }
    ensures boxes { IfOk result (λ bs. held G.BITS g.now live.old name ≡ Some bs) }
    ensures slots { length live.new ≡ length live.old }
    ensures others { (n : OfName) → n ≢ name → held G.BITS g.now live.new n ≡ held G.BITS g.now live.old n }
{
    match name {
        Name::Con(k) => framed(alloc, g, k),
        Name::Step(k) => Ok(live.take(k as usize)),
    }
}
