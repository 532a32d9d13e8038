// The merges that a finished board answers, on drawings that are read. Elements and
// constraints are numbered from 1 in order of their lines.
ghost use Rattle.sk_base.specs.SoundSketch.{IsSoundSketch};

use crate::row::put_each;
use sk_base::{Name, Sketch, Text};
use sk_close_by_order::{Chosen, Order};
use sk_graph::reduce;
use sk_offers::Board;
use sk_rules::Merge;
use std::alloc::Global;
use std::process::Abort;

/// What the drawing's board answers to two offers of its last three clusters, and its merges at its end.
pub(crate) fn board_told(rt: &impl Abort, alloc: Global, sketch: &Sketch) -> Text
    requires { IsSoundSketch sketch.now }
{
    let graph = reduce(alloc, sketch).expect(rt, "memory");
    let mut board = Board::new(alloc, graph).expect(rt, "memory");
    let merge = Merge::Three(Name::Con(5), Name::Con(4), Name::Con(3));
    let first = board.offer(1, merge).expect(rt, "memory");
    let second = board.offer(2, merge).expect(rt, "memory");
    let mut picker = Chosen::new(Order::First);
    let finished = board.finish(&mut picker).expect(rt, "memory");
    let mut told = Text::new(alloc);
    put_each(rt, alloc, &mut told, &[first, second]);
    put_each(rt, alloc, &mut told, finished.taken.as_slice());
    told
}
