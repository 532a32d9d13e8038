// The merges and the parts in which closing ends, and a merge by hand, on drawings that are read.
ghost use Rattle.std.specs.Prelude.{◌<◌, length};
ghost use Rattle.sk_base.specs.SoundGraph.{IsSoundGraph};
ghost use Rattle.sk_family.specs.Clusters.{bodies};
ghost use Rattle.sk_rules.specs.Reach.{IsNormal};

use crate::calls::order_of;
use crate::row::put_each;
use sk_base::{Graph, List, Name, Sketch, Text};
use sk_close_any_order::close_in_any_order;
use sk_close_by_order::{Chosen, Order, Picker, close_family};
use sk_family::{Family, Overlap, common, initial};
use sk_report::check_text;
use sk_rules::{Merge, Shared, Taken, applies, do_merge};
use sk_verdict::judge;
use std::alloc::Global;
use std::process::Abort;

/// Picks by a list of answers, each taken modulo the count, and then the first choice.
#[derive(Drop)]
struct Listed {
    answers: List<u64>,
}

impl Picker for Listed {
    ghost use Rattle.std.specs.Prelude.{◌%◌, drop, slice_index};
    ghost use Rattle.std.proofs.Math.Nat.{mod-lt};

    ghost answer = { λ p n. slice_index p.answers 0 % n };

    ghost after = { λ p n. record { answers = drop 1 p.answers } };

    ghost in_range = { λ p n some. mod-lt (slice_index p.answers 0) some };

    fn pick(&mut self, count: u64) -> u64 {
        if self.answers.is_empty() {
            return 0;
        }
        self.answers.remove(0) % count
    }
}

/// The family in which closing by the picks ends, and its merges.
fn picked<R: Abort, P: Picker>(
    rt: &R,
    alloc: Global,
    graph: &Graph,
    picker: &mut P,
) -> (Family, List<Taken>)
    requires { IsSoundGraph graph.now }
    ensures { IsNormal graph.now (bodies result.0) }
{
    let mut family = initial(alloc, graph).expect(rt, "memory");
    let taken = close_family(alloc, &mut family, graph, picker).expect(rt, "memory");
    (family, taken)
}

/// The merges by which closing in the order comes to an end.
pub(crate) fn merges_told(rt: &impl Abort, alloc: Global, graph: &Graph, order: Order) -> Text
    requires { IsSoundGraph graph.now }
{
    let (_, taken) = picked(rt, alloc, graph, &mut Chosen::new(order));
    let mut told = Text::new(alloc);
    put_each(rt, alloc, &mut told, taken.as_slice());
    told
}

/// The family in which closing in any order ends.
fn settled(rt: &impl Abort, alloc: Global, graph: &Graph) -> Family
    requires { IsSoundGraph graph.now }
    ensures { IsNormal graph.now (bodies result) }
{
    let mut family = initial(alloc, graph).expect(rt, "memory");
    close_in_any_order(alloc, &mut family, graph).expect(rt, "memory");
    family
}

/// The family in which closing ends by an order, by listed picks, or in any order.
fn closed(rt: &impl Abort, alloc: Global, graph: &Graph, with: &str) -> Family
    requires { IsSoundGraph graph.now }
    ensures { IsNormal graph.now (bodies result) }
{
    match with {
        "any" => settled(rt, alloc, graph),
        "listed" => {
            let mut answers = List::new(alloc);
            answers.extend(&[5, 3, 8, 1]).expect(rt, "memory");
            picked(rt, alloc, graph, &mut Listed { answers }).0
        }
        _ => picked(rt, alloc, graph, &mut Chosen::new(order_of(rt, with))).0,
    }
}

/// The report on the parts in which closing the drawing's graph ends.
pub(crate) fn closed_told(
    rt: &impl Abort,
    alloc: Global,
    sketch: &Sketch,
    graph: &Graph,
    with: &str,
) -> Text
    requires sound { IsSoundGraph graph.now }
    requires some { 0 < length graph.now.nodes }
{
    let family = closed(rt, alloc, graph, with);
    let judgement = judge(alloc, &family, graph).expect(rt, "memory");
    check_text(alloc, sketch, &judgement).expect(rt, "memory")
}

/// Merges the three where their rule holds, and answers by which elements, and the step's name.
fn merged_by(
    rt: &impl Abort,
    family: &mut Family,
    graph: &Graph,
    names: (Name, Name, Name),
) -> Option<(Shared, Name)> {
    let merge = Merge::three(names.0, names.1, names.2)?;
    let shared = applies(family, graph, merge)?;
    assert!(rt; family.next_step() <= 1000, "few steps");
    let step = do_merge(family, graph, merge).expect(rt, "memory");
    Some((shared, step))
}

fn overlap_in(family: &Family, x: Name, y: Name) -> Option<Overlap> {
    let a = family.cluster(x)?;
    let b = family.cluster(y)?;
    Some(common(a, b))
}

/// What comes of two merges of three constraints each, and what the family has before and behind them.
pub(crate) fn joined_told(rt: &impl Abort, alloc: Global, graph: &Graph) -> Text
    requires { IsSoundGraph graph.now }
{
    let mut family = initial(alloc, graph).expect(rt, "memory");
    let mut told = Text::new(alloc);
    put_each(rt, alloc, &mut told, &[family.count()]);
    let first = (Name::Con(1), Name::Con(2), Name::Con(3));
    let stale = (Name::Con(3), Name::Con(4), Name::Con(5));
    let first = merged_by(rt, &mut family, graph, first);
    let stale = merged_by(rt, &mut family, graph, stale);
    put_each(rt, alloc, &mut told, &[first, stale]);
    put_each(rt, alloc, &mut told, &[family.count()]);
    put_each(rt, alloc, &mut told, &[family.next_step()]);
    let names = [family.name_at(0), family.name_at(2), family.name_at(3)];
    put_each(rt, alloc, &mut told, &names);
    let live = [family.live(Name::Step(1)), family.live(Name::Con(1))];
    put_each(rt, alloc, &mut told, &live);
    let overlap = overlap_in(&family, Name::Con(4), Name::Step(1));
    put_each(rt, alloc, &mut told, &[overlap]);
    told
}
