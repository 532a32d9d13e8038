// What holds some elements together, by halves. Each family here is closed, of all constraints but those that left
// already, which are greater, and a segment that is set aside. Where one of its clusters has the elements, all of the
// segment leaves: more constraints never hold less together. Where none has, one constraint alone stays; else the greater
// half is looked at with the lesser one put back, and then the lesser one with what stays of the greater one put back.
ghost use Rattle.std.specs.Prelude.{◌+◌, ◌≤◌, Bool, IfOk, Contains, length};
ghost use Rattle.sk_base.specs.declared.ConId.{ConId as Number};
ghost use Rattle.sk_base.specs.Numbering.{con_number};
ghost use Rattle.sk_base.specs.Rising.{IsRising};
ghost use Rattle.sk_base.specs.SoundGraph.{IsSoundGraph};
ghost use Rattle.sk_family.specs.Clusters.{bodies};
ghost use Rattle.sk_rules.specs.JustSome.{with_just};
ghost use Rattle.sk_excess.specs.Going.{AreGoneOf, IsBut};
ghost use Rattle.sk_excess.specs.LeftOut.{is_number, HasConstraint};
ghost use Rattle.sk_why.specs.Because.{MayLeave, AreBecause};

use sk_base::{ConId, Elem, Graph, List, NoMemory};
use sk_family::{Family, initial};
use sk_spare::{copy_of, no_graph, others_of, some_holds, with_these};
use std::alloc::Global;

/// Those of the constraints that hold the elements together, where they are looked at from the greatest number to the
/// least, and each leaves where the others that are left so far still hold them together. They rise.
pub(crate) fn holding(
    alloc: Global,
    graph: &Graph,
    kept: &[ConId],
    elements: &[Elem],
) -> Result<List<ConId>, NoMemory>
    requires sound { IsSoundGraph graph.now }
    requires rise { IsRising con_number kept.now }
    requires there { (k : Number) → Contains kept.now k → HasConstraint graph.now k }
    ensures { IfOk result (AreBecause (with_just (is_number kept.now) graph.now) elements.now) }
{
    let nothing = initial(alloc, &no_graph(alloc))?;
    let gone = gone_of(alloc, graph, elements, kept, &nothing)?;
    others_of(alloc, kept, gone.as_slice())
}

/// Those of the constraints that are set aside which leave. The family is that of all others that haven't left.
fn gone_of(
    alloc: Global,
    graph: &Graph,
    elements: &[Elem],
    aside: &[ConId],
    family: &Family,
) -> Result<List<ConId>, NoMemory>
    requires sound { IsSoundGraph graph.now }
    requires rise { IsRising con_number aside.now }
    requires without { (p : Number → Bool) × IsBut graph.now p aside.now (bodies family.now) }
    requires room { family.now.next_step + length family.now.live + length aside.now ≤ 4001 }
    ensures { IfOk result (λ gone. (p : Number → Bool) → IsBut graph.now p aside.now (bodies family.now) → AreGoneOf (MayLeave elements.now) (with_just p graph.now) aside.now gone) }
{
    match aside {
        _ if some_holds(family.clusters(), elements) => copy_of(alloc, aside),
        [] | [_] => Ok(List::new(alloc)),
        _ => {
            let middle = aside.len() / 2;
            let with_less = with_these(alloc, graph, family, &aside[..middle])?;
            let greater = gone_of(alloc, graph, elements, &aside[middle..], &with_less)?;
            let kept = others_of(alloc, &aside[middle..], greater.as_slice())?;
            let with_kept = with_these(alloc, graph, family, kept.as_slice())?;
            let mut gone = gone_of(alloc, graph, elements, &aside[..middle], &with_kept)?;
            gone.extend(greater.as_slice())?;
            Ok(gone)
        }
    }
}
