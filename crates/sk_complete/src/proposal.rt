// The search for what is missing. A base, one of the greatest parts, takes in all other elements. What is added is drawn;
// whether all of it makes one part is judged at the end, so of the search it is only known that it adds drawn values.
ghost use Rattle.std.specs.Prelude.{IfOk, OnOk};
ghost use Rattle.sk_base.specs.SoundSketch.{IsSoundSketch};
ghost use Rattle.sk_complete.specs.Begun.{Extends};

use crate::draft::Draft;
use crate::pair::Base;
use sk_base::{Elem, NoMemory, Sketch};
use sk_verdict::Part;
use std::alloc::Global;

/// How many parts are tried as a base.
const BASES: usize = 8;

/// A part as a base: the ones with more elements come first.
#[derive(Clone, Copy, PartialEq, Eq, PartialOrd, Ord)]
pub(crate) struct Start {
    fewer: usize,
    pub place: usize,
}

/// The first of the parts as bases, in the order in which they are tried.
pub(crate) fn bases_of(alloc: Global, s: &Sketch, parts: &[Part]) -> Result<Vec<Start>, NoMemory> {
    let mut bases = Vec::new(alloc);
    for (place, part) in parts.iter().enumerate() {
        let fewer = s.elements.len().saturating_sub(part.elements.len());
        bases.push(Start { fewer, place })?;
    }
    bases.sort_unstable();
    bases.truncate(BASES);
    Ok(bases)
}

/// The sketch with what the search adds from a part with these elements, at most so many constraints.
pub(crate) fn propose(
    alloc: Global,
    s: &Sketch,
    parts: &[Part],
    lines: &[bool],
    first: &[Elem],
    missing: usize,
) -> Result<Sketch, NoMemory>
    requires sound { IsSoundSketch s.now }
    ensures { IfOk result (Extends s.now) }
{
    let mut draft = Draft::of(alloc, s, parts, lines)?;
    let mut base = Base::new(alloc);
    base.take_in(first)?;
    for _ in 0..missing {
        if !step(alloc, s, &mut draft, &mut base)? {
            return Ok(draft.sketch);
        }
    }
    Ok(draft.sketch)
}

/// Adds the next constraint. The answer is false where there is none.
fn step(alloc: Global, s: &Sketch, draft: &mut Draft, base: &mut Base) -> Result<bool, NoMemory>
    requires sound { IsSoundSketch s.now }
    requires draft { Extends s.now draft.old.sketch }
    ensures { OnOk result (Extends s.now draft.new.sketch) }
{
    base.take_in_part(draft.rigid.bodies())?;
    match base.next_pair(alloc, s, draft.rigid.bodies(), &draft.wide)? {
        Some(pair) => draft.accept(s, pair.outer, pair.inner),
        None => Ok(false),
    }
}
