ghost use Rattle.std.specs.Prelude.{◌≡◌, IfOk};
ghost use Rattle.sk_base.specs.Rising.{IsRising, union};

use sk_base::{List, NoMemory, Numbered};
use std::alloc::Global;

/// What is in either, rising.
pub(crate) fn union_of<T: Numbered>(alloc: Global, xs: &[T], ys: &[T]) -> Result<List<T>, NoMemory>
    requires xs_rise { IsRising T.number xs.now }
    requires ys_rise { IsRising T.number ys.now }
    ensures { IfOk result (λ all. all ≡ union T.number xs.now ys.now) }
{
    let mut all = List::new(alloc);
    let mut i = 0;
    let mut j = 0;
    while i < xs.len() && j < ys.len() {
        let x = xs[i];
        let y = ys[j];
        if x.number() < y.number() {
            all.push(x)?;
            i += 1;
        } else {
            all.push(y)?;
            if x.number() == y.number() {
                i += 1;
            }
            j += 1;
        }
    }
    all.extend(&xs[i..])?;
    all.extend(&ys[j..])?;
    Ok(all)
}
