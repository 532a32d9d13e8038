ghost use Rattle.std.specs.Prelude.{◌↔◌, IsTrue, Contains};
ghost use Rattle.sk_base.specs.declared.Elem.{Elem as Element};
ghost use Rattle.sk_base.specs.Numbering.{elem_number};
ghost use Rattle.sk_base.specs.Rising.{IsRising};
ghost use Rattle.sk_family.specs.Rules.{SharesTwo};
ghost use Rattle.sk_neighbours.specs.Partners.{IsOther};

use sk_base::Elem;
use sk_triangles::is_in_rising;

/// Whether at least two elements are in both.
pub(crate) fn shares_two(xs: &[Elem], ys: &[Elem]) -> bool
    requires xs_rise { IsRising elem_number xs.now }
    requires ys_rise { IsRising elem_number ys.now }
    ensures { IsTrue result ↔ SharesTwo xs.now ys.now }
{
    if xs.len() <= ys.len() {
        has_two_in(xs, ys)
    } else {
        has_two_in(ys, xs)
    }
}

/// Whether at least two of the few are among the many.
fn has_two_in(few: &[Elem], many: &[Elem]) -> bool
    requires few_rise { IsRising elem_number few.now }
    requires many_rise { IsRising elem_number many.now }
    ensures { IsTrue result ↔ SharesTwo few.now many.now }
{
    for a in few {
        if is_in_rising(*a, many) {
            return has_other_in(*a, few, many);
        }
    }
    false
}

/// Whether one of the few but a is among the many.
fn has_other_in(a: Elem, few: &[Elem], many: &[Elem]) -> bool
    requires { IsRising elem_number many.now }
    ensures { IsTrue result ↔ ((e : Element) × Contains few.now e × IsOther many.now a e) }
{
    for elem in few {
        if is_other(a, *elem, many) {
            return true;
        }
    }
    false
}

fn is_other(a: Elem, elem: Elem, many: &[Elem]) -> bool
    requires { IsRising elem_number many.now }
    ensures { IsTrue result ↔ IsOther many.now a elem }
{
    elem != a && is_in_rising(elem, many)
}
