// Which elements can be the third corner of a triangle.
ghost use Rattle.std.specs.Prelude.{◌↔◌, IsTrue, Contains};
ghost use Rattle.sk_base.specs.Numbering.{elem_number};
ghost use Rattle.sk_base.specs.Rising.{IsRising};
ghost use Rattle.sk_triangles.specs.Marks.{IsThird, IsThirdIn};

use crate::marks::is_third;
use sk_base::Elem;

/// Whether some third corner that is in both makes a triangle with a and b. The lines are marked.
pub fn has_third(lines: &[bool], a: Elem, b: Elem, xs: &[Elem], zs: &[Elem]) -> bool
    requires xs_rise { IsRising elem_number xs.now }
    requires zs_rise { IsRising elem_number zs.now }
    ensures { IsTrue result ↔ IsThirdIn lines.now a b xs.now zs.now }
{
    if xs.len() <= zs.len() {
        has_third_in(lines, a, b, xs, zs)
    } else {
        has_third_in(lines, a, b, zs, xs)
    }
}

fn has_third_in(lines: &[bool], a: Elem, b: Elem, few: &[Elem], many: &[Elem]) -> bool
    requires { IsRising elem_number many.now }
    ensures { IsTrue result ↔ IsThirdIn lines.now a b few.now many.now }
{
    for c in few {
        if is_third_among(lines, a, b, *c, many) {
            return true;
        }
    }
    false
}

fn is_third_among(lines: &[bool], a: Elem, b: Elem, c: Elem, many: &[Elem]) -> bool
    requires { IsRising elem_number many.now }
    ensures { IsTrue result ↔ (Contains many.now c × IsThird lines.now a b c) }
{
    is_third(lines, a, b, c) && is_in_rising(c, many)
}

/// Whether the element is one of these, which rise.
pub fn is_in_rising(elem: Elem, xs: &[Elem]) -> bool
    requires { IsRising elem_number xs.now }
    ensures { IsTrue result ↔ Contains xs.now elem }
{
    xs.binary_search_by_key(&elem.0, |found| found.0).is_ok()
}
