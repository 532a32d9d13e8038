// Lists of elements in order.
ghost use Rattle.std.specs.Prelude.{◌≡◌, ◌↔◌, IsTrue};
ghost use Rattle.sk_base.specs.ElementOrder.{ElementsBefore, comes_before};

use crate::numbered::Elem;

/// Whether the one list comes before the other, compared place by place.
pub fn comes_before(xs: &[Elem], ys: &[Elem]) -> bool
    ensures computed { result ≡ comes_before xs.now ys.now }
    ensures decides { IsTrue result ↔ ElementsBefore xs.now ys.now }
{
    xs.cmp(&ys).is_lt()
}
