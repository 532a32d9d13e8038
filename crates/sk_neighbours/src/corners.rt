// Which elements can be the third corner of a triangle.
ghost use Rattle.std.specs.Prelude.{◌↔◌, IsTrue};
ghost use Rattle.sk_neighbours.specs.Indexed.{IsThirdAt};

use crate::index::Index;
use sk_base::Elem;

/// Whether c can be the third corner of a triangle, beside a and b.
pub fn is_third(index: &Index, a: Elem, b: Elem, c: Elem) -> bool
    ensures { IsTrue result ↔ IsThirdAt index.now a b c }
{
    sk_triangles::is_third(index.lines(), a, b, c)
}
