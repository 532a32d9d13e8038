// How the elements of a sound sketch are drawn.
ghost use Rattle.std.specs.Prelude.{◌≡◌, IsSome, Some};
ghost use Rattle.sk_base.specs.Drawn.{shape_of};
ghost use Rattle.sk_base.specs.SoundSketch.{IsSoundSketch, IsSoundShape};
ghost use Rattle.sk_orient.specs.DrawnSigns.{IsOnPaper};
ghost use Rattle.sk_graph.specs.SketchGraph.{drawn_as};

use sk_base::{Elem, Shape, Sketch};

/// How the element of that number is drawn, with coordinates and radius in micrometres.
pub fn shape(s: &Sketch, e: Elem) -> Shape
    requires sketch { IsSoundSketch s.now }
    requires drawn { IsSome (shape_of s.now e) }
    ensures shape { shape_of s.now e ≡ Some result }
    ensures drawn { result ≡ drawn_as s.now e }
    ensures sound { IsSoundShape result }
    ensures on_paper { IsOnPaper result }
{
    match s.look_up(e) {
        Some(element) => element.shape,
        None => unreachable!(),
    }
}
