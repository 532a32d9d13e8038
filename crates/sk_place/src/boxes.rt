// Elements with their boxes.
ghost use Rattle.std.specs.Prelude.{◌≡◌};
ghost use Rattle.sk_place.specs.Rounding.{AreBounded};

use sk_base::{Elem, List};
use sk_interval::Grid;
use sk_steps::BoxOf;
use std::marker::Model;

/// An element, and where it lies.
#[derive(Clone, Copy)]
pub struct BoxAt<G: Grid> {
    pub elem: Elem,
    pub at: BoxOf<G>,
}

/// Where the elements of a drawing lie, which contracts see as the list of their boxes.
#[derive(Drop)]
pub struct Boxes<G: Grid> {
    list: List<BoxAt<G>>,
}

impl<G: Grid> Model for Boxes<G> {
    ghost use Rattle.std.specs.Prelude.{List as Items};
    ghost use Rattle.sk_place.specs.declared.boxes.BoxAt.{BoxAt};
    ghost use Rattle.sk_place.specs.Rounding.{AreBounded};

    ghost Value = { Items (BoxAt G) };

    ghost view = { λ boxes. boxes.list };

    ghost invariant = { λ boxes. AreBounded G.BITS boxes.list };
}

impl<G: Grid> Boxes<G> {
    /// These boxes.
    pub(crate) fn of(list: List<BoxAt<G>>) -> Boxes<G>
        requires { AreBounded G.BITS list }
        ensures { result ≡ list }
    {
        Boxes { list }
    }

    /// The boxes in their order.
    pub fn as_slice(&self) -> &[BoxAt<G>]
        ensures boxes { result.now ≡ self.now }
        ensures bounded { AreBounded G.BITS self.now }
    {
        self.list.as_slice()
    }
}
