ghost use Rattle.std.specs.Prelude.{◌≡◌};
ghost use Rattle.sk_entry.specs.Growth.{empty_sketch};

use sk_base::{List, Sketch};
use std::alloc::Global;

/// The sketch without elements and constraints. It asks for no memory.
pub fn empty_sketch(alloc: Global) -> Sketch
    ensures { result ≡ empty_sketch }
{
    Sketch {
        elements: List::new(alloc),
        constraints: List::new(alloc),
    }
}
