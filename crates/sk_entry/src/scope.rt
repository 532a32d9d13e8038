ghost use Rattle.std.specs.Prelude.{◌≡◌};
ghost use Rattle.std.specs.Option.{option_copied};

use sk_base::{Element, Label, Sketch};

/// A sketch that new lines may name elements of.
pub trait Scope {
    ghost use Rattle.sk_base.specs.declared.Sketch.{Sketch};
    ghost use Rattle.sk_entry.specs.Named.{element_named};

    /// What it holds so far.
    ghost so_far: { Self → Sketch };

    fn sketch(&self) -> &Sketch
        ensures { result.now ≡ so_far self.now };

    /// The element that has the name.
    fn named(&self, name: Label) -> Option<&Element>
        ensures { option_copied result ≡ element_named (so_far self.now) name };
}

impl Scope for Sketch {
    ghost so_far = { λ sketch. sketch };

    fn sketch(&self) -> &Sketch {
        self
    }

    fn named(&self, name: Label) -> Option<&Element> {
        self.elements
            .as_slice()
            .iter()
            .find(|element| name.as_bytes() == element.label.as_bytes())
    }
}
