// A sketch that is being read. Beside it stands the list of its names, which finds a name by hash: the
// name at a place is that of the element at the same place.
ghost use Rattle.std.specs.Prelude.{◌≡◌, None, IfOk};
ghost use Rattle.sk_entry.specs.Named.{element_named};

use indexmap::IndexSet;
use sk_base::{Constraint, Element, Label, NoMemory, Sketch};
use sk_entry::{Scope, empty_sketch};
use std::alloc::Global;
use std::hash::{Hash, Hasher};
use std::marker::Model;

/// A name as a key.
#[derive(Clone, Copy)]
pub(crate) struct Key(Label);

impl PartialEq for Key {
    ghost use Rattle.std.specs.Str.{bytes_eq};
    ghost use Rattle.std.specs.Cmp.{on_per, partial_equiv_from_equiv};
    ghost use Rattle.std.specs.Cmp.Lexicographic.{nat_list_eq_equiv};

    ghost eq = { λ one other. bytes_eq one.0 other.0 };

    ghost laws = { on_per (λ key. key.0) (partial_equiv_from_equiv nat_list_eq_equiv) };

    fn eq(&self, other: &Key) -> bool {
        self.0.as_bytes() == other.0.as_bytes()
    }
}

impl Eq for Key {
    ghost use Rattle.std.specs.Cmp.{on_equiv};
    ghost use Rattle.std.specs.Cmp.Lexicographic.{nat_list_eq_equiv};

    ghost laws = { on_equiv (λ key. key.0) nat_list_eq_equiv };
}

impl Hash for Key {
    ghost use Rattle.std.specs.Hash as fed;
    ghost use Rattle.std.specs.Cmp.Rules.{hashing};
    ghost use Rattle.std.proofs.Common.{rules};

    ghost hash_input = { λ key. fed.slice fed.u8 key.0 };

    ghost respects_eq = { Prim.search (hashing, rules) };

    fn hash<H: Hasher>(&self, state: &mut H) {
        self.0.as_bytes().hash(state);
    }
}

#[derive(Drop)]
pub(crate) struct Draft {
    sketch: Sketch,
    names: IndexSet<Key>,
}

impl Model for Draft {
    ghost use Rattle.std.specs.Prelude.{◌≡◌};
    ghost use Rattle.sk_base.specs.declared.Sketch.{Sketch};
    ghost use Rattle.sk_lang.specs.Index.{keys_of};

    ghost Value = { Sketch };

    ghost view = { λ draft. draft.sketch };

    ghost invariant = { λ draft. draft.names.keys ≡ keys_of draft.sketch };
}

impl Draft {
    ghost use Rattle.sk_entry.specs.Growth.{empty_sketch, with_element, with_constraint};

    pub(crate) fn new(alloc: Global) -> Draft
        ensures { result ≡ empty_sketch }
    {
        Draft {
            sketch: empty_sketch(alloc),
            names: IndexSet::new(alloc),
        }
    }

    /// With one more element at its end.
    pub(crate) fn with_element(self, element: Element) -> Result<Draft, NoMemory>
        requires { element_named self element.label ≡ None }
        ensures { IfOk result (λ draft. draft ≡ with_element self element) }
    {
        let Draft {
            mut sketch,
            mut names,
        } = self;
        names.insert(Key(element.label))?;
        sketch.elements.push(element)?;
        Ok(Draft { sketch, names })
    }

    /// With one more constraint at its end.
    pub(crate) fn with_constraint(self, constraint: Constraint) -> Result<Draft, NoMemory>
        ensures { IfOk result (λ draft. draft ≡ with_constraint self constraint) }
    {
        let Draft { mut sketch, names } = self;
        sketch.constraints.push(constraint)?;
        Ok(Draft { sketch, names })
    }

    pub(crate) fn into_sketch(self) -> Sketch
        ensures { result ≡ self }
    {
        let Draft { sketch, names: _ } = self;
        sketch
    }
}

impl Scope for Draft {
    ghost so_far = { λ draft. draft };

    fn sketch(&self) -> &Sketch {
        &self.sketch
    }

    fn named(&self, name: Label) -> Option<&Element> {
        let place = self.names.get_index_of(&Key(name))?;
        self.sketch.elements.get(place)
    }
}
