// A constraint by its number, and its canonical line.
ghost use Rattle.std.specs.Prelude.{◌≡◌, ◌++◌, OnOk, option_copied};
ghost use Rattle.sk_entry.specs.NumberedConstraint.{constraint_of, constraint_words};

use crate::write::put_constraint;
use sk_base::{ConId, Constraint, NoMemory, Sketch, Text};

/// The constraint of that number, if there is one.
pub fn constraint_of(s: &Sketch, number: ConId) -> Option<&Constraint>
    ensures { option_copied result ≡ constraint_of s.now number }
{
    s.constraints
        .as_slice()
        .iter()
        .find(|constraint| constraint.number.0 == number.0)
}

/// Puts the canonical line of the constraint of that number without its line feed, or nothing where
/// there is none.
pub fn put_constraint_words(text: &mut Text, s: &Sketch, number: ConId) -> Result<(), NoMemory>
    ensures { OnOk result (text.new ≡ text.old ++ constraint_words s.now number) }
{
    match constraint_of(s, number) {
        Some(constraint) => put_constraint(text, s, constraint),
        None => Ok(()),
    }
}
