use sk_base::{Constraint, Element};
use sk_lines::Words;

/// What one line says.
#[derive(Drop)]
pub enum Entry {
    /// The line has no words.
    Blank,
    Element(Element),
    Constraint(Constraint),
    /// The first word is none that begins an element or a constraint in the version.
    Other(Words),
}
