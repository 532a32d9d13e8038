use sk_base::{ConId, Constraint, Elem, Element, Ratio, Um};

/// One accepted edit: an element line, a constraint line, a drop of a constraint, a new length of a
/// distance, a new ratio of an angle, or an erasure of an element.
#[derive(Drop)]
pub enum Edit {
    Element(Element),
    Constraint(Constraint),
    Dropped(ConId),
    Length(ConId, Um),
    Turned(ConId, Ratio),
    Erased(Elem),
}
