// The first words of the lines of a claim.
ghost use Rattle.std.specs.Prelude.{◌≡◌};
ghost use Rattle.sk_claims.specs.ClaimLines.{figure_of, first_of, fits_shape};

use sk_base::Shape;
use sk_lines::is_word;

/// What an element line places.
#[derive(Clone, Copy, Debug, PartialEq, Eq)]
pub(crate) enum Figure {
    Point,
    Circle,
    Line,
}

/// What a line tells: a step, the place of an element, or the tolerances.
#[derive(Clone, Copy, Debug, PartialEq, Eq)]
pub(crate) enum First {
    Step,
    Element(Figure),
    Tolerance,
}

/// What a line tells by its first word.
pub(crate) fn first_of(word: &[u8]) -> Option<First>
    ensures { result ≡ first_of word.now }
{
    if is_word(word, "step") {
        Some(First::Step)
    } else if is_word(word, "tolerance") {
        Some(First::Tolerance)
    } else {
        Some(First::Element(figure_of(word)?))
    }
}

/// What a line places by its first word.
pub(crate) fn figure_of(word: &[u8]) -> Option<Figure>
    ensures { result ≡ figure_of word.now }
{
    if is_word(word, "point") {
        Some(Figure::Point)
    } else if is_word(word, "circle") {
        Some(Figure::Circle)
    } else if is_word(word, "line") {
        Some(Figure::Line)
    } else {
        None
    }
}

/// Whether an element of that shape is placed so.
pub(crate) fn fits_shape(figure: Figure, shape: &Shape) -> bool
    ensures { result ≡ fits_shape figure shape.now }
{
    match (figure, shape) {
        (Figure::Point, Shape::Point { .. }) => true,
        (Figure::Circle, Shape::Circle { .. }) => true,
        (Figure::Line, Shape::Line { .. }) => true,
        _ => false,
    }
}
