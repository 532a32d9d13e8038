ghost use Rattle.std.specs.Prelude.{◌≡◌, [], ◌∷◌};
ghost use Rattle.sk_base.specs.declared.Shape.TheVariants as shape;
ghost use Rattle.sk_lines.specs.declared.Keyword.TheVariants.{Point, Line, Circle};
ghost use Rattle.sk_lines.specs.Quantities.{um};
ghost use Rattle.sk_entry.specs.EntryCodes.{entry_rows};
ghost use Rattle.sk_lines.specs.FirstCode.{first_code, unless};

use crate::field::{coordinate, free, label, length, not_zero, room_for_element};
use crate::scope::Scope;
use sk_base::{Elem, Element, Shape};
use sk_lines::Code;

/// A point, by the words of its line.
pub(crate) fn read_point<S: Scope>(
    s: &S,
    name: &[u8],
    x: &[u8],
    y: &[u8],
    number: Elem,
) -> Result<Element, Code>
    ensures { result ≡ unless (first_code (entry_rows (S.so_far s.now) Point (name.now ∷ x.now ∷ y.now ∷ [])))
        (record { number = number; label = name.now; shape = shape.Point (um x.now) (um y.now) }) }
{
    let label = label(name)?;
    free(s, label)?;
    let x = coordinate(x)?;
    let y = coordinate(y)?;
    room_for_element(s)?;
    Ok(Element {
        number,
        label,
        shape: Shape::Point { x, y },
    })
}

/// A line, by the words of its line.
pub(crate) fn read_line<S: Scope>(
    s: &S,
    name: &[u8],
    x1: &[u8],
    y1: &[u8],
    x2: &[u8],
    y2: &[u8],
    number: Elem,
) -> Result<Element, Code>
    ensures { result ≡ unless (first_code (entry_rows (S.so_far s.now) Line (name.now ∷ x1.now ∷ y1.now ∷ x2.now ∷ y2.now ∷ [])))
        (record { number = number; label = name.now; shape = shape.Line (um x1.now) (um y1.now) (um x2.now) (um y2.now) }) }
{
    let label = label(name)?;
    free(s, label)?;
    let x1 = coordinate(x1)?;
    let y1 = coordinate(y1)?;
    let x2 = coordinate(x2)?;
    let y2 = coordinate(y2)?;
    if x1 == x2 && y1 == y2 {
        return Err(Code::E11);
    }
    room_for_element(s)?;
    Ok(Element {
        number,
        label,
        shape: Shape::Line { x1, y1, x2, y2 },
    })
}

/// A circle, by the words of its line.
pub(crate) fn read_circle<S: Scope>(
    s: &S,
    name: &[u8],
    x: &[u8],
    y: &[u8],
    r: &[u8],
    number: Elem,
) -> Result<Element, Code>
    ensures { result ≡ unless (first_code (entry_rows (S.so_far s.now) Circle (name.now ∷ x.now ∷ y.now ∷ r.now ∷ [])))
        (record { number = number; label = name.now; shape = shape.Circle (um x.now) (um y.now) (um r.now) }) }
{
    let label = label(name)?;
    free(s, label)?;
    let x = coordinate(x)?;
    let y = coordinate(y)?;
    let r = length(r)?;
    not_zero(r)?;
    room_for_element(s)?;
    Ok(Element {
        number,
        label,
        shape: Shape::Circle { x, y, r },
    })
}
