ghost use Rattle.std.specs.Prelude.{◌≡◌, ◌++◌, ◌∷◌, IfOk, OnOk};
ghost use Rattle.sk_base.specs.Pins.{block_words};
ghost use Rattle.sk_base.specs.Spelling.{mm_text, spaced};
ghost use Rattle.sk_entry.specs.CanonicalLines.{element_line, constraint_line, ratio_text};
ghost use Rattle.sk_base.specs.ElementNames.{name_of};

use sk_base::{
    Constraint, Elem, Element, List, NoMemory, Pin, Ratio, Rule, Shape, Sketch, Text, Um,
};
use sk_text::{Puts, put_name};
use std::alloc::Global;

/// One canonical line without its line feed.
pub fn constraint_text(alloc: Global, s: &Sketch, c: &Constraint) -> Result<Text, NoMemory>
    ensures { IfOk result (λ text. text ≡ constraint_line s.now c.now) }
{
    let mut text = Text::new(alloc);
    put_constraint(&mut text, s, c)?;
    Ok(text)
}

/// Puts an element's line without its line feed.
pub fn put_element(text: &mut Text, element: &Element) -> Result<(), NoMemory>
    ensures { OnOk result (text.new ≡ text.old ++ element_line element.now) }
{
    let name = element.label;
    match element.shape {
        Shape::Point { x, y } => {
            text.put(b"point ")?;
            text.put(name.as_bytes())?;
            put_number(text, x)?;
            put_number(text, y)
        }
        Shape::Line { x1, y1, x2, y2 } => {
            text.put(b"line ")?;
            text.put(name.as_bytes())?;
            put_number(text, x1)?;
            put_number(text, y1)?;
            put_number(text, x2)?;
            put_number(text, y2)
        }
        Shape::Circle { x, y, r } => {
            text.put(b"circle ")?;
            text.put(name.as_bytes())?;
            put_number(text, x)?;
            put_number(text, y)?;
            put_number(text, r)
        }
    }
}

/// Puts a space and a number.
fn put_number(text: &mut Text, um: Um) -> Result<(), NoMemory>
    ensures { OnOk result (text.new ≡ text.old ++ 32 ∷ mm_text um.0) }
{
    text.put(b" ")?;
    text.put_mm(um)
}

/// Puts a space and a ratio.
fn put_ratio(text: &mut Text, ratio: Ratio) -> Result<(), NoMemory>
    ensures { OnOk result (text.new ≡ text.old ++ 32 ∷ ratio_text ratio) }
{
    text.put(b" ")?;
    text.put_whole(i128::from(ratio.p))?;
    text.put(b"/")?;
    text.put_whole(i128::from(ratio.q))
}

/// Puts a constraint's line without its line feed.
pub fn put_constraint(text: &mut Text, s: &Sketch, constraint: &Constraint) -> Result<(), NoMemory>
    ensures { OnOk result (text.new ≡ text.old ++ constraint_line s.now constraint.now) }
{
    match constraint.rule {
        Rule::Distance { u, v, len } => {
            text.put(b"distance")?;
            put_name(text, s, u)?;
            put_name(text, s, v)?;
            put_number(text, len)
        }
        Rule::On { u, v } => put_pair(text, s, b"on", u, v),
        Rule::Tangent { u, v } => put_pair(text, s, b"tangent", u, v),
        Rule::Outside { u, v } => put_pair(text, s, b"outside", u, v),
        Rule::Inside { u, v } => put_pair(text, s, b"inside", u, v),
        Rule::Angle { l, m, ratio } => {
            text.put(b"angle")?;
            put_name(text, s, l)?;
            put_name(text, s, m)?;
            put_ratio(text, ratio)
        }
        Rule::Block { ref pins } => put_block(text, s, pins),
    }
}

/// Puts a first word and two names.
fn put_pair(text: &mut Text, s: &Sketch, word: &[u8], u: Elem, v: Elem) -> Result<(), NoMemory>
    ensures { OnOk result (text.new ≡ text.old ++ word.now ++ (32 ∷ name_of s.now u) ++ (32 ∷ name_of s.now v)) }
{
    text.put(word)?;
    put_name(text, s, u)?;
    put_name(text, s, v)
}

/// Puts the first word of a block, and each pin's name and place.
fn put_block(text: &mut Text, s: &Sketch, pins: &List<Pin>) -> Result<(), NoMemory>
    ensures { OnOk result (text.new ≡ text.old ++ spaced (block_words s.now pins.now)) }
{
    text.put(b"block")?;
    for pin in pins.as_slice() {
        put_name(text, s, pin.elem)?;
        put_number(text, pin.x)?;
        put_number(text, pin.y)?;
    }
    Ok(())
}
