// The report on placed elements.
ghost use Rattle.std.specs.Prelude.{◌≡◌, ◌*ℤ◌, pos, ◌++◌, ◌∷◌, [], IfOk, OnOk};
ghost use Rattle.sk_base.specs.Spelling.{whole_text};
ghost use Rattle.sk_report.specs.SolveReport.{numbers_text, point_line, circle_line, line_line, centre_line, element_line, element_lines, spotted_words, constraint_or_none, spotted_or_none, length_line, angle_line, tolerance_lines, solve_counts, places_report, shape_report, solve_report};

use sk_base::{At, ConId, Element, NoMemory, Placed, Shape, Sketch, Text, Um};
use sk_text::{Puts, put_name};
use sk_tolerance::{Spotted, Tolerance};
use sk_tree::Plan;
use std::alloc::Global;

/// The solve report: the verdict, the number of steps, the grid, where each element lies, in
/// nanometres and in parts per 10^9, and the tolerance.
pub fn solve_text(
    alloc: Global,
    s: &Sketch,
    p: &Plan,
    bits: u32,
    at: &Placed,
    t: &Tolerance,
) -> Result<Text, NoMemory>
    ensures { IfOk result (λ text. text ≡ solve_report s.now p.now bits at.now t.now) }
{
    let mut text = Text::new(alloc);
    text.put(b"verdict well\n")?;
    put_counts(alloc, &mut text, p, bits)?;
    put_places(alloc, &mut text, s, at, t)?;
    Ok(text)
}

/// The lines of the solve report behind its verdict.
pub fn shape_text(
    alloc: Global,
    s: &Sketch,
    p: &Plan,
    bits: u32,
    at: &Placed,
    t: &Tolerance,
) -> Result<Text, NoMemory>
    ensures { IfOk result (λ text. text ≡ shape_report s.now p.now bits at.now t.now) }
{
    let mut text = Text::new(alloc);
    put_counts(alloc, &mut text, p, bits)?;
    put_places(alloc, &mut text, s, at, t)?;
    Ok(text)
}

/// Where each element lies, in nanometres and in parts per 10^9, and the tolerance: the lines of the
/// solve report that tell it.
pub fn places_text(alloc: Global, s: &Sketch, at: &Placed, t: &Tolerance) -> Result<Text, NoMemory>
    ensures { IfOk result (λ text. text ≡ places_report s.now at.now t.now) }
{
    let mut text = Text::new(alloc);
    put_places(alloc, &mut text, s, at, t)?;
    Ok(text)
}

/// Puts a line for each element, and the two lines that tell the tolerance.
fn put_places(
    alloc: Global,
    text: &mut Text,
    s: &Sketch,
    at: &Placed,
    t: &Tolerance,
) -> Result<(), NoMemory>
    ensures { OnOk result (text.new ≡ text.old ++ places_report s.now at.now t.now) }
{
    put_elements(text, s.elements.as_slice(), at)?;
    put_tolerance(alloc, text, s, t)
}

/// Puts the number of steps and the binary digits of the grid, a line each.
fn put_counts(alloc: Global, text: &mut Text, p: &Plan, bits: u32) -> Result<(), NoMemory>
    ensures { OnOk result (text.new ≡ text.old ++ solve_counts p.now bits) }
{
    let steps = p.steps.len();
    let counts = format!(in alloc; "steps {steps}\nbits {bits}\n")?;
    text.put(counts.as_bytes())
}

/// Puts a line for each element.
fn put_elements(text: &mut Text, elements: &[Element], at: &Placed) -> Result<(), NoMemory>
    ensures { OnOk result (text.new ≡ text.old ++ element_lines at.now elements.now) }
{
    for element in elements {
        put_element(text, element, at.at(element.number))?;
    }
    Ok(())
}

fn put_element(text: &mut Text, element: &Element, at: Option<At>) -> Result<(), NoMemory>
    ensures { OnOk result (text.new ≡ text.old ++ element_line element.now at) }
{
    match at {
        Some(At::Point { x, y }) => put_centre(text, element, x, y),
        Some(At::Line { a, b, c }) => put_line(text, element.label.as_bytes(), a, b, c),
        None => Ok(()),
    }
}

/// Puts the line of a point, or of a circle by its centre.
fn put_centre(text: &mut Text, element: &Element, x: i64, y: i64) -> Result<(), NoMemory>
    ensures { OnOk result (text.new ≡ text.old ++ centre_line element.now.label element.now.shape x y) }
{
    let name = element.label.as_bytes();
    match element.shape {
        Shape::Circle { r, .. } => put_circle(text, name, x, y, r),
        Shape::Point { .. } | Shape::Line { .. } => put_point(text, name, x, y),
    }
}

fn put_point(text: &mut Text, name: &[u8], x: i64, y: i64) -> Result<(), NoMemory>
    ensures { OnOk result (text.new ≡ text.old ++ point_line name.now x y) }
{
    put_named(text, b"point ", name)?;
    put_two(text, x, y)?;
    text.put(b"\n")
}

/// Puts a circle's line, with its radius in nanometres.
fn put_circle(text: &mut Text, name: &[u8], x: i64, y: i64, r: Um) -> Result<(), NoMemory>
    ensures { OnOk result (text.new ≡ text.old ++ circle_line name.now x y r.0) }
{
    put_named(text, b"circle ", name)?;
    put_two(text, x, y)?;
    put_nanometres(text, r)?;
    text.put(b"\n")
}

fn put_line(text: &mut Text, name: &[u8], a: i64, b: i64, c: i64) -> Result<(), NoMemory>
    ensures { OnOk result (text.new ≡ text.old ++ line_line name.now a b c) }
{
    put_named(text, b"line ", name)?;
    put_three(text, a, b, c)?;
    text.put(b"\n")
}

/// Puts a word and a name.
pub(crate) fn put_named(text: &mut Text, word: &[u8], name: &[u8]) -> Result<(), NoMemory>
    ensures { OnOk result (text.new ≡ text.old ++ (word.now ++ name.now)) }
{
    text.put(word)?;
    text.put(name)
}

/// Puts a space and a length in nanometres.
fn put_nanometres(text: &mut Text, length: Um) -> Result<(), NoMemory>
    ensures { OnOk result (text.new ≡ text.old ++ 32 ∷ whole_text (length.0 *ℤ pos 1000)) }
{
    put_number(text, i128::from(length.0) * 1000)
}

/// Puts two whole numbers, each with a space before it.
fn put_two(text: &mut Text, x: i64, y: i64) -> Result<(), NoMemory>
    ensures { OnOk result (text.new ≡ text.old ++ numbers_text (x ∷ y ∷ [])) }
{
    put_number(text, i128::from(x))?;
    put_number(text, i128::from(y))
}

/// Puts three whole numbers, each with a space before it.
fn put_three(text: &mut Text, x: i64, y: i64, z: i64) -> Result<(), NoMemory>
    ensures { OnOk result (text.new ≡ text.old ++ numbers_text (x ∷ y ∷ z ∷ [])) }
{
    put_number(text, i128::from(x))?;
    put_number(text, i128::from(y))?;
    put_number(text, i128::from(z))
}

/// Puts a space and a whole number.
pub(crate) fn put_number(text: &mut Text, n: i128) -> Result<(), NoMemory>
    ensures { OnOk result (text.new ≡ text.old ++ 32 ∷ whole_text n) }
{
    text.put(b" ")?;
    text.put_whole(n)
}

/// Puts the two lines that tell the tolerance.
pub fn put_tolerance(
    alloc: Global,
    text: &mut Text,
    s: &Sketch,
    t: &Tolerance,
) -> Result<(), NoMemory>
    ensures { OnOk result (text.new ≡ text.old ++ tolerance_lines s.now t.now) }
{
    put_length_line(alloc, text, t)?;
    put_angle_line(alloc, text, s, t)
}

fn put_length_line(alloc: Global, text: &mut Text, t: &Tolerance) -> Result<(), NoMemory>
    ensures { OnOk result (text.new ≡ text.old ++ length_line t.now) }
{
    let least = t.t;
    let head = format!(in alloc; "length tolerance {least} nm at ")?;
    text.put(head.as_bytes())?;
    put_constraint_or_none(alloc, text, t.worst_t)?;
    text.put(b"\n")
}

fn put_angle_line(alloc: Global, text: &mut Text, s: &Sketch, t: &Tolerance) -> Result<(), NoMemory>
    ensures { OnOk result (text.new ≡ text.old ++ angle_line s.now t.now) }
{
    let least = t.w;
    let head = format!(in alloc; "angle tolerance {least} ppb at ")?;
    text.put(head.as_bytes())?;
    put_spotted_or_none(alloc, text, s, t.worst_w)?;
    text.put(b"\n")
}

fn put_constraint_or_none(
    alloc: Global,
    text: &mut Text,
    constraint: Option<ConId>,
) -> Result<(), NoMemory>
    ensures { OnOk result (text.new ≡ text.old ++ constraint_or_none constraint) }
{
    match constraint {
        Some(number) => put_constraint(alloc, text, number),
        None => text.put(b"none"),
    }
}

fn put_spotted_or_none(
    alloc: Global,
    text: &mut Text,
    s: &Sketch,
    at: Option<Spotted>,
) -> Result<(), NoMemory>
    ensures { OnOk result (text.new ≡ text.old ++ spotted_or_none s.now at) }
{
    match at {
        Some(at) => put_spotted(alloc, text, s, at),
        None => text.put(b"none"),
    }
}

/// Puts the name of a line, or the number of a constraint.
pub(crate) fn put_spotted(
    alloc: Global,
    text: &mut Text,
    s: &Sketch,
    at: Spotted,
) -> Result<(), NoMemory>
    ensures { OnOk result (text.new ≡ text.old ++ spotted_words s.now at) }
{
    match at {
        Spotted::Con(number) => put_constraint(alloc, text, number),
        Spotted::Line(line) => {
            text.put(b"line")?;
            put_name(text, s, line)
        }
    }
}

fn put_constraint(alloc: Global, text: &mut Text, number: ConId) -> Result<(), NoMemory>
    ensures { OnOk result (text.new ≡ text.old ++ constraint_or_none (Some number)) }
{
    let number = number.0;
    text.put(format!(in alloc; "c{number}")?.as_bytes())
}
