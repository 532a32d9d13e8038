// Lines that drop, set or erase.
ghost use Rattle.std.specs.Prelude.{◌≡◌, ◌==◌, ◌<◌, [], ◌∷◌, length, map, drop, Some, None, Ok, Err, is_none, MatchResult, IfOk};
ghost use Rattle.sk_lines.specs.Words.{bytes_of, StandInOrder};
ghost use Rattle.sk_lines.specs.FirstCode.{first_code};
ghost use Rattle.std.specs.Option.{option_map};
ghost use Rattle.std.specs.List.{list_any};
ghost use Rattle.sk_edits.specs.declared.edit.Edit.TheVariants as an_edit;
ghost use Rattle.sk_edits.specs.declared.command.Change.TheVariants as a_change;
ghost use Rattle.sk_lines.specs.Quantities.{is_zero, length_of, ratio_of, um, ratio};
ghost use Rattle.sk_lines.specs.declared.Code.TheVariants.{E8, E9, S1, S2};
ghost use Rattle.sk_base.specs.declared.Pin.{Pin as APin};
ghost use Rattle.sk_base.specs.Numbering.{is_elem};
ghost use Rattle.sk_graph.specs.Naming.{named_by};
ghost use Rattle.sk_entry.specs.NumberedConstraint.{constraint_of};
ghost use Rattle.sk_edits.specs.Commands.{value_rows, setting, from_made, number_of, is_used, change_rows, edit_made};
ghost use Rattle.sk_edits.specs.Making.{HasSoundValue};

use crate::command::Change;
use crate::edit::Edit;
use sk_base::{ConId, Constraint, Elem, Pin, Rule, Sketch};
use sk_entry::{constraint_of, element_named, label, length, not_zero};
use sk_lines::{Code, Word, angle_ratio, plain_number, word};

/// The number that a word is.
fn number_of(word: &[u8]) -> Result<ConId, Code>
    ensures { MatchResult result (λ k. number_of word.now ≡ Some k.0) (λ code. (number_of word.now ≡ None) × (code ≡ E8)) }
{
    match plain_number(7, word) {
        Some(number) => Ok(ConId(number as u32)),
        None => Err(Code::E8),
    }
}

/// The constraint of that number.
fn numbered(sketch: &Sketch, number: ConId) -> Result<&Constraint, Code>
    ensures { MatchResult result (λ c. constraint_of sketch.now number ≡ Some c.now) (λ code. (constraint_of sketch.now number ≡ None) × (code ≡ S1)) }
{
    match constraint_of(sketch, number) {
        Some(constraint) => Ok(constraint),
        None => Err(Code::S1),
    }
}

/// Whether a constraint names the element.
fn is_used(sketch: &Sketch, elem: Elem) -> bool
    ensures { result ≡ is_used sketch.now elem }
{
    sketch
        .constraints
        .as_slice()
        .iter()
        .any(|constraint| names(&constraint.rule, elem))
}

fn names(rule: &Rule, elem: Elem) -> bool
    ensures { result ≡ is_elem (named_by rule.now) elem }
{
    match *rule {
        Rule::Distance { u, v, .. }
        | Rule::On { u, v }
        | Rule::Tangent { u, v }
        | Rule::Outside { u, v }
        | Rule::Inside { u, v } => elem.is_among(&[u, v]),
        Rule::Angle { l, m, .. } => elem.is_among(&[l, m]),
        Rule::Block { ref pins } => is_pinned(pins.as_slice(), elem),
    }
}

/// Whether one of the pins is at the element.
fn is_pinned(pins: &[Pin], elem: Elem) -> bool
    ensures { result ≡ list_any (λ (pin : APin). pin.elem.0 == elem.0) pins.now }
{
    pins.iter().any(|pin| pin.elem.0 == elem.0)
}

/// The drop that a line says, by the word behind the first.
fn read_drop(sketch: &Sketch, number: &[u8]) -> Result<Edit, Code>
    ensures made { result ≡ from_made (first_code (change_rows sketch.now a_change.Drop (number.now ∷ []))) (edit_made sketch.now a_change.Drop (number.now ∷ [])) }
    ensures value { IfOk result HasSoundValue }
{
    let number = number_of(number)?;
    numbered(sketch, number)?;
    Ok(Edit::Dropped(number))
}

/// The new value that a line says.
fn read_set(sketch: &Sketch, number: &[u8], value: &[u8]) -> Result<Edit, Code>
    ensures made { result ≡ from_made (first_code (change_rows sketch.now a_change.Set (number.now ∷ value.now ∷ []))) (edit_made sketch.now a_change.Set (number.now ∷ value.now ∷ [])) }
    ensures value { IfOk result HasSoundValue }
{
    let number = number_of(number)?;
    let constraint = numbered(sketch, number)?;
    set_value(&constraint.rule, number, value)
}

/// The new value that a rule gets.
fn set_value(rule: &Rule, number: ConId, value: &[u8]) -> Result<Edit, Code>
    ensures made { result ≡ from_made (first_code (value_rows (Some rule.now) value.now)) (setting (Some rule.now) number value.now) }
    ensures value { IfOk result HasSoundValue }
{
    match rule {
        Rule::Distance { .. } => new_length(number, value),
        Rule::Angle { .. } => new_ratio(number, value),
        Rule::On { .. }
        | Rule::Tangent { .. }
        | Rule::Outside { .. }
        | Rule::Inside { .. }
        | Rule::Block { .. } => Err(Code::S4),
    }
}

fn new_length(number: ConId, value: &[u8]) -> Result<Edit, Code>
    ensures made { result ≡ from_made (first_code ((is_none (length_of value.now), E8) ∷ (is_zero (length_of value.now), E9) ∷ [])) (Some (an_edit.Length number (um value.now))) }
    ensures value { IfOk result HasSoundValue }
{
    let len = length(value)?;
    not_zero(len)?;
    Ok(Edit::Length(number, len))
}

fn new_ratio(number: ConId, value: &[u8]) -> Result<Edit, Code>
    ensures made { result ≡ from_made (first_code ((is_none (ratio_of value.now), E8) ∷ (is_zero (option_map (λ parts. parts.0) (ratio_of value.now)), E9) ∷ [])) (Some (an_edit.Turned number (ratio value.now))) }
    ensures value { IfOk result HasSoundValue }
{
    let ratio = angle_ratio(value)?;
    if ratio.p == 0 {
        return Err(Code::E9);
    }
    Ok(Edit::Turned(number, ratio))
}

/// The erasure that a line says.
fn read_erase(sketch: &Sketch, name: &[u8]) -> Result<Edit, Code>
    ensures made { result ≡ from_made (first_code (change_rows sketch.now a_change.Erase (name.now ∷ []))) (edit_made sketch.now a_change.Erase (name.now ∷ [])) }
    ensures value { IfOk result HasSoundValue }
{
    let name = label(name)?;
    let number = element_named(sketch, name)?.number;
    if is_used(sketch, number) {
        return Err(Code::S2);
    }
    Ok(Edit::Erased(number))
}

/// The edit that a line says, by its words.
pub fn read_change(
    sketch: &Sketch,
    change: Change,
    line: &[u8],
    words: &[Word],
) -> Result<Edit, Code>
    requires some { 0 < length words.now }
    requires order { StandInOrder 0 words.now (length line.now) }
    ensures made { let rest = drop 1 (map (bytes_of line.now) words.now) in result ≡ from_made (first_code (change_rows sketch.now change rest)) (edit_made sketch.now change rest) }
    ensures value { IfOk result HasSoundValue }
{
    let count = words.len() - 1;
    match change {
        Change::Drop => {
            if count != 1 {
                return Err(Code::E3);
            }
            read_drop(sketch, word(line, words, 1))
        }
        Change::Set => {
            if count != 2 {
                return Err(Code::E3);
            }
            read_set(sketch, word(line, words, 1), word(line, words, 2))
        }
        Change::Erase => {
            if count != 1 {
                return Err(Code::E3);
            }
            read_erase(sketch, word(line, words, 1))
        }
    }
}
