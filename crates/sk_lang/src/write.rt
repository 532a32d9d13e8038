ghost use Rattle.std.specs.Prelude.{◌≡◌, ◌<◌, ◌++◌, [], ◌∷◌, length, map, IfOk, OnOk};
ghost use Rattle.sk_base.specs.SoundSketch.{IsSoundSketch};
ghost use Rattle.sk_lang.specs.Blocks.{is_block, has_block, version_for};
ghost use Rattle.sk_entry.specs.CanonicalLines.{element_line, constraint_line};
ghost use Rattle.sk_lines.specs.Lines.{ended_lines};
ghost use Rattle.sk_lang.specs.Canonical.{header, text_under, canonical, canonical_2};
ghost use Rattle.sk_lang.specs.Reading.{Reads};
ghost use Rattle.sk_lang.specs.Renumbered.{renumbered};

use sk_base::{NoMemory, Rule, Sketch, Text};
use sk_entry::{put_constraint, put_element};
use sk_lines::Version;
use std::alloc::Global;

/// The canonical text of the sketch, under the header of version 1 exactly where it has no block.
pub fn write_sketch(alloc: Global, s: &Sketch) -> Result<Text, NoMemory>
    ensures canonical { IfOk result (λ text. text ≡ canonical s.now) }
    ensures reads_back { IsSoundSketch s.now → 0 < length s.now.elements → IfOk result (λ text. Reads text (renumbered s.now)) }
{
    write_under(alloc, version_for(s), s)
}

/// The canonical text of the sketch under the header of version 2.
pub fn write_sketch_2(alloc: Global, s: &Sketch) -> Result<Text, NoMemory>
    ensures canonical { IfOk result (λ text. text ≡ canonical_2 s.now) }
    ensures reads_back { IsSoundSketch s.now → 0 < length s.now.elements → IfOk result (λ text. Reads text (renumbered s.now)) }
{
    write_under(alloc, Version::Two, s)
}

/// The least version that has a line for all that the sketch has.
fn version_for(s: &Sketch) -> Version
    ensures { result ≡ version_for s.now }
{
    if has_block(s) {
        return Version::Two;
    }
    Version::One
}

fn has_block(s: &Sketch) -> bool
    ensures { result ≡ has_block s.now }
{
    s.constraints
        .as_slice()
        .iter()
        .any(|constraint| is_block(&constraint.rule))
}

fn is_block(rule: &Rule) -> bool
    ensures { result ≡ is_block rule.now }
{
    matches!(rule, Rule::Block { .. })
}

/// The canonical text under the header of a version.
fn write_under(alloc: Global, version: Version, s: &Sketch) -> Result<Text, NoMemory>
    ensures { IfOk result (λ text. text ≡ text_under version s.now) }
{
    let mut text = Text::new(alloc);
    put_header(&mut text, version)?;
    put_elements(&mut text, s)?;
    put_constraints(&mut text, s)?;
    text.put(b"end\n")?;
    Ok(text)
}

fn put_header(text: &mut Text, version: Version) -> Result<(), NoMemory>
    ensures { OnOk result (text.new ≡ text.old ++ header version ++ 10 ∷ []) }
{
    match version {
        Version::One => text.put(b"sketch 1\n"),
        Version::Two => text.put(b"sketch 2\n"),
    }
}

fn put_elements(text: &mut Text, s: &Sketch) -> Result<(), NoMemory>
    ensures { OnOk result (text.new ≡ text.old ++ ended_lines (map element_line s.now.elements)) }
{
    for element in s.elements.as_slice() {
        put_element(text, element)?;
        text.put(b"\n")?;
    }
    Ok(())
}

fn put_constraints(text: &mut Text, s: &Sketch) -> Result<(), NoMemory>
    ensures { OnOk result (text.new ≡ text.old ++ ended_lines (map (constraint_line s.now) s.now.constraints)) }
{
    for constraint in s.constraints.as_slice() {
        put_constraint(text, s, constraint)?;
        text.put(b"\n")?;
    }
    Ok(())
}
