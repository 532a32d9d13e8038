// The lines that name what failed.
ghost use Rattle.std.specs.Prelude.{◌≡◌, ◌++◌, IfOk, OnOk, string_bytes};
ghost use Rattle.sk_report.specs.FaultLines.{phase_word, cause_words, fault_head, fault_line, frame_fault_line, rule_unit, spotted_unit, passed_line, turned_line};
ghost use Rattle.sk_report.specs.PlanReport.{sign_text};

use crate::solve::{put_number, put_spotted};
use sk_base::{NoMemory, Rule, Sign, Sketch, Text};
use sk_entry::constraint_of;
use sk_interval::Cause;
use sk_place::{BoxFault, Phase, StepFault};
use sk_text::{cluster_name, put_name};
use sk_tolerance::{Beyond, Spotted, Turned};
use std::alloc::Global;

/// The one line that names the faulty step, the quantity that has no interval on that grid, and its
/// ends.
pub fn fault_text(alloc: Global, s: &Sketch, f: &StepFault, bits: u32) -> Result<Text, NoMemory>
    ensures { IfOk result (λ text. text ≡ fault_line s.now f.now bits) }
{
    let mut text = Text::new(alloc);
    text.put(fault_head(alloc, f)?.as_bytes())?;
    put_name(&mut text, s, f.elem)?;
    put_cause(&mut text, f.cause)?;
    text.put(format!(in alloc; " bits {bits}\n")?.as_bytes())?;
    Ok(text)
}

/// The step, what it was at, and the quantity.
fn fault_head(alloc: Global, f: &StepFault) -> Result<String, NoMemory>
    ensures { IfOk result (λ words. string_bytes words ≡ fault_head f.now) }
{
    let step = cluster_name(alloc, f.step)?;
    let phase = phase_word(f.phase);
    let what = f.what.word();
    Ok(format!(in alloc; "fault {step} {phase} {what}")?)
}

/// The one line that names the first box that can't be carried to the drawing on that grid, and its
/// quantity that has no interval.
pub fn frame_fault_text(
    alloc: Global,
    s: &Sketch,
    f: &BoxFault,
    bits: u32,
) -> Result<Text, NoMemory>
    ensures { IfOk result (λ text. text ≡ frame_fault_line s.now f.now bits) }
{
    let what = f.what.word();
    let mut text = Text::new(alloc);
    text.put(format!(in alloc; "fault frame {what}")?.as_bytes())?;
    put_name(&mut text, s, f.elem)?;
    put_cause(&mut text, f.cause)?;
    text.put(format!(in alloc; " bits {bits}\n")?.as_bytes())?;
    Ok(text)
}

fn phase_word(phase: Phase) -> &'static str
    ensures { result.now ≡ phase_word phase }
{
    match phase {
        Phase::Build => "build",
        Phase::First => "first",
        Phase::Second => "second",
    }
}

fn put_cause(text: &mut Text, cause: Cause) -> Result<(), NoMemory>
    ensures { OnOk result (text.new ≡ text.old ++ cause_words cause) }
{
    match cause {
        Cause::Flat { lo, hi } => {
            text.put(b" flat")?;
            put_number(text, lo)?;
            put_number(text, hi)
        }
        Cause::Gap { lo, hi } => {
            text.put(b" gap")?;
            put_number(text, lo)?;
            put_number(text, hi)
        }
        Cause::Range => text.put(b" range"),
    }
}

/// The one line that names the constraint or the line whose own least number passes the limit.
pub fn passed_text(alloc: Global, s: &Sketch, p: &Beyond) -> Result<Text, NoMemory>
    ensures { IfOk result (λ text. text ≡ passed_line s.now p.now) }
{
    let least = p.least;
    let unit = spotted_unit(s, p.at);
    let limit = p.limit;
    let mut text = Text::new(alloc);
    text.put(b"fault ")?;
    put_spotted(alloc, &mut text, s, p.at)?;
    let numbers = format!(in alloc; " tolerance {least} {unit} limit {limit}\n")?;
    text.put(numbers.as_bytes())?;
    Ok(text)
}

/// The unit in which the tolerance is told.
fn spotted_unit(s: &Sketch, at: Spotted) -> &'static str
    ensures { result.now ≡ spotted_unit s.now at }
{
    match at {
        Spotted::Line(_) => "ppb",
        Spotted::Con(number) => match constraint_of(s, number) {
            Some(constraint) => rule_unit(&constraint.rule),
            None => "nm",
        },
    }
}

fn rule_unit(rule: &Rule) -> &'static str
    ensures { result.now ≡ rule_unit rule.now }
{
    match rule {
        Rule::Angle { .. } => "ppb",
        Rule::Distance { .. }
        | Rule::On { .. }
        | Rule::Tangent { .. }
        | Rule::Outside { .. }
        | Rule::Inside { .. }
        | Rule::Block { .. } => "nm",
    }
}

/// The one line that names the step or the angle whose sign isn't placed as drawn.
pub fn turned_text(alloc: Global, t: &Turned) -> Result<Text, NoMemory>
    ensures { IfOk result (λ text. text ≡ turned_line t.now) }
{
    let at = cluster_name(alloc, t.at)?;
    let drawn = sign_text(t.drawn);
    let mut text = Text::new(alloc);
    text.put(format!(in alloc; "fault {at} turned drawn {drawn} placed")?.as_bytes())?;
    put_number(&mut text, i128::from(t.placed))?;
    text.put(b"\n")?;
    Ok(text)
}

pub(crate) fn sign_text(sign: Sign) -> &'static str
    ensures { result.now ≡ sign_text sign }
{
    match sign {
        Sign::Plus => "+",
        Sign::Minus => "-",
    }
}
