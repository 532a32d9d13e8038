// What is told of an alternative.
ghost use Rattle.std.specs.Prelude.{◌≡◌, IfOk, string_bytes};
ghost use Rattle.sk_cli.specs.FlipsReport.{found_words, flip_line, lines_below, alternative_report};

use sk_base::{NoMemory, Sketch, Text};
use sk_report::{fault_text, frame_fault_text, passed_text, places_text, turned_text};
use sk_solve::Alternative;
use sk_text::cluster_name;
use std::alloc::Global;

/// What is told of the alternative that the line of that number among flips asks for, on a grid of so
/// many binary digits: where the elements lie and within which tolerance, a step without a choice, or
/// what fails. The sign of a step that is called drawn is the one that the turned plan chooses.
pub fn alternative_text(
    alloc: Global,
    s: &Sketch,
    number: u32,
    bits: u32,
    a: &Alternative,
) -> Result<Text, NoMemory>
    ensures { IfOk result (λ text. text ≡ alternative_report s.now number bits a.now) }
{
    let mut text = flip_line(alloc, number, a)?;
    text.put(lines_below(alloc, s, bits, a)?.as_bytes())?;
    Ok(text)
}

/// The line that answers a line of flips.
fn flip_line(alloc: Global, number: u32, a: &Alternative) -> Result<Text, NoMemory>
    ensures { IfOk result (λ text. text ≡ flip_line number a.now) }
{
    let words = found_words(alloc, a)?;
    let line = format!(in alloc; "flip {number} {words}\n")?;
    let mut text = Text::new(alloc);
    text.put(line.as_bytes())?;
    Ok(text)
}

fn found_words(alloc: Global, a: &Alternative) -> Result<String, NoMemory>
    ensures { IfOk result (λ words. string_bytes words ≡ found_words a.now) }
{
    match a {
        Alternative::Found { .. } => Ok(format!(in alloc; "ok")?),
        Alternative::NoChoice(name) => {
            let name = cluster_name(alloc, *name)?;
            Ok(format!(in alloc; "no-choice {name}")?)
        }
        Alternative::Fault(_)
        | Alternative::Uncarried(_)
        | Alternative::Passed(_)
        | Alternative::Turned(_) => Ok(format!(in alloc; "fault")?),
    }
}

/// What is told below the line that answers a line of flips.
fn lines_below(alloc: Global, s: &Sketch, bits: u32, a: &Alternative) -> Result<Text, NoMemory>
    ensures { IfOk result (λ text. text ≡ lines_below s.now bits a.now) }
{
    match a {
        Alternative::Found { at, tol } => places_text(alloc, s, at, tol),
        Alternative::NoChoice(_) => Ok(Text::new(alloc)),
        Alternative::Fault(fault) => fault_text(alloc, s, fault, bits),
        Alternative::Uncarried(fault) => frame_fault_text(alloc, s, fault, bits),
        Alternative::Passed(beyond) => passed_text(alloc, s, beyond),
        Alternative::Turned(turned) => turned_text(alloc, turned),
    }
}
