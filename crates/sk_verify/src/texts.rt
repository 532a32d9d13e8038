// The one line that tells what a check of a claim found.
ghost use Rattle.std.specs.Prelude.{◌≡◌, ◌++◌, IfOk, OnOk};
ghost use Rattle.sk_text.specs.ClusterName.{cluster_name};
ghost use Rattle.sk_verify.specs.Texts.{failing_words, failure_line, verified_line};

use crate::failure::Failure;
use sk_base::{Name, NoMemory, Sketch, Text};
use sk_claims::Claim;
use sk_text::{cluster_name, put_label};
use std::alloc::Global;

/// The line for a claim that fails.
pub fn failure_text(alloc: Global, s: &Sketch, f: &Failure) -> Result<Text, NoMemory>
    ensures { IfOk result (λ text. text ≡ failure_line s.now f.now) }
{
    let mut text = Text::new(alloc);
    text.put(b"verify fails ")?;
    put_failing(alloc, &mut text, s, *f)?;
    text.put(b"\n")?;
    Ok(text)
}

/// The line for a claim that is accepted.
pub fn verified_text(alloc: Global, claim: &Claim) -> Result<Text, NoMemory>
    ensures { IfOk result (λ text. text ≡ verified_line claim.now) }
{
    let steps = claim.steps.len();
    let t = claim.t;
    let w = claim.w;
    let mut text = Text::new(alloc);
    let line = format!(in alloc; "verified steps {steps} length {t} nm angle {w} ppb\n")?;
    text.put(line.as_bytes())?;
    Ok(text)
}

/// Puts what fails.
fn put_failing(alloc: Global, text: &mut Text, s: &Sketch, f: Failure) -> Result<(), NoMemory>
    ensures { OnOk result (text.new ≡ text.old ++ failing_words s.now f) }
{
    match f {
        Failure::Step(name) => put_cluster(alloc, text, name),
        Failure::Parts => text.put(b"parts"),
        Failure::Element(elem) => {
            text.put(b"element ")?;
            put_label(text, s, elem)
        }
        Failure::Line(line) => {
            text.put(b"line ")?;
            put_label(text, s, line)
        }
        Failure::Con(number) => put_cluster(alloc, text, Name::Con(number.0)),
        Failure::Sign(name) => {
            text.put(b"sign ")?;
            put_cluster(alloc, text, name)
        }
    }
}

fn put_cluster(alloc: Global, text: &mut Text, name: Name) -> Result<(), NoMemory>
    ensures { OnOk result (text.new ≡ text.old ++ cluster_name name) }
{
    text.put(cluster_name(alloc, name)?.as_bytes())
}
