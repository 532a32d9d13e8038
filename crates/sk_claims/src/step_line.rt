// A step, by the words of its line.
ghost use Rattle.std.specs.Prelude.{◌≡◌, ◌<◌, ◌≤◌, [], ◌∷◌, length, map, drop, None, Some, MatchResult};
ghost use Rattle.std.specs.List.{list_any};
ghost use Rattle.sk_lines.specs.Words.{bytes_of, StandInOrder};
ghost use Rattle.sk_claims.specs.ClaimLines.{are_fixed, choice_of, corner_rows, step_rows, step_said};
ghost use Rattle.sk_entry.specs.Named.{number_named};
ghost use Rattle.sk_lines.specs.ClusterWords.{named, is_bad_name};
ghost use Rattle.sk_lines.specs.FirstCode.{first_code, unless};
ghost use Rattle.sk_lines.specs.declared.Code.TheVariants.{E4};

use crate::choosing::{closed_choice, open_choice};
use sk_base::{Elem, Name, Sketch};
use sk_entry::{element_named, label};
use sk_lines::{Code, Word, cluster_named, is_word, word};
use sk_tree::{Choice, PlanStep};

/// The names in a step: its own, those of the clusters that it joins, and that of the one that it keeps.
#[derive(Clone, Copy, Debug, PartialEq, Eq)]
struct Joining {
    step: Name,
    one: Name,
    two: Name,
    three: Name,
    keeps: Name,
}

/// The three elements at which a step joins.
#[derive(Clone, Copy, Debug, PartialEq, Eq)]
struct Corners {
    a: Elem,
    b: Elem,
    c: Elem,
}

/// The step that a line says.
pub(crate) fn step_of(s: &Sketch, line: &[u8], words: &[Word]) -> Result<PlanStep, Code>
    requires some { 0 < length words.now }
    requires order { StandInOrder 0 words.now (length line.now) }
    ensures { let rest = drop 1 (map (bytes_of line.now) words.now) in MatchResult result
        (λ step. (first_code (step_rows s.now rest) ≡ None) × (step_said s.now rest ≡ step ∷ []))
        (λ code. first_code (step_rows s.now rest) ≡ Some code) }
{
    if words.len() != 13 && words.len() != 14 {
        return Err(Code::E3);
    }
    let name = word(line, words, 1);
    let joins = word(line, words, 2);
    let x = word(line, words, 3);
    let y = word(line, words, 4);
    let z = word(line, words, 5);
    let at = word(line, words, 6);
    let a = word(line, words, 7);
    let b = word(line, words, 8);
    let c = word(line, words, 9);
    let keeps = word(line, words, 10);
    let kept = word(line, words, 11);
    if !are_fixed(joins, at, keeps) {
        return Err(Code::E2);
    }
    let Some(choice) = choice_said(line, words) else {
        return Err(Code::E2);
    };
    let joining = joining_of(name, x, y, z, kept)?;
    let corners = corners_of(s, a, b, c)?;
    Ok(step_at(joining, corners, choice))
}

/// Whether the words are those that stand in each step.
fn are_fixed(joins: &[u8], at: &[u8], keeps: &[u8]) -> bool
    ensures { result ≡ are_fixed joins.now at.now keeps.now }
{
    is_word(joins, "joins") && is_word(at, "at") && is_word(keeps, "keeps")
}

/// The choice that the words behind those of the kept cluster say.
fn choice_said(line: &[u8], words: &[Word]) -> Option<Choice>
    requires behind { 12 < length words.now }
    requires two { length words.now ≤ 14 }
    requires order { StandInOrder 0 words.now (length line.now) }
    ensures { result ≡ choice_of (drop 12 (map (bytes_of line.now) words.now)) }
{
    let choice = word(line, words, 12);
    if words.len() == 13 {
        return closed_choice(choice);
    }
    open_choice(choice, word(line, words, 13))
}

/// The names that the words are.
fn joining_of(step: &[u8], x: &[u8], y: &[u8], z: &[u8], kept: &[u8]) -> Result<Joining, Code>
    ensures { result ≡ unless (first_code ((list_any is_bad_name (step.now ∷ x.now ∷ y.now ∷ z.now ∷ kept.now ∷ []), E4) ∷ []))
        (record { step = named step.now; one = named x.now; two = named y.now; three = named z.now; keeps = named kept.now }) }
{
    let step = cluster_named(step)?;
    let one = cluster_named(x)?;
    let two = cluster_named(y)?;
    let three = cluster_named(z)?;
    let keeps = cluster_named(kept)?;
    Ok(Joining {
        step,
        one,
        two,
        three,
        keeps,
    })
}

/// The elements that the words name.
fn corners_of(s: &Sketch, a: &[u8], b: &[u8], c: &[u8]) -> Result<Corners, Code>
    ensures { result ≡ unless (first_code (corner_rows s.now (a.now ∷ b.now ∷ c.now ∷ [])))
        (record { a = number_named s.now a.now; b = number_named s.now b.now; c = number_named s.now c.now }) }
{
    let a = label(a)?;
    let b = label(b)?;
    let c = label(c)?;
    let a = element_named(s, a)?;
    let b = element_named(s, b)?;
    let c = element_named(s, c)?;
    Ok(Corners {
        a: a.number,
        b: b.number,
        c: c.number,
    })
}

/// The step of these names, at these elements, with this choice.
fn step_at(joining: Joining, at: Corners, choice: Choice) -> PlanStep
    ensures { result ≡ record { step = joining.step; one = joining.one; two = joining.two; three = joining.three; a = at.a; b = at.b; c = at.c; keeps = joining.keeps; choice = choice } }
{
    PlanStep {
        step: joining.step,
        one: joining.one,
        two: joining.two,
        three: joining.three,
        a: at.a,
        b: at.b,
        c: at.c,
        keeps: joining.keeps,
        choice,
    }
}
