// The plan report.
ghost use Rattle.std.specs.Prelude.{◌≡◌, ◌++◌, IfOk, OnOk, string_bytes};
ghost use Rattle.std.specs.List.{flat_map};
ghost use Rattle.sk_report.specs.PlanReport.{leaf_line, choice_text, joins_words, keeps_words, step_line, plan_counts, plan_report};

use sk_base::{ConId, NoMemory, Sign, Sketch, Text};
use sk_entry::put_constraint_words;
use sk_text::{cluster_name, put_names};
use sk_tree::{Choice, Plan, PlanStep};
use std::alloc::Global;

/// The plan report: the verdict, three counts, a line for each constraint, and a line for each step.
pub fn plan_text(alloc: Global, s: &Sketch, p: &Plan) -> Result<Text, NoMemory>
    ensures { IfOk result (λ text. text ≡ plan_report s.now p.now) }
{
    let mut text = Text::new(alloc);
    text.put(b"verdict well\n")?;
    put_counts(alloc, &mut text, s, p)?;
    put_leaves(alloc, &mut text, s, p.leaves.as_slice())?;
    put_steps(alloc, &mut text, s, p.steps.as_slice())?;
    Ok(text)
}

/// Puts three counts, a line each.
fn put_counts(alloc: Global, text: &mut Text, s: &Sketch, p: &Plan) -> Result<(), NoMemory>
    ensures { OnOk result (text.new ≡ text.old ++ plan_counts s.now p.now) }
{
    let elements = s.elements.len();
    let constraints = s.constraints.len();
    let steps = p.steps.len();
    let counts = format!(in alloc;
        "elements {elements}\nconstraints {constraints}\nsteps {steps}\n"
    )?;
    text.put(counts.as_bytes())
}

fn put_leaves(alloc: Global, text: &mut Text, s: &Sketch, leaves: &[ConId]) -> Result<(), NoMemory>
    ensures { OnOk result (text.new ≡ text.old ++ flat_map (leaf_line s.now) leaves.now) }
{
    for leaf in leaves {
        put_leaf(alloc, text, s, *leaf)?;
    }
    Ok(())
}

fn put_leaf(alloc: Global, text: &mut Text, s: &Sketch, leaf: ConId) -> Result<(), NoMemory>
    ensures { OnOk result (text.new ≡ text.old ++ leaf_line s.now leaf) }
{
    let number = leaf.0;
    let head = format!(in alloc; "leaf c{number} : ")?;
    text.put(head.as_bytes())?;
    put_constraint_words(text, s, leaf)?;
    text.put(b"\n")
}

fn put_steps(alloc: Global, text: &mut Text, s: &Sketch, steps: &[PlanStep]) -> Result<(), NoMemory>
    ensures { OnOk result (text.new ≡ text.old ++ flat_map (step_line s.now) steps.now) }
{
    for step in steps {
        put_step(alloc, text, s, step)?;
    }
    Ok(())
}

fn put_step(alloc: Global, text: &mut Text, s: &Sketch, step: &PlanStep) -> Result<(), NoMemory>
    ensures { OnOk result (text.new ≡ text.old ++ step_line s.now step.now) }
{
    text.put(joins_words(alloc, step)?.as_bytes())?;
    put_names(text, s, &[step.a, step.b, step.c])?;
    text.put(keeps_words(alloc, step)?.as_bytes())
}

/// The step, and the clusters that it joins.
fn joins_words(alloc: Global, step: &PlanStep) -> Result<String, NoMemory>
    ensures { IfOk result (λ words. string_bytes words ≡ joins_words step.now) }
{
    let name = cluster_name(alloc, step.step)?;
    let one = cluster_name(alloc, step.one)?;
    let two = cluster_name(alloc, step.two)?;
    let three = cluster_name(alloc, step.three)?;
    Ok(format!(in alloc; "step {name} joins {one} {two} {three} at")?)
}

/// The cluster that is kept, and what the drawing chooses.
fn keeps_words(alloc: Global, step: &PlanStep) -> Result<String, NoMemory>
    ensures { IfOk result (λ words. string_bytes words ≡ keeps_words step.now) }
{
    let kept = cluster_name(alloc, step.keeps)?;
    let choice = choice_text(step.choice);
    Ok(format!(in alloc; " keeps {kept} {choice}\n")?)
}

fn choice_text(choice: Choice) -> &'static str
    ensures { result.now ≡ choice_text choice }
{
    match choice {
        Choice::Turn(Sign::Plus) => "turn +",
        Choice::Turn(Sign::Minus) => "turn -",
        Choice::Advance(Sign::Plus) => "advance +",
        Choice::Advance(Sign::Minus) => "advance -",
        Choice::Nothing => "none",
    }
}
