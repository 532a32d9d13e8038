// A sketch that grows.
ghost use Rattle.std.specs.Prelude.{◌≡◌, ◌+◌, ◌<◌, All, IfOk, IfSome, OnOk, length};
ghost use Rattle.sk_base.specs.declared.Constraint.{Constraint as TheConstraint};
ghost use Rattle.sk_base.specs.Rising.{IsRising};
ghost use Rattle.sk_base.specs.SoundSketch.{IsSoundSketch};
ghost use Rattle.sk_complete.specs.Begun.{Extends, last_number};

use sk_base::{ConId, Constraint, Elem, List, NoMemory, Sketch, copy_constraint};
use sk_drawn::drawn_value;
use sk_rigid::Rigid;
use sk_verdict::Part;
use std::alloc::Global;

/// The same sketch once more.
pub(crate) fn copy_sketch(alloc: Global, s: &Sketch) -> Result<Sketch, NoMemory>
    ensures { IfOk result (λ copy. copy ≡ s.now) }
{
    let mut elements = List::new(alloc);
    elements.extend(s.elements.as_slice())?;
    let constraints = copy_constraints(alloc, s.constraints.as_slice())?;
    Ok(Sketch {
        elements,
        constraints,
    })
}

fn copy_constraints(alloc: Global, constraints: &[Constraint]) -> Result<List<Constraint>, NoMemory>
    ensures { IfOk result (λ copy. copy ≡ constraints.now) }
{
    let mut copy = List::new(alloc);
    for constraint in constraints {
        copy.push(copy_constraint(alloc, constraint)?)?;
    }
    Ok(copy)
}

/// A sketch that grows by drawn constraints, with what is rigid in it, without and with angles followed along lines.
#[derive(Drop)]
pub(crate) struct Draft {
    pub sketch: Sketch,
    pub rigid: Rigid,
    pub wide: Rigid,
}

impl Draft {
    /// The sketch as it is, which has these parts.
    pub fn of(alloc: Global, s: &Sketch, parts: &[Part], lines: &[bool]) -> Result<Draft, NoMemory>
        requires { IsSoundSketch s.now }
        ensures { IfOk result (λ draft. Extends s.now draft.sketch) }
    {
        let sketch = copy_sketch(alloc, s)?;
        let rigid = rigid_of(alloc, parts, lines)?;
        let mut wide = rigid_of(alloc, parts, lines)?;
        wide.follow_angles()?;
        Ok(Draft {
            sketch,
            rigid,
            wide,
        })
    }

    /// Adds what is drawn between the two elements. Where nothing can be said of them, or there are as many constraints as may
    /// be, the draft stays as it is, and the answer is false.
    pub fn accept(&mut self, s: &Sketch, u: Elem, v: Elem) -> Result<bool, NoMemory>
        requires sound { IsSoundSketch s.now }
        requires draft { Extends s.now self.old.sketch }
        ensures { OnOk result (Extends s.now self.new.sketch) }
    {
        let Some(rule) = drawn_value(s, u, v) else {
            return Ok(false);
        };
        let Some(number) = next_number(self.sketch.constraints.as_slice()) else {
            return Ok(false);
        };
        self.sketch.constraints.push(Constraint { number, rule })?;
        self.rigid.add(u, v)?;
        self.wide.add(u, v)?;
        Ok(true)
    }
}

/// What is rigid in a sketch that has these parts.
fn rigid_of(alloc: Global, parts: &[Part], lines: &[bool]) -> Result<Rigid, NoMemory> {
    let mut rigid = Rigid::new(alloc, lines)?;
    for part in parts {
        if part.elements.len() > 1 {
            rigid.put(part.elements.as_slice())?;
        }
    }
    Ok(rigid)
}

/// The number behind the last constraint's. None where there are as many as may be, or none is left.
fn next_number(constraints: &[Constraint]) -> Option<ConId>
    requires { IsRising (λ (c : TheConstraint). c.number.0) constraints.now }
    ensures next { IfSome result (λ k. k.0 ≡ last_number constraints.now + 1) }
    ensures above { IfSome result (λ k. All (λ (c : TheConstraint). c.number.0 < k.0) constraints.now) }
    ensures room { IfSome result (λ k. length constraints.now < 4000) }
{
    if constraints.len() >= 4000 {
        return None;
    }
    match constraints.last() {
        None => Some(ConId(1)),
        Some(last) => {
            let number = last.number.0.checked_add(1)?;
            Some(ConId(number))
        }
    }
}
