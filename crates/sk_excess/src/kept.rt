// The sketch without the constraints that are left out.
ghost use Rattle.std.specs.Prelude.{◌≡◌, filter, IfOk};
ghost use Rattle.sk_base.specs.declared.Constraint.{Constraint as TheConstraint};
ghost use Rattle.sk_base.specs.SoundSketch.{IsSoundSketch};
ghost use Rattle.sk_excess.specs.LeftOut.{is_kept};
ghost use Rattle.sk_excess.specs.KeptSketch.{kept_sketch};

use sk_base::{ConId, Constraint, List, NoMemory, Sketch, copy_constraint};
use sk_spare::is_kept;
use std::alloc::Global;

/// The sketch with all its elements and the constraints that are none of these, in their order, with their numbers.
pub fn sketch_of_kept(alloc: Global, s: &Sketch, left: &[ConId]) -> Result<Sketch, NoMemory>
    requires { IsSoundSketch s.now }
    ensures exact { IfOk result (λ kept. kept ≡ kept_sketch left.now s.now) }
    ensures sound { IfOk result IsSoundSketch }
{
    let mut elements = List::new(alloc);
    elements.extend(s.elements.as_slice())?;
    let constraints = kept_constraints(alloc, s.constraints.as_slice(), left)?;
    Ok(Sketch {
        elements,
        constraints,
    })
}

/// The constraints whose numbers are none of these.
fn kept_constraints(
    alloc: Global,
    constraints: &[Constraint],
    left: &[ConId],
) -> Result<List<Constraint>, NoMemory>
    ensures { IfOk result (λ kept. kept ≡ filter (λ (c : TheConstraint). is_kept left.now c.number) constraints.now) }
{
    let mut kept = List::new(alloc);
    for constraint in constraints {
        if is_kept(left, constraint.number) {
            kept.push(copy_constraint(alloc, constraint)?)?;
        }
    }
    Ok(kept)
}
