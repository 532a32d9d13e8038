// The tree that a list of triangle merges makes.
ghost use Rattle.std.specs.Prelude.{◌≡◌, ◌↔◌, ◌<◌, [], ◌∷◌, ◌++◌, IfOk, IfSome, IsNone, Contains, length, slice_get, Some, List as Items};
ghost use Rattle.sk_rules.specs.declared.Taken.{Taken as Merging};
ghost use Rattle.sk_tree.specs.Trees.{AreJoins, IsMade, IsTreeOf};

use crate::tree::{Joint, Tree};
use sk_base::{ConId, List, Name, NoMemory};
use sk_rules::{Merge, Taken};
use std::alloc::Global;

/// The tree of the last step. There is none exactly where there is no step.
pub fn build(alloc: Global, taken: &List<Taken>) -> Result<Option<Tree>, NoMemory>
    requires { AreJoins taken.now }
    ensures none { IfOk result (λ tree. IsNone tree ↔ (taken.now ≡ [])) }
    ensures some { IfOk result (λ tree. IfSome tree (λ t. (before : Items Merging) × (last : Merging) × (taken.now ≡ before ++ last ∷ []) × IsTreeOf taken.now last.step t)) }
{
    let taken = taken.as_slice();
    match taken.last() {
        None => Ok(None),
        Some(last) => Ok(Some(tree_of(alloc, taken, last.step)?)),
    }
}

/// The tree of a constraint's name or a step's.
fn tree_of(alloc: Global, taken: &[Taken], name: Name) -> Result<Tree, NoMemory>
    requires joins { AreJoins taken.now }
    requires made { IsMade taken.now name }
    ensures { IfOk result (λ t. IsTreeOf taken.now name t) }
{
    match name {
        Name::Con(number) => Ok(Tree::Leaf(ConId(number))),
        Name::Step(_) => {
            let place = place_of_step(taken, name);
            let Taken {
                step,
                merge,
                shared,
            } = taken[place];
            match merge {
                Merge::Two(_, _) => unreachable!(),
                Merge::Three(x, y, z) => {
                    let before = &taken[..place];
                    let one = tree_of(alloc, before, x)?;
                    let two = tree_of(alloc, before, y)?;
                    let three = tree_of(alloc, before, z)?;
                    Ok(Tree::Join(Box::new(
                        alloc,
                        Joint {
                            step,
                            shared,
                            one,
                            two,
                            three,
                        },
                    )?))
                }
            }
        }
    }
}

/// Where the step of that name stands. Where the steps' names don't rise, as they may, it is found by a
/// scan.
fn place_of_step(taken: &[Taken], name: Name) -> usize
    requires { (t : Merging) × Contains taken.now t × (t.step ≡ name) }
    ensures inside { result < length taken.now }
    ensures named { (t : Merging) × (slice_get taken.now result ≡ Some t) × (t.step ≡ name) }
{
    match taken.binary_search_by_key(&name, |merging| merging.step) {
        Ok(place) => place,
        Err(_) => scanned(taken, name),
    }
}

/// Where the step of that name stands, by a scan.
fn scanned(taken: &[Taken], name: Name) -> usize
    requires { (t : Merging) × Contains taken.now t × (t.step ≡ name) }
    ensures inside { result < length taken.now }
    ensures named { (t : Merging) × (slice_get taken.now result ≡ Some t) × (t.step ≡ name) }
{
    for place in 0..taken.len() {
        if taken[place].step == name {
            return place;
        }
    }
    unreachable!()
}
