// What holds some elements together, read off the tree of a plan: where one of a join's trees names all of the elements, it
// has them together; else all three have what is theirs, with the elements in which they meet.
ghost use Rattle.std.specs.Prelude.{◌≡◌, ◌++◌, IfOk, OnOk, filter};
ghost use Rattle.sk_why.specs.Needed.{are_all_among, names_all, third_of, share_of, is_further, needed};

use crate::branches::Branch;
use sk_base::{ConId, Elem, List, NoMemory};
use sk_rules::Shared;
use std::alloc::Global;

/// Puts the constraints of the tree that hold the elements together at the end.
pub(crate) fn add_needed(
    alloc: Global,
    found: &mut List<ConId>,
    tree: &Branch,
    elements: &[Elem],
) -> Result<(), NoMemory>
    ensures { OnOk result (found.new ≡ found.old ++ needed tree.now elements.now) }
{
    match tree {
        Branch::Leaf(twig) => found.push(twig.number),
        Branch::Join(fork) => {
            if names_all(&fork.one, elements) {
                return add_needed(alloc, found, &fork.one, elements);
            }
            if names_all(&fork.two, elements) {
                return add_needed(alloc, found, &fork.two, elements);
            }
            if names_all(&fork.three, elements) {
                return add_needed(alloc, found, &fork.three, elements);
            }
            let Shared { a, b, .. } = fork.shared;
            let third = third_of(&fork.shared);
            let of_one = share_of(alloc, &fork.one, a, third, elements)?;
            add_needed(alloc, found, &fork.one, of_one.as_slice())?;
            let of_two = share_of(alloc, &fork.two, a, b, elements)?;
            add_needed(alloc, found, &fork.two, of_two.as_slice())?;
            let of_three = share_of(alloc, &fork.three, b, third, elements)?;
            add_needed(alloc, found, &fork.three, of_three.as_slice())
        }
    }
}

/// The third element in which a join's trees meet.
fn third_of(shared: &Shared) -> Elem
    ensures { result ≡ third_of shared.now.a shared.now.c }
{
    match shared.c {
        Some(third) => third,
        None => shared.a,
    }
}

/// What a tree has to hold together: its two shared elements, and those of the elements that it names.
fn share_of(
    alloc: Global,
    tree: &Branch,
    first: Elem,
    second: Elem,
    elements: &[Elem],
) -> Result<List<Elem>, NoMemory>
    ensures { IfOk result (λ share. share ≡ share_of tree.now first second elements.now) }
{
    let further = further_of(alloc, tree.elements(), first, second, elements)?;
    let mut share = List::new(alloc);
    share.push(first)?;
    share.push(second)?;
    share.extend(further.as_slice())?;
    Ok(share)
}

/// Those of the elements that are among these, but for two.
fn further_of(
    alloc: Global,
    named: &[Elem],
    first: Elem,
    second: Elem,
    elements: &[Elem],
) -> Result<List<Elem>, NoMemory>
    ensures { IfOk result (λ further. further ≡ filter (is_further named.now first second) elements.now) }
{
    let mut further = List::new(alloc);
    for elem in elements {
        if is_further(named, first, second, *elem) {
            further.push(*elem)?;
        }
    }
    Ok(further)
}

/// Whether the element is among these, and none of two.
fn is_further(named: &[Elem], first: Elem, second: Elem, elem: Elem) -> bool
    ensures { result ≡ is_further named.now first second elem }
{
    elem.is_among(named) && !elem.is_among(&[first, second])
}

/// Whether the tree's constraints name all of the elements.
fn names_all(tree: &Branch, elements: &[Elem]) -> bool
    ensures { result ≡ names_all tree.now elements.now }
{
    are_all_among(tree.elements(), elements)
}

/// Whether all of the elements are among these.
fn are_all_among(named: &[Elem], elements: &[Elem]) -> bool
    ensures { result ≡ are_all_among named.now elements.now }
{
    elements.iter().all(|elem| elem.is_among(named))
}
