// The tree of a plan, with the elements that each of its trees names.
ghost use Rattle.std.specs.Prelude.{◌≡◌, IfOk, filter, map};
ghost use Rattle.sk_base.specs.declared.Graph.{Graph};
ghost use Rattle.sk_base.specs.SoundGraph.{IsSoundGraph};
ghost use Rattle.sk_family.specs.Body.{Body, starts};
ghost use Rattle.sk_family.specs.Clusters.{start_of};
ghost use Rattle.sk_plan.specs.MadeBy.{IsMadeBy};
ghost use Rattle.sk_excess.specs.LeftOut.{HasConstraint};
ghost use Rattle.sk_why.specs.BranchOf.{elements_of, is_new, joined, IsGrownBy};
ghost use Rattle.sk_why.specs.StartOf.{StartsWith};

use crate::owners::elements_at;
use sk_base::{ConId, Elem, List, NoMemory};
use sk_family::Cluster;
use sk_rules::Shared;
use sk_tree::Tree;
use std::alloc::Global;

/// A tree with its elements.
#[cycle(branch)]
#[derive(Drop)]
pub(crate) enum Branch {
    Leaf(Twig),
    Join(Box<Fork>),
}

/// A constraint with its elements.
#[derive(Drop)]
pub(crate) struct Twig {
    pub number: ConId,
    pub elements: List<Elem>,
}

/// A join of three trees, with the elements of all three.
#[cycle(branch)]
#[derive(Drop)]
pub(crate) struct Fork {
    pub elements: List<Elem>,
    pub shared: Shared,
    pub one: Branch,
    pub two: Branch,
    pub three: Branch,
}

impl Branch {
    /// The elements that its constraints name.
    pub(crate) fn elements(&self) -> &[Elem]
        ensures { result.now ≡ elements_of self.now }
    {
        match self {
            Branch::Leaf(twig) => twig.elements.as_slice(),
            Branch::Join(fork) => fork.elements.as_slice(),
        }
    }
}

/// The same tree with its elements. The clusters are what the graph's constraints start with.
pub(crate) fn branch_of(
    alloc: Global,
    clusters: &[Cluster],
    tree: &Tree,
) -> Result<Branch, NoMemory>
    requires made { (g : Graph) × (x : Body) × (clusters.now ≡ map start_of (starts g)) × IsMadeBy g tree.now x }
    ensures { IfOk result (λ branch. (g : Graph) (x : Body) → IsSoundGraph g → clusters.now ≡ map start_of (starts g) → IsMadeBy g tree.now x → IsGrownBy g branch x) }
{
    match tree {
        Tree::Leaf(number) => Ok(Branch::Leaf(twig_of(alloc, clusters, *number)?)),
        Tree::Join(joint) => {
            let one = branch_of(alloc, clusters, &joint.one)?;
            let two = branch_of(alloc, clusters, &joint.two)?;
            let three = branch_of(alloc, clusters, &joint.three)?;
            let both = joined(alloc, one.elements(), two.elements())?;
            let elements = joined(alloc, both.as_slice(), three.elements())?;
            let shared = joint.shared;
            Ok(Branch::Join(Box::new(
                alloc,
                Fork {
                    elements,
                    shared,
                    one,
                    two,
                    three,
                },
            )?))
        }
    }
}

/// The constraint with its elements.
fn twig_of(alloc: Global, clusters: &[Cluster], number: ConId) -> Result<Twig, NoMemory>
    requires there { (g : Graph) × (clusters.now ≡ map start_of (starts g)) × HasConstraint g number }
    ensures number { IfOk result (λ twig. twig.number ≡ number) }
    ensures elements { IfOk result (λ twig. (g : Graph) → clusters.now ≡ map start_of (starts g) → StartsWith g number twig.elements) }
{
    let mut elements = List::new(alloc);
    elements.extend(elements_at(clusters, number))?;
    Ok(Twig { number, elements })
}

/// Some elements, and behind them the others of further ones.
fn joined(alloc: Global, one: &[Elem], other: &[Elem]) -> Result<List<Elem>, NoMemory>
    ensures { IfOk result (λ both. both ≡ joined one.now other.now) }
{
    let new = new_of(alloc, one, other)?;
    let mut both = List::new(alloc);
    both.extend(one)?;
    both.extend(new.as_slice())?;
    Ok(both)
}

/// Those of the further elements that are none of these.
fn new_of(alloc: Global, these: &[Elem], further: &[Elem]) -> Result<List<Elem>, NoMemory>
    ensures { IfOk result (λ new. new ≡ filter (is_new these.now) further.now) }
{
    let mut new = List::new(alloc);
    for elem in further {
        if is_new(these, *elem) {
            new.push(*elem)?;
        }
    }
    Ok(new)
}

/// Whether the element is none of these.
fn is_new(elements: &[Elem], elem: Elem) -> bool
    ensures { result ≡ is_new elements.now elem }
{
    !elem.is_among(elements)
}
