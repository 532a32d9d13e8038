// How clusters were made, as trees.
ghost use Rattle.std.specs.Prelude.{◌≡◌, ◌<◌, ◌^◌, ◌++◌, IfOk, OnOk};
ghost use Rattle.sk_tree.specs.Trees.{leaves_of, step_count, height_of};

use sk_base::{ConId, List, Name, NoMemory};
use sk_rules::Shared;
use std::alloc::Global;

/// How a cluster was made: a constraint's own, or joined from three.
#[cycle(tree)]
#[derive(Drop)]
pub enum Tree {
    Leaf(ConId),
    Join(Box<Joint>),
}

/// A triangle merge, with the trees of the three that it joined.
#[cycle(tree)]
#[derive(Drop)]
pub struct Joint {
    pub step: Name,
    pub shared: Shared,
    pub one: Tree,
    pub two: Tree,
    pub three: Tree,
}

/// The tree of a constraint's own cluster.
pub fn leaf_tree(constraint: ConId) -> Tree
    ensures { result ≡ Tree.Leaf constraint }
{
    Tree::Leaf(constraint)
}

/// The constraints from left to right.
pub fn leaves(alloc: Global, tree: &Tree) -> Result<List<ConId>, NoMemory>
    ensures { IfOk result (λ found. found ≡ leaves_of tree.now) }
{
    let mut found = List::new(alloc);
    add_leaves(&mut found, tree)?;
    Ok(found)
}

/// Puts the constraints at the end, from left to right.
fn add_leaves(found: &mut List<ConId>, tree: &Tree) -> Result<(), NoMemory>
    ensures { OnOk result (found.new ≡ found.old ++ leaves_of tree.now) }
{
    match tree {
        Tree::Leaf(constraint) => found.push(*constraint),
        Tree::Join(joint) => {
            add_leaves(found, &joint.one)?;
            add_leaves(found, &joint.two)?;
            add_leaves(found, &joint.three)
        }
    }
}

/// How many merges it joins.
pub fn steps(tree: &Tree) -> u32
    requires { step_count tree.now < 2 ^ 32 }
    ensures { result ≡ step_count tree.now }
{
    match tree {
        Tree::Leaf(_) => 0,
        Tree::Join(joint) => 1 + steps(&joint.one) + steps(&joint.two) + steps(&joint.three),
    }
}

/// How many merges lie one above another.
#[tactic(auto, using(crate::proofs::Heights::height_most))]
pub fn height(tree: &Tree) -> u32
    requires { step_count tree.now < 2 ^ 32 }
    ensures { result ≡ height_of tree.now }
{
    match tree {
        Tree::Leaf(_) => 0,
        Tree::Join(joint) => {
            1 + height(&joint.one)
                .max(height(&joint.two))
                .max(height(&joint.three))
        }
    }
}
