// The constraint graph of a sketch.
ghost use Rattle.std.specs.Prelude.{◌≡◌, option_copied};

use crate::list::List;
use crate::measure::{Kind, Measure};
use crate::numbered::{ConId, Elem};
use crate::sketch::Pin;

/// An element of the sketch.
#[derive(Clone, Copy, Debug, PartialEq, Eq)]
pub struct Node {
    pub elem: Elem,
    pub kind: Kind,
}

/// A constraint between two elements. Where one end is a line and the other isn't, `v` is the line.
#[derive(Clone, Copy, Debug, PartialEq, Eq)]
pub struct Edge {
    pub id: ConId,
    pub u: Elem,
    pub v: Elem,
    pub measure: Measure,
}

/// A rigid block: a constraint that gives the mutual places of some points.
#[derive(Drop)]
pub struct Block {
    pub id: ConId,
    pub pins: List<Pin>,
}

/// The elements, the constraints between two of them and the rigid blocks, each in order of number.
#[derive(Drop)]
pub struct Graph {
    pub nodes: List<Node>,
    pub edges: List<Edge>,
    pub blocks: List<Block>,
}

impl Graph {
    ghost use Rattle.sk_base.specs.Lookups.{edge_numbered, block_numbered};
    ghost use Rattle.sk_base.specs.SoundGraph.{HasRisingEdges, HasRisingBlocks};

    /// The constraint between two elements of that number, if there is one, by a search by halves.
    pub fn edge(&self, number: ConId) -> Option<&Edge>
        requires { HasRisingEdges self.now }
        ensures { option_copied result ≡ edge_numbered self.now number.0 }
    {
        let edges = self.edges.as_slice();
        match edges.binary_search_by_key(&number.0, |edge| edge.id.0) {
            Ok(i) => Some(&edges[i]),
            Err(_) => None,
        }
    }

    /// The block of that number, if there is one, by a search by halves.
    pub fn block(&self, number: ConId) -> Option<&Block>
        requires { HasRisingBlocks self.now }
        ensures { option_copied result ≡ block_numbered self.now number.0 }
    {
        let blocks = self.blocks.as_slice();
        match blocks.binary_search_by_key(&number.0, |block| block.id.0) {
            Ok(i) => Some(&blocks[i]),
            Err(_) => None,
        }
    }
}
