// The graph of a whole sketch.
ghost use Rattle.std.specs.Prelude.{◌≡◌, All, IfOk, map};
ghost use Rattle.std.specs.List.{filter_map};
ghost use Rattle.sk_base.specs.SoundSketch.{IsSoundSketch, IsSoundRule};
ghost use Rattle.sk_base.specs.SoundGraph.{IsSoundGraph};
ghost use Rattle.sk_graph.specs.SketchGraph.{node_of, edge_of, block_of, graph_of};

use crate::blocks::block;
use crate::edges::edge;
use sk_base::{Block, Constraint, Edge, Element, Graph, Kind, List, NoMemory, Node, Shape, Sketch};
use std::alloc::Global;

/// The graph of the sketch.
pub fn reduce(alloc: Global, s: &Sketch) -> Result<Graph, NoMemory>
    requires { IsSoundSketch s.now }
    ensures graph { IfOk result (λ g. g ≡ graph_of s.now) }
    ensures sound { IfOk result IsSoundGraph }
{
    let nodes = nodes(alloc, s.elements.as_slice())?;
    let edges = edges(alloc, s, s.constraints.as_slice())?;
    let blocks = blocks(alloc, s.constraints.as_slice())?;
    Ok(Graph {
        nodes,
        edges,
        blocks,
    })
}

/// A node for each element.
fn nodes(alloc: Global, elements: &[Element]) -> Result<List<Node>, NoMemory>
    ensures { IfOk result (λ nodes. nodes ≡ map node_of elements.now) }
{
    let mut nodes = List::new(alloc);
    for element in elements {
        nodes.push(node(element))?;
    }
    Ok(nodes)
}

fn node(element: &Element) -> Node
    ensures { result ≡ node_of element.now }
{
    let kind = match element.shape {
        Shape::Line { .. } => Kind::Line,
        Shape::Point { .. } | Shape::Circle { .. } => Kind::Point,
    };
    Node {
        elem: element.number,
        kind,
    }
}

/// An edge for each constraint that is no block.
fn edges(alloc: Global, s: &Sketch, constraints: &[Constraint]) -> Result<List<Edge>, NoMemory>
    requires sketch { IsSoundSketch s.now }
    requires rules { All (λ c. IsSoundRule s.now c.rule) constraints.now }
    ensures { IfOk result (λ edges. edges ≡ filter_map (edge_of s.now) constraints.now) }
{
    let mut edges = List::new(alloc);
    for constraint in constraints {
        if let Some(edge) = edge(s, constraint) {
            edges.push(edge)?;
        }
    }
    Ok(edges)
}

/// Each block with its pins.
fn blocks(alloc: Global, constraints: &[Constraint]) -> Result<List<Block>, NoMemory>
    ensures { IfOk result (λ blocks. blocks ≡ filter_map block_of constraints.now) }
{
    let mut blocks = List::new(alloc);
    for constraint in constraints {
        if let Some(block) = block(alloc, constraint)? {
            blocks.push(block)?;
        }
    }
    Ok(blocks)
}
