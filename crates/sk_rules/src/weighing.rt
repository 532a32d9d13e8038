// What constraints weigh.
ghost use Rattle.std.specs.Prelude.{◌≡◌, ◌≤◌, Contains};
ghost use Rattle.sk_base.specs.Pins.{AreSoundPins};
ghost use Rattle.sk_base.specs.SoundGraph.{IsSoundGraph};
ghost use Rattle.sk_family.specs.Body.{Start, starts};
ghost use Rattle.sk_family.specs.Starting.{start_with};
ghost use Rattle.sk_rules.specs.Excess.{weight, weight_of, block_weight, AreConstraints};

use sk_base::{Block, ConId, Graph};

/// What the constraints of these numbers weigh together: 1 each between two elements, 2k - 3 as a block of
/// k pins.
pub fn weight_of(graph: &Graph, numbers: &[ConId]) -> u32
    requires sound { IsSoundGraph graph.now }
    requires constraints { AreConstraints graph.now numbers.now }
    ensures weight { result ≡ weight_of graph.now numbers.now }
    ensures bounded { result ≤ 116000 }
{
    let mut weight = 0;
    for number in numbers {
        weight += weight_with(graph, *number);
    }
    weight
}

/// What the constraint of that number weighs.
fn weight_with(graph: &Graph, number: ConId) -> u32
    requires sound { IsSoundGraph graph.now }
    requires there { (s : Start) × Contains (starts graph.now) s × (s.number ≡ number) }
    ensures weight { result ≡ weight (start_with graph.now number) }
    ensures bounded { result ≤ 29 }
{
    match graph.block(number) {
        Some(block) => block_weight(block),
        None => 1,
    }
}

fn block_weight(block: &Block) -> u32
    requires { AreSoundPins block.now.pins }
    ensures weight { result ≡ block_weight block.now }
    ensures bounded { result ≤ 29 }
{
    2 * block.pins.len() as u32 - 3
}
