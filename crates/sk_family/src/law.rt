// The law on what constraints start as, the contract of a function with nothing to do.
ghost use Rattle.std.specs.Prelude.{◌≡◌, ◌↔◌, [], map, Contains};
ghost use Rattle.sk_base.specs.declared.Graph.{Graph};
ghost use Rattle.sk_base.specs.Rising.{IsRising};
ghost use Rattle.sk_base.specs.SoundGraph.{IsSoundGraph};
ghost use Rattle.sk_family.specs.Body.{Start, start_number, edge_start, starts};
ghost use Rattle.sk_family.specs.Starts.{IsStartOf};

/// In a sound graph the starts rise by number, and are exactly those of the edges and of the blocks.
/// Without blocks they are the edges' starts, in the edges' order.
pub fn every_start()
    ensures rise { (g : Graph) → IsSoundGraph g → IsRising start_number (starts g) }
    ensures exact { (g : Graph) → IsSoundGraph g → (s : Start) → Contains (starts g) s ↔ IsStartOf g s }
    ensures without_blocks { (g : Graph) → g.blocks ≡ [] → starts g ≡ map edge_start g.edges }
{}
