// What is measured.
ghost use Rattle.std.specs.Prelude.{◌≡◌, []};
ghost use Rattle.sk_base.specs.declared.Graph.{Graph};
ghost use Rattle.sk_base.specs.SoundGraph.{IsSoundGraph};
ghost use Rattle.sk_tolerance.specs.Tolerances.{AreMerged, rigid, between, distances, constraints, lengthwise};

/// Each constraint and each block of a sound graph is measured, in order of number, and nothing else;
/// without blocks just the constraints between two elements.
pub fn constraints_in_order()
    ensures all { (g : Graph) → IsSoundGraph g → AreMerged (rigid g.blocks) (between g.edges) (constraints g) }
    ensures lengths { (g : Graph) → IsSoundGraph g → AreMerged (rigid g.blocks) (distances g.edges) (lengthwise g) }
    ensures without_blocks { (g : Graph) → g.blocks ≡ [] → (lengthwise g ≡ distances g.edges) × (constraints g ≡ between g.edges) }
{}
