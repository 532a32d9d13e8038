// What holds of the graph of every sound sketch.
ghost use Rattle.std.specs.Prelude.{◌≡◌, ◌↔◌, IfSome, IsNone, IsSome};
ghost use Rattle.sk_base.specs.declared.Constraint.{Constraint};
ghost use Rattle.sk_base.specs.declared.Sketch.{Sketch};
ghost use Rattle.sk_base.specs.Pins.{elements_of};
ghost use Rattle.sk_base.specs.SoundGraph.{IsSoundGraph};
ghost use Rattle.sk_base.specs.SoundSketch.{IsSoundSketch};
ghost use Rattle.sk_graph.specs.SketchGraph.{edge_of, block_of, graph_of};
ghost use Rattle.sk_graph.specs.Naming.{named_by, IsBetween};

/// The graph of a sound sketch is sound. Each constraint gives an edge or a block, with its own number,
/// between or at the elements that it names.
pub fn sound_graph()
    ensures sound { (s : Sketch) → IsSoundSketch s → IsSoundGraph (graph_of s) }
    ensures either { (s : Sketch) (c : Constraint) → IsNone (edge_of s c) ↔ IsSome (block_of c) }
    ensures numbers { (s : Sketch) (c : Constraint) → IfSome (edge_of s c) (λ e. e.id ≡ c.number) }
    ensures block_numbers { (c : Constraint) → IfSome (block_of c) (λ b. b.id ≡ c.number) }
    ensures ends { (s : Sketch) (c : Constraint) → IfSome (edge_of s c) (λ e. IsBetween (named_by c.rule) e) }
    ensures pins { (c : Constraint) → IfSome (block_of c) (λ b. elements_of b.pins ≡ named_by c.rule) }
{}
