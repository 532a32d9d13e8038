// The laws on what is left out, each the contract of a function with nothing to do.
ghost use Rattle.std.specs.Prelude.{◌≡◌, ◌+◌, List, [], ◌∷◌, map, Contains};
ghost use Rattle.sk_base.specs.declared.ConId.{ConId};
ghost use Rattle.sk_base.specs.declared.Graph.{Graph};
ghost use Rattle.sk_base.specs.declared.Sketch.{Sketch};
ghost use Rattle.sk_base.specs.SoundGraph.{IsSoundGraph};
ghost use Rattle.sk_base.specs.SoundSketch.{IsSoundSketch};
ghost use Rattle.sk_graph.specs.SketchGraph.{graph_of};
ghost use Rattle.sk_plan.specs.Judged.{IsTheJudgement, IsWell};
ghost use Rattle.sk_rules.specs.Excess.{held, weight_of};
ghost use Rattle.sk_verdict.specs.declared.Judgement.{Judgement};
ghost use Rattle.sk_verdict.specs.Judging.{IsOver};
ghost use Rattle.sk_verdict.specs.Parts.{elem_of, part_with};
ghost use Rattle.sk_spare.specs.Sparing.{IsSpare};
ghost use Rattle.sk_verdict.specs.OneCluster.{IsOneCluster};
ghost use Rattle.sk_excess.specs.LeftOut.{kept_graph, AreLeftOut, HasConstraint};
ghost use Rattle.sk_excess.specs.KeptSketch.{kept_sketch};

/// What is kept makes one cluster with all nodes, and none of it is spare, so no fewer of it would do. What is left
/// out are constraints of the graph, and weighs just what it holds more than what is kept. Where that isn't over, its
/// verdict is well.
pub fn minimal_choice()
    ensures one { (g : Graph) (left : List ConId) → IsSoundGraph g → IsOneCluster g → AreLeftOut g left → IsOneCluster (kept_graph left g) }
    ensures minimal { (g : Graph) (left : List ConId) (k : ConId) → IsSoundGraph g → IsOneCluster g → AreLeftOut g left → ¬ IsSpare (kept_graph left g) k }
    ensures constraints { (g : Graph) (left : List ConId) (k : ConId) → IsSoundGraph g → AreLeftOut g left → Contains left k → HasConstraint g k }
    ensures weighs { (g : Graph) (left : List ConId) → IsSoundGraph g
        → held g (map elem_of g.nodes) ≡ held (kept_graph left g) (map elem_of g.nodes) + weight_of g left }
    ensures well { (g : Graph) (left : List ConId) → IsSoundGraph g → IsOneCluster g → AreLeftOut g left
        → ¬ IsOver (part_with (kept_graph left g) (map elem_of g.nodes)) → IsWell (kept_graph left g) }
{}

/// Of a graph with one cluster just one list is left out: neither the order of merges nor a key changes it. If the
/// constraints were looked at in another order, it might be another.
pub fn one_list_left_out()
    ensures some { (g : Graph) → IsSoundGraph g → IsOneCluster g → (left : List ConId) × AreLeftOut g left }
    ensures one { (g : Graph) (one other : List ConId) → IsSoundGraph g → AreLeftOut g one → AreLeftOut g other → one ≡ other }
{}

/// A graph with one cluster has one part, with all nodes.
pub fn one_cluster()
    ensures { (g : Graph) (j : Judgement) → IsSoundGraph g → IsOneCluster g → IsTheJudgement g j → j.parts ≡ part_with g (map elem_of g.nodes) ∷ [] }
{}

/// Without the constraints that are left out a sound sketch is sound, and its graph is that of the whole sketch without
/// them.
pub fn kept_sketches()
    ensures sound { (s : Sketch) (left : List ConId) → IsSoundSketch s → IsSoundSketch (kept_sketch left s) }
    ensures graph { (s : Sketch) (left : List ConId) → graph_of (kept_sketch left s) ≡ kept_graph left (graph_of s) }
{}
