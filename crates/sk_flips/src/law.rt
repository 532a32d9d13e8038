// What holds of turned plans.
ghost use Rattle.std.specs.Prelude.{List as Items};
ghost use Rattle.sk_base.specs.declared.Name.{Name};
ghost use Rattle.sk_base.specs.declared.Sketch.{Sketch};
ghost use Rattle.sk_graph.specs.SketchGraph.{graph_of};
ghost use Rattle.sk_tree.specs.declared.Plan.{Plan};
ghost use Rattle.sk_tree.specs.LegalPlan.{IsLegalPlan};
ghost use Rattle.sk_flips.specs.Flipping.{flipped};

/// A plan is as legal with some of its choices turned over.
pub fn turned_plan_is_legal()
    ensures { (s : Sketch) (p : Plan) (names : Items Name) → IsLegalPlan (graph_of s) p → IsLegalPlan (graph_of s) (flipped names p) }
{}
