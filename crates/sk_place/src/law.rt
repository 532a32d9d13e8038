// What placing means.
ghost use Rattle.std.specs.Prelude.{◌≡◌, ℕ, List, [], Ok, Err};
ghost use Rattle.sk_base.specs.declared.Graph.{Graph};
ghost use Rattle.sk_tree.specs.declared.Plan.{Plan};
ghost use Rattle.sk_tree.specs.declared.Tree.{Tree};
ghost use Rattle.sk_tree.specs.LegalPlan.{IsLegalPlan};
ghost use Rattle.sk_tree.specs.PlanTree.{IsPlanTree};
ghost use Rattle.sk_place.specs.declared.boxes.BoxAt.{BoxAt};
ghost use Rattle.sk_place.specs.declared.settling.PlaceBy.{PlaceBy};
ghost use Rattle.sk_place.specs.declared.fault.StepFault.{StepFault};
ghost use Rattle.sk_place.specs.declared.fault.PlaceError.TheVariants.{Fault};
ghost use Rattle.sk_place.specs.Placing.{IsPlaced};

use sk_interval::Grid;

/// A legal plan that has a tree, if it has a constraint, is placed in one way at most on a grid, by
/// boxes and by points: in some boxes, or with some fault.
pub fn one_placing<G: Grid>()
    ensures boxes { (placing : PlaceBy) (F : ℕ) (g : Graph) (p : Plan) → IsLegalPlan g p → (¬ (p.leaves ≡ []) → (t : Tree) × IsPlanTree p t) → (bs cs : List (BoxAt G)) → IsPlaced placing F g p (Ok bs) → IsPlaced placing F g p (Ok cs) → bs ≡ cs }
    ensures faults { (placing : PlaceBy) (F : ℕ) (g : Graph) (p : Plan) → IsLegalPlan g p → (¬ (p.leaves ≡ []) → (t : Tree) × IsPlanTree p t) → (f e : StepFault) → IsPlaced {G = G} placing F g p (Err (Fault f)) → IsPlaced {G = G} placing F g p (Err (Fault e)) → f ≡ e }
    ensures not_both { (placing : PlaceBy) (F : ℕ) (g : Graph) (p : Plan) → IsLegalPlan g p → (¬ (p.leaves ≡ []) → (t : Tree) × IsPlanTree p t) → (bs : List (BoxAt G)) (f : StepFault) → IsPlaced placing F g p (Ok bs) → IsPlaced {G = G} placing F g p (Err (Fault f)) → ⊥ }
{}
