// What holds of placed plans, and of alternatives.
ghost use Rattle.std.specs.Prelude.{◌≡◌, ◌≢◌, ◌≤◌, ◌+◌, ℕ, ℤ, [], All, Contains, List as Items, Ok, Some};
ghost use Rattle.sk_base.specs.declared.At.{At};
ghost use Rattle.sk_base.specs.declared.Elem.{Elem};
ghost use Rattle.sk_interval.specs.declared.Cause.TheVariants.{Gap, Range};
ghost use Rattle.sk_interval.specs.Operations.{of_micrometres};
ghost use Rattle.sk_steps.specs.declared.BoxOf.{BoxOf};
ghost use Rattle.sk_steps.specs.declared.BoxOf.TheVariants.{Point};
ghost use Rattle.sk_steps.specs.declared.Motion.{Motion};
ghost use Rattle.sk_steps.specs.Carried.{carried};
ghost use Rattle.sk_place.specs.declared.BoxAt.{BoxAt};
ghost use Rattle.sk_place.specs.declared.BoxFault.{BoxFault};
ghost use Rattle.sk_place.specs.declared.PlaceBy.{PlaceBy};
ghost use Rattle.sk_place.specs.declared.StepFault.{StepFault};
ghost use Rattle.sk_place.specs.Nesting.{AreInside, with_gap};
ghost use Rattle.sk_place.specs.Rounding.{rounded_box};
ghost use Rattle.sk_place.specs.Settling.{settled_box};
ghost use Rattle.sk_frame.specs.declared.Frame.{Frame};
ghost use Rattle.sk_place.specs.declared.FrameBy.{FrameBy};
ghost use Rattle.sk_frame.specs.Frames.{IsSoundFrame};
ghost use Rattle.sk_frame.specs.FrameMotions.{frame_motion};
ghost use Rattle.sk_base.specs.declared.Name.{Name};
ghost use Rattle.sk_base.specs.declared.Placed.{Placed};
ghost use Rattle.sk_base.specs.declared.Sketch.{Sketch};
ghost use Rattle.sk_base.specs.SoundSketch.{IsSoundSketch};
ghost use Rattle.sk_tree.specs.DrawnChoice.{HasDrawnChoice};
ghost use Rattle.sk_graph.specs.SketchGraph.{graph_of};
ghost use Rattle.sk_place.specs.declared.Layout.{Layout};
ghost use Rattle.sk_tolerance.specs.declared.Tolerance.{Tolerance};
ghost use Rattle.sk_tolerance.specs.declared.Wanted.{Wanted};
ghost use Rattle.sk_tolerance.specs.declared.Wanted.TheVariants.{Drawn, Chosen};
ghost use Rattle.sk_tolerance.specs.Tolerances.{AllHoldWithin};
ghost use Rattle.sk_tolerance.specs.Turns.{signs, signs_wanted};
ghost use Rattle.sk_tree.specs.declared.Plan.{Plan};
ghost use Rattle.sk_tree.specs.declared.PlanStep.{PlanStep};
ghost use Rattle.sk_tree.specs.declared.Tree.{Tree};
ghost use Rattle.sk_tree.specs.LegalPlan.{IsLegalPlan};
ghost use Rattle.sk_tree.specs.PlanTree.{IsPlanTree};
ghost use Rattle.sk_solve.specs.declared.alternative.Alternative.{Alternative};
ghost use Rattle.sk_solve.specs.declared.alternative.Alternative.TheVariants.{Found};
ghost use Rattle.sk_solve.specs.declared.placing.Placement.{Placement};
ghost use Rattle.sk_solve.specs.Anchors.{anchor_of, LiesAsDrawn};
ghost use Rattle.sk_solve.specs.Alternatives.{alternative_of, placed_signs, IsAlternative};
ghost use Rattle.sk_flips.specs.Flipping.{flipped};
ghost use Rattle.sk_solve.specs.Placements.{midpoints, IsLaid, IsTolerance, IsPlacement};

use sk_interval::Grid;

/// Of a plan with the choices of the drawing, the signs as it chooses them are those that are drawn.
pub fn untouched_plan_is_drawn()
    ensures { (s : Sketch) (at : Placed) (p : Plan) → IsSoundSketch s → IsLegalPlan (graph_of s) p → All (λ step. HasDrawnChoice s step) p.steps → signs_wanted Chosen s at p ≡ signs s at p }
{}

/// Where elements are found, each line, each constraint and each block holds within the tolerance that is
/// told with them, and the tolerance is the least.
pub fn found_is_met<G: Grid>()
    ensures met { (placing : Layout) (F limit : ℕ) (s : Sketch) (p : Plan) (names : Items Name) (at : Placed) (tol : Tolerance) → IsSoundSketch s → IsAlternative G placing F limit s p names (Found at tol) → AllHoldWithin at (graph_of s) tol.t tol.w }
    ensures least { (placing : Layout) (F limit : ℕ) (s : Sketch) (p : Plan) (names : Items Name) (at : Placed) (tol : Tolerance) → IsAlternative G placing F limit s p names (Found at tol) → IsTolerance at (graph_of s) tol }
{}

/// Where elements are found for two lists, each step that stands in one of them alone has another placed
/// sign there than here.
pub fn alternatives_differ<G: Grid>()
    ensures { (placing : Layout) (F limit : ℕ) (s : Sketch) (p : Plan) (names others : Items Name) (at there : Placed) (tol beside : Tolerance) → IsSoundSketch s → IsLegalPlan (graph_of s) p
        → IsAlternative G placing F limit s p names (Found at tol) → IsAlternative G placing F limit s p others (Found there beside)
        → (n : Name) → Contains names n → ¬ Contains others n
        → (step : PlanStep) × Contains p.steps step × (step.step ≡ n) × (placed_signs s at step ≢ placed_signs s there step) }
{}

/// For the empty list a plan with the choices of the drawing gives just what comes of placing it as drawn.
pub fn untouched_plan_is_placed<G: Grid>()
    ensures { (placing : Layout) (F limit : ℕ) (s : Sketch) (p : Plan) (placement : Placement) → IsSoundSketch s → IsLegalPlan (graph_of s) p → All (λ step. HasDrawnChoice s step) p.steps
        → IsPlacement Drawn G placing F limit s p placement → IsAlternative G placing F limit s p [] (alternative_of placement) }
{}

/// Of a legal plan that has a tree, if it has a constraint, at most one alternative comes of each list
/// of steps.
pub fn one_alternative<G: Grid>()
    ensures { (placing : Layout) (F limit : ℕ) (s : Sketch) (p : Plan) (names : Items Name) (a b : Alternative) → IsLegalPlan (graph_of s) p → (¬ (p.leaves ≡ []) → (t : Tree) × IsPlanTree p t)
        → IsAlternative G placing F limit s p names a → IsAlternative G placing F limit s p names b → a ≡ b }
{}

/// The place of a frame that is taken to the drawing is printed exactly where it is drawn, on a grid of 21
/// binary digits or more.
pub fn place_is_printed<G: Grid>()
    ensures { (by : PlaceBy) (F : ℕ) → 21 ≤ F → (f : Frame) → IsSoundFrame f → (m : Motion G) → frame_motion F f ≡ Ok m → (b : BoxOf G) → settled_box by F (carried F m (Point (of_micrometres F f.from.x) (of_micrometres F f.from.y))) ≡ Ok b → rounded_box F b ≡ At.Point f.to.x f.to.y }
{}

/// The anchor of a plan is printed exactly where it is drawn, where places are told in the frame of the
/// drawing, on a grid of 21 binary digits or more.
pub fn anchor_is_printed<G: Grid>()
    ensures { (by : PlaceBy) (F : ℕ) (s : Sketch) (p : Plan) (there : Items (BoxAt G)) (e : Elem) → 21 ≤ F → IsSoundSketch s → IsLegalPlan (graph_of s) p → (¬ (p.leaves ≡ []) → (t : Tree) × IsPlanTree p t)
        → IsLaid (record { by = by; frame = FrameBy.Drawn }) F s p there → anchor_of (graph_of s) p ≡ Some e → LiesAsDrawn s (midpoints F there) e }
{}

/// Where places are boxes, a finer grid `H` has boxes inside those of a coarser one, `G`, in the frame of the
/// base and in that of the drawing, and no others.
pub fn finer_boxes_lie_inside<G: Grid, H: Grid>()
    ensures there { (frame : FrameBy) (F k : ℕ) (s : Sketch) (p : Plan) (coarse : Items (BoxAt G)) → 8 ≤ F → IsSoundSketch s → IsLegalPlan (graph_of s) p → (¬ (p.leaves ≡ []) → (t : Tree) × IsPlanTree p t)
        → IsLaid (record { by = PlaceBy.Boxes; frame = frame }) F s p coarse → (fine : Items (BoxAt H)) × IsLaid (record { by = PlaceBy.Boxes; frame = frame }) (F + k) s p fine × AreInside k fine coarse }
    ensures each { (frame : FrameBy) (F k : ℕ) (s : Sketch) (p : Plan) (coarse : Items (BoxAt G)) (fine : Items (BoxAt H)) → 8 ≤ F → IsSoundSketch s → IsLegalPlan (graph_of s) p → (¬ (p.leaves ≡ []) → (t : Tree) × IsPlanTree p t)
        → IsLaid (record { by = PlaceBy.Boxes; frame = frame }) F s p coarse → IsLaid (record { by = PlaceBy.Boxes; frame = frame }) (F + k) s p fine → AreInside k fine coarse }
{}

/// Where places are boxes, a gap stays one: where a plan is placed on a grid `G` and its first faulty step has a
/// gap, then on a finer grid `H` the same step has the first fault, in the same phase, at the same quantity and
/// element, and it is a gap too. No frame, no limit and no wanted signs change that.
pub fn gaps_stay<G: Grid, H: Grid>()
    ensures there { (frame other : FrameBy) (wanted looked_for : Wanted) (F k limit most : ℕ) (s : Sketch) (p : Plan) (f : StepFault) (lo hi : ℤ) → IsSoundSketch s → IsLegalPlan (graph_of s) p
        → (¬ (p.leaves ≡ []) → (t : Tree) × IsPlanTree p t) → f.cause ≡ Gap lo hi → IsPlacement wanted G (record { by = PlaceBy.Boxes; frame = frame }) F limit s p (Placement.Fault f)
        → (l : ℤ) × (h : ℤ) × IsPlacement looked_for H (record { by = PlaceBy.Boxes; frame = other }) (F + k) most s p (Placement.Fault (with_gap f l h)) }
    ensures alone { (frame other : FrameBy) (wanted looked_for : Wanted) (F k limit most : ℕ) (s : Sketch) (p : Plan) (f : StepFault) (lo hi : ℤ) (placement : Placement) → IsSoundSketch s
        → IsLegalPlan (graph_of s) p → (¬ (p.leaves ≡ []) → (t : Tree) × IsPlanTree p t) → f.cause ≡ Gap lo hi
        → IsPlacement wanted G (record { by = PlaceBy.Boxes; frame = frame }) F limit s p (Placement.Fault f)
        → IsPlacement looked_for H (record { by = PlaceBy.Boxes; frame = other }) (F + k) most s p placement → (l : ℤ) × (h : ℤ) × (placement ≡ Placement.Fault (with_gap f l h)) }
{}

/// Where places are boxes, a box can't be carried to the drawing only because a number gets too great.
pub fn uncarried_is_out_of_range<G: Grid>()
    ensures { (frame : FrameBy) (wanted : Wanted) (F limit : ℕ) (s : Sketch) (p : Plan) (f : BoxFault) → IsPlacement wanted G (record { by = PlaceBy.Boxes; frame = frame }) F limit s p (Placement.Uncarried f) → f.cause ≡ Range }
{}
