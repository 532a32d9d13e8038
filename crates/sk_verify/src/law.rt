// Laws: what an accepted claim says, that each claim has one answer, and what makes a claim accepted.
ghost use Rattle.std.specs.Prelude.{◌≡◌, ◌⊎◌, All};
ghost use Rattle.sk_base.specs.declared.Graph.{Graph};
ghost use Rattle.sk_base.specs.declared.Sketch.{Sketch};
ghost use Rattle.sk_base.specs.SoundGraph.{IsSoundGraph, HasRisingBlocks, HasBlocksApart};
ghost use Rattle.sk_tree.specs.DrawnChoice.{HasDrawnChoice};
ghost use Rattle.sk_graph.specs.SketchGraph.{graph_of};
ghost use Rattle.sk_measure.specs.Placing.{PlacesExactly};
ghost use Rattle.sk_tolerance.specs.Tolerances.{AllHoldWithin};
ghost use Rattle.sk_tolerance.specs.Turns.{signs, AllAsDrawn};
ghost use Rattle.sk_tree.specs.LegalPlan.{IsLegalPlan};
ghost use Rattle.sk_claims.specs.declared.Claim.{Claim};
ghost use Rattle.sk_verify.specs.declared.failure.Failure.{Failure};
ghost use Rattle.sk_claims.specs.Claims.{IsFitting};
ghost use Rattle.sk_verify.specs.AsClaimed.{plan_claimed};
ghost use Rattle.sk_verify.specs.Failing.{IsAccepted, FailsFirst, AllTold};

/// The steps of an accepted claim are those of a legal plan, with the choices of the drawing. Just the
/// elements are placed. Each line's normal, each constraint and each block holds within the claimed
/// tolerances, and no sign is turned over.
pub fn accepted()
    ensures legal { (s : Sketch) (g : Graph) (c : Claim) → IsAccepted s g c → IsLegalPlan g (plan_claimed g c) }
    ensures drawn { (s : Sketch) (g : Graph) (c : Claim) → IsAccepted s g c → All (HasDrawnChoice s) c.steps }
    ensures placed { (s : Sketch) (g : Graph) (c : Claim) → g ≡ graph_of s → IsSoundGraph g → IsFitting g c → IsAccepted s g c → PlacesExactly g c.at }
    ensures holds { (s : Sketch) (g : Graph) (c : Claim) → HasRisingBlocks g → HasBlocksApart g → IsAccepted s g c → AllHoldWithin c.at g c.t c.w }
    ensures signs { (s : Sketch) (g : Graph) (c : Claim) → IsAccepted s g c → AllAsDrawn (signs s c.at (plan_claimed g c)) }
{}

/// A claim is accepted or something of it fails first, not both, and only one failure is the first.
pub fn one_answer()
    ensures some { (s : Sketch) (g : Graph) (c : Claim) → g ≡ graph_of s → IsSoundGraph g → IsFitting g c → IsAccepted s g c ⊎ ((f : Failure) × FailsFirst s g c f) }
    ensures not_both { (s : Sketch) (g : Graph) (c : Claim) (f : Failure) → IsAccepted s g c → FailsFirst s g c f → ⊥ }
    ensures one_failure { (s : Sketch) (g : Graph) (c : Claim) (f h : Failure) → FailsFirst s g c f → FailsFirst s g c h → f ≡ h }
{}

/// A claim is accepted where its steps are those of a legal plan with the choices of the drawing, each
/// element is told, and all holds within its tolerances with no sign turned over.
pub fn accepted_so()
    ensures { (s : Sketch) (g : Graph) (c : Claim) → IsLegalPlan g (plan_claimed g c) → All (HasDrawnChoice s) c.steps → AllTold c s.elements
        → AllHoldWithin c.at g c.t c.w → AllAsDrawn (signs s c.at (plan_claimed g c)) → IsAccepted s g c }
{}
