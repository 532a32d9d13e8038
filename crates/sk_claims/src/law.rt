// Laws: that what is printed and what is written of a claim reads back.
ghost use Rattle.std.specs.Prelude.{◌≡◌, ◌≤◌, ◌^◌, ℕ, ℤ, Some, Contains, length};
ghost use Rattle.std.specs.Fmt.{decimal};
ghost use Rattle.sk_base.specs.Bounds.{IsWithin};
ghost use Rattle.sk_base.specs.Spelling.{whole_text};
ghost use Rattle.sk_base.specs.declared.ConId.{ConId};
ghost use Rattle.sk_base.specs.declared.Name.{Name};
ghost use Rattle.sk_base.specs.declared.Name.TheVariants.{Con};
ghost use Rattle.sk_lines.specs.ClusterWords.{cluster_named};
ghost use Rattle.sk_text.specs.ClusterName.{cluster_name};
ghost use Rattle.sk_claims.specs.ClaimLines.{whole_of, count_of, tolerance_limit};
ghost use Rattle.sk_claims.specs.Printed.{HasPlainNumber};
ghost use Rattle.sk_base.specs.declared.Placed.{Placed};
ghost use Rattle.sk_base.specs.declared.Sketch.{Sketch};
ghost use Rattle.sk_graph.specs.SketchGraph.{graph_of};
ghost use Rattle.sk_tree.specs.declared.Plan.{Plan};
ghost use Rattle.sk_tree.specs.LegalPlan.{IsLegalPlan, numbers_of};
ghost use Rattle.sk_claims.specs.declared.claim.Claim.{Claim};
ghost use Rattle.sk_claims.specs.Claims.{IsFitting};
ghost use Rattle.sk_base.specs.SoundSketch.{IsSoundSketch};
ghost use Rattle.sk_tree.specs.declared.PlanStep.{PlanStep};
ghost use Rattle.sk_claims.specs.ClaimReading.{ReadsClaim};
ghost use Rattle.sk_claims.specs.ClaimText.{CanBeSaid, claim_text, places_text, places_drawn, radii_drawn};
ghost use Rattle.sk_claims.specs.PlaceReading.{ReadsPlaces};

/// What is printed of a number within its limit, of a tolerance and of the name of a cluster reads as that
/// in a claim.
pub fn printed_words_read_back()
    ensures numbers { (most : ℕ) (z : ℤ) → most ≤ 2 ^ 62 → IsWithin most z → whole_of most (whole_text z) ≡ Some z }
    ensures tolerances { (n : ℕ) → n ≤ 2 ^ 62 → count_of tolerance_limit (decimal n) ≡ Some n }
    ensures clusters { (n : Name) → HasPlainNumber n → cluster_named (cluster_name n) ≡ Some n }
{}

/// The text of a claim reads as that claim, where its steps can be said, its places fit the graph and its
/// radii are those that are drawn.
pub fn written_claims_read_back()
    ensures { (s : Sketch) (c : Claim) → IsSoundSketch s → IsFitting (graph_of s) c → ((x : PlanStep) → Contains c.steps x → CanBeSaid s x)
        → c.radii ≡ radii_drawn s c.at.spots → ReadsClaim s (claim_text s c) c }
{}

/// The text of places, with the radii that are drawn, reads as those places, where they fit the graph.
pub fn written_places_read_back()
    ensures { (s : Sketch) (p : Placed) → IsSoundSketch s → IsFitting (graph_of s) (places_drawn s p) → ReadsPlaces s (places_text s p) (places_drawn s p) }
{}

/// The steps of a legal plan can be said in a claim, where its constraints and its steps have numbers of at
/// most six digits.
pub fn legal_steps_can_be_said()
    ensures { (s : Sketch) (p : Plan) → IsLegalPlan (graph_of s) p → length p.steps ≤ 999999
        → ((k : ConId) → Contains (numbers_of (graph_of s)) k → HasPlainNumber (Con k.0)) → (x : PlanStep) → Contains p.steps x → CanBeSaid s x }
{}
