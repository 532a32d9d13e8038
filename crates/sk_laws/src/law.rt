// Laws on what words ask for and what is answered.
ghost use Rattle.std.specs.Prelude.{◌≡◌, ◌↔◌, ◌⊎◌, ◌+◌, ◌<◌, ◌≤◌, length, [], ◌∷◌, ◌++◌, ℕ, List, All, Contains, IsTrue, None, codes, drop, true, false, unsigned_abs};
ghost use Rattle.sk_base.specs.declared.ConId.{ConId};
ghost use Rattle.sk_base.specs.declared.Placed.{Placed};
ghost use Rattle.sk_base.specs.declared.Sketch.{Sketch};
ghost use Rattle.sk_base.specs.SoundSketch.{IsSoundSketch};
ghost use Rattle.sk_place.specs.declared.StepFault.{StepFault};
ghost use Rattle.sk_solve.specs.declared.Alternative.TheVariants.{Found};
ghost use Rattle.sk_solve.specs.Alternatives.{IsAlternative};
ghost use Rattle.sk_graph.specs.SketchGraph.{graph_of};
ghost use Rattle.sk_tree.specs.declared.Plan.{Plan};
ghost use Rattle.sk_verdict.specs.declared.Judgement.{Judgement};
ghost use Rattle.sk_verdict.specs.declared.Part.{Part};
ghost use Rattle.sk_plan.specs.Judged.{IsTheJudgement, IsWell};
ghost use Rattle.sk_parts.specs.OwnSketch.{part_sketch};
ghost use Rattle.sk_excess.specs.LeftOut.{AreLeftOut};
ghost use Rattle.sk_excess.specs.KeptSketch.{kept_sketch};
ghost use Rattle.sk_rules.specs.Excess.{held, weight_of};
ghost use Rattle.sk_session.specs.State.{State, sketch_in};
ghost use Rattle.sk_session.specs.declared.Reply.{Reply};
ghost use Rattle.sk_report.specs.PlanReport.{plan_report};
ghost use Rattle.sk_report.specs.SolveReport.{places_report, solve_report, tolerance_lines};
ghost use Rattle.sk_measure.specs.Placing.{PlacesExactly};
ghost use Rattle.sk_tree.specs.DrawnChoice.{HasDrawnChoice};
ghost use Rattle.sk_tolerance.specs.Tolerances.{AllHoldWithin};
ghost use Rattle.sk_tree.specs.LegalPlan.{IsLegalPlan};
ghost use Rattle.sk_verify.specs.AsClaimed.{plan_claimed};
ghost use Rattle.sk_tolerance.specs.declared.Tolerance.{Tolerance};
ghost use Rattle.sk_solve.specs.Placements.{IsTolerance};
ghost use Rattle.sk_tolerance.specs.declared.OffBy.{OffBy};
ghost use Rattle.sk_tolerance.specs.declared.Turned.{Turned};
ghost use Rattle.sk_tolerance.specs.Turns.{signs, constraint_signs, IsTurned, AllAsDrawn};
ghost use Rattle.sk_request.specs.declared.Request.{Request};
ghost use Rattle.sk_answers.specs.declared.Status.{Status};
ghost use Rattle.sk_request.specs.Asking.{Asks, AreOfForm};
ghost use Rattle.sk_request.specs.declared.Command.{Command};
ghost use Rattle.sk_request.specs.declared.Account.TheVariants.{Excesses};
ghost use Rattle.sk_laws.specs.Headline.{Tells, TellsAsAsked, RepliesNext, RepliesNextLive, HoldsAt};
ghost use Rattle.sk_laws.specs.NewNumbers.{TellsAlike, TellsOffsRenumbered};
ghost use Rattle.sk_laws.specs.PrintedClaim.{printed_text, printed_places, printed_claim};
ghost use Rattle.sk_lang.specs.Front.{ReadsFront};
ghost use Rattle.sk_lang.specs.Renumbered.{renumbered};
ghost use Rattle.sk_claims.specs.ClaimReading.{ReadsClaim};
ghost use Rattle.sk_verify.specs.Texts.{verified_line};
ghost use Rattle.sk_laws.specs.Causes.{plans, solves, IsSketchOf, IsRefusedInput, IsItsPlan, HasFault, LieAt, NonePasses, SomePasses, SomeTurned};
ghost use Rattle.sk_cli.specs.declared.Report.{Report};
ghost use Rattle.sk_cli.specs.declared.Report.TheVariants.{Places};
ghost use Rattle.sk_cli.specs.FlipsReport.{IsReportOnFlips};
ghost use Rattle.sk_laws.specs.Gaps.{IsAsFine, NamesGap, NamesGapThere};
ghost use Rattle.sk_cli.specs.PartsReport.{IsShape, IsPartsReport};
ghost use Rattle.sk_laws.specs.Shapes.{IsSolvedAs, IsOneShape};
ghost use Rattle.sk_cli.specs.ExcessReport.{IsExcess, IsMeasuredLeft};
ghost use Rattle.sk_laws.specs.Repeats.{IsByKept, FitWhereRepeated};
ghost use Rattle.sk_request.specs.Grids.{grid_of, digits_of};
ghost use Rattle.sk_cli.specs.Outcome.{IsSolved, IsOutcome, AreFirstReplies, AreLiveReplies};
ghost use Rattle.sk_cli.specs.LiveAnswer.{IsLiveAnswer};
ghost use Rattle.sk_laws.specs.Words.{AskToComplete, for_session};
ghost use Rattle.sk_cli.specs.SessionAnswer.{IsSessionAnswer};
ghost use Rattle.sk_laws.specs.Migration.{AskOfOneSketch, IsMigrated};
ghost use Rattle.sk_lang.specs.Reading.{Reads};
ghost use Rattle.sk_lang.specs.declared.Front.{Front};
ghost use Rattle.sk_claims.specs.declared.claim.Claim.{Claim};
ghost use Rattle.sk_verify.specs.declared.failure.Failure.{Failure};
ghost use Rattle.sk_verify.specs.Failing.{AllTold, IsFirstUntold, IsAccepted, FailsFirst};
ghost use Rattle.sk_answers.specs.VerifyAnswer.{HasClaim};
ghost use Rattle.sk_base.specs.declared.Elem.{Elem};
ghost use Rattle.sk_lang.specs.Canonical.{canonical};
ghost use Rattle.sk_complete.specs.declared.Completion.{Completion};
ghost use Rattle.sk_complete.specs.declared.Reason.{Reason};
ghost use Rattle.sk_complete.specs.Completions.{Completes};
ghost use Rattle.sk_complete.specs.CompletionText.{no_completion};
ghost use Rattle.sk_report.specs.CheckReport.{check_report};
ghost use Rattle.sk_answers.specs.MeasureReport.{measured_line};
ghost use Rattle.sk_cli.specs.CompleteAnswer.{IsCompletionGiven};
ghost use Rattle.sk_answers.specs.MeasureAnswer.{HasPlaces, TellsOffs, all_numbers};
ghost use Rattle.sk_answers.specs.OffsThere.{IsOffThere, AreOffsPut};

use sk_close_by_angles::one_derived_text;
use sk_complete::completed_reads;
use sk_entry::{entries_keep_soundness, one_entry, what_a_line_says};
use sk_gen::datum_sketch_is_sound;
use sk_lang::{one_answer, one_front, readable_is_sound, written_reads_back};
use sk_lines::quantities_are_sound;
use sk_plan::legal_plan;
use sk_rules::one_normal_form;
use sk_session::{one_reply, some_to_solve};
use sk_spare::one_list_of_spares;
use sk_verdict::one_judgement;
use sk_verify::accepted;

/// Words and an input have one outcome at most, but where they ask for `complete`: which of the completions that there may be is
/// given, no clause says; what holds of each, `completions_are_right` says.
pub fn one_outcome()
    ensures { (words : List (List ℕ)) → (AskToComplete words → ⊥) → (bytes : List ℕ) (status other : Status) (text another : List ℕ)
        → IsOutcome words bytes status text → IsOutcome words bytes other another
        → (status ≡ other) × (text ≡ another) }
{
    one_answer();
    one_judgement();
    readable_is_sound();
    one_front();
    one_reply();
    one_list_of_spares();
    one_derived_text();
    datum_sketch_is_sound();
}

/// What a session, or `live`, has answered where it stops, as where a write fails or memory runs out, is a front of
/// the text of its outcome.
pub fn first_replies_are_a_front()
    ensures session { (words : List (List ℕ)) (bytes text whole : List ℕ) (status : Status)
        → AreFirstReplies words bytes text → IsOutcome words bytes status whole → (behind : List ℕ) × (whole ≡ text ++ behind) }
    ensures live { (words : List (List ℕ)) (bytes text whole : List ℕ) (status : Status)
        → AreLiveReplies words bytes text → IsOutcome words bytes status whole → (behind : List ℕ) × (whole ≡ text ++ behind) }
{
    one_answer();
    one_judgement();
    readable_is_sound();
    one_front();
    one_reply();
    one_list_of_spares();
    one_derived_text();
    datum_sketch_is_sound();
}

/// What `live` answers to an input that a session may have is what `session` answers with the same keys, so words that ask for the
/// one and words that ask for the other have one outcome.
pub fn live_answers_as_session()
    ensures outcome { (words other : List (List ℕ)) (request : Request) (bytes text : List ℕ) (status : Status) → Asks words request → request.command ≡ Command.Live
        → Asks other (for_session request) → length bytes ≤ 1048576 → IsOutcome words bytes status text ↔ IsOutcome other bytes status text }
    ensures answer { (request : Request) (bytes text : List ℕ) (status : Status) → length bytes ≤ 1048576
        → IsLiveAnswer request bytes status text ↔ IsSessionAnswer request bytes status text }
{}

/// Words and an input have an outcome, so that with memory there is one.
pub fn some_outcome()
    ensures { (words : List (List ℕ)) (bytes : List ℕ) → (status : Status) × ((text : List ℕ) × IsOutcome words bytes status text) }
{
    one_answer();
    one_front();
    readable_is_sound();
    one_entry();
    what_a_line_says();
    entries_keep_soundness();
    quantities_are_sound();
    some_to_solve();
    datum_sketch_is_sound();
}

/// Where `migrate` is done, what it writes reads as the very sketch that was read, so that the commands
/// whose whole input is one sketch (`check`, `plan`, `solve`, `dxf`, `migrate`, `spare`, `derive`, `parts`, `excess`,
/// `complete` and `why`) answer both texts alike, whatever their keys.
pub fn migrated_reads_the_same()
    ensures reads { (bytes text : List ℕ) → IsMigrated bytes text → (s : Sketch) × Reads bytes s × Reads text s }
    ensures same { (bytes migrated : List ℕ) → IsMigrated bytes migrated → (words : List (List ℕ)) → AskOfOneSketch words
        → (status : Status) (text : List ℕ) → IsOutcome words bytes status text ↔ IsOutcome words migrated status text }
{
    one_answer();
    readable_is_sound();
    written_reads_back();
}

/// Why each status comes. It is `Usage` exactly where the words aren't of the form, and `Refused` exactly
/// where the input is. What follows is said of all commands but `complete` and `measure`, whose other causes
/// `completions_are_right` and `why_measure_ends` say. It is `NotWell` exactly where the command plans a sketch whose verdict isn't well,
/// so never where it is `check`, `offers`, `session`, `live`, `migrate`, `verify`, `spare`, `derive`, `parts`,
/// `excess` or `why`, which don't plan the whole sketch. Where the command is `solve`, `dxf` or `grow`, and nowhere else, it is
/// `StepFault` exactly where a step has a fault; or none has, and a box can't be carried into the drawn frame
/// that was asked for; or neither is so, no least number is above the limit and a sign is turned. There it is
/// `Tolerance` exactly where no step has a fault, each box is carried where it is to be, and some least
/// number is above the limit. Of a sketch that is solved it is `Done` exactly where none of these is so; for
/// `plan` and `flips`, which plan and don't solve, exactly where the input is read, of `flips` with the flips
/// behind the sketch, and the sketch's verdict is well; for `verify` exactly where the claim is accepted; and
/// for any other command that doesn't plan, exactly where the input isn't refused. It is `NotVerified`
/// exactly where the command is `verify` and something of the claim fails.
pub fn causes()
    ensures usage { (words : List (List ℕ)) (bytes text : List ℕ) (status : Status) → IsOutcome words bytes status text
        → (status ≡ Status.Usage) ↔ (AreOfForm words → ⊥) }
    ensures refused { (words : List (List ℕ)) (bytes text : List ℕ) (status : Status) (request : Request) → IsOutcome words bytes status text → Asks words request
        → (status ≡ Status.Refused) ↔ IsRefusedInput request.command request bytes }
    ensures not_well { (words : List (List ℕ)) (bytes text : List ℕ) (status : Status) (request : Request) → IsOutcome words bytes status text → Asks words request
        → (request.command ≡ Command.Complete → ⊥) → (status ≡ Status.NotWell) ↔ (IsTrue (plans request.command) × ((s : Sketch) × IsSketchOf request.command request bytes s × (IsWell (graph_of s) → ⊥))) }
    ensures step_fault { (words : List (List ℕ)) (bytes text : List ℕ) (status : Status) (request : Request) → IsOutcome words bytes status text → Asks words request
        → (request.command ≡ Command.Measure → ⊥) → (status ≡ Status.StepFault) ↔ (IsTrue (solves request.command) × ((s : Sketch) × IsSketchOf request.command request bytes s × ((p : Plan) × IsItsPlan request s p
        × (HasFault request s p ⊎ ((at : Placed) × LieAt request s p at × NonePasses request s at × SomeTurned request s p at))))) }
    ensures tolerance { (words : List (List ℕ)) (bytes text : List ℕ) (status : Status) (request : Request) → IsOutcome words bytes status text → Asks words request
        → (request.command ≡ Command.Measure → ⊥) → (status ≡ Status.Tolerance) ↔ (IsTrue (solves request.command) × ((s : Sketch) × IsSketchOf request.command request bytes s × ((p : Plan) × IsItsPlan request s p
        × ((at : Placed) × LieAt request s p at × SomePasses request s at)))) }
    ensures done { (words : List (List ℕ)) (bytes text : List ℕ) (status : Status) (request : Request) (s : Sketch) → IsOutcome words bytes status text → Asks words request
        → IsTrue (solves request.command) → IsSketchOf request.command request bytes s
        → (status ≡ Status.Done) ↔ ((p : Plan) × IsItsPlan request s p × ((at : Placed) × LieAt request s p at × NonePasses request s at × AllAsDrawn (signs s at p))) }
    ensures done_unless_refused { (words : List (List ℕ)) (bytes text : List ℕ) (status : Status) (request : Request) → IsOutcome words bytes status text → Asks words request
        → (IsTrue (plans request.command) → ⊥) → (request.command ≡ Command.Verify → ⊥) → (request.command ≡ Command.Complete → ⊥) → (request.command ≡ Command.Measure → ⊥)
        → (status ≡ Status.Done) ↔ (IsRefusedInput request.command request bytes → ⊥) }
    ensures done_where_well { (words : List (List ℕ)) (bytes text : List ℕ) (status : Status) (request : Request) → IsOutcome words bytes status text → Asks words request
        → IsTrue (plans request.command) → (IsTrue (solves request.command) → ⊥) → (status ≡ Status.Done) ↔ ((s : Sketch) × IsSketchOf request.command request bytes s × IsWell (graph_of s)) }
    ensures done_where_accepted { (words : List (List ℕ)) (bytes text : List ℕ) (status : Status) (request : Request) → IsOutcome words bytes status text → Asks words request
        → request.command ≡ Command.Verify → (status ≡ Status.Done) ↔ ((f : Front) × (c : Claim) × HasClaim bytes f c × IsAccepted f.sketch (graph_of f.sketch) c) }
    ensures not_verified { (words : List (List ℕ)) (bytes text : List ℕ) (status : Status) (request : Request) → IsOutcome words bytes status text → Asks words request
        → (request.command ≡ Command.Measure → ⊥) → (status ≡ Status.NotVerified) ↔ ((request.command ≡ Command.Verify)
        × ((f : Front) × (c : Claim) × (h : Failure) × HasClaim bytes f c × FailsFirst f.sketch (graph_of f.sketch) c h)) }
{
    one_answer();
    one_judgement();
    readable_is_sound();
    one_front();
    one_reply();
    one_list_of_spares();
    one_derived_text();
    datum_sketch_is_sound();
}

/// Why `measure` ends as it does, where its input isn't refused. It is done exactly where each element has a place, a circle with its
/// own radius, no least number is above the limit, and neither an angle nor a block is turned. It is `NotVerified` exactly where an
/// element has no such place, `Tolerance` exactly where each has and some least number is above the limit, and `StepFault` exactly
/// where each has, none is above it, and an angle or a block is turned.
pub fn why_measure_ends()
    ensures done { (words : List (List ℕ)) (bytes text : List ℕ) (status : Status) (request : Request) → IsOutcome words bytes status text → Asks words request → request.command ≡ Command.Measure
        → (status ≡ Status.Done) ↔ ((f : Front) × (c : Claim) × HasPlaces bytes f c × AllTold c f.sketch.elements × (NonePasses request f.sketch c.at × AllAsDrawn (constraint_signs f.sketch c.at f.sketch.constraints))) }
    ensures not_verified { (words : List (List ℕ)) (bytes text : List ℕ) (status : Status) (request : Request) → IsOutcome words bytes status text → Asks words request → request.command ≡ Command.Measure
        → (status ≡ Status.NotVerified) ↔ ((f : Front) × (c : Claim) × HasPlaces bytes f c × ((e : Elem) × IsFirstUntold c f.sketch.elements e)) }
    ensures tolerance { (words : List (List ℕ)) (bytes text : List ℕ) (status : Status) (request : Request) → IsOutcome words bytes status text → Asks words request → request.command ≡ Command.Measure
        → (status ≡ Status.Tolerance) ↔ ((f : Front) × (c : Claim) × HasPlaces bytes f c × AllTold c f.sketch.elements × SomePasses request f.sketch c.at) }
    ensures step_fault { (words : List (List ℕ)) (bytes text : List ℕ) (status : Status) (request : Request) → IsOutcome words bytes status text → Asks words request → request.command ≡ Command.Measure
        → (status ≡ Status.StepFault) ↔ ((f : Front) × (c : Claim) × HasPlaces bytes f c × AllTold c f.sketch.elements × (NonePasses request f.sketch c.at
        × ((sign : Turned) × Contains (constraint_signs f.sketch c.at f.sketch.constraints) sign × IsTurned sign))) }
{
    readable_is_sound();
    one_front();
    one_reply();
    one_list_of_spares();
    one_derived_text();
    datum_sketch_is_sound();
}

/// Where each element has a place, `measure` tells by how much the places are off each constraint, in order, and the least
/// tolerances with which all holds there, whatever its status (`offs`). Of one constraint where the elements lie so there is
/// one such answer (`same`). Where the elements lie as in a claim that `verify` accepts, no constraint is off by more than
/// the claim's tolerance, and no sign is turned over (`accepted`); and the least tolerances there are no greater than the
/// claim's (`tolerances`). Where `excess` measures what is left out of an own sketch, whatever its numbers, `measure` of a
/// text that reads as this sketch numbered anew, with the element lines of these places and an `end` behind them, tells by
/// how much the places are off each constraint of the own sketch, by its new number (`left`). So each constraint that is
/// left out has a line in both texts, and both tell that the places are off it by the same (`agrees`). With the element
/// lines of `solve`, an `end` behind them and the same limit it is done, and tells the tolerances that `solve` told
/// (`solved`).
pub fn given_places_are_measured()
    ensures offs { (words : List (List ℕ)) (bytes text : List ℕ) (status : Status) (request : Request) (f : Front) (c : Claim) → IsOutcome words bytes status text → Asks words request
        → request.command ≡ Command.Measure → HasPlaces bytes f c → AllTold c f.sketch.elements → (offs line : List ℕ) × TellsOffs f.sketch c.at offs × (text ≡ offs ++ line) }
    ensures same { (at : Placed) (s : Sketch) (k : ConId) (one other : OffBy) → IsOffThere at s k one → IsOffThere at s k other → one ≡ other }
    ensures accepted { (s : Sketch) (c : Claim) (k : ConId) (off : OffBy) → IsSoundSketch s → IsAccepted s (graph_of s) c → IsOffThere c.at s k off
        → (off.length ≡ true → unsigned_abs off.off ≤ c.t) × (off.length ≡ false → unsigned_abs off.off ≤ c.w) × (off.turned ≡ None) }
    ensures tolerances { (s : Sketch) (c : Claim) (t : Tolerance) → IsSoundSketch s → IsAccepted s (graph_of s) c → IsTolerance c.at (graph_of s) t → (t.t ≤ c.t) × (t.w ≤ c.w) }
    ensures left { (asked : List (List ℕ)) (input text told : List ℕ) (status : Status) (request measures : Request) (own : Sketch) (left : List ConId) (m : IsMeasuredLeft request own left told) (f : Front)
        → IsSoundSketch own → IsOutcome asked input status text → Asks asked measures → measures.command ≡ Command.Measure → ReadsFront input f → f.sketch ≡ renumbered own → drop f.used input ≡ printed_places own m.at
        → (offs line : List ℕ) × TellsOffsRenumbered own m.at offs × (text ≡ offs ++ line) }
    ensures agrees { (asked : List (List ℕ)) (input text told : List ℕ) (status : Status) (request measures : Request) (own : Sketch) (left : List ConId) (m : IsMeasuredLeft request own left told) (f : Front)
        → IsSoundSketch own → IsOutcome asked input status text → Asks asked measures → measures.command ≡ Command.Measure → ReadsFront input f → f.sketch ≡ renumbered own → drop f.used input ≡ printed_places own m.at
        → (k : ConId) → Contains left k → TellsAlike request.within own m.at told text k }
    ensures solved { (words asked : List (List ℕ)) (bytes input : List ℕ) (request measures : Request) (s : Sketch) (p : Plan) (at : Placed) (t : Tolerance) (f : Front)
        → Asks words request → Reads bytes s → HoldsAt request s p at t → Asks asked measures → measures.command ≡ Command.Measure → measures.within ≡ request.within
        → ReadsFront input f → f.sketch ≡ s → drop f.used input ≡ printed_places s at
        → (lines : List ℕ) × AreOffsPut (measured_line s) s at (all_numbers s) lines × IsOutcome asked input Status.Done (lines ++ tolerance_lines s t) }
{
    readable_is_sound();
    one_front();
    one_reply();
    one_list_of_spares();
    one_derived_text();
    datum_sketch_is_sound();
}

/// Where `complete` is done, it writes a text that reads as a sketch with the elements of the one that was read, and behind its
/// constraints drawn values alone; its verdict is well, and it says besides just as much as is due (`done`). Where it isn't, and its
/// input isn't refused, the sketch isn't well, and the reason is told (`none`). It is never another status (`ends`). A sketch that is
/// well is completed (`well`).
pub fn completions_are_right()
    ensures done { (words : List (List ℕ)) (bytes text : List ℕ) (request : Request) (s : Sketch) → IsOutcome words bytes Status.Done text → Asks words request → request.command ≡ Command.Complete
        → Reads bytes s → (t : Sketch) × Completes s t × (text ≡ canonical t) × Reads text t }
    ensures none { (words : List (List ℕ)) (bytes text : List ℕ) (request : Request) (s : Sketch) → IsOutcome words bytes Status.NotWell text → Asks words request → request.command ≡ Command.Complete
        → Reads bytes s → (why : Reason) × (j : Judgement) × IsTheJudgement (graph_of s) j × IsCompletionGiven s (Completion.Without why) × (text ≡ no_completion why ++ check_report s j) }
    ensures ends { (words : List (List ℕ)) (bytes text : List ℕ) (status : Status) (request : Request) → IsOutcome words bytes status text → Asks words request → request.command ≡ Command.Complete
        → (status ≡ Status.Refused → ⊥) → (status ≡ Status.Done) ⊎ (status ≡ Status.NotWell) }
    ensures well { (words : List (List ℕ)) (bytes text : List ℕ) (status : Status) (request : Request) (s : Sketch) → IsOutcome words bytes status text → Asks words request → request.command ≡ Command.Complete
        → Reads bytes s → IsWell (graph_of s) → status ≡ Status.Done }
{
    one_answer();
    readable_is_sound();
    completed_reads();
}

/// Where `solve` is done with a sketch, the plan of the run by the order, with nothing turned, finds the very
/// places and the tolerance that were told, so that `flips` with the same keys tells these where a line of
/// flips names no step. By `one_plan` the order gives one plan at most, and by `one_alternative`
/// of `sk_solve` such a plan has one alternative at most for a list of steps; so every line of flips that
/// names no step tells these, wherever it stands.
pub fn solved_places_are_found()
    ensures { (request : Request) (s : Sketch) (text : List ℕ) → IsSoundSketch s → IsSolved Places request s Status.Done text
        → (p : Plan) × (at : Placed) × (tol : Tolerance) × (text ≡ solve_report s p (digits_of request.bits) at tol) × IsItsPlan request s p
        × IsAlternative (grid_of request.bits) request.layout (digits_of request.bits) request.within s p [] (Found at tol)
        × IsReportOnFlips request s ([] ∷ []) (codes "flip 1 ok\n" ++ places_report s at tol) }
{}

/// Below the line of a part that isn't over, `parts` writes what `solve` with the same keys writes of the part's
/// own sketch: the lines behind the verdict where it is done, and else its one line (`shape`). Where the verdict on
/// a sketch is well, there is one part, and its own sketch is the sketch itself (`well`).
///
/// Below the line of a part that is over, `excess` tells by what `solve` with the same keys writes of the part's own
/// sketch without the constraints that are left out: how far off each of these is at its places where it is done, and
/// else a line for each of these and its one line, or that the part stays over where the verdict isn't well (`kept`).
/// Where each of these lines is on a repeat, the places of that `solve` meet each constraint of the whole own sketch
/// within the limit, and neither an angle nor a block of it is turned (`fit`). No constraint is left out of two parts
/// (`once`); which ones are hangs on the sketch alone, by `one_list_left_out` of `sk_excess`. What a part holds is what
/// the constraints that stay hold, and what those that are left out weigh (`weighs`).
pub fn shapes_are_as_solved()
    ensures shape { (request : Request) (s : Sketch) (shape : List ℕ) → IsShape request s shape → IsSolvedAs request s shape }
    ensures well { (request : Request) (s : Sketch) (text : List ℕ) → IsSoundSketch s → 0 < length s.elements → IsWell (graph_of s)
        → IsPartsReport request s text → IsOneShape request s text }
    ensures kept { (request : Request) (own : Sketch) (text : List ℕ) → IsSoundSketch own → IsExcess request own text
        → (left : List ConId) × AreLeftOut (graph_of own) left × IsByKept request own left text }
    ensures fit { (words : List (List ℕ)) (bytes text : List ℕ) (status : Status) (request : Request) (s : Sketch) → IsOutcome words bytes status text → Asks words request
        → request.command ≡ Command.Tell Excesses → Reads bytes s → FitWhereRepeated request s text }
    ensures once { (s : Sketch) (j : Judgement) (p q : Part) (of_p of_q : List ConId) (k : ConId) → IsSoundSketch s → IsTheJudgement (graph_of s) j → Contains j.parts p → Contains j.parts q
        → AreLeftOut (graph_of (part_sketch s p.elements)) of_p → AreLeftOut (graph_of (part_sketch s q.elements)) of_q → Contains of_p k → Contains of_q k → p ≡ q }
    ensures weighs { (s : Sketch) (j : Judgement) (p : Part) (left : List ConId) → IsSoundSketch s → IsTheJudgement (graph_of s) j → Contains j.parts p
        → p.held ≡ held (graph_of (kept_sketch left (part_sketch s p.elements))) p.elements + weight_of (graph_of (part_sketch s p.elements)) left }
{
    one_answer();
    readable_is_sound();
}

/// The headline. Whatever sketch is readable and whatever order is asked for: the clusters that are
/// printed are the only ones that merging reaches and no rule can merge, and just those are called over
/// that hold more than 2n - 3 constraints, never an element that no constraint names; a plan is printed
/// exactly where just one part remains and it isn't over, and the plan uses each constraint once; printed
/// places are those of all elements and no others, and meet each constraint within the printed tolerance,
/// which is the least, with all signs as drawn; else the first faulty step is named, the first box that
/// can't be carried into the drawn frame, the first line or constraint that is beyond the limit, or the first
/// turned sign. A block of k points counts as 2k - 3 of the constraints that a cluster holds,
/// and as one of those that a plan uses; it is drawn as its places are given. Of the own sketch of each part
/// that isn't over, `parts` tells what `solve` tells of a sketch. Of the own sketch of each part that is over,
/// `excess` tells this of the constraints that stay in a minimal choice, and where they hold, how far off each of
/// the others is at their places.
///
/// It is told of the sketch that a command is about (`sketch`), and of the sketch in a session now, by the
/// replies to `check`, `plan` and `solve`, each of which stands in what is written behind the replies to
/// the lines before it (`session`, and `live`).
pub fn headline()
    ensures sketch { (words : List (List ℕ)) (bytes text : List ℕ) (status : Status) (request : Request) (s : Sketch) → IsOutcome words bytes status text → Asks words request
        → IsSketchOf request.command request bytes s → Tells request.command request s status text }
    ensures session { (words : List (List ℕ)) (bytes before text whole : List ℕ) (status : Status) (request : Request) (new : State) (r : Reply) → IsOutcome words bytes status whole → Asks words request
        → request.command ≡ Command.Session → RepliesNext request bytes before new r text
        → TellsAsAsked request (sketch_in new) r text × ((behind : List ℕ) × (whole ≡ before ++ (text ++ behind))) }
    ensures live { (words : List (List ℕ)) (bytes before text whole : List ℕ) (status : Status) (request : Request) (new : State) (r : Reply) → IsOutcome words bytes status whole → Asks words request
        → request.command ≡ Command.Live → RepliesNextLive request bytes before new r text
        → TellsAsAsked request (sketch_in new) r text × ((behind : List ℕ) × (whole ≡ before ++ (text ++ behind))) }
{
    one_answer();
    one_judgement();
    one_normal_form();
    readable_is_sound();
    one_front();
    what_a_line_says();
    one_reply();
    one_list_of_spares();
    one_derived_text();
    datum_sketch_is_sound();
    legal_plan();
}

/// Where places are boxes, a gap stays one: of a sketch of which a gap is named, whatever is solved with it in the same
/// order on a grid of as many binary digits or more ends with `StepFault` and names a gap there too, at the same step,
/// in the same phase, at the same quantity and element, whatever the frame and the limit (`solved`). So do the commands
/// that solve the sketch that they are about (`outcome`).
pub fn gaps_stay()
    ensures solved { (report : Report) (coarse fine : Request) (s : Sketch) (f : StepFault) (named text : List ℕ) (status : Status) → IsSoundSketch s → IsAsFine coarse fine → NamesGap coarse s f named
        → IsSolved report fine s status text → (status ≡ Status.StepFault) × NamesGapThere fine s f text }
    ensures outcome { (words : List (List ℕ)) (bytes named text : List ℕ) (status : Status) (coarse fine : Request) (s : Sketch) (f : StepFault) → IsOutcome words bytes status text → Asks words fine
        → IsTrue (solves fine.command) → IsSketchOf fine.command fine bytes s → IsAsFine coarse fine → NamesGap coarse s f named → (status ≡ Status.StepFault) × NamesGapThere fine s f text }
{
    one_answer();
    readable_is_sound();
    one_front();
    one_reply();
    one_list_of_spares();
    one_derived_text();
    datum_sketch_is_sound();
}

/// What `plan` and `solve` print of a sketch in the same order, the step lines and the element lines, with
/// the printed tolerances on a line behind them, is a claim (`reads`) that is accepted (`accepted`), so that
/// `verify` is done with it behind a text of the sketch (`verified`). Where `solve` is done, `plan` in the
/// same order is, and they print of one plan, one placement and its tolerances, of which all holds that the
/// other three ask of these (`printed`).
pub fn printed_claims_are_accepted()
    ensures printed { (planning solving : List (List ℕ)) (bytes planned solved : List ℕ) (status : Status) (planned_by solved_by : Request)
        → Asks planning planned_by → planned_by.command ≡ Command.Plan → Asks solving solved_by → solved_by.command ≡ Command.Solve → planned_by.order ≡ solved_by.order
        → IsOutcome planning bytes status planned → IsOutcome solving bytes Status.Done solved
        → (s : Sketch) × (p : Plan) × (at : Placed) × (t : Tolerance) × Reads bytes s × (status ≡ Status.Done)
        × (planned ≡ plan_report s p) × (solved ≡ solve_report s p (digits_of solved_by.bits) at t) × HoldsAt solved_by s p at t
        × ReadsClaim s (printed_text s p at t) (printed_claim s p at t) × IsAccepted s (graph_of s) (printed_claim s p at t) }
    ensures reads { (words : List (List ℕ)) (bytes : List ℕ) (request : Request) (s : Sketch) (p : Plan) (at : Placed) (t : Tolerance) → Asks words request → Reads bytes s
        → HoldsAt request s p at t → ReadsClaim s (printed_text s p at t) (printed_claim s p at t) }
    ensures accepted { (words : List (List ℕ)) (bytes : List ℕ) (request : Request) (s : Sketch) (p : Plan) (at : Placed) (t : Tolerance) → Asks words request → Reads bytes s
        → HoldsAt request s p at t → IsAccepted s (graph_of s) (printed_claim s p at t) }
    ensures verified { (words asked : List (List ℕ)) (bytes input : List ℕ) (request checks : Request) (s : Sketch) (p : Plan) (at : Placed) (t : Tolerance) (f : Front)
        → Asks words request → Reads bytes s → HoldsAt request s p at t → Asks asked checks → checks.command ≡ Command.Verify
        → ReadsFront input f → f.sketch ≡ s → drop f.used input ≡ printed_text s p at t
        → IsOutcome asked input Status.Done (verified_line (printed_claim s p at t)) }
{
    one_answer();
    one_judgement();
    readable_is_sound();
    one_front();
    one_reply();
    one_list_of_spares();
    one_derived_text();
    datum_sketch_is_sound();
    legal_plan();
}

/// Where `verify` is done, the verdict on the sketch is well, the steps of the claim are those of a legal
/// plan with the choices of the drawing, just the elements are placed, each line's normal, each constraint
/// and each block holds within the claimed tolerances, and no sign is turned over.
pub fn verified_drawings_are_right()
    ensures { (words : List (List ℕ)) (bytes text : List ℕ) (request : Request) → IsOutcome words bytes Status.Done text → Asks words request → request.command ≡ Command.Verify
        → (f : Front) × (c : Claim) × HasClaim bytes f c × (text ≡ verified_line c) × IsWell (graph_of f.sketch)
        × IsLegalPlan (graph_of f.sketch) (plan_claimed (graph_of f.sketch) c) × All (HasDrawnChoice f.sketch) c.steps × PlacesExactly (graph_of f.sketch) c.at
        × AllHoldWithin c.at (graph_of f.sketch) c.t c.w × AllAsDrawn (signs f.sketch c.at (plan_claimed (graph_of f.sketch) c)) }
{
    readable_is_sound();
    accepted();
    legal_plan();
}
