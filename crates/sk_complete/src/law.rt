// The laws on completions, each the contract of a function with nothing to do.
ghost use Rattle.std.specs.Prelude.{◌≡◌, ◌+◌, ◌<◌, ◌≤◌, ℕ, List, length};
ghost use Rattle.sk_base.specs.declared.Sketch.{Sketch};
ghost use Rattle.sk_base.specs.SoundSketch.{IsSoundSketch};
ghost use Rattle.sk_graph.specs.SketchGraph.{graph_of};
ghost use Rattle.sk_lang.specs.Canonical.{canonical};
ghost use Rattle.sk_lang.specs.Reading.{Reads};
ghost use Rattle.sk_plan.specs.Judged.{IsWell};
ghost use Rattle.sk_verdict.specs.declared.Verdict.TheVariants.{Over};
ghost use Rattle.sk_complete.specs.Weights.{weight_together, due_for};
ghost use Rattle.sk_complete.specs.Begun.{HasAmong, besides};
ghost use Rattle.sk_complete.specs.Rings.{HasRing};
ghost use Rattle.sk_complete.specs.Completions.{Completes, HasLinesAlone, HasVerdict};

/// A well sketch weighs just what is due. So each well sketch that has the elements of another, and its constraints among its
/// own, adds as much weight as is missing: no fewer dimensions would do.
pub fn exact_weight()
    ensures due { (s : Sketch) → IsSoundSketch s → 0 < length s.elements → IsWell (graph_of s) → weight_together s.constraints ≡ due_for s }
    ensures missing { (s t : Sketch) → HasAmong s t → IsSoundSketch t → 0 < length s.elements → IsWell (graph_of t)
        → weight_together s.constraints + weight_together (besides s t) ≡ due_for s }
{}

/// No well sketch has the elements of a sketch, and its constraints among its own, where these are more than two lines and
/// nothing else, where it is over, or where its parts tell an angle twice. And where its constraints weigh what is due or more,
/// such a sketch has no more, so there is one only where it is well itself.
pub fn none_completes()
    ensures lines { (s t : Sketch) → HasAmong s t → IsSoundSketch t → HasLinesAlone s → ¬ IsWell (graph_of t) }
    ensures over { (s t : Sketch) → HasAmong s t → IsSoundSketch s → IsSoundSketch t → 0 < length s.elements → HasVerdict (graph_of s) Over
        → ¬ IsWell (graph_of t) }
    ensures angles { (s t : Sketch) → HasAmong s t → IsSoundSketch s → IsSoundSketch t → 0 < length s.elements → HasRing s → ¬ IsWell (graph_of t) }
    ensures enough { (s t : Sketch) → HasAmong s t → IsSoundSketch t → 0 < length s.elements → due_for s ≤ weight_together s.constraints
        → IsWell (graph_of t) → IsWell (graph_of s) }
{}

/// What is written of a completion of a sketch that was read is read as that completion, number by number.
pub fn completed_reads()
    ensures { (bytes : List ℕ) (s t : Sketch) → Reads bytes s → Completes s t → Reads (canonical t) t }
{}
