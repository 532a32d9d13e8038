// The law on the own sketches of parts, the contract of a function with nothing to do.
ghost use Rattle.std.specs.Prelude.{◌≡◌, ◌↔◌, ◌<◌, length, not, List, [], ◌∷◌, Contains};
ghost use Rattle.sk_base.specs.declared.Elem.{Elem};
ghost use Rattle.sk_base.specs.declared.Constraint.{Constraint};
ghost use Rattle.sk_base.specs.declared.Element.{Element};
ghost use Rattle.sk_base.specs.declared.Sketch.{Sketch};
ghost use Rattle.sk_base.specs.SoundSketch.{IsSoundSketch};
ghost use Rattle.sk_family.specs.Body.{Body, SameBodies};
ghost use Rattle.sk_graph.specs.SketchGraph.{graph_of};
ghost use Rattle.sk_plan.specs.Judged.{IsTheJudgement, IsWell};
ghost use Rattle.sk_rules.specs.Reach.{IsNormal};
ghost use Rattle.sk_verdict.specs.declared.Judgement.{Judgement};
ghost use Rattle.sk_verdict.specs.declared.Part.{Part};
ghost use Rattle.sk_verdict.specs.declared.Verdict.TheVariants.{Well};
ghost use Rattle.sk_verdict.specs.Judging.{IsOver};
ghost use Rattle.sk_verdict.specs.OneCluster.{IsOneCluster};
ghost use Rattle.sk_parts.specs.OwnSketch.{part_sketch, numbers_in, HasInOwn, IsInJustOne};

/// The own sketch of a part of a sound sketch is sound, has just the part's elements, which are some, and just the
/// constraints that the part's cluster owns, and its verdict is well exactly where the part isn't over.
/// Each element lies in a part, and each constraint is in the own sketch of just one part. Where the verdict on the sketch is well, the own
/// sketch of its part is the sketch itself.
pub fn own_sketches()
    ensures sound { (s : Sketch) (xs : List Elem) → IsSoundSketch s → IsSoundSketch (part_sketch s xs) }
    ensures elements { (s : Sketch) (j : Judgement) (p : Part) → IsSoundSketch s → IsTheJudgement (graph_of s) j → Contains j.parts p → numbers_in (part_sketch s p.elements) ≡ p.elements }
    ensures some { (s : Sketch) (j : Judgement) (p : Part) → IsSoundSketch s → IsTheJudgement (graph_of s) j → Contains j.parts p → 0 < length (part_sketch s p.elements).elements }
    ensures covered { (s : Sketch) (j : Judgement) (x : Element) → IsSoundSketch s → IsTheJudgement (graph_of s) j → Contains s.elements x → (p : Part) × Contains j.parts p × Contains p.elements x.number }
    ensures owned { (s : Sketch) (f : List Body) (x : Body) (c : Constraint) → IsSoundSketch s → IsNormal (graph_of s) f → Contains f x → Contains s.constraints c
        → HasInOwn s x.elements c ↔ Contains x.owned c.number }
    ensures well { (s : Sketch) (j : Judgement) (p : Part) → IsSoundSketch s → IsTheJudgement (graph_of s) j → Contains j.parts p
        → IsWell (graph_of (part_sketch s p.elements)) ↔ (¬ IsOver p) }
    ensures once { (s : Sketch) (j : Judgement) (c : Constraint) → IsSoundSketch s → IsTheJudgement (graph_of s) j → Contains s.constraints c → IsInJustOne s j.parts c }
    ensures whole { (s : Sketch) (j : Judgement) (p : Part) → IsSoundSketch s → IsTheJudgement (graph_of s) j → j.verdict ≡ Well → Contains j.parts p → part_sketch s p.elements ≡ s }

    // Merging a cluster's own sketch leads to that cluster, and to no other.
    ensures alone { (s : Sketch) (f : List Body) (x : Body) → IsSoundSketch s → IsNormal (graph_of s) f → Contains f x
        → (n : List Body) × IsNormal (graph_of (part_sketch s x.elements)) n × SameBodies n (x ∷ []) }
    // Such a cluster, with all elements of the part, is what a part that is over makes.
    ensures over { (s : Sketch) (j : Judgement) (p : Part) → IsSoundSketch s → IsTheJudgement (graph_of s) j → Contains j.parts p → IsOver p
        → IsOneCluster (graph_of (part_sketch s p.elements)) }
    ensures lone { (s : Sketch) (e : Elem) → IsSoundSketch s → (part_sketch s (e ∷ [])).constraints ≡ [] }
{}
