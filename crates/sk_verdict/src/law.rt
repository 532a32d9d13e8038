// The law on judgements.
ghost use Rattle.std.specs.Prelude.{◌≡◌, List};
ghost use Rattle.sk_base.specs.declared.Graph.{Graph};
ghost use Rattle.sk_family.specs.Body.{Body, SameBodies};
ghost use Rattle.sk_verdict.specs.declared.judgement.Judgement.{Judgement};
ghost use Rattle.sk_verdict.specs.Judging.{IsJudgement};

/// Families that hold the same bodies have at most one judgement, the same for all of them.
pub fn one_judgement()
    ensures { (g : Graph) (one other : List Body) (j k : Judgement) → SameBodies one other → IsJudgement g one j → IsJudgement g other k → j ≡ k }
{}
