// The laws on leaving a constraint out, each a clause of a function with nothing to do.
ghost use Rattle.std.specs.Prelude.{◌≡◌, ◌↔◌, List};
ghost use Rattle.sk_base.specs.declared.ConId.{ConId};
ghost use Rattle.sk_base.specs.declared.Graph.{Graph};
ghost use Rattle.sk_base.specs.SoundGraph.{IsSoundGraph};
ghost use Rattle.sk_family.specs.Body.{Body};
ghost use Rattle.sk_rules.specs.Reach.{IsNormal};
ghost use Rattle.sk_verdict.specs.Judging.{IsOver};
ghost use Rattle.sk_verdict.specs.Parts.{part_with};
ghost use Rattle.sk_spare.specs.Sparing.{AreSpares, HoldsAll, IsOwner, IsSpare, without};
ghost use Rattle.sk_rules.specs.Keeping.{TakesPlace};
ghost use Rattle.sk_spare.specs.Trying.{trial_graph};

/// Where a constraint is left out, the clusters that don't own it stay as they are, and what the
/// owner's other constraints make alone takes its place. So that decides whether the constraint may
/// go; and where it may, its owner holds more than is due. The constraint may be a rigid block.
pub fn trials()
    ensures some { (g : Graph) (f n : List Body) (k : ConId) (x : Body) → IsSoundGraph g → IsOwner g f k x → IsNormal (trial_graph x.owned k g) n
        → (m : List Body) × IsNormal (without k g) m × TakesPlace f x n m }
    ensures each { (g : Graph) (f n m : List Body) (k : ConId) (x : Body) → IsSoundGraph g → IsOwner g f k x → IsNormal (trial_graph x.owned k g) n
        → IsNormal (without k g) m → TakesPlace f x n m }
    ensures decides { (g : Graph) (f n : List Body) (k : ConId) (x : Body) → IsSoundGraph g → IsOwner g f k x → IsNormal (trial_graph x.owned k g) n
        → IsSpare g k ↔ HoldsAll n x.elements }
    ensures over { (g : Graph) (f : List Body) (k : ConId) (x : Body) → IsSoundGraph g → IsOwner g f k x → IsSpare g k → IsOver (part_with g x.elements) }

    // Normal families of one graph hold the same clusters, so it does not matter which are looked at.
    ensures whichever { (g : Graph) (f m : List Body) (k : ConId) (x : Body) → IsSoundGraph g → IsOwner g f k x → IsNormal (without k g) m
        → IsSpare g k ↔ HoldsAll m x.elements }
{}

/// A graph has at most one list of spare constraints.
pub fn one_list_of_spares()
    ensures { (g : Graph) (one other : List ConId) → AreSpares g one → AreSpares g other → one ≡ other }
{}
