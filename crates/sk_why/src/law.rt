// The laws on what holds some elements together, each the contract of a function with nothing to do.
ghost use Rattle.std.specs.Prelude.{◌≡◌, ◌<◌, ℕ, List, [], ◌∷◌, Contains, length, map};
ghost use Rattle.sk_base.specs.declared.Elem.{Elem};
ghost use Rattle.sk_base.specs.declared.ConId.{ConId};
ghost use Rattle.sk_base.specs.declared.Graph.{Graph};
ghost use Rattle.sk_base.specs.declared.Sketch.{Sketch};
ghost use Rattle.sk_base.specs.Numbering.{con_number};
ghost use Rattle.sk_base.specs.Rising.{IsRising};
ghost use Rattle.sk_base.specs.SoundGraph.{IsSoundGraph};
ghost use Rattle.sk_base.specs.SoundSketch.{IsSoundSketch};
ghost use Rattle.sk_family.specs.Body.{Body, Start, starts, SameBodies};
ghost use Rattle.sk_rules.specs.JustSome.{with_just};
ghost use Rattle.sk_rules.specs.Reach.{IsNormal};
ghost use Rattle.sk_verdict.specs.Judging.{IsOver};
ghost use Rattle.sk_verdict.specs.Parts.{elem_of, part_with};
ghost use Rattle.sk_spare.specs.Sparing.{without};
ghost use Rattle.sk_verdict.specs.OneCluster.{IsOneCluster};
ghost use Rattle.sk_excess.specs.LeftOut.{is_number, kept_graph, AreLeftOut, HasConstraint};
ghost use Rattle.sk_why.specs.Because.{AreTogether, AreBecause, FollowsFrom};
ghost use Rattle.sk_why.specs.WhyReport.{IsWhyReport};

/// What holds the elements together are constraints of the graph, and they alone hold them together. Without any one of
/// them they don't.
pub fn because_holds()
    ensures enough { (g : Graph) (elements : List Elem) (because : List ConId) → IsSoundGraph g → AreTogether g elements → AreBecause g elements because
        → AreTogether (with_just (is_number because) g) elements }
    ensures minimal { (g : Graph) (elements : List Elem) (because : List ConId) (k : ConId) → IsSoundGraph g → AreBecause g elements because → Contains because k
        → ¬ AreTogether (without k (with_just (is_number because) g)) elements }
    ensures constraints { (g : Graph) (elements : List Elem) (because : List ConId) (k : ConId) → AreBecause g elements because → Contains because k → HasConstraint g k }
{}

/// Of a graph just one list holds the elements together: neither an order nor a choice has a part in it.
pub fn one_because()
    ensures some { (g : Graph) (elements : List Elem) → IsSoundGraph g → (because : List ConId) × AreBecause g elements because }
    ensures one { (g : Graph) (elements : List Elem) (one other : List ConId) → IsSoundGraph g → AreBecause g elements one → AreBecause g elements other → one ≡ other }
{}

/// What a constraint that is left out follows from are kept constraints, and in the graph of all nodes they alone hold its
/// elements together. Without any one of them they don't. And there is just one such list.
pub fn follows()
    ensures enough { (g : Graph) (left because : List ConId) (c : ConId) (s : Start) → IsSoundGraph g → IsOneCluster g → AreLeftOut g left → FollowsFrom g left c because
        → Contains (starts g) s → s.number ≡ c → AreTogether (with_just (is_number because) g) s.elements }
    ensures minimal { (g : Graph) (left because : List ConId) (c k : ConId) (s : Start) → IsSoundGraph g → FollowsFrom g left c because
        → Contains (starts g) s → s.number ≡ c → Contains because k → ¬ AreTogether (without k (with_just (is_number because) g)) s.elements }
    ensures kept { (g : Graph) (left because : List ConId) (c k : ConId) → FollowsFrom g left c because → Contains because k → HasConstraint (kept_graph left g) k }
    ensures some { (g : Graph) (left : List ConId) (c : ConId) → IsSoundGraph g → HasConstraint g c → (because : List ConId) × FollowsFrom g left c because }
    ensures one { (g : Graph) (left one other : List ConId) (c : ConId) → IsSoundGraph g → FollowsFrom g left c one → FollowsFrom g left c other → one ≡ other }
{}

/// What a constraint that is left out follows from makes, with it, one cluster that is over: these constraints alone hold
/// too much. So whoever keeps the whole group keeps too much.
pub fn group_is_over()
    ensures { (g : Graph) (left because : List ConId) (c : ConId) (f : List Body) → IsSoundGraph g → IsOneCluster g → AreLeftOut g left → Contains left c → FollowsFrom g left c because
        → IsNormal (with_just (is_number (c ∷ because)) g) f → (x : Body) × SameBodies f (x ∷ []) × IsOver (part_with (with_just (is_number (c ∷ because)) g) x.elements) }
{}

/// Where what is kept isn't over, what a constraint that is left out follows from is the only list of kept constraints that
/// holds its elements together, and doesn't without any one of them: in whatever order they are looked at, these stay.
pub fn only_group()
    ensures { (g : Graph) (left because ks : List ConId) (c : ConId) (s : Start) → IsSoundGraph g → IsOneCluster g → AreLeftOut g left → ¬ IsOver (part_with (kept_graph left g) (map elem_of g.nodes))
        → FollowsFrom g left c because → Contains (starts g) s → s.number ≡ c → IsRising con_number ks → ((k : ConId) → Contains ks k → HasConstraint (kept_graph left g) k)
        → AreTogether (with_just (is_number ks) g) s.elements → ((k : ConId) → Contains ks k → ¬ AreTogether (without k (with_just (is_number ks) g)) s.elements) → ks ≡ because }
{}

/// What becomes of the whole without one constraint. Without one that is none of the group something is over still
/// (`no_other`). Where one alone is left out, which is between two elements, and what is kept isn't over, nothing is over
/// without any one of the group, which one it may be (`any_one`).
pub fn one_goes()
    ensures no_other { (g : Graph) (left because : List ConId) (c k : ConId) (f : List Body) → IsSoundGraph g → IsOneCluster g → AreLeftOut g left → Contains left c → FollowsFrom g left c because
        → ¬ Contains (c ∷ because) k → IsNormal (without k g) f → (x : Body) × Contains f x × IsOver (part_with (without k g) x.elements) }
    ensures any_one { (g : Graph) (because : List ConId) (c k : ConId) (s : Start) (f : List Body) (x : Body) → IsSoundGraph g → IsOneCluster g → AreLeftOut g (c ∷ []) → ¬ IsOver (part_with (kept_graph (c ∷ []) g) (map elem_of g.nodes))
        → FollowsFrom g (c ∷ []) c because → Contains (starts g) s → s.number ≡ c → length s.elements ≡ 2 → Contains (c ∷ because) k → IsNormal (without k g) f → Contains f x
        → ¬ IsOver (part_with (without k g) x.elements) }
{}

/// Of a sketch that has an element there is one report, and no other: no order and no key has a part in it.
pub fn one_report()
    ensures some { (s : Sketch) → IsSoundSketch s → 0 < length s.elements → (text : List ℕ) × IsWhyReport s text }
    ensures one { (s : Sketch) (one other : List ℕ) → IsSoundSketch s → IsWhyReport s one → IsWhyReport s other → one ≡ other }
{}
