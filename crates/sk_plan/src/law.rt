// What holds of every plan, and of every way of merging, whatever it is made by.
ghost use Rattle.std.specs.Prelude.{◌≡◌, ◌≢◌, ◌+◌, ◌-◌, ◌*◌, Bool, true, count_by, sum_by, ◌∷◌, [], List, All, Contains, map, length};
ghost use Rattle.sk_base.specs.declared.ConId.{ConId};
ghost use Rattle.sk_base.specs.declared.Elem.{Elem};
ghost use Rattle.sk_base.specs.declared.Graph.{Graph};
ghost use Rattle.sk_base.specs.declared.Node.{Node};
ghost use Rattle.sk_base.specs.declared.Sketch.{Sketch};
ghost use Rattle.sk_base.specs.SoundGraph.{IsSoundGraph, HasRisingEdges};
ghost use Rattle.sk_base.specs.SoundSketch.{IsSoundSketch};
ghost use Rattle.sk_family.specs.Body.{Body, Start, starts, initial_bodies};
ghost use Rattle.sk_family.specs.Clusters.{Clusters, bodies, initial_clusters};
ghost use Rattle.sk_rules.specs.declared.Taken.{Taken};
ghost use Rattle.sk_rules.specs.Reach.{Reach, IsClosed, IsNormal};
ghost use Rattle.sk_rules.specs.Excess.{has_ends_in, held, is_inside, HasTwoEach};
ghost use Rattle.sk_rules.specs.JustSome.{with_just};
ghost use Rattle.sk_rules.specs.Taking.{Leads};
ghost use Rattle.sk_close_by_order.specs.declared.Order.{Order};
ghost use Rattle.sk_tree.specs.declared.Plan.{Plan};
ghost use Rattle.sk_tree.specs.declared.PlanStep.{PlanStep};
ghost use Rattle.sk_tree.specs.declared.Tree.{Tree};
ghost use Rattle.sk_tree.specs.Trees.{AreJoins};
ghost use Rattle.sk_tree.specs.LegalPlan.{IsLegalPlan, merge_told};
ghost use Rattle.sk_verdict.specs.Parts.{elem_of};
ghost use Rattle.sk_tree.specs.DrawnChoice.{HasDrawnChoice};
ghost use Rattle.sk_plan.specs.Judged.{HoldsWhatIsDue, IsWell};
ghost use Rattle.sk_plan.specs.Leaves.{HasLeaves};
ghost use Rattle.sk_plan.specs.MadeBy.{IsMadeBy};
ghost use Rattle.sk_tree.specs.PlanTree.{IsPlanTree};
ghost use Rattle.sk_plan.specs.PlanBy.{IsPlanBy};
ghost use Rattle.sk_plan.specs.Runs.{EachTakesOnce};
ghost use Rattle.sk_plan.specs.Sparse.{weight_among, angles_among, pins_weight, AreLines, AllOwnJustEnough, AreDistinct, AreIn, EachMeetsOnce, HoldsNoneTooMany, IsSparse, HasFewAngles, IsSparseAmong, HasFewAnglesAmong};

/// Only a graph with the verdict well has a legal plan. The plan has half as many steps as the graph has
/// constraints but one, which without blocks is two fewer than it has nodes, or none for one node; each
/// step is at three of the nodes, and the leaves of its tree are all constraints, each once, and it has a
/// tree unless it has no leaf. Join by join the tree makes one body with all nodes. Of the graph, all
/// constraints together weigh just 2n - 3 for the n nodes, or nothing for one node; among no k ≥ 2
/// different elements do they weigh more than 2k - 3, and no k ≥ 1 different lines have more than k - 1
/// angles.
pub fn legal_plan()
    ensures well { (g : Graph) (p : Plan) → IsSoundGraph g → IsLegalPlan g p → IsWell g }
    ensures steps { (g : Graph) (p : Plan) → IsSoundGraph g → IsLegalPlan g p → 2 * length p.steps ≡ length g.edges + length g.blocks - 1 }
    ensures without_blocks { (g : Graph) (p : Plan) → IsSoundGraph g → IsLegalPlan g p → g.blocks ≡ [] → length p.steps ≡ length g.nodes - 2 }
    ensures corners { (g : Graph) (p : Plan) → IsLegalPlan g p → (s : PlanStep) (e : Elem) → Contains p.steps s → Contains (s.a ∷ s.b ∷ s.c ∷ []) e → Contains (map elem_of g.nodes) e }
    ensures tree { (g : Graph) (p : Plan) → IsSoundGraph g → IsLegalPlan g p → p.leaves ≢ [] → (t : Tree) × IsPlanTree p t }
    ensures leaves { (g : Graph) (p : Plan) → IsSoundGraph g → IsLegalPlan g p → (t : Tree) → IsPlanTree p t → HasLeaves t p.leaves }
    ensures made { (g : Graph) (p : Plan) → IsSoundGraph g → IsLegalPlan g p → (t : Tree) → IsPlanTree p t → (x : Body) × IsMadeBy g t x × ((n : Node) → Contains g.nodes n → Contains x.elements n.elem) }
    ensures due { (g : Graph) (p : Plan) → IsSoundGraph g → IsLegalPlan g p → HoldsWhatIsDue g }
    ensures elements { (g : Graph) (p : Plan) → IsSoundGraph g → IsLegalPlan g p → IsSparse g }
    ensures lines { (g : Graph) (p : Plan) → IsSoundGraph g → IsLegalPlan g p → HasFewAngles g }
{}

/// Where merging ends with no constraint too many, each merge was one of three clusters of which
/// each two share one element.
pub fn exact()
    ensures none_too_many { (g : Graph) (f : List Body) → HasRisingEdges g → HasTwoEach g → IsNormal g f → HoldsNoneTooMany g f → AllOwnJustEnough g f }
    ensures meet_once { (g : Graph) (f : List Body) (way : Reach g (initial_bodies g) f) → HasRisingEdges g → AllOwnJustEnough g f → EachMeetsOnce way }
{}

/// The same of the merges of a run, so that a tree can be made of them.
pub fn joined_once()
    ensures once { (g : Graph) (taken : List Taken) (end : Clusters) → IsSoundGraph g → Leads g (initial_clusters g) taken end → IsClosed g (bodies end) → HoldsNoneTooMany g (bodies end) → EachTakesOnce g (initial_clusters g) taken }
    ensures joins { (g : Graph) (taken : List Taken) (end : Clusters) → IsSoundGraph g → Leads g (initial_clusters g) taken end → IsClosed g (bodies end) → HoldsNoneTooMany g (bodies end) → AreJoins taken }
{}

/// Where merging ends with no constraint too many, though perhaps in several clusters, among no k ≥ 2
/// different elements of a cluster do the constraints weigh more than 2k - 3, and no k ≥ 1 different
/// lines of it have more than k - 1 angles.
pub fn sparse_parts()
    ensures elements { (g : Graph) (f : List Body) → HasRisingEdges g → HasTwoEach g → IsNormal g f → HoldsNoneTooMany g f → (x : Body) → Contains f x → IsSparseAmong g x.elements }
    ensures lines { (g : Graph) (f : List Body) → HasRisingEdges g → HasTwoEach g → IsNormal g f → HoldsNoneTooMany g f → (x : Body) → Contains f x → HasFewAnglesAmong g x.elements }
{}

/// And where among k ≥ 2 different elements of such a cluster constraints lie that weigh just 2k - 3, these alone make one
/// cluster with all of them: each graph that has these constraints, and perhaps others of the graph, has such a cluster.
pub fn tight_sets()
    ensures { (g : Graph) (f : List Body) (x : Body) (xs : List Elem) (p : ConId → Bool) (n : List Body) → IsSoundGraph g → IsNormal g f → HoldsNoneTooMany g f → Contains f x
        → AreDistinct xs → AreIn xs x.elements → held g xs + 3 ≡ 2 * length xs → ((s : Start) → Contains (starts g) s → is_inside xs s ≡ true → p s.number ≡ true)
        → IsNormal (with_just p g) n → (y : Body) × Contains n y × AreIn xs y.elements }
{}

/// What the constraints of a sound graph weigh among different elements: as much as there are with both
/// ends there, and 2j - 3 for each block with j ≥ 2 of its pins there; among lines just as much as there
/// are angles.
pub fn weights_among()
    ensures elements { (g : Graph) (xs : List Elem) → IsSoundGraph g → weight_among g xs ≡ count_by (has_ends_in xs) g.edges + sum_by (pins_weight xs) g.blocks }
    ensures lines { (g : Graph) (lines : List Elem) → IsSoundGraph g → AreLines g lines → weight_among g lines ≡ angles_among g lines }
{}

/// The merges of a legal plan and the drawing tell the whole plan; and by an order a sketch has at most
/// one plan.
pub fn one_plan()
    ensures merges { (g : Graph) (s : Sketch) (p q : Plan) → IsSoundGraph g → IsLegalPlan g p → IsLegalPlan g q → map merge_told p.steps ≡ map merge_told q.steps
        → All (HasDrawnChoice s) p.steps → All (HasDrawnChoice s) q.steps → p ≡ q }
    ensures by_order { (order : Order) (s : Sketch) (p q : Plan) → IsSoundSketch s → IsPlanBy order s p → IsPlanBy order s q → p ≡ q }
{}
