// The laws on families, each the contract of a function with nothing to do.
ghost use Rattle.std.specs.Prelude.{◌≡◌, ◌≢◌, ◌↔◌, ◌≤◌, ◌+◌, ◌*◌, pos, ◌+ℤ◌, List, [], ◌∷◌, Contains, length, filter, count_by, sum_by};
ghost use Rattle.sk_base.specs.declared.Name.{Name};
ghost use Rattle.sk_base.specs.declared.Elem.{Elem};
ghost use Rattle.sk_base.specs.declared.ConId.{ConId};
ghost use Rattle.sk_base.specs.declared.Graph.{Graph};
ghost use Rattle.sk_base.specs.SoundGraph.{IsSoundGraph, HasRisingEdges};
ghost use Rattle.sk_family.specs.Body.{Body, Start, starts, SameBodies, initial_bodies, join_all};
ghost use Rattle.sk_family.specs.declared.Cluster.{Cluster};
ghost use Rattle.sk_family.specs.Clusters.{Clusters, IsSound, bodies};
ghost use Rattle.sk_family.specs.Starts.{HasStart, IsDissolved};
ghost use Rattle.sk_rules.specs.Reach.{AreAmong, Reach, IsNormal};
ghost use Rattle.sk_rules.specs.Keeping.{IsReached, CarriesOver, Completes, HasOneMore, HasAllBut, KeepsKinds};
ghost use Rattle.sk_rules.specs.Excess.{has_ends_in, has_pins_in, block_weight, OwnsEnough, HasInside, HasTwoEach, weight_of, held, excess_of, shared_by_two, shared_by_three};

/// Whatever merges are taken, and in whatever order: where no rule holds any more, the same
/// clusters stand.
pub fn one_normal_form()
    ensures { (g : Graph) (one other : List Body) → HasRisingEdges g → IsNormal g one → IsNormal g other → SameBodies one other }
{}

/// Whatever merges are taken, what a cluster owns weighs no less than 2n - 3, and all that it owns have
/// all their elements in it. Where no rule holds any more, it owns just those that have. A constraint
/// between two elements weighs 1, a block of k pins 2k - 3.
pub fn excess()
    ensures enough { (g : Graph) (f : List Body) → HasRisingEdges g → Reach g (initial_bodies g) f → (x : Body) → Contains f x → OwnsEnough g x }
    ensures inside { (g : Graph) (f : List Body) → HasRisingEdges g → Reach g (initial_bodies g) f → (x : Body) → Contains f x → (k : ConId) → Contains x.owned k → HasInside g x k }
    ensures owned_inside { (g : Graph) (f : List Body) → HasRisingEdges g → HasTwoEach g → IsNormal g f → (x : Body) → Contains f x → (k : ConId) → Contains x.owned k ↔ HasInside g x k }
    ensures owned_is_held { (g : Graph) (f : List Body) → HasRisingEdges g → HasTwoEach g → IsNormal g f → (x : Body) → Contains f x → weight_of g x.owned ≡ held g x.elements }
{}

/// In a sound graph what lies among some elements weighs as much as there are constraints with both ends
/// there, and 2k - 3 for each block of k pins that all are there. Without blocks what a cluster owns
/// weighs as much as it has.
pub fn weights()
    ensures held { (g : Graph) (xs : List Elem) → IsSoundGraph g → held g xs ≡ count_by (has_ends_in xs) g.edges + sum_by block_weight (filter (has_pins_in xs) g.blocks) }
    ensures two_each { (g : Graph) → IsSoundGraph g → HasTwoEach g }
    ensures without_blocks { (g : Graph) (f : List Body) → IsSoundGraph g → g.blocks ≡ [] → Reach g (initial_bodies g) f → (x : Body) → Contains f x → weight_of g x.owned ≡ length x.owned }
{}

/// Of different clusters of one family, two that share k elements make one with the excess of both and
/// 2k - 3, and three make one with the excess of all and twice the number of shared elements beyond
/// three.
pub fn excess_of_merges()
    ensures pair { (g : Graph) (f : List Body) → HasRisingEdges g → Reach g (initial_bodies g) f → (a b : Body) → Contains f a → Contains f b → a ≢ b
        → (excess_of g (join_all (a ∷ b ∷ [])) +ℤ pos 3) ≡ ((excess_of g a +ℤ excess_of g b) +ℤ pos (2 * shared_by_two a b)) }
    ensures triangle { (g : Graph) (f : List Body) → HasRisingEdges g → Reach g (initial_bodies g) f → (a b c : Body) → Contains f a → Contains f b → Contains f c → a ≢ b → b ≢ c → c ≢ a
        → (excess_of g (join_all (a ∷ b ∷ c ∷ [])) +ℤ pos 6) ≡ ((excess_of g a +ℤ (excess_of g b +ℤ excess_of g c)) +ℤ pos (2 * shared_by_three a b c)) }
{}

/// When a graph's constraints change, clusters may be kept: with each constraint that they do not
/// own as a starting cluster beside them, they are again a family that merging leads to.
pub fn kept_clusters()
    ensures { (old new : Graph) (f kept completed : List Body) → HasRisingEdges new → IsReached old f → AreAmong kept f → ((x : Body) → Contains kept x → CarriesOver old new x) → Completes new kept completed → IsReached new completed }
{}

/// How a family that merging leads to follows a change of its graph, and is again such a family: it
/// adopts the start of a new constraint; the cluster that owned a dropped one is dissolved; and
/// nothing is done where each constraint starts as it did.
pub fn kept_family()
    ensures adopts { (old new : Graph) (f after : Clusters) (s : Start) → HasRisingEdges old → HasRisingEdges new → KeepsKinds old new → IsSound after
        → Reach old (initial_bodies old) (bodies f) → HasOneMore s old new → HasStart s f after → Reach new (initial_bodies new) (bodies after) }
    ensures dissolves { (old new : Graph) (f after : Clusters) (n : Name) (k : ConId) → HasRisingEdges old → HasRisingEdges new → KeepsKinds old new → IsSound f → IsSound after
        → Reach old (initial_bodies old) (bodies f) → HasAllBut k old new → (d : IsDissolved new n k f after) → Contains d.owner.owned k → Reach new (initial_bodies new) (bodies after) }
    ensures unchanged { (old new : Graph) (f : Clusters) → HasRisingEdges new → KeepsKinds old new → IsSound f
        → Reach old (initial_bodies old) (bodies f) → initial_bodies old ≡ initial_bodies new → Reach new (initial_bodies new) (bodies f) }
{}

/// Each constraint is owned by a cluster, and what a cluster owns are constraints, no more than there
/// are.
pub fn owners()
    ensures owner { (g : Graph) (f : Clusters) (s : Start) → Reach g (initial_bodies g) (bodies f) → Contains (starts g) s → (c : Cluster) × Contains f.live c × Contains c.owned s.number }
    ensures owned { (g : Graph) (f : Clusters) (c : Cluster) (k : ConId) → HasRisingEdges g → Reach g (initial_bodies g) (bodies f) → Contains f.live c → Contains c.owned k → (s : Start) × Contains (starts g) s × (s.number ≡ k) }
    ensures few { (g : Graph) (f : Clusters) (c : Cluster) → HasRisingEdges g → IsSound f → Reach g (initial_bodies g) (bodies f) → Contains f.live c → length c.owned ≤ length g.edges + length g.blocks }
{}
