// The laws on wide normal families and wide runs.
ghost use Rattle.std.specs.Prelude.{◌≡◌, ◌↔◌, List, Contains, AllPairs};
ghost use Rattle.sk_base.specs.declared.Elem.{Elem};
ghost use Rattle.sk_base.specs.declared.Graph.{Graph};
ghost use Rattle.sk_base.specs.declared.Sketch.{Sketch};
ghost use Rattle.sk_base.specs.ElementOrder.{ElementsBefore};
ghost use Rattle.sk_base.specs.SoundGraph.{HasRisingEdges, IsSoundGraph};
ghost use Rattle.sk_family.specs.Body.{Body, SameBodies};
ghost use Rattle.sk_family.specs.declared.Cluster.{Cluster};
ghost use Rattle.sk_family.specs.Clusters.{Clusters, bodies, IsSound};
ghost use Rattle.sk_family.specs.declared.Merge.{Merge};
ghost use Rattle.sk_rules.specs.Reach.{IsNormal};
ghost use Rattle.sk_close_by_angles.specs.WideReach.{IsWideNormal, LiesIn};
ghost use Rattle.sk_close_by_angles.specs.WideChoices.{AreWideChoices};
ghost use Rattle.sk_close_by_angles.specs.WideRun.{IsWideRun};
ghost use Rattle.sk_close_by_angles.specs.DerivedText.{derived_text, lists_in_order};

use sk_close_by_order::Picker;

/// Whatever merges by the three rules are taken, and in whatever order: where no rule holds any more,
/// the same clusters stand.
pub fn one_wide_normal_form()
    ensures { (g : Graph) (one other : List Body) → HasRisingEdges g → IsWideNormal g one → IsWideNormal g other → SameBodies one other }
{}

/// Each cluster that the first two rules lead to lies in one that the three lead to.
pub fn normal_lies_in_wide()
    ensures { (g : Graph) (f wide : List Body) → IsNormal g f → IsWideNormal g wide → (x : Body) → Contains f x → (y : Body) × Contains wide y × LiesIn x y }
{}

/// A family has at most one list of wide choices.
pub fn one_list_of_wide_choices()
    ensures { (g : Graph) (f : Clusters) (one other : List Merge) → AreWideChoices g f one → AreWideChoices g f other → one ≡ other }
{}

/// A picker has at most one wide run from a family and a state.
pub fn one_wide_run<P: Picker>()
    ensures { (g : Graph) (f : Clusters) (p : P) (ms ns : List Merge) (one other : Clusters) (last end : P) → IsWideRun P.answer P.after g f p ms one last → IsWideRun P.answer P.after g f p ns other end
        → (ms ≡ ns) × (one ≡ other) × (last ≡ end) }
{}

/// All wide normal families of a graph have one text, whatever the names of their clusters.
pub fn one_derived_text()
    ensures { (g : Graph) (s : Sketch) (one other : Clusters) → IsSoundGraph g → IsSound one → IsSound other → IsWideNormal g (bodies one) → IsWideNormal g (bodies other)
        → derived_text s one ≡ derived_text s other }
{}

/// The lists of elements in the text of a wide normal family stand in rising order, and are just those
/// of its clusters.
pub fn derived_lists_rise()
    ensures rise { (g : Graph) (f : Clusters) → IsSoundGraph g → IsSound f → IsWideNormal g (bodies f) → AllPairs ElementsBefore (lists_in_order f.live) }
    ensures just { (g : Graph) (f : Clusters) → IsSoundGraph g → IsSound f → IsWideNormal g (bodies f) → (es : List Elem) → Contains (lists_in_order f.live) es ↔ ((c : Cluster) × Contains f.live c × (c.elements ≡ es)) }
{}
