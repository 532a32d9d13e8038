// The laws on runs.
ghost use Rattle.std.specs.Prelude.{◌≡◌, ◌+◌, ◌≤◌, length, List};
ghost use Rattle.sk_base.specs.declared.Graph.{Graph};
ghost use Rattle.sk_family.specs.Clusters.{Clusters, IsSound};
ghost use Rattle.sk_family.specs.declared.Merge.{Merge};
ghost use Rattle.sk_close_by_order.specs.Choices.{AreChoices};
ghost use Rattle.sk_close_by_order.specs.Run.{IsRun, PicksLead};

use crate::picker::Picker;

/// A family has at most one list of choices.
pub fn one_list_of_choices()
    ensures { (g : Graph) (f : Clusters) (one other : List Merge) → AreChoices g f one → AreChoices g f other → one ≡ other }
{}

/// A picker has at most one run from a family and a state.
pub fn one_run<P: Picker>()
    ensures { (g : Graph) (f : Clusters) (p : P) (ms ns : List Merge) (one other : Clusters) (last end : P) → IsRun P.answer P.after g f p ms one last → IsRun P.answer P.after g f p ns other end
        → (ms ≡ ns) × (one ≡ other) × (last ≡ end) }
{}

/// Picked choices lead from a sound family to a sound one, and the next step's number with the number
/// of clusters is no more than it was.
pub fn on_the_way<P: Picker>()
    ensures sound { (g : Graph) (f end : Clusters) (p last : P) (ms : List Merge) → IsSound f → PicksLead P.answer P.after g f p ms end last → IsSound end }
    ensures room { (g : Graph) (f end : Clusters) (p last : P) (ms : List Merge) → IsSound f → PicksLead P.answer P.after g f p ms end last → end.next_step + length end.live ≤ f.next_step + length f.live }
{}
