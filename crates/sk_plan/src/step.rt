// What a plan says of a merge.
ghost use Rattle.std.specs.Prelude.{◌≡◌, [], ◌∷◌, length};
ghost use Rattle.sk_base.specs.declared.Graph.{Graph as OfGraph};
ghost use Rattle.sk_base.specs.ClusterNames.{IsBelow};
ghost use Rattle.sk_base.specs.SoundSketch.{IsSoundSketch};
ghost use Rattle.sk_family.specs.declared.Cluster.{Cluster as Clustered};
ghost use Rattle.sk_family.specs.Clusters.{IsLive, IsNamed};
ghost use Rattle.sk_rules.specs.Taking.{IsTaken};
ghost use Rattle.sk_tree.specs.LegalPlan.{taken_told, IsKept};
ghost use Rattle.sk_plan.specs.Runs.{TakesOnce};
ghost use Rattle.sk_tree.specs.DrawnChoice.{AreDrawn, HasDrawnChoice};

use sk_base::{Name, Sketch};
use sk_family::Family;
use sk_rules::{Merge, Taken};
use sk_tree::{PlanStep, choice_of};

/// The step for a merge that the family is to take.
pub(crate) fn plan_step(sketch: &Sketch, family: &Family, taken: Taken) -> PlanStep
    requires taken { (g : OfGraph) × IsTaken g family.now taken × TakesOnce g family.now taken }
    requires sound { IsSoundSketch sketch.now }
    requires drawn { AreDrawn sketch.now taken.shared }
    ensures told { taken_told result ≡ taken }
    ensures keeps { IsKept family.now (result.one ∷ result.two ∷ result.three ∷ []) result.keeps }
    ensures choice { HasDrawnChoice sketch.now result }
{
    match (taken.merge, taken.shared.c) {
        (Merge::Three(one, two, three), Some(c)) => PlanStep {
            step: taken.step,
            one,
            two,
            three,
            a: taken.shared.a,
            b: taken.shared.b,
            c,
            keeps: kept_of(family, one, two, three),
            choice: choice_of(sketch, taken.shared.a, taken.shared.b, c),
        },
        _ => unreachable!(),
    }
}

/// Of three live clusters the one with most elements, and of several such the one with the least name.
fn kept_of(family: &Family, one: Name, two: Name, three: Name) -> Name
    requires one_two { IsBelow two one }
    requires two_three { IsBelow three two }
    requires one_lives { IsLive family.now one }
    requires two_lives { IsLive family.now two }
    requires three_lives { IsLive family.now three }
    ensures { IsKept family.now (one ∷ two ∷ three ∷ []) result }
{
    let first = size_of(family, one);
    let second = size_of(family, two);
    let third = size_of(family, three);
    if first > second && first > third {
        one
    } else if second > third {
        two
    } else {
        three
    }
}

/// How many elements a live cluster has.
fn size_of(family: &Family, name: Name) -> usize
    requires { IsLive family.now name }
    ensures { (c : Clustered) → IsNamed family.now name c → result ≡ length c.elements }
{
    match family.cluster(name) {
        Some(cluster) => cluster.elements.len(),
        None => unreachable!(),
    }
}
