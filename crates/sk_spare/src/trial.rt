// Closed families of some of a cluster's constraints.
ghost use Rattle.std.specs.Prelude.{◌≡◌, ◌+◌, ◌≤◌, ◌<◌, Bool, Contains, IfOk, OnOk, length};
ghost use Rattle.sk_base.specs.declared.ConId.{ConId as Number};
ghost use Rattle.sk_base.specs.SoundGraph.{IsSoundGraph};
ghost use Rattle.sk_family.specs.Body.{Start, starts};
ghost use Rattle.sk_family.specs.Clusters.{bodies, IsSound};
ghost use Rattle.sk_family.specs.Starting.{start_with};
ghost use Rattle.sk_family.specs.Starts.{HasStart, IsFree};
ghost use Rattle.sk_rules.specs.Reach.{IsClosed, IsNormal};
ghost use Rattle.sk_spare.specs.Halving.{AreFurther, IsMadeOf, too};
ghost use Rattle.sk_spare.specs.Trying.{holds_all, some_holds};

use sk_base::{ConId, Elem, Graph, NoMemory};
use sk_close_any_order::close_in_any_order;
use sk_family::{Cluster, Family, initial};
use std::alloc::Global;

/// A normal family of the graph.
pub fn normal_family(alloc: Global, graph: &Graph) -> Result<Family, NoMemory>
    requires { IsSoundGraph graph.now }
    ensures { IfOk result (λ family. IsNormal graph.now (bodies family)) }
{
    let mut family = initial(alloc, graph)?;
    close_in_any_order(alloc, &mut family, graph)?;
    Ok(family)
}

/// The closed family of what the family is made of and these constraints too.
pub fn with_these(
    alloc: Global,
    graph: &Graph,
    family: &Family,
    numbers: &[ConId],
) -> Result<Family, NoMemory>
    requires sound { IsSoundGraph graph.now }
    requires further { (p : Number → Bool) × (AreFurther graph.now p numbers.now × IsMadeOf graph.now p (bodies family.now)) }
    requires room { family.now.next_step + length family.now.live + length numbers.now ≤ 4001 }
    ensures made { IfOk result (λ more. (p : Number → Bool) → AreFurther graph.now p numbers.now → IsMadeOf graph.now p (bodies family.now) → IsMadeOf graph.now (too p numbers.now) (bodies more)) }
    ensures closed { IfOk result (λ more. IsClosed graph.now (bodies more)) }
    ensures room { IfOk result (λ more. more.next_step + length more.live ≤ family.now.next_step + length family.now.live + length numbers.now) }
{
    let mut more = family.copy()?;
    adopt_all(&mut more, graph, numbers)?;
    close_in_any_order(alloc, &mut more, graph)?;
    Ok(more)
}

/// Puts in the starting clusters of these constraints.
fn adopt_all(family: &mut Family, graph: &Graph, numbers: &[ConId]) -> Result<(), NoMemory>
    requires sound { IsSoundGraph graph.now }
    requires further { (p : Number → Bool) × (AreFurther graph.now p numbers.now × IsMadeOf graph.now p (bodies family.old)) }
    requires room { length family.old.live + length numbers.now < 4294967296 }
    requires named { IsSound family.old }
    ensures made { OnOk result ((p : Number → Bool) → AreFurther graph.now p numbers.now → IsMadeOf graph.now p (bodies family.old) → IsMadeOf graph.now (too p numbers.now) (bodies family.new)) }
    ensures count { OnOk result (length family.new.live ≡ length family.old.live + length numbers.now) }
    ensures next_step { OnOk result (family.new.next_step ≡ family.old.next_step) }
    ensures sound { OnOk result (IsSound family.new) }
{
    for number in numbers {
        adopt_start(family, graph, *number)?;
    }
    Ok(())
}

/// Puts in the starting cluster of the constraint.
fn adopt_start(family: &mut Family, graph: &Graph, number: ConId) -> Result<(), NoMemory>
    requires sound { IsSoundGraph graph.now }
    requires there { (s : Start) × Contains (starts graph.now) s × (s.number ≡ number) }
    requires free { IsFree family.old number }
    requires room { length family.old.live < 4294967295 }
    ensures ok { OnOk result (HasStart (start_with graph.now number) family.old family.new) }
    ensures count { OnOk result (length family.new.live ≡ length family.old.live + 1) }
    ensures sound { IsSound family.new }
{
    match graph.edge(number) {
        Some(edge) => family.adopt(edge),
        None => match graph.block(number) {
            Some(block) => family.adopt_block(block),
            None => unreachable!(),
        },
    }
}

/// Whether one of the clusters holds all of these elements.
pub fn some_holds(clusters: &[Cluster], elements: &[Elem]) -> bool
    ensures { result ≡ some_holds clusters.now elements.now }
{
    clusters
        .iter()
        .any(|cluster| holds_all(cluster.elements.as_slice(), elements))
}

/// Whether the one list has all elements of the other.
fn holds_all(held: &[Elem], elements: &[Elem]) -> bool
    ensures { result ≡ holds_all held.now elements.now }
{
    elements.iter().all(|elem| held.contains(elem))
}
