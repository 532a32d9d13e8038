// The worklist of a family that is being closed. A new cluster has the greatest name, so what is known
// of the merges below a name stays known, but for those of the merged clusters.
ghost use Rattle.std.specs.Prelude.{◌≡◌, ◌↔◌, ◌++◌, [], IfOk, OnOk, IfSome, IfNone, IsTrue, AllPairs, Contains};
ghost use Rattle.sk_base.specs.declared.Graph.{Graph as AnyGraph};
ghost use Rattle.sk_base.specs.declared.Name.{Name as ClusterName};
ghost use Rattle.sk_base.specs.ClusterNames.{IsBelow};
ghost use Rattle.sk_family.specs.Clusters.{Clusters, IsSound, HasElements};
ghost use Rattle.sk_rules.specs.Merges.{merged};
ghost use Rattle.sk_family.specs.Merges.{names_of};
ghost use Rattle.sk_family.specs.declared.Merge.{Merge as AnyMerge};
ghost use Rattle.sk_close_by_order.specs.Choices.{AreTriples, IsFirstPair};
ghost use Rattle.sk_close_by_order.specs.Gather.{HoldsSome, IsUncovered};
ghost use Rattle.sk_neighbours.specs.Indexed.{IsIndex};
ghost use Rattle.sk_close_by_order.specs.Turns.{Answers, Follows, HasLeft, HasNoPair, IsSameButHeir};
ghost use Rattle.sk_close_by_order.specs.Heirs.{IsFound, IsHeir, IsHeirOf, IsOfFresh};
ghost use Rattle.sk_triangles.specs.Growing.{GrowsBy};

use crate::heir::{add_fresh, biggest, has_name};
use crate::partner::first_with_partner;
use crate::picker::Picker;
use sk_base::{Elem, Graph, List, Name, NoMemory};
use sk_family::{Family, names_in_order};
use sk_neighbours::{
    Index, Third, add_all_triples, add_holders_of_all, add_triples_at, add_triples_of_all,
};
use sk_open_triples::{Heir, OpenTriples, is_same};
use sk_rules::Merge;
use std::alloc::Global;

/// The most elements that a cluster has at the start: those of a rigid block.
const MOST_AT_START: usize = 16;

/// What is known of a family that is being closed.
#[derive(Drop)]
pub struct Worklist {
    alloc: Global,
    index: Index,
    /// No pair whose greater cluster is below this name may merge.
    clear: Name,
    /// The triples whose greatest cluster is below this name are kept, in order.
    covered: Name,
    kept: OpenTriples,
    /// The merged clusters that kept triples may still name.
    gone: List<Name>,
    /// The one cluster that isn't covered, where it is known how it came about, and what it has more
    /// than its core.
    heir: Option<Heir>,
    fresh: List<Elem>,
}

impl Worklist {
    /// The worklist of a family of which nothing is known yet.
    pub fn of(alloc: Global, family: &Family, graph: &Graph) -> Result<Worklist, NoMemory>
        ensures { IfOk result (λ work. Follows work graph.now family.now) }
    {
        Ok(Worklist {
            alloc,
            index: Index::of(alloc, family, graph)?,
            clear: Name::Con(0),
            covered: Name::Con(0),
            kept: OpenTriples::new(alloc),
            gone: List::new(alloc),
            heir: None,
            fresh: List::new(alloc),
        })
    }

    /// The choice that the picker takes, if there is one.
    pub(crate) fn choice<P: Picker>(
        &mut self,
        family: &Family,
        picker: &mut P,
    ) -> Result<Option<Merge>, NoMemory>
        requires { (g : AnyGraph) × Follows self.old g family.now }
        ensures follows { OnOk result ((g : AnyGraph) → Follows self.old g family.now → Follows self.new g family.now) }
        ensures answer { IfOk result (λ choice. (g : AnyGraph) → Follows self.old g family.now → Answers P.answer P.after g family.now picker.old choice picker.new) }
        ensures sound { IsSound family.now }
    {
        match self.first_pair(family) {
            Some(pair) => Ok(Some(pick_alone(pair, picker))),
            None => {
                self.keep_all(family)?;
                self.pick_kept(picker)
            }
        }
    }

    /// One of the kept merges.
    fn pick_kept<P: Picker>(&self, picker: &mut P) -> Result<Option<Merge>, NoMemory>
        ensures { IfOk result (λ choice. (g : AnyGraph) (f : Clusters) → AreTriples g f self.now.kept → Answers P.answer P.after g f picker.old choice picker.new) }
    {
        let count = self.kept.len()?;
        if count == 0 {
            return Ok(None);
        }
        let place = picker.pick(count as u64);
        Ok(Some(self.kept.get(place as usize)))
    }

    /// Takes the clusters of a merge out, whatever the rules say of it. It is to be done then, and its
    /// cluster entered.
    pub fn leave(&mut self, family: &Family, merge: Merge)
        requires follows { (g : AnyGraph) × Follows self.old g family.now }
        requires some { (n : ClusterName) → Contains (names_of merge) n → HasElements family.now n }
        ensures { (g : AnyGraph) → Follows self.old g family.now → HasLeft self.new g family.now merge }
    {
        self.note(family, merge);
        match merge {
            Merge::Two(x, y) => self.index.take_out_all(family, &[x, y]),
            Merge::Three(x, y, z) => self.index.take_out_all(family, &[x, y, z]),
        }
    }

    /// Notes how the cluster that the merge makes comes about, and what it has more than its core.
    fn note(&mut self, family: &Family, merge: Merge)
        ensures same { IsSameButHeir self.old self.new }
        ensures heirs { (g : AnyGraph) → Follows self.old g family.now → IsHeirOf g (merged family.now merge) self.new.covered self.new.kept (self.new.gone ++ names_of merge) self.new.heir self.new.fresh }
    {
        self.heir = self.grown(family, merge);
    }

    /// The heir that the merge makes, if it is known how that comes about.
    fn grown(&mut self, family: &Family, merge: Merge) -> Option<Heir>
        ensures same { IsSameButHeir self.old self.new }
        ensures heir { (g : AnyGraph) → Follows self.old g family.now → IsHeirOf g (merged family.now merge) self.new.covered self.new.kept (self.new.gone ++ names_of merge) result self.new.fresh }
    {
        let base = self.heir_in(family, merge)?;
        if add_fresh(family, merge, base.name, &mut self.fresh) {
            Some(Heir {
                core: base.core,
                name: Name::Step(family.next_step()),
            })
        } else {
            None
        }
    }

    /// The heir of which the merge makes a greater one: the one that is known, if the merge names it.
    /// Where none is known, all triples are kept, and no pair may merge, it is the biggest cluster of the
    /// merge, as its own core.
    fn heir_in(&mut self, family: &Family, merge: Merge) -> Option<Heir>
        ensures same { IsSameButHeir self.old self.new }
        ensures named { IfSome result (λ heir. Contains (names_of merge) heir.name) }
        ensures heir { IfSome result (λ heir. (g : AnyGraph) → Follows self.old g family.now → IsHeir g family.now self.new.covered self.new.kept self.new.gone heir self.new.fresh) }
        ensures core { IfSome result (λ heir. (g : AnyGraph) → Follows self.old g family.now → Contains (self.new.gone ++ names_of merge) heir.core) }
    {
        match self.heir {
            Some(heir) => {
                if has_name(merge, heir.name) {
                    Some(heir)
                } else {
                    None
                }
            }
            None => {
                if self.keeps_all(family) {
                    self.fresh = List::new(self.alloc);
                    let core = biggest(family, merge)?.name;
                    Some(Heir { core, name: core })
                } else {
                    None
                }
            }
        }
    }

    /// Whether all triples are kept, and it is known that no pair may merge.
    fn keeps_all(&self, family: &Family) -> bool
        ensures { IsTrue result → (self.now.gone ≡ []) × (self.now.clear ≡ Name.Step family.now.next_step) × (self.now.covered ≡ Name.Step family.now.next_step) }
    {
        let next = Name::Step(family.next_step());
        self.gone.is_empty() && is_same(self.clear, next) && is_same(self.covered, next)
    }

    /// Puts the cluster in that the merge made.
    pub fn enter(&mut self, family: &Family, merge: Merge) -> Result<(), NoMemory>
        requires { (g : AnyGraph) × (f : Clusters) × (IsSound f × HasLeft self.old g f merge × (family.now ≡ merged f merge)) }
        ensures { OnOk result ((g : AnyGraph) (f : Clusters) → IsSound f → HasLeft self.old g f merge → family.now ≡ merged f merge → Follows self.new g family.now) }
    {
        self.index.put_last(family.clusters())?;
        match merge {
            Merge::Two(x, y) => self.gone.extend(&[x, y]),
            Merge::Three(x, y, z) => self.gone.extend(&[x, y, z]),
        }
    }

    /// The names of the clusters below the name that hold some of the elements, in order.
    pub fn holding(&self, elements: &[Elem], below: Name) -> Result<Vec<Name>, NoMemory>
        requires { (g : AnyGraph) × (f : Clusters) × Follows self.now g f }
        ensures in_order { IfOk result (λ names. AllPairs IsBelow names.items) }
        ensures exactly { IfOk result (λ names. (g : AnyGraph) (f : Clusters) → Follows self.now g f → (n : ClusterName) → Contains names.items n ↔ HoldsSome f elements.now below n) }
    {
        let mut found = List::new(self.alloc);
        add_holders_of_all(&self.index, elements, below, &mut found)?;
        names_in_order(self.alloc, found.as_slice())
    }

    /// The first pair that may merge.
    fn first_pair(&mut self, family: &Family) -> Option<Merge>
        requires { (g : AnyGraph) × Follows self.old g family.now }
        ensures index { self.new.index ≡ self.old.index }
        ensures sound { IsSound family.now }
        ensures none { IfNone result ((g : AnyGraph) → Follows self.old g family.now → Follows self.new g family.now × HasNoPair g family.now) }
        ensures some { IfSome result (λ pair. (g : AnyGraph) → Follows self.old g family.now → Follows self.new g family.now × IsFirstPair g family.now pair) }
    {
        match first_with_partner(
            &self.index,
            family.not_below(self.clear),
            self.heir,
            self.fresh.as_slice(),
        ) {
            Some((x, y)) => {
                self.clear = x;
                Some(Merge::Two(x, y))
            }
            None => {
                self.clear = Name::Step(family.next_step());
                None
            }
        }
    }

    /// Keeps all triples.
    fn keep_all(&mut self, family: &Family) -> Result<(), NoMemory>
        requires { (g : AnyGraph) × Follows self.old g family.now }
        ensures { OnOk result ((g : AnyGraph) → Follows self.old g family.now → HasNoPair g family.now → Follows self.new g family.now × AreTriples g family.now self.new.kept) }
    {
        let gone = names_in_order(self.alloc, self.gone.as_slice())?;
        let found = self.found(family)?;
        self.kept.take_in(self.heir, gone.as_slice(), found)?;
        self.gone = List::new(self.alloc);
        self.heir = None;
        self.covered = Name::Step(family.next_step());
        Ok(())
    }

    /// The triples of the clusters that aren't covered, but for those that an heir has from its core.
    fn found(&self, family: &Family) -> Result<List<Merge>, NoMemory>
        requires { (g : AnyGraph) × Follows self.now g family.now }
        ensures found { IfOk result (λ found. (g : AnyGraph) → Follows self.now g family.now → (m : AnyMerge) → Contains found m ↔ IsFound self.now.index g family.now self.now.covered self.now.heir self.now.fresh m) }
        ensures sound { IsSound family.now }
    {
        let mut found = List::new(self.alloc);
        self.add_uncovered(family, &mut found)?;
        Ok(found)
    }

    /// Adds the triples of the clusters that aren't covered, but for those that an heir has from its core.
    fn add_uncovered(&self, family: &Family, all: &mut List<Merge>) -> Result<(), NoMemory>
        requires { (g : AnyGraph) × Follows self.now g family.now }
        ensures grows { OnOk result ((g : AnyGraph) → Follows self.now g family.now → GrowsBy (IsFound self.now.index g family.now self.now.covered self.now.heir self.now.fresh) all.old all.new) }
        ensures sound { IsSound family.now }
    {
        match self.heir {
            Some(heir) => self.add_fresh_triples(family, heir.name, all),
            None => self.add_triples_anew(family, all),
        }
    }

    /// The same where it isn't known how they came about. At the start they are all triples of the family.
    fn add_triples_anew(&self, family: &Family, all: &mut List<Merge>) -> Result<(), NoMemory>
        requires { (g : AnyGraph) × Follows self.now g family.now }
        ensures grows { OnOk result ((g : AnyGraph) → Follows self.now g family.now → GrowsBy (IsUncovered g family.now self.now.covered) all.old all.new) }
        ensures sound { IsSound family.now }
    {
        if self.is_at_start(family) {
            add_all_triples(self.alloc, self.index.lines(), family.clusters(), all)
        } else {
            add_triples_of_all(&self.index, family.not_below(self.covered), all)
        }
    }

    /// Whether no triples are kept yet, and no cluster has more elements than one has at the start.
    fn is_at_start(&self, family: &Family) -> bool
        ensures { IsTrue result → (self.now.covered ≡ Name.Con 0) }
    {
        is_same(self.covered, Name::Con(0))
            && family
                .clusters()
                .iter()
                .all(|x| x.elements.len() <= MOST_AT_START)
    }

    /// Adds those of the cluster of that name with a fresh element as a corner.
    fn add_fresh_triples(
        &self,
        family: &Family,
        name: Name,
        all: &mut List<Merge>,
    ) -> Result<(), NoMemory>
        requires { IsIndex self.now.index }
        ensures grows { OnOk result (GrowsBy (IsOfFresh self.now.index family.now name self.now.fresh) all.old all.new) }
        ensures sound { IsSound family.now }
    {
        match family.cluster(name) {
            Some(x) => {
                add_triples_at(
                    self.alloc,
                    &self.index,
                    x,
                    self.fresh.as_slice(),
                    Third::Either,
                    all,
                )
            }
            None => Ok(()),
        }
    }
}

/// The picker's answer where there is one choice alone.
fn pick_alone<P: Picker>(pair: Merge, picker: &mut P) -> Merge
    ensures same { result ≡ pair }
    ensures answer { P.answer picker.old 1 ≡ 0 }
    ensures after { picker.new ≡ P.after picker.old 1 }
{
    let _place = picker.pick(1);
    pair
}
