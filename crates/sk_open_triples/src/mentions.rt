// Which rows of triples name a cluster.
ghost use Rattle.std.specs.Prelude.{◌≡◌, ◌↔◌, ◌<◌, [], ℕ, length, Contains, IfOk, IsTrue, OnOk};
ghost use Rattle.sk_base.specs.declared.Name.{Name as ClusterName};
ghost use Rattle.sk_triangles.specs.Growing.{FromSome};
ghost use Rattle.sk_family.specs.declared.Merge.{Merge as AnyMerge};
ghost use Rattle.sk_family.specs.Merges.{names_of};
ghost use Rattle.sk_open_triples.specs.Avoiding.{IsTriple};
ghost use Rattle.sk_open_triples.specs.OpenRows.{AddsKey, AreTold, GainsKey, Mention, keys_at, keys_of, triple_of};

use crate::lower_pairs::LowerPair;
use sk_base::{List, Name, NoMemory};
use sk_family::Merge;
use std::alloc::Global;

/// For each name the keys of rows, by number of its constraint or of its step.
#[derive(Drop)]
pub(crate) struct Mentions {
    alloc: Global,
    constraints: Vec<List<usize>>,
    steps: Vec<List<usize>>,
}

impl Mentions {
    pub fn new(alloc: Global) -> Self
        ensures { (n : ClusterName) → keys_of result n ≡ [] }
    {
        Mentions {
            alloc,
            constraints: Vec::new(alloc),
            steps: Vec::new(alloc),
        }
    }

    /// The keys of the name.
    pub fn keys(&self, name: Name) -> &[usize]
        ensures { result.now ≡ keys_of self.now name }
    {
        match name {
            Name::Con(number) => keys_under(self.constraints.as_slice(), number),
            Name::Step(number) => keys_under(self.steps.as_slice(), number),
        }
    }

    /// Adds the key to those of the name.
    pub fn add(&mut self, name: Name, key: usize) -> Result<(), NoMemory>
        ensures gains { GainsKey self.old self.new key }
        ensures added { OnOk result (Contains (keys_of self.new name) key) }
    {
        match name {
            Name::Con(number) => add_key(self.alloc, &mut self.constraints, number, key),
            Name::Step(number) => add_key(self.alloc, &mut self.steps, number, key),
        }
    }
}

/// The keys under the number.
fn keys_under(lists: &[List<usize>], number: u32) -> &[usize]
    ensures { result.now ≡ keys_at lists.now number }
{
    match lists.get(number as usize) {
        Some(keys) => keys.as_slice(),
        None => &[],
    }
}

/// Adds the key to those under the number, where it isn't the last of them.
fn add_key(
    alloc: Global,
    lists: &mut Vec<List<usize>>,
    number: u32,
    key: usize,
) -> Result<(), NoMemory>
    ensures gains { AddsKey lists.old.items lists.new.items key }
    ensures added { OnOk result (Contains (keys_at lists.new.items number) key) }
{
    if ends_with(keys_under(lists.as_slice(), number), key) {
        return Ok(());
    }
    make_room(alloc, lists, number)?;
    lists[number as usize].push(key)
}

/// Makes room for keys under the number.
fn make_room(alloc: Global, lists: &mut Vec<List<usize>>, number: u32) -> Result<(), NoMemory>
    ensures same { (q : ℕ) → keys_at lists.new.items q ≡ keys_at lists.old.items q }
    ensures room { OnOk result (number < length lists.new.items) }
{
    while lists.len() <= number as usize {
        lists.push(List::new(alloc))?;
    }
    Ok(())
}

/// Whether the key is the last of these.
fn ends_with(keys: &[usize], key: usize) -> bool
    ensures { IsTrue result → Contains keys.now key }
{
    match keys.last() {
        Some(last) => *last == key,
        None => false,
    }
}

/// Adds the key to those of each name of the triple.
pub(crate) fn mention_all(
    mentions: &mut Mentions,
    greatest: Name,
    pair: LowerPair,
    key: usize,
) -> Result<(), NoMemory>
    ensures gains { GainsKey mentions.old mentions.new key }
    ensures named { OnOk result ((n : ClusterName) → Contains (names_of (triple_of greatest pair)) n → Mention mentions.new n key) }
{
    mentions.add(greatest, key)?;
    mentions.add(pair.second, key)?;
    mentions.add(pair.third, key)
}

/// Adds the key to those of the heir's name and of each name of these triples.
pub(crate) fn mention_heir(
    mentions: &mut Mentions,
    name: Name,
    found: &[Merge],
    key: usize,
) -> Result<(), NoMemory>
    requires { (m : AnyMerge) → Contains found.now m → IsTriple m }
    ensures gains { GainsKey mentions.old mentions.new key }
    ensures named { OnOk result (Mention mentions.new name key) }
    ensures told { OnOk result (AreTold mentions.new key found.now) }
{
    mentions.add(name, key)?;
    for merge in found {
        mention_merge(mentions, *merge, key)?;
    }
    Ok(())
}

fn mention_merge(mentions: &mut Mentions, merge: Merge, key: usize) -> Result<(), NoMemory>
    requires { IsTriple merge }
    ensures gains { GainsKey mentions.old mentions.new key }
    ensures named { OnOk result ((n : ClusterName) → Contains (names_of merge) n → Mention mentions.new n key) }
{
    match merge {
        Merge::Two(_, _) => unreachable!(),
        Merge::Three(x, second, third) => mention_all(
            mentions,
            x,
            LowerPair { second, third },
            key,
        ),
    }
}

/// The keys of the rows that may name one of these, each once.
pub(crate) fn keys_of_all(
    alloc: Global,
    mentions: &Mentions,
    names: &[Name],
) -> Result<Vec<usize>, NoMemory>
    ensures { IfOk result (λ keys. (k : ℕ) → Contains keys.items k ↔ FromSome (Mention mentions.now) names.now k) }
{
    let mut all = List::new(alloc);
    for name in names {
        all.extend(mentions.keys(*name))?;
    }
    each_once(alloc, all.as_slice())
}

/// These keys, each once.
fn each_once(alloc: Global, keys: &[usize]) -> Result<Vec<usize>, NoMemory>
    ensures { IfOk result (λ once. (k : ℕ) → Contains once.items k ↔ Contains keys.now k) }
{
    let mut once = Vec::from_slice(alloc, keys)?;
    once.sort()?;
    once.dedup();
    Ok(once)
}
