// The open triples in rows: one for each greatest cluster.
ghost use Rattle.std.specs.Prelude.{◌≡◌, ◌<◌, ◌++◌, ◌∷◌, [], AllPairs, Contains, IfOk, OnOk, Some, length, slice_get};
ghost use Rattle.sk_base.specs.ClusterNames.{IsBelow};
ghost use Rattle.sk_family.specs.declared.Merge.{Merge as AnyMerge};
ghost use Rattle.sk_open_triples.specs.Avoiding.{IsTriple, avoiding};
ghost use Rattle.sk_open_triples.specs.HandedOn.{IsAdded, IsOfHeirIn, AreFoundFor, IsTakenIn, IsToAdd, HasGreatest};
ghost use Rattle.sk_open_triples.specs.OpenRows.{triple_of};

use crate::heir::Heir;
use crate::lower_pairs::LowerPair;
use crate::mentions::{Mentions, keys_of_all, mention_all, mention_heir};
use crate::order::in_order;
use crate::row::OpenRow;
use crate::rows::{
    add_inherited_from, count_all, drop_at_all, grown_row, key_of_row, last_row_of, merge_at,
    push_at, put_last,
};
use sk_base::{List, Name, NoMemory};
use sk_family::Merge;
use std::alloc::Global;
use std::marker::Model;

/// Triples, which contracts see as a list of merges. A row keeps its key, its place among the rows,
/// while it changes its place in the order.
#[derive(Drop)]
pub struct OpenTriples {
    alloc: Global,
    rows: Vec<OpenRow>,
    order: Vec<usize>,
    mentions: Mentions,
}

impl Model for OpenTriples {
    ghost use Rattle.std.specs.Prelude.{List as Items};
    ghost use Rattle.std.specs.List.{flat_map};
    ghost use Rattle.sk_family.specs.declared.Merge.{Merge};
    ghost use Rattle.sk_open_triples.specs.OpenRows.{AreRows, merges_at};

    ghost Value = { Items Merge };

    ghost view = { λ k. flat_map (merges_at k.rows.items) k.order.items };

    ghost invariant = { λ k. AreRows k.rows.items k.order.items k.mentions };
}

impl OpenTriples {
    pub fn new(alloc: Global) -> Self
        ensures { result ≡ [] }
    {
        OpenTriples {
            alloc,
            rows: Vec::new(alloc),
            order: Vec::new(alloc),
            mentions: Mentions::new(alloc),
        }
    }

    /// How many they are.
    pub fn len(&self) -> Result<usize, NoMemory>
        ensures { IfOk result (λ count. count ≡ length self.now) }
    {
        count_all(self.rows.as_slice(), self.order.as_slice())
    }

    pub fn get(&self, place: usize) -> Merge
        requires { place < length self.now }
        ensures { slice_get self.now place ≡ Some result }
    {
        merge_at(self.rows.as_slice(), self.order.as_slice(), place)
    }

    /// Drops the merges that name one of the gone, which stand in order, and appends what was found, and
    /// what the heir has instead of the triples of its core, which is gone.
    pub fn take_in(
        &mut self,
        heir: Option<Heir>,
        gone: &[Name],
        found: List<Merge>,
    ) -> Result<(), NoMemory>
        requires in_order { AllPairs IsBelow gone.now }
        requires right { AreFoundFor heir gone.now found }
        ensures { OnOk result (IsTakenIn gone.now (IsToAdd heir gone.now found self.old) self.old self.new) }
    {
        match heir {
            Some(heir) => {
                self.hand_on(heir, gone, found)?;
                self.drop_naming(gone)
            }
            None => {
                self.drop_naming(gone)?;
                let found = in_order(self.alloc, found.as_slice())?;
                self.push_all(found.as_slice())
            }
        }
    }

    /// Gives the row of its core to the heir, as the last in order, with what was found and what the heir
    /// has instead of the core's triples in other rows.
    fn hand_on(&mut self, heir: Heir, gone: &[Name], found: List<Merge>) -> Result<(), NoMemory>
        requires in_order { AllPairs IsBelow gone.now }
        requires core { Contains gone.now heir.core }
        requires right { (m : AnyMerge) → Contains found m → HasGreatest heir.name m }
        ensures { OnOk result (IsAdded gone.now (IsOfHeirIn heir gone.now found self.old) self.old self.new) }
    {
        let mut found = found;
        let keys = self.mentions.keys(heir.core);
        let key = key_of_row(self.alloc, &mut self.rows, &mut self.order, keys, heir.core)?;
        add_inherited_from(self.rows.as_slice(), keys, key, heir, gone, &mut found)?;
        let row = grown_row(
            self.alloc,
            self.rows.as_slice(),
            key,
            heir.name,
            found.as_slice(),
        )?;
        mention_heir(&mut self.mentions, heir.name, found.as_slice(), key)?;
        self.order = put_last(self.alloc, self.order.as_slice(), key)?;
        self.rows[key] = row;
        Ok(())
    }

    /// Appends these triples.
    fn push_all(&mut self, merges: &[Merge]) -> Result<(), NoMemory>
        requires { (m : AnyMerge) → Contains merges.now m → IsTriple m }
        ensures { OnOk result (self.new ≡ self.old ++ merges.now) }
    {
        for merge in merges {
            self.push_merge(*merge)?;
        }
        Ok(())
    }

    fn push_merge(&mut self, merge: Merge) -> Result<(), NoMemory>
        requires { IsTriple merge }
        ensures { OnOk result (self.new ≡ self.old ++ merge ∷ []) }
    {
        match merge {
            Merge::Two(_, _) => unreachable!(),
            Merge::Three(x, second, third) => self.push(x, LowerPair { second, third }),
        }
    }

    fn push(&mut self, greatest: Name, pair: LowerPair) -> Result<(), NoMemory>
        ensures { OnOk result (self.new ≡ self.old ++ triple_of greatest pair ∷ []) }
    {
        let key = last_row_of(self.alloc, &mut self.rows, &mut self.order, greatest)?;
        mention_all(&mut self.mentions, greatest, pair, key)?;
        push_at(self.rows.as_mut_slice(), key, pair)
    }

    /// Drops the merges that name one of these, which stand in order.
    fn drop_naming(&mut self, names: &[Name]) -> Result<(), NoMemory>
        requires { AllPairs IsBelow names.now }
        ensures { OnOk result (self.new ≡ avoiding names.now self.old) }
    {
        let keys = keys_of_all(self.alloc, &self.mentions, names)?;
        drop_at_all(self.alloc, self.rows.as_mut_slice(), keys.as_slice(), names);
        Ok(())
    }
}
