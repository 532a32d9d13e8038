// Merges of two clusters, in order: a row for each cluster, of those below it that it merges with.
ghost use Rattle.std.specs.Prelude.{◌≡◌, ◌++◌, ◌∷◌, ◌<◌, ◌^◌, [], All, AllPairs, OnOk, Some, filter, length, map, not, slice_get};
ghost use Rattle.std.specs.List.{flat_map};
ghost use Rattle.sk_base.specs.ClusterNames.{IsBelow, is_named};
ghost use Rattle.sk_open_triples.specs.MergeOrder.{ComesFirst};
ghost use Rattle.sk_open_triples.specs.Avoiding.{avoiding};
ghost use Rattle.sk_close_by_angles.specs.MergeRows.{merges_of, merges_with, names_but, without};

use sk_base::{Name, NoMemory};
use sk_family::Row;
use sk_rules::Merge;
use std::alloc::Global;
use std::marker::Model;

/// A cluster, and those below it that it merges with, by name.
#[derive(Drop)]
struct Partners {
    greater: Name,
    lessers: Row<Name>,
}

/// Merges of two clusters, which contracts see as a list of merges.
#[derive(Drop)]
pub(crate) struct Pairs {
    rows: Vec<Partners>,
}

impl Model for Pairs {
    ghost use Rattle.std.specs.Prelude.{List as Items};
    ghost use Rattle.std.specs.List.{flat_map};
    ghost use Rattle.sk_family.specs.declared.Merge.{Merge};
    ghost use Rattle.sk_close_by_angles.specs.MergeRows.{merges_of};

    ghost Value = { Items Merge };

    ghost view = { λ p. flat_map merges_of p.rows.items };
}

impl Pairs {
    pub fn new(alloc: Global) -> Self
        ensures { result ≡ [] }
    {
        Pairs {
            rows: Vec::new(alloc),
        }
    }

    /// How many they are.
    pub fn len(&self) -> usize
        requires { length self.now < 2 ^ 64 }
        ensures { result ≡ length self.now }
    {
        count_all(self.rows.as_slice())
    }

    pub fn get(&self, place: usize) -> Merge
        requires { place < length self.now }
        ensures { slice_get self.now place ≡ Some result }
    {
        merge_at(self.rows.as_slice(), place)
    }

    /// Appends the merges of the cluster with each of these.
    pub fn push_all(&mut self, greater: Name, lessers: Vec<Name>) -> Result<(), NoMemory>
        ensures { OnOk result (self.new ≡ self.old ++ merges_with greater lessers.items) }
    {
        if lessers.is_empty() {
            return Ok(());
        }
        self.rows.push(Partners {
            greater,
            lessers: Row::of(lessers),
        })?;
        Ok(())
    }

    /// Drops the merges that name one of the two.
    pub fn drop_naming(&mut self, x: Name, y: Name)
        requires { AllPairs ComesFirst self.old }
        ensures { self.new ≡ avoiding (x ∷ y ∷ []) self.old }
    {
        drop_rows_of(&mut self.rows, x, y);
        drop_from_all(self.rows.as_mut_slice(), x, y);
    }
}

/// How many merges the rows have.
fn count_all(rows: &[Partners]) -> usize
    requires { length (flat_map merges_of rows.now) < 2 ^ 64 }
    ensures { result ≡ length (flat_map merges_of rows.now) }
{
    let mut count = 0;
    for row in rows {
        count += row.lessers.as_slice().len();
    }
    count
}

/// The merge at the place.
fn merge_at(rows: &[Partners], place: usize) -> Merge
    requires { place < length (flat_map merges_of rows.now) }
    ensures { slice_get (flat_map merges_of rows.now) place ≡ Some result }
{
    let mut left = place;
    for row in rows {
        let lessers = row.lessers.as_slice();
        if left < lessers.len() {
            return Merge::Two(row.greater, lessers[left]);
        }
        left -= lessers.len();
    }
    unreachable!()
}

/// Drops the rows of the two.
fn drop_rows_of(rows: &mut Vec<Partners>, x: Name, y: Name)
    ensures { rows.new.items ≡ filter (λ row. not (is_named (x ∷ y ∷ []) row.greater)) rows.old.items }
{
    rows.retain(|row| !row.is_of_either(x, y));
}

/// Drops the two names from all rows.
fn drop_from_all(rows: &mut [Partners], x: Name, y: Name)
    requires { All (λ row. AllPairs IsBelow row.lessers) rows.old }
    ensures { rows.new ≡ map (without (x ∷ y ∷ [])) rows.old }
{
    for row in rows.iter_mut() {
        row.drop_both(x, y);
    }
}

impl Partners {
    fn is_of_either(&self, x: Name, y: Name) -> bool
        ensures { result ≡ is_named (x ∷ y ∷ []) self.now.greater }
    {
        x == self.greater || y == self.greater
    }

    fn drop_both(&mut self, x: Name, y: Name)
        requires { AllPairs IsBelow self.old.lessers }
        ensures { self.new ≡ without (x ∷ y ∷ []) self.old }
    {
        drop_name(&mut self.lessers, x);
        drop_name(&mut self.lessers, y);
    }
}

/// Drops the name from these, which stand in order.
fn drop_name(names: &mut Row<Name>, name: Name)
    requires { AllPairs IsBelow names.old }
    ensures { names.new ≡ names_but (name ∷ []) names.old }
{
    match names.as_slice().binary_search(&name) {
        Ok(place) => names.remove(place, name),
        Err(_) => {}
    }
}
