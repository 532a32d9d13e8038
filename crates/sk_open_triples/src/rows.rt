// Rows of triples, each with a key, its place, and the order of the keys.
ghost use Rattle.std.specs.Prelude.{◌≡◌, ◌<◌, ◌+◌, ◌++◌, ◌∷◌, [], ℕ, AllPairs, Contains, IfOk, IfSome, IsTrue, OnErr, OnOk, Some, length, slice_get};
ghost use Rattle.std.specs.List.{flat_map};
ghost use Rattle.sk_base.specs.ClusterNames.{IsBelow};
ghost use Rattle.sk_triangles.specs.Growing.{FromSome, GrowsBy};
ghost use Rattle.sk_family.specs.declared.Merge.{Merge as AnyMerge};
ghost use Rattle.sk_open_triples.specs.declared.row.OpenRow.{OpenRow as AnyRow};
ghost use Rattle.sk_open_triples.specs.HandedOn.{HasGreatest};
ghost use Rattle.sk_open_triples.specs.OpenRows.{AreAlike, AreDropped, AreUnchanged, InheritsElse, IsDroppedAt, IsGrownRow, IsLastRow, IsPutAt, IsRowOf, but, merges_at, triple_of};

use crate::heir::{Heir, is_same};
use crate::lower_pairs::{LowerPair, add_lower_pairs_of, lower_pairs_in_order};
use crate::row::OpenRow;
use sk_base::{List, Name, NoMemory};
use sk_family::Merge;
use std::alloc::Global;

/// How many triples the rows in order have.
pub(crate) fn count_all(rows: &[OpenRow], order: &[usize]) -> Result<usize, NoMemory>
    requires { (k : ℕ) → Contains order.now k → k < length rows.now }
    ensures { IfOk result (λ count. count ≡ length (flat_map (merges_at rows.now) order.now)) }
{
    let mut count: usize = 0;
    for key in order {
        count = sum_of(count, count_at(rows, *key))?;
    }
    Ok(count)
}

/// The sum, if it fits.
fn sum_of(one: usize, other: usize) -> Result<usize, NoMemory>
    ensures { IfOk result (λ sum. sum ≡ one + other) }
{
    match one.checked_add(other) {
        Some(sum) => Ok(sum),
        None => Err(NoMemory),
    }
}

/// How many triples the row with that key has.
fn count_at(rows: &[OpenRow], key: usize) -> usize
    requires { key < length rows.now }
    ensures { result ≡ length (merges_at rows.now key) }
{
    rows[key].lower_pairs.len()
}

/// The triple at the place among those of the rows in order.
pub(crate) fn merge_at(rows: &[OpenRow], order: &[usize], place: usize) -> Merge
    requires keys { (k : ℕ) → Contains order.now k → k < length rows.now }
    requires place { place < length (flat_map (merges_at rows.now) order.now) }
    ensures { slice_get (flat_map (merges_at rows.now) order.now) place ≡ Some result }
{
    let mut left = place;
    for key in order {
        let count = count_at(rows, *key);
        if left < count {
            return merge_in(rows, *key, left);
        }
        left -= count;
    }
    unreachable!()
}

/// The triple at the place among those of the row with that key.
fn merge_in(rows: &[OpenRow], key: usize, place: usize) -> Merge
    requires key { key < length rows.now }
    requires place { place < length (merges_at rows.now key) }
    ensures { slice_get (merges_at rows.now key) place ≡ Some result }
{
    rows[key].merge(place)
}

/// Adds what the heir has instead of the triples of its core in the rows with these keys, but for that
/// of one key.
pub(crate) fn add_inherited_from(
    rows: &[OpenRow],
    keys: &[usize],
    but: usize,
    heir: Heir,
    gone: &[Name],
    all: &mut List<Merge>,
) -> Result<(), NoMemory>
    requires in_order { AllPairs IsBelow gone.now }
    requires within { (k : ℕ) → Contains keys.now k → k < length rows.now }
    ensures { OnOk result (GrowsBy (FromSome (InheritsElse rows.now but heir gone.now) keys.now) all.old all.new) }
{
    for key in keys {
        add_inherited_at(rows, *key, but, heir, gone, all)?;
    }
    Ok(())
}

fn add_inherited_at(
    rows: &[OpenRow],
    key: usize,
    but: usize,
    heir: Heir,
    gone: &[Name],
    all: &mut List<Merge>,
) -> Result<(), NoMemory>
    requires in_order { AllPairs IsBelow gone.now }
    requires within { key < length rows.now }
    ensures { OnOk result (GrowsBy (InheritsElse rows.now but heir gone.now key) all.old all.new) }
{
    if key == but {
        return Ok(());
    }
    rows[key].add_inherited(heir, gone, all)
}

/// The key of the last row in order, if it is of the cluster, or of a new one.
pub(crate) fn last_row_of(
    alloc: Global,
    rows: &mut Vec<OpenRow>,
    order: &mut Vec<usize>,
    greatest: Name,
) -> Result<usize, NoMemory>
    ensures alike { AreAlike rows.old.items order.old.items rows.new.items order.new.items }
    ensures last { IfOk result (IsLastRow rows.new.items order.new.items greatest) }
{
    match last_key_of(rows.as_slice(), order.as_slice(), greatest) {
        Some(key) => Ok(key),
        None => add_row(alloc, rows, order, greatest),
    }
}

/// The key of the last row in order, if it is of the cluster.
fn last_key_of(rows: &[OpenRow], order: &[usize], greatest: Name) -> Option<usize>
    ensures { IfSome result (IsLastRow rows.now order.now greatest) }
{
    let key = order.last()?;
    let row = rows.get(*key)?;
    if is_same(row.greatest, greatest) {
        Some(*key)
    } else {
        None
    }
}

/// Adds a row without a triple at the end.
fn add_row(
    alloc: Global,
    rows: &mut Vec<OpenRow>,
    order: &mut Vec<usize>,
    greatest: Name,
) -> Result<usize, NoMemory>
    ensures alike { AreAlike rows.old.items order.old.items rows.new.items order.new.items }
    ensures last { IfOk result (IsLastRow rows.new.items order.new.items greatest) }
{
    let key = rows.len();
    rows.push(OpenRow {
        greatest,
        lower_pairs: Vec::new(alloc),
    })?;
    order.push(key)?;
    Ok(key)
}

/// Appends the triple to the row with that key.
pub(crate) fn push_at(rows: &mut [OpenRow], key: usize, pair: LowerPair) -> Result<(), NoMemory>
    requires { key < length rows.old }
    ensures put { OnOk result ((row : AnyRow) → slice_get rows.old key ≡ Some row → IsPutAt key (triple_of row.greatest pair) rows.old rows.new) }
    ensures err { OnErr result (AreUnchanged rows.old rows.new) }
{
    rows[key].lower_pairs.push(pair)?;
    Ok(())
}

/// The key of a row of the cluster, which is added at the end where none of these is one.
pub(crate) fn key_of_row(
    alloc: Global,
    rows: &mut Vec<OpenRow>,
    order: &mut Vec<usize>,
    keys: &[usize],
    greatest: Name,
) -> Result<usize, NoMemory>
    ensures alike { AreAlike rows.old.items order.old.items rows.new.items order.new.items }
    ensures row { IfOk result (IsRowOf rows.new.items greatest) }
{
    match key_among(rows.as_slice(), keys, greatest) {
        Some(key) => Ok(key),
        None => add_row(alloc, rows, order, greatest),
    }
}

/// The one of these keys that a row of the cluster has.
fn key_among(rows: &[OpenRow], keys: &[usize], greatest: Name) -> Option<usize>
    ensures { IfSome result (IsRowOf rows.now greatest) }
{
    for key in keys {
        if is_row_of(rows, *key, greatest) {
            return Some(*key);
        }
    }
    None
}

fn is_row_of(rows: &[OpenRow], key: usize, greatest: Name) -> bool
    ensures { IsTrue result → IsRowOf rows.now greatest key }
{
    match rows.get(key) {
        Some(row) => is_same(row.greatest, greatest),
        None => false,
    }
}

/// The keys with that one as the last.
pub(crate) fn put_last(alloc: Global, order: &[usize], key: usize) -> Result<Vec<usize>, NoMemory>
    ensures { IfOk result (λ put. put.items ≡ but key order.now ++ key ∷ []) }
{
    let mut put = Vec::from_slice(alloc, order)?;
    put.retain(|other| *other != key);
    put.push(key)?;
    Ok(put)
}

/// A row of the name, with what the row of that key has and these triples of the name, in order.
pub(crate) fn grown_row(
    alloc: Global,
    rows: &[OpenRow],
    key: usize,
    name: Name,
    found: &[Merge],
) -> Result<OpenRow, NoMemory>
    requires within { key < length rows.now }
    requires right { (m : AnyMerge) → Contains found.now m → HasGreatest name m }
    ensures { IfOk result (λ row. (was : AnyRow) → slice_get rows.now key ≡ Some was → IsGrownRow name was.lower_pairs.items found.now row) }
{
    // What the row has stands in order already, and the sort merges such a run with the rest.
    let mut all = List::new(alloc);
    all.extend(rows[key].lower_pairs.as_slice())?;
    add_lower_pairs_of(found, &mut all)?;
    Ok(OpenRow {
        greatest: name,
        lower_pairs: lower_pairs_in_order(alloc, all.as_slice())?,
    })
}

/// Drops the merges that name one of these from the rows with these keys.
pub(crate) fn drop_at_all(alloc: Global, rows: &mut [OpenRow], keys: &[usize], names: &[Name])
    requires in_order { AllPairs IsBelow names.now }
    requires within { (k : ℕ) → Contains keys.now k → k < length rows.old }
    ensures { AreDropped names.now keys.now rows.old rows.new }
{
    for key in keys {
        drop_at(alloc, rows, *key, names);
    }
}

/// The same from the row with that key.
fn drop_at(alloc: Global, rows: &mut [OpenRow], key: usize, names: &[Name])
    requires in_order { AllPairs IsBelow names.now }
    requires within { key < length rows.old }
    ensures { IsDroppedAt names.now key rows.old rows.new }
{
    rows[key].drop_naming(alloc, names);
}
