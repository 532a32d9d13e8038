// Items in a row, of which one near either end is taken out at little cost.
ghost use Rattle.std.specs.Prelude.{◌≡◌, ◌<◌, ◌≤◌, ◌+◌, ◌∷◌, ◌++◌, [], length, drop, take, OnOk, OnErr, insert, remove};
ghost use Rattle.std.specs.List.{swap};

use sk_base::NoMemory;
use std::alloc::Global;
use std::marker::Model;

/// Items in a row, which contracts see as just its items. The places of items that were taken out near
/// the front stay free.
#[derive(Drop)]
pub struct Row<T> {
    items: Vec<T>,
    free: usize,
}

impl<T> Model for Row<T> {
    ghost use Rattle.std.specs.Prelude.{List as Items, ◌≤◌, length, drop};

    ghost Value = { Items T };

    ghost view = { λ row. drop row.free row.items.items };

    ghost invariant = { λ row. row.free ≤ length row.items.items };
}

impl<T> Row<T> {
    /// The empty row. It asks for no memory.
    pub fn new(alloc: Global) -> Self
        ensures { result ≡ [] }
    {
        Row::of(Vec::new(alloc))
    }

    /// The row of these items.
    pub fn of(items: Vec<T>) -> Self
        ensures { result ≡ items.items }
    {
        Row { items, free: 0 }
    }

    pub fn as_slice(&self) -> &[T]
        ensures { result.now ≡ self.now }
    {
        &self.items.as_slice()[self.free..]
    }

    pub fn len(&self) -> usize
        ensures { result ≡ length self.now }
    {
        self.items.len() - self.free
    }

    /// Puts the items at these places in each other's place.
    pub(crate) fn swap(&mut self, i: usize, j: usize)
        requires i { i < length self.old }
        requires j { j < length self.old }
        ensures { self.new ≡ swap self.old i j }
    {
        self.items.swap(self.free + i, self.free + j);
    }
}

impl<T: Drop> Row<T> {
    /// Appends the item. After `NoMemory` the row is unchanged, and the item is dropped.
    pub fn push(&mut self, item: T) -> Result<(), NoMemory>
        ensures ok { OnOk result (self.new ≡ self.old ++ item ∷ []) }
        ensures err { OnErr result (self.new ≡ self.old) }
    {
        self.items.push(item)?;
        Ok(())
    }

    /// Puts the item at the place, before those that stood from there on. After `NoMemory` the row is
    /// unchanged, and the item is dropped.
    pub fn insert(&mut self, place: usize, item: T) -> Result<(), NoMemory>
        requires { place ≤ length self.old }
        ensures ok { OnOk result (self.new ≡ insert self.old place item) }
        ensures err { OnErr result (self.new ≡ self.old) }
    {
        self.items.insert(self.free + place, item)?;
        Ok(())
    }

    /// Takes the item at the place out, and moves those on the side where there are fewer. The blank
    /// stands in the place that becomes free at the front.
    pub fn remove(&mut self, place: usize, blank: T)
        requires { place < length self.old }
        ensures { self.new ≡ remove self.old place }
    {
        if place < (self.items.len() - self.free) / 2 {
            let end = self.free + place + 1;
            self.items.as_mut_slice()[self.free..end].rotate_right(1);
            self.items[self.free] = blank;
            self.free += 1;
        } else {
            self.items.remove(self.free + place);
        }
    }

    /// Drops the items from the place on.
    pub fn truncate(&mut self, place: usize)
        requires { place ≤ length self.old }
        ensures { self.new ≡ take place self.old }
    {
        self.items.truncate(self.free + place);
    }

    /// Moves all items behind these others. After `NoMemory` both stay as they are.
    pub fn append_to(&mut self, others: &mut Vec<T>) -> Result<(), NoMemory>
        ensures ok { OnOk result (others.new.items ≡ others.old.items ++ self.old) }
        ensures none_left { OnOk result (self.new ≡ []) }
        ensures err { OnErr result (self.new ≡ self.old) }
        ensures others { OnErr result (others.new.items ≡ others.old.items) }
    {
        drop_front(&mut self.items, self.free);
        self.free = 0;
        others.append(&mut self.items)?;
        Ok(())
    }
}

/// Drops so many items at the front.
fn drop_front<T: Drop>(items: &mut Vec<T>, count: usize)
    requires { count ≤ length items.old.items }
    ensures { items.new.items ≡ drop count items.old.items }
{
    items.as_mut_slice().rotate_left(count);
    items.truncate(items.len() - count);
}
