// Lists in order of number, and changes of one item.
ghost use Rattle.std.specs.Prelude.{◌≡◌, ◌≢◌, ℕ, Contains, OnOk, OnErr};
ghost use Rattle.sk_base.specs.Rising.{IsRising};
ghost use Rattle.sk_edits.specs.Changes.{IsPlaceOf, HasItem, without, with_item};

use sk_base::{Constraint, Element, List, NoMemory};

/// What has a number of its own.
pub trait HasNumber: Drop {
    ghost number: { Self → ℕ };

    fn number(&self) -> u32
        ensures { result ≡ number self.now };
}

impl HasNumber for Element {
    ghost number = { λ e. e.number.0 };

    fn number(&self) -> u32 {
        self.number.0
    }
}

impl HasNumber for Constraint {
    ghost number = { λ c. c.number.0 };

    fn number(&self) -> u32 {
        self.number.0
    }
}

/// How many items have lesser numbers: they stand in front.
fn place_of<T: HasNumber>(items: &[T], number: u32) -> usize
    requires { IsRising T.number items.now }
    ensures { IsPlaceOf T.number items.now number result }
{
    items.partition_point(|item| item.number() < number)
}

/// Puts an item of another number in its place. After `NoMemory` the list is unchanged.
pub fn put<T: HasNumber>(items: &mut List<T>, item: T) -> Result<(), NoMemory>
    requires rise { IsRising T.number items.old }
    requires other { (x : T) → Contains items.old x → T.number x ≢ T.number item }
    ensures rise { OnOk result (IsRising T.number items.new) }
    ensures put { OnOk result (HasItem item items.old items.new) }
    ensures err { OnErr result (items.new ≡ items.old) }
{
    let place = place_of(items.as_slice(), item.number());
    items.insert(place, item)
}

/// Takes the item of the number out.
pub fn remove<T: HasNumber>(items: &mut List<T>, number: u32)
    requires rise { IsRising T.number items.old }
    requires some { (x : T) × Contains items.old x × (T.number x ≡ number) }
    ensures { items.new ≡ without T.number number items.old }
{
    let place = place_of(items.as_slice(), number);
    items.remove(place);
}

/// Puts the item in the place of the one with its number.
pub fn replace<T: HasNumber>(items: &mut List<T>, item: T)
    requires rise { IsRising T.number items.old }
    requires some { (x : T) × Contains items.old x × (T.number x ≡ T.number item) }
    ensures { items.new ≡ with_item T.number item items.old }
{
    let place = place_of(items.as_slice(), item.number());
    items.set(place, item);
}

/// The item of the number.
pub fn get<T: HasNumber>(items: &[T], number: u32) -> &T
    requires rise { IsRising T.number items.now }
    requires some { (x : T) × Contains items.now x × (T.number x ≡ number) }
    ensures { Contains items.now result.now × (T.number result.now ≡ number) }
{
    &items[place_of(items, number)]
}
