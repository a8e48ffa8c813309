//! Counts, and what sums and differences of them are.

ghost use Rattle.std.specs.Prelude.{◌≡◌, ◌+◌, ◌-◌, [], ℕ, IfOk, Option};
ghost use Rattle.std.specs.Option.{option_copied, option_map, unwrap_or};
ghost use Rattle.disk_trait.specs.declared.ids.PoolId.{PoolId};
ghost use Rattle.ordered_lists.specs.Merge.{entry_at};
ghost use Rattle.ref_counts.specs.Numbers.{AreCounts, number, capped, item_of};

use crate::item::CountItem;
use disk_trait::PoolId;
use ordered_lists::{Rule, find, merge};
use std::alloc::{AllocError, Global};
use std::cmp::Ordering;
use std::marker::Model;

/// How often each content of the pool is named: items in the order of their ids, each with a number of at least 1.
#[derive(Debug)]
pub struct Counts {
    items: Vec<CountItem>,
}

impl Model for Counts {
    ghost use Rattle.std.specs.Prelude.{List, ℕ};
    ghost use Rattle.disk_trait.specs.declared.ids.PoolId.{PoolId};
    ghost use Rattle.ref_counts.specs.Numbers.{AreCounts};

    ghost Value = { List (PoolId × ℕ) };

    ghost view = { λ c. c.items.items };

    ghost invariant = { λ c. AreCounts c.items.items };
}

/// Written out: what is in it is then dropped here, for the prover too, and not in each crate above.
impl Drop for Counts {
    fn drop(self) {
        let Counts { items: _ } = self;
    }
}

impl Counts {
    /// No items; takes no memory.
    pub fn new(alloc: Global) -> Counts
        ensures { result ≡ [] }
    {
        Counts {
            items: Vec::new(alloc),
        }
    }

    /// The counts of items in order, which takes no memory.
    pub(crate) fn from_items(items: Vec<CountItem>) -> Counts
        requires { AreCounts items.items }
        ensures { result ≡ items.items }
    {
        Counts { items }
    }

    pub fn items(&self) -> &[CountItem]
        ensures items { result.now ≡ self.now }
        ensures are { AreCounts self.now }
    {
        self.items.as_slice()
    }

    /// Equal counts, or want of memory.
    pub fn copy(&self, alloc: Global) -> Result<Counts, AllocError>
        ensures { IfOk result (λ copy. copy ≡ self.now) }
    {
        let mut items = Vec::new(alloc);
        for item in self.items.as_slice() {
            items.push(CountItem::new(item.id(), item.number()))?;
        }
        Ok(Counts { items })
    }
}

/// The number of an id, 0 if it has no item.
pub fn number(counts: &Counts, id: PoolId) -> u64
    ensures { result ≡ number counts.now id }
{
    match find(counts.items(), |item: &CountItem| item.id().cmp(&id)) {
        Some(item) => item.number(),
        None => 0,
    }
}

/// The number of an item, 0 of none.
fn number_of(item: Option<&CountItem>) -> u64
    ensures { result ≡ unwrap_or (option_map (λ item. item.1) (option_copied item.entry)) 0 }
{
    match item {
        Some(item) => item.number(),
        None => 0,
    }
}

/// An item for the id of the left one, or else of the right one, if the number isn't 0.
fn made(left: Option<&CountItem>, right: Option<&CountItem>, number: u64) -> Option<CountItem>
    ensures { result ≡ entry_at (λ (_ _ : Option ℕ). item_of number) (option_copied left.entry) (option_copied right.entry) }
{
    let id = match left {
        Some(item) => item.id(),
        None => match right {
            Some(item) => item.id(),
            None => return None,
        },
    };
    if number > 0 {
        Some(CountItem::new(id, number))
    } else {
        None
    }
}

/// The sum of two numbers at each id.
struct Sum;

impl Rule for Sum {
    ghost use Rattle.std.specs.Prelude.{ℕ};
    ghost use Rattle.disk_trait.specs.declared.ids.PoolId.{PoolId};
    ghost use Rattle.pool_index.specs.Items.{id_cmp};
    ghost use Rattle.ref_counts.specs.Numbers.{summed};

    type Entry = CountItem;

    ghost Key = { PoolId };

    ghost Held = { ℕ };

    ghost entry = { λ item. item };

    ghost order = { id_cmp };

    ghost gives = { summed };

    fn compare<'a>(left: &'a CountItem, right: &'a CountItem) -> Ordering {
        left.id().cmp(&right.id())
    }

    fn make<'a>(
        _alloc: Global,
        left: Option<&'a CountItem>,
        right: Option<&'a CountItem>,
    ) -> Result<Option<CountItem>, AllocError> {
        let number = number_of(left).saturating_add(number_of(right));
        Ok(made(left, right, number))
    }
}

/// What the left number has more at each id.
struct Less;

impl Rule for Less {
    ghost use Rattle.std.specs.Prelude.{ℕ};
    ghost use Rattle.disk_trait.specs.declared.ids.PoolId.{PoolId};
    ghost use Rattle.pool_index.specs.Items.{id_cmp};
    ghost use Rattle.ref_counts.specs.Numbers.{less};

    type Entry = CountItem;

    ghost Key = { PoolId };

    ghost Held = { ℕ };

    ghost entry = { λ item. item };

    ghost order = { id_cmp };

    ghost gives = { less };

    fn compare<'a>(left: &'a CountItem, right: &'a CountItem) -> Ordering {
        left.id().cmp(&right.id())
    }

    fn make<'a>(
        _alloc: Global,
        left: Option<&'a CountItem>,
        right: Option<&'a CountItem>,
    ) -> Result<Option<CountItem>, AllocError> {
        let number = number_of(left).saturating_sub(number_of(right));
        Ok(made(left, right, number))
    }
}

/// The sum of two counts at each id, or want of memory. A number that would pass 2^64 - 1 stays at it.
pub fn add(alloc: Global, counts: &Counts, more: &Counts) -> Result<Counts, AllocError>
    ensures { IfOk result (λ sum. (id : PoolId) → number sum id ≡ capped (number counts.now id + number more.now id)) }
{
    let items = merge::<Sum>(alloc, counts.items(), more.items())?;
    Ok(Counts::from_items(items))
}

/// What is left of counts at each id after others are taken away, or want of memory. Of a number that is smaller
/// than what is taken, nothing is left; and an id of which nothing is left has no item.
pub fn take(alloc: Global, counts: &Counts, less: &Counts) -> Result<Counts, AllocError>
    ensures { IfOk result (λ rest. (id : PoolId) → number rest id ≡ number counts.now id - number less.now id) }
{
    let items = merge::<Less>(alloc, counts.items(), less.items())?;
    Ok(Counts::from_items(items))
}
