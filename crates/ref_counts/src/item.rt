//! The items of counts.

ghost use Rattle.std.specs.Prelude.{◌≡◌};
ghost use Rattle.ordered_lists.specs.Order.{is_after};
ghost use Rattle.pool_index.specs.Items.{id_cmp};

use disk_trait::PoolId;
use ordered_lists::Entry;
use std::cmp::Ordering;
use std::marker::Model;

/// An id with its number.
#[derive(Debug, Drop)]
pub struct CountItem {
    id: PoolId,
    number: u64,
}

impl Model for CountItem {
    ghost use Rattle.std.specs.Prelude.{ℕ};
    ghost use Rattle.disk_trait.specs.declared.ids.PoolId.{PoolId};

    ghost Value = { PoolId × ℕ };

    ghost view = { λ i. (i.id, i.number) };
}

impl CountItem {
    pub fn new(id: PoolId, number: u64) -> CountItem
        ensures { result ≡ (id, number) }
    {
        CountItem { id, number }
    }

    pub fn id(&self) -> PoolId
        ensures { result ≡ self.now.0 }
    {
        self.id
    }

    pub fn number(&self) -> u64
        ensures { result ≡ self.now.1 }
    {
        self.number
    }
}

impl Entry for CountItem {
    ghost use Rattle.std.specs.Prelude.{ℕ};
    ghost use Rattle.disk_trait.specs.declared.ids.PoolId.{PoolId};
    ghost use Rattle.pool_index.specs.Items.{id_cmp};
    ghost use Rattle.pool_index.specs.ItemLaws.{id_total};

    ghost Key = { PoolId };

    ghost Held = { ℕ };

    ghost entry = { λ item. item };

    ghost order = { id_cmp };

    ghost total = { id_total };

    fn compare(&self, other: &CountItem) -> Ordering {
        self.id.cmp(&other.id)
    }
}

/// Whether an id comes after that of the last item, if there is one.
pub(crate) fn is_after(items: &[CountItem], id: PoolId) -> bool
    ensures { result ≡ is_after id_cmp items.now id }
{
    match items {
        [] => true,
        [.., last] => last.id().cmp(&id).is_lt(),
    }
}
