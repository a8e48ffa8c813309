//! What a pool's names say: the contents of a bucket, and the totals.

ghost use Rattle.std.specs.Prelude.{◌≡◌, ◌++◌, ◌<◌, ◌≤◌, ◌^◌, Some, OnOk, IfOk};
ghost use Rattle.pool_changes.specs.Kept.{slots_of};
ghost use Rattle.pool_changes.specs.Listed.{bucket_item_of, IsBucketOf, IsStatsOf, with_slot_stats};
ghost use Rattle.pool_changes.specs.Writing.{option_list};

use crate::key::Key;
use crate::names::Names;
use crate::slot::Slot;
use crate::small::SmallSlot;
use disk_trait::PoolId;
use std::alloc::{AllocError, Global};
use std::marker::Model;

/// A content of a bucket.
#[derive(Clone, Copy, Debug, PartialEq, Eq)]
pub struct BucketItem {
    pub id: PoolId,
    /// Its length in bytes; at least 1.
    pub size: u64,
    /// Whether the last cleaning of its bucket marked it.
    pub mark: bool,
    /// Whether an open dump or restore holds it.
    pub claimed: bool,
}

/// The contents of a bucket, in the order of their names.
#[derive(Debug, Drop)]
pub struct BucketItemList {
    inner: Vec<BucketItem>,
}

impl Model for BucketItemList {
    ghost use Rattle.std.specs.Prelude.{List};
    ghost use Rattle.pool_changes.specs.declared.listing.BucketItem.{BucketItem};

    ghost Value = { List BucketItem };

    ghost view = { λ list. list.inner.items };
}

impl BucketItemList {
    pub fn as_slice(&self) -> &[BucketItem]
        ensures { result.now ≡ self.now }
    {
        self.inner.as_slice()
    }
}

/// How many contents the index lists.
#[derive(Clone, Copy, Debug, PartialEq, Eq)]
pub struct PoolStats {
    pub files: u64,
    /// The sum of their lengths in bytes, which stands still at `u64::MAX`.
    pub bytes: u64,
    /// How many of them are marked.
    pub marked: u64,
}

/// Puts an item behind the others, if there is one.
pub(crate) fn push_some<T: Drop>(items: &mut Vec<T>, item: Option<T>) -> Result<(), AllocError>
    ensures { OnOk result (items.new.items ≡ items.old.items ++ option_list item) }
{
    match item {
        Some(item) => match items.push(item) {
            Ok(()) => Ok(()),
            Err(_) => Err(AllocError),
        },
        None => Ok(()),
    }
}

/// What a cleaning sees of a name.
fn bucket_item(id: &Key, slot: &SmallSlot) -> Option<BucketItem>
    ensures { result ≡ bucket_item_of id.now (Some slot.now) }
{
    match slot.to_slot() {
        Slot::Live { size, mark, claims } => Some(BucketItem {
            id: id.name(),
            size,
            mark,
            claimed: claims > 0,
        }),
        _ => None,
    }
}

/// The live names whose digest begins with a byte that gives the bucket when divided by 16.
pub fn bucket_items(alloc: Global, names: &Names, bucket: u8) -> Result<BucketItemList, AllocError>
    ensures { IfOk result (IsBucketOf (slots_of names.now) bucket) }
{
    let mut inner = Vec::new(alloc);
    if bucket >= 16 {
        return Ok(BucketItemList { inner });
    }
    let first = bucket * 16;
    for (id, slot) in names.between(first, first + 15) {
        match push_some(&mut inner, bucket_item(id, slot)) {
            Ok(()) => {}
            Err(fault) => return Err(fault),
        }
    }
    Ok(BucketItemList { inner })
}

/// The totals with those of one name more.
fn with_name(stats: PoolStats, slot: &SmallSlot) -> PoolStats
    requires few { stats.files < 2 ^ 63 }
    requires marked { stats.marked ≤ stats.files }
    ensures { result ≡ with_slot_stats stats slot.now }
{
    match slot.to_slot() {
        Slot::Live { size, mark, .. } => PoolStats {
            files: stats.files + 1,
            bytes: stats.bytes.saturating_add(size),
            marked: stats.marked + u64::from(mark),
        },
        _ => stats,
    }
}

/// The totals of the live names.
pub fn stats(names: &Names) -> PoolStats
    ensures { IsStatsOf (slots_of names.now) result }
{
    let mut stats = PoolStats {
        files: 0,
        bytes: 0,
        marked: 0,
    };
    for (_, slot) in names.map.iter() {
        stats = with_name(stats, slot);
    }
    stats
}
