//! The contents of a part of the pool.

ghost use Rattle.std.specs.Prelude.{◌≡◌, ◌++◌, [], IfOk, OnOk};
ghost use Rattle.office_model.specs.declared.event.Event.TheVariants.{PoolList};
ghost use Rattle.office_model.specs.History.{IsUndamaged};
ghost use Rattle.pool_changes.specs.Kept.{slots_of};
ghost use Rattle.pool_changes.specs.Listed.{index_of};
ghost use Rattle.store_parts.specs.Runs.{Runs};
ghost use Rattle.store_checks.specs.Listing.{IsPartOf, ListsPart, item_of_part, items_of_part, pushed};

use disk_trait::Disk;
use office_model::{Answer, PoolItemList, Refusal};
use pool_changes::BucketItem;
use pool_index::IndexItem;
use pool_name::Namer;
use pool_store::Pool;
use std::alloc::{AllocError, Global};
use store_parts::StoreParts;

/// What the index says of a content of a bucket, if the content is of a part.
fn item_of(part: u8, item: &BucketItem) -> Option<IndexItem>
    ensures { result ≡ item_of_part part item.now }
{
    if item.id.digest[0] != part {
        return None;
    }
    Some(IndexItem {
        id: item.id,
        size: item.size,
        mark: item.mark,
    })
}

/// A list with an item more, if there is one; or want of memory.
fn push(list: &mut PoolItemList, item: Option<IndexItem>) -> Result<(), AllocError>
    ensures { OnOk result (list.new ≡ list.old ++ pushed item []) }
{
    match item {
        Some(item) => list.push(item),
        None => Ok(()),
    }
}

/// The contents of a part among those of a bucket, or want of memory.
fn picked(alloc: Global, part: u8, items: &[BucketItem]) -> Result<PoolItemList, AllocError>
    ensures { IfOk result (λ list. list ≡ items_of_part part items.now) }
{
    let mut list = PoolItemList::new(alloc);
    for item in items {
        push(&mut list, item_of(part, item))?;
    }
    Ok(list)
}

/// The live contents of a part, in the order of their names, or want of memory. It looks at the bucket of the part alone, a
/// sixteenth of the index.
fn items_of<N: Namer>(alloc: Global, pool: &Pool<N>, part: u8) -> Result<PoolItemList, AllocError>
    ensures { IfOk result (IsPartOf (index_of (slots_of pool.now.names)) part) }
{
    let bucket = pool.bucket_items(alloc, part / 16)?;
    picked(alloc, part, bucket.as_slice())
}

/// The name, the size and the mark of each content whose digest begins with a byte, in the order of their names. It reads no
/// file, and is refused for want of memory alone.
pub fn pool_list<D: Disk, N: Namer>(
    parts: &StoreParts<D, N>,
    alloc: Global,
    part: u8,
) -> Result<Answer, Refusal>
    ensures runs { Runs parts.now (PoolList part) result parts.now }
    ensures lists { IfOk result (ListsPart (index_of (slots_of parts.now.pool.names)) part) }
    ensures undamaged { IsUndamaged result }
{
    match items_of(alloc, &parts.pool, part) {
        Ok(items) => Ok(Answer::PoolItems(items)),
        Err(_) => Err(Refusal::Memory),
    }
}
