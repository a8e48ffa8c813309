//! The cleaning of a bucket.

ghost use Rattle.std.specs.Prelude.{◌≡◌, IfOk, length};
ghost use Rattle.pool_changes.specs.Kept.{slots_of};
ghost use Rattle.pool_changes.specs.Listed.{index_of};
ghost use Rattle.pool_changes.specs.Indexed.{after};
ghost use Rattle.pool_changes.specs.Written.{LeadsIndex};
ghost use Rattle.nightly_clean.specs.Cleanings.{is_named, is_protected, wanted_ids, IsCleaning};

use disk_trait::PoolId;
use pool_changes::{BucketItem, IndexChange};
use pool_fate::{Fate, fate_of};
use pool_name::Namer;
use pool_store::Pool;
use ref_counts::{Counts, number};
use std::alloc::{AllocError, Global};

/// What a cleaning changes of the pool's index, and how many contents gain the mark, lose it and leave.
#[derive(Drop)]
pub struct Cleaning {
    pub change: IndexChange,
    pub marked: u64,
    pub unmarked: u64,
    pub removed: u64,
}

/// Whether some host's counts have a number of the content.
fn is_named(counts: &[Counts], id: PoolId) -> bool
    ensures { result ≡ is_named counts.now id }
{
    for host in counts {
        if number(host, id) > 0 {
            return true;
        }
    }
    false
}

/// Whether a backup, an open dump or an open restore holds the content.
fn is_protected(counts: &[Counts], item: &BucketItem) -> bool
    ensures { result ≡ is_protected counts.now item.now }
{
    item.claimed || is_named(counts, item.id)
}

/// The names of the contents that have this fate.
fn wanted_ids(
    alloc: Global,
    items: &[BucketItem],
    counts: &[Counts],
    fate: Fate,
) -> Result<Vec<PoolId>, AllocError>
    ensures { IfOk result (λ ids. ids.items ≡ wanted_ids fate (is_protected counts.now) items.now) }
{
    let mut ids = Vec::new(alloc);
    for item in items {
        if fate_of(true, is_protected(counts, item), item.mark).is_same(fate) {
            ids.push(item.id)?;
        }
    }
    Ok(ids)
}

/// How many names there are.
fn count(ids: &[PoolId]) -> u64
    ensures { result ≡ length ids.now }
{
    ids.len() as u64
}

/// The change of the index that cleans a bucket, the first byte of digests divided by 16: a content that no host's
/// counts name and nothing claims gains the mark, and leaves the pool if it has it already; another one loses it. The
/// counts are those of all hosts. The pool stays as it is until the change is accepted. Want of memory is the one
/// refusal; the memory that it takes grows with the bucket.
pub fn clean<N: Namer>(
    alloc: Global,
    pool: &Pool<N>,
    counts: &[Counts],
    bucket: u8,
) -> Result<Cleaning, AllocError>
    ensures cleaned { IfOk result (IsCleaning (slots_of pool.now.names) bucket counts.now) }
    ensures leads { IfOk result (λ cleaning. LeadsIndex pool.now.in_one_file (index_of (slots_of pool.now.names))
        (index_of (after cleaning.change (slots_of pool.now.names))) cleaning.change.changes) }
{
    let items = pool.bucket_items(alloc, bucket)?;
    let gained = wanted_ids(alloc, items.as_slice(), counts, Fate::Gains)?;
    let lost = wanted_ids(alloc, items.as_slice(), counts, Fate::Loses)?;
    let left = wanted_ids(alloc, items.as_slice(), counts, Fate::Leaves)?;
    let change = pool.propose(alloc, gained.as_slice(), lost.as_slice(), left.as_slice())?;
    let marked = count(gained.as_slice());
    let unmarked = count(lost.as_slice());
    let removed = count(left.as_slice());
    Ok(Cleaning {
        change,
        marked,
        unmarked,
        removed,
    })
}
