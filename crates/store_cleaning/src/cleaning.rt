//! The cleaning of a bucket of the pool.

ghost use Rattle.std.specs.Prelude.{◌≡◌, ◌==◌, ◌&&◌, false, Ok};
ghost use Rattle.office_model.specs.declared.answer.Answer.TheVariants.{Cleaned};
ghost use Rattle.office_model.specs.declared.event.Event.TheVariants.{Clean};
ghost use Rattle.office_model.specs.History.{IsUndamaged};
ghost use Rattle.store_parts.specs.Runs.{Runs};

use disk_trait::Disk;
use nightly_clean::Cleaning;
use office_model::{Answer, BrokenRule, Refusal};
use pool_name::Namer;
use std::alloc::Global;
use store_parts::StoreParts;

const BUCKETS: u8 = 16;

/// Whether a cleaning changes no mark and removes no content.
fn changes_nothing(cleaning: &Cleaning) -> bool
    ensures { result ≡ ((cleaning.now.marked == 0 && cleaning.now.unmarked == 0) && cleaning.now.removed == 0) }
{
    cleaning.marked == 0 && cleaning.unmarked == 0 && cleaning.removed == 0
}

/// Cleans a bucket, the contents whose digests' first byte divided by 16 is this, and answers how many gain the mark, lose it
/// and leave the pool: a content that no backup, partial dump, open dump or open restore holds and no open reader gives gains the
/// mark, and leaves the pool if it had it; any other one loses it. After Ok this is durable. There are 16 buckets; of another one,
/// and for want of memory, nothing is done. After a `DiskFault` the store is halted. If nothing changes, the disk isn't touched.
pub fn clean<D: Disk, N: Namer>(
    parts: &mut StoreParts<D, N>,
    alloc: Global,
    bucket: u8,
) -> Result<Answer, Refusal>
    requires { parts.old.journal.halted ≡ false }
    ensures runs { Runs parts.old (Clean bucket) result parts.new }
    ensures undamaged { IsUndamaged result }
    ensures still { result ≡ Ok (Cleaned 0 0 0) → parts.new ≡ parts.old }
{
    if bucket >= BUCKETS {
        return Err(Refusal::Broken(BrokenRule::BadBucket));
    }
    let cleaning = nightly_clean::clean(alloc, &parts.pool, parts.counts.as_slice(), bucket)?;
    if changes_nothing(&cleaning) {
        return Ok(Answer::Cleaned {
            marked: 0,
            unmarked: 0,
            removed: 0,
        });
    }
    match parts.write(alloc, cleaning.change.changes()) {
        Ok(()) => {}
        Err(refusal) => return Err(refusal),
    }
    let answer = Answer::Cleaned {
        marked: cleaning.marked,
        unmarked: cleaning.unmarked,
        removed: cleaning.removed,
    };
    parts.pool.accept(cleaning.change);
    Ok(answer)
}
