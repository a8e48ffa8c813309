//! A reader is opened.

ghost use Rattle.std.specs.Prelude.{◌≡◌, ◌<◌, ◌-◌, ◌^◌, true, false, IfOk, OnErr};
ghost use Rattle.pool_changes.specs.Kept.{slots_of};
ghost use Rattle.pool_changes.specs.Slots.{is_given};
ghost use Rattle.office_model.specs.declared.event.Event.TheVariants.{OpenFile};
ghost use Rattle.store_dumps.specs.Claims.{Gains, claims_of_content};
ghost use Rattle.store_parts.specs.Runs.{Runs};
ghost use Rattle.store_reads.specs.Shown.{IsGivenContent};
ghost use Rattle.store_reads.specs.Told.{ReadsTree, HasDamagedTable, IsReadReply};
ghost use Rattle.store_readers.specs.Opening.{HasOpened, HasKept, OpensFile};

use attr_records::{HostName, PathName};
use disk_trait::{Disk, PoolId};
use office_model::{Answer, BrokenRule, Refusal};
use pool_name::Namer;
use pool_store::Pool;
use std::alloc::{AllocError, Global};
use store_dumps::claim_id;
use store_parts::StoreParts;
use store_reads::{file_of, load_backup};

/// Claims a content, if there is one; a claim must have been made sure of.
fn claim_content<N: Namer>(pool: &mut Pool<N>, content: Option<PoolId>)
    requires { 0 < pool.old.spare }
    ensures gains { IsGivenContent (λ id. is_given (slots_of pool.old.names id) ≡ true) content
        → Gains (λ id. claims_of_content content id) (slots_of pool.old.names) (slots_of pool.new.names) }
    ensures form { pool.new.in_one_file ≡ pool.old.in_one_file }
{
    match content {
        Some(id) => claim_id(pool, id),
        None => {}
    }
}

/// Opens a reader of a content of this size, which it claims; or says that memory is wanting, and the same is open and claimed
/// as before.
fn open_with<D: Disk, N: Namer>(
    parts: &mut StoreParts<D, N>,
    content: Option<PoolId>,
    size: u64,
) -> Result<u64, AllocError>
    requires { parts.old.sessions.readers.next < 2 ^ 64 - 1 }
    ensures ok { IfOk result (λ reader. HasOpened parts.old content size reader parts.new) }
    ensures err { OnErr result (HasKept parts.old parts.new) }
{
    parts.pool.reserve(1)?;
    let digest = parts.pool.namer().start();
    let reader = parts.sessions.readers.open(content, size, digest)?;
    claim_content(&mut parts.pool, content);
    Ok(reader)
}

/// Opens a reader of the file at a path of a backup, whose content it claims. It refuses a host, a backup or a path that isn't
/// there, a path of no file, a spent number of readers, a table that is damaged, a fault of the disk and want of memory; then
/// nothing has changed but which view is kept.
pub fn open_file<D: Disk, N: Namer>(
    parts: &mut StoreParts<D, N>,
    alloc: Global,
    host: &HostName,
    number: u32,
    path: &PathName,
) -> Result<Answer, Refusal>
    requires ready { parts.old.halted ≡ false }
    requires journal_ready { parts.old.journal.halted ≡ false }
    ensures runs { Runs parts.old (OpenFile host.now number path.now) result parts.new }
    ensures read { IsReadReply (ReadsTree parts.old host.now number) (HasDamagedTable parts.old host.now number)
        (λ rows reply. OpensFile N.holds parts.old.sessions path.now rows reply parts.new.sessions) result }
{
    match load_backup(parts, alloc, host, number) {
        Ok(()) => {}
        Err(refusal) => return Err(refusal),
    }
    let file = match file_of(parts.views.find(path)) {
        Ok(file) => file,
        Err(rule) => return Err(Refusal::Broken(rule)),
    };
    if parts.sessions.readers.next >= u64::MAX {
        return Err(Refusal::Broken(BrokenRule::NumbersSpent));
    }
    match open_with(parts, file.content, file.size) {
        Ok(reader) => Ok(Answer::Opened {
            reader,
            size: file.size,
        }),
        Err(_) => Err(Refusal::Memory),
    }
}
