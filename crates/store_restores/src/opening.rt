//! A restore is opened.

ghost use Rattle.std.specs.Prelude.{◌≡◌, ◌<◌, ◌≤◌, ◌-◌, ◌^◌, ℕ, Some, true, false, length, slice_get, IfOk, OnErr};
ghost use Rattle.disk_trait.specs.declared.ids.PoolId.{PoolId};
ghost use Rattle.stored_trees.specs.Occurrences.{occurrences};
ghost use Rattle.journal_view.specs.View.{told};
ghost use Rattle.pool_changes.specs.Kept.{slots_of};
ghost use Rattle.pool_changes.specs.Slots.{is_given};
ghost use Rattle.open_sessions.specs.declared.sessions.OpenRestore.{OpenRestore};
ghost use Rattle.office_model.specs.declared.event.Event.TheVariants.{OpenRead};
ghost use Rattle.store_dumps.specs.Claims.{Gains};
ghost use Rattle.store_parts.specs.Runs.{Runs};
ghost use Rattle.store_restores.specs.Opening.{HasOpened, HasKept, SaysOpened};
ghost use Rattle.store_restores.specs.Since.{removed_since, rows_since};

use crate::bases::read_base;
use crate::sharing::shared_rows;
use crate::since::{Since, since_base};
use attr_records::HostName;
use attr_tables::Table;
use disk_trait::Disk;
use office_model::{Answer, BrokenRule, Refusal, SessionName};
use open_sessions::{OpenRestore, Sessions};
use pool_name::Namer;
use pool_store::Pool;
use shared_tables::SharedTable;
use std::alloc::{AllocError, Global};
use store_dumps::claim_rows;
use store_parts::StoreParts;
use store_reads::read_backup;

/// Claims the contents that the rows of the backup of the restore at this place name; as many claims must have been made sure of.
fn claim_restore<N: Namer>(pool: &mut Pool<N>, sessions: &Sessions<N::State>, at: usize)
    requires there { at < length sessions.now.restores.items }
    requires spare { (restore : OpenRestore N.State) → slice_get sessions.now.restores.items at ≡ Some restore
        → length restore.whole ≤ pool.old.spare }
    ensures gains { (restore : OpenRestore N.State) → slice_get sessions.now.restores.items at ≡ Some restore
        → ((id : PoolId) → 0 < occurrences id restore.whole → is_given (slots_of pool.old.names id) ≡ true)
        → Gains (λ id. occurrences id restore.whole) (slots_of pool.old.names) (slots_of pool.new.names) }
    ensures form { pool.new.in_one_file ≡ pool.old.in_one_file }
{
    claim_rows(pool, sessions.restores[at].whole.rows());
}

/// Opens a restore of these rows, each of which claims its content; or says that memory is wanting, and the same is open
/// and claimed as before.
fn open_shared<D: Disk, N: Namer>(
    parts: &mut StoreParts<D, N>,
    whole: SharedTable,
    since: Since,
) -> Result<SessionName, AllocError>
    requires { parts.old.sessions.sequence < 2 ^ 64 - 1 }
    ensures ok { IfOk result (λ name. HasOpened parts.old whole since.removed since.rows name parts.new) }
    ensures err { OnErr result (HasKept parts.old parts.new) }
    ensures journal { parts.new.journal ≡ parts.old.journal }
{
    parts.pool.reserve(whole.len())?;
    let at = parts.sessions.restores.len();
    let name = SessionName {
        epoch: parts.catalog.epoch(),
        sequence: parts.sessions.sequence,
    };
    let Since { removed, rows } = since;
    parts
        .sessions
        .open_restore(OpenRestore::new(name, whole, removed, rows))?;
    claim_restore(&mut parts.pool, &parts.sessions, at);
    Ok(name)
}

/// Opens a restore of these rows, which it shares with whoever has them in memory, and each of which claims its content; with
/// the rows of a base it gives what leads from these, which are let go. Or it says that memory is wanting, and the same is open
/// and claimed as before.
fn open_with<D: Disk, N: Namer>(
    parts: &mut StoreParts<D, N>,
    alloc: Global,
    rows: Table,
    older: Option<Table>,
) -> Result<SessionName, AllocError>
    requires { parts.old.sessions.sequence < 2 ^ 64 - 1 }
    ensures ok { IfOk result (λ name. HasOpened parts.old rows (removed_since older rows) (rows_since older rows) name parts.new) }
    ensures err { OnErr result (HasKept parts.old parts.new) }
    ensures journal { parts.new.journal ≡ parts.old.journal }
{
    let whole = match shared_rows(&parts.sessions, &parts.views, alloc, rows) {
        Ok(shared) => shared,
        Err(fault) => return Err(fault),
    };
    match since_base(alloc, &whole, older) {
        Ok(since) => open_shared(parts, whole, since),
        Err(fault) => Err(fault),
    }
}

/// Opens a restore of a backup, whose contents it claims; with a base, another backup of the host, of what leads from it to
/// this one. Restores of one backup hold its rows in memory once; the rows of the base are let go, and claim nothing. It
/// refuses a host or a backup that isn't there, a spent number of sessions, a table that is damaged, a fault of the disk and
/// want of memory; then nothing has changed.
pub fn open_read<D: Disk, N: Namer>(
    parts: &mut StoreParts<D, N>,
    alloc: Global,
    host: &HostName,
    number: u32,
    base: Option<u32>,
) -> Result<Answer, Refusal>
    requires ready { parts.old.halted ≡ false }
    requires journal_ready { parts.old.journal.halted ≡ false }
    ensures runs { Runs parts.old (OpenRead host.now number base) result parts.new }
    ensures read { SaysOpened parts.old host.now number base result parts.new }
    ensures quiet { told parts.new.journal ≡ told parts.old.journal }
{
    let rows = match read_backup(parts, alloc, host, number) {
        Ok(rows) => rows,
        Err(refusal) => return Err(refusal),
    };
    let older = match read_base(parts, alloc, host, base) {
        Ok(older) => older,
        Err(refusal) => return Err(refusal),
    };
    if parts.sessions.sequence >= u64::MAX {
        return Err(Refusal::Broken(BrokenRule::NumbersSpent));
    }
    match open_with(parts, alloc, rows, older) {
        Ok(name) => Ok(Answer::Restore(name)),
        Err(_) => Err(Refusal::Memory),
    }
}
