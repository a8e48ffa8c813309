//! A content that a put may hold is compared with its bytes before any digest is made.

ghost use Rattle.std.specs.Prelude.{◌≡◌, ◌⊎◌, ◌<◌, Some, true, false, length, slice_get, IfOk, IfErr, OnOk, OnErr, IsErrOf};
ghost use Rattle.std.specs.Option.{option_copied};
ghost use Rattle.fault_counts.specs.Counts.{Counted};
ghost use Rattle.disk_trait.specs.Files.{Files};
ghost use Rattle.disk_trait.specs.Images.{Leaves};
ghost use Rattle.intent_journal.specs.Overlay.{ComesTo};
ghost use Rattle.attr_records.specs.Trees.{node_at};
ghost use Rattle.pool_changes.specs.Kept.{slots_of, IsSame, IsSet};
ghost use Rattle.pool_changes.specs.Slots.{is_given, claimed, unlisted};
ghost use Rattle.pool_store.specs.Pools.{IsCertain};
ghost use Rattle.open_sessions.specs.declared.sessions.OpenDump.{OpenDump};
ghost use Rattle.open_sessions.specs.Opened.{base_of};
ghost use Rattle.store_dumps.specs.Comparing.{hint_at, content_sized, likely, IsHeldBy};

use attr_records::PathName;
use attr_tables::Record;
use disk_trait::{Disk, PoolId};
use intent_journal::Journal;
use open_sessions::Sessions;
use pool_name::Namer;
use pool_store::{Pool, PoolFault};
use shared_tables::SharedTable;
use std::alloc::{AllocError, Global};

/// The content of a file of this length that was found, if one was.
fn content_sized(found: Option<&Record>, size: usize) -> Option<PoolId>
    ensures { result ≡ content_sized (option_copied found.entry) size }
{
    match found {
        Some(Record::File(file)) => {
            if file.size == size as u64 {
                file.content
            } else {
                None
            }
        }
        _ => None,
    }
}

/// What a dump's hint has at a path.
fn hint_at<'a>(hint: &'a Option<SharedTable>, path: &PathName) -> Option<&'a Record>
    ensures { option_copied result ≡ hint_at hint.now path.now }
{
    match hint {
        Some(rows) => rows.find(path),
        None => None,
    }
}

/// The content of this length that a dump's hint has at a path, or else the dump's tree.
fn hinted_content<S: Drop>(
    sessions: &Sessions<S>,
    at: usize,
    path: &PathName,
    size: usize,
) -> Option<PoolId>
    requires { at < length sessions.now.dumps.items }
    ensures { (dump : OpenDump) → slice_get sessions.now.dumps.items at ≡ Some dump
        → result ≡ likely (content_sized (hint_at dump.hint path.now) size) (content_sized (node_at dump.tree path.now) size) }
{
    match content_sized(hint_at(&sessions.dump(at).hint, path), size) {
        Some(id) => Some(id),
        None => content_sized(sessions.find(at, path), size),
    }
}

/// The content of this length that a dump's base has at a path, or else its hint, or else its tree.
pub(crate) fn likely_content<S: Drop>(
    sessions: &Sessions<S>,
    at: usize,
    path: &PathName,
    size: usize,
) -> Option<PoolId>
    requires { at < length sessions.now.dumps.items }
    ensures { (dump : OpenDump) → slice_get sessions.now.dumps.items at ≡ Some dump
        → result ≡ likely (content_sized (node_at (base_of dump) path.now) size)
        (likely (content_sized (hint_at dump.hint path.now) size) (content_sized (node_at dump.tree path.now) size)) }
{
    match content_sized(sessions.dump(at).base.find(path), size) {
        Some(id) => Some(id),
        None => hinted_content(sessions, at, path, size),
    }
}

/// The likely content, if it is given and its file holds exactly these bytes. No digest is made.
pub(crate) fn held_by<D: Disk, N: Namer>(
    pool: &Pool<N>,
    journal: &mut Journal<D>,
    alloc: Global,
    likely: Option<PoolId>,
    bytes: &[u8],
) -> Result<Option<PoolId>, PoolFault>
    requires { journal.old.halted ≡ false }
    ensures held { IfOk result (IsHeldBy (slots_of pool.now.names) (D.files journal.old.disk) bytes.now likely) }
    ensures fault { IfErr result (λ fault. (fault ≡ PoolFault.Disk) ⊎ (fault ≡ PoolFault.Memory)) }
    ensures told { D.files journal.new.disk ≡ D.files journal.old.disk }
    ensures certain { IsCertain (slots_of pool.now.names) (D.uncertain journal.old.disk) → IsCertain (slots_of pool.now.names) (D.uncertain journal.new.disk) }
    ensures crash { (all : Files) → D.files journal.old.disk ≡ Some all → IsCertain (slots_of pool.now.names) (D.uncertain journal.old.disk)
        → Leaves D.moment D.left_since journal.old.disk journal.new.disk (ComesTo all (unlisted (slots_of pool.now.names))) }
    ensures stays { journal.new.halted ≡ journal.old.halted }
    ensures counted { Counted (D.fault_count journal.old.disk) (D.fault_count journal.new.disk) (IsErrOf result PoolFault.Disk) }
{
    let id = match likely {
        Some(id) => id,
        None => return Ok(None),
    };
    match pool.holds(alloc, journal, id, bytes) {
        Ok(true) => Ok(Some(id)),
        Ok(false) => Ok(None),
        Err(fault) => Err(fault),
    }
}

/// Claims a given content, or says that memory is wanting.
pub(crate) fn claim_again<N: Namer>(pool: &mut Pool<N>, id: PoolId) -> Result<(), AllocError>
    requires { is_given (slots_of pool.old.names id) ≡ true }
    ensures ok { OnOk result (IsSet (slots_of pool.old.names) (slots_of pool.new.names) id (claimed (slots_of pool.old.names id))) }
    ensures err { OnErr result (IsSame (slots_of pool.old.names) (slots_of pool.new.names)) }
    ensures form { pool.new.in_one_file ≡ pool.old.in_one_file }
{
    pool.reserve(1)?;
    pool.claim(id);
    Ok(())
}
