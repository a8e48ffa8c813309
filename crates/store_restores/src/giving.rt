//! The removal and the entry of a row of a restore.

ghost use Rattle.std.specs.Prelude.{◌≡◌, ◌<◌, ◌+◌, ◌-◌, ◌^◌, Some, length, slice_get, IfOk, OnErr};
ghost use Rattle.open_sessions.specs.declared.sessions.OpenRestore.{OpenRestore as OpenRestoreValue};
ghost use Rattle.open_sessions.specs.Places.{at_removal, behind_entry};
ghost use Rattle.store_restores.specs.Giving.{count_of, entry_in, removal_in, MovesTo};

use attr_tables::Row;
use office_model::Frame;
use open_sessions::Sessions;
use std::alloc::{AllocError, Global};
use store_reads::node_of;

/// How many rows there are.
fn count_of(rows: &[Row]) -> u32
    ensures { result ≡ count_of rows.now }
{
    rows.len().min(u32::MAX as usize) as u32
}

/// The entry of a row; behind the last row the end.
fn entry_at(alloc: Global, rows: &[Row], row: usize) -> Result<Frame, AllocError>
    ensures { IfOk result (λ frame. frame ≡ entry_in rows.now row) }
{
    let found = match rows.get(row) {
        Some(found) => found,
        None => return Ok(Frame::End(count_of(rows))),
    };
    match node_of(alloc, found.node())? {
        Some(node) => {
            let path = found.path().copy(alloc)?;
            Ok(Frame::Entry { path, node })
        }
        None => Ok(Frame::End(count_of(rows))),
    }
}

/// The removal of a row; a place stands at none that isn't there.
fn removal_at(alloc: Global, removed: &[Row], row: usize) -> Result<Frame, AllocError>
    ensures { IfOk result (λ frame. frame ≡ removal_in removed.now row) }
{
    match removed.get(row) {
        Some(found) => Ok(Frame::Deleted(found.path().copy(alloc)?)),
        None => Ok(Frame::End(0)),
    }
}

/// Tells the removal of a row of the restore at an index, which moves on behind it; or says that memory is wanting, with
/// nothing changed.
pub(crate) fn give_removal<S: Drop>(
    sessions: &mut Sessions<S>,
    alloc: Global,
    at: usize,
    row: usize,
) -> Result<Frame, AllocError>
    requires there { at < length sessions.old.restores.items }
    requires row { row < 2 ^ 64 - 1 }
    ensures frame { IfOk result (λ frame. (restore : OpenRestoreValue S) → slice_get sessions.old.restores.items at ≡ Some restore
        → frame ≡ removal_in restore.removed row) }
    ensures moves { IfOk result (λ frame. (restore : OpenRestoreValue S) → slice_get sessions.old.restores.items at ≡ Some restore
        → MovesTo sessions.old at restore (at_removal (row + 1) (slice_get restore.removed (row + 1))) sessions.new) }
    ensures err { OnErr result (sessions.new ≡ sessions.old) }
{
    let frame = removal_at(alloc, sessions.restores[at].removed.rows(), row)?;
    sessions.pass_removal(at, row);
    Ok(frame)
}

/// Gives the entry of a row of the restore at an index, which moves on behind it; or says that memory is wanting, with
/// nothing changed.
pub(crate) fn give_entry<S: Drop>(
    sessions: &mut Sessions<S>,
    alloc: Global,
    at: usize,
    row: usize,
) -> Result<Frame, AllocError>
    requires { at < length sessions.old.restores.items }
    ensures frame { IfOk result (λ frame. (restore : OpenRestoreValue S) → slice_get sessions.old.restores.items at ≡ Some restore
        → frame ≡ entry_in restore.rows row) }
    ensures moves { IfOk result (λ frame. (restore : OpenRestoreValue S) → slice_get sessions.old.restores.items at ≡ Some restore
        → MovesTo sessions.old at restore (behind_entry row (slice_get restore.rows row)) sessions.new) }
    ensures err { OnErr result (sessions.new ≡ sessions.old) }
{
    let frame = entry_at(alloc, sessions.restores[at].rows.rows(), row)?;
    sessions.pass_entry(at, row);
    Ok(frame)
}
