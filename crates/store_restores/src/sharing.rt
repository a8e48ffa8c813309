//! The rows of a restore, which are in memory once for all restores of a backup.

ghost use Rattle.std.specs.Prelude.{◌≡◌, true, IfOk, IfSome};

use attr_tables::{Row, Table};
use backup_views::Views;
use open_sessions::Sessions;
use shared_tables::SharedTable;
use std::alloc::{AllocError, Global};

/// Whether two rows are one.
fn is_same(row: &Row, other: &Row) -> bool
    ensures { result ≡ true → row.now ≡ other.now }
{
    if row.path().as_slice() != other.path().as_slice() {
        return false;
    }
    row.node().is_same(other.node())
}

/// Whether these are the same rows.
fn are_same(rows: &[Row], others: &[Row]) -> bool
    ensures { result ≡ true → rows.now ≡ others.now }
{
    if rows.len() != others.len() {
        return false;
    }
    for at in 0..rows.len() {
        if !is_same(&rows[at], &others[at]) {
            return false;
        }
    }
    true
}

/// A further holder of the rows that are held, if they are these.
fn share_if(held: &SharedTable, rows: &[Row]) -> Option<SharedTable>
    ensures { IfSome result (λ shared. shared ≡ rows.now) }
{
    if !are_same(held.rows(), rows) {
        return None;
    }
    match held.share() {
        Ok(shared) => Some(shared),
        Err(_) => None,
    }
}

/// A further holder of the rows of an open restore, if those of one are these.
fn share_restore<S: Drop>(sessions: &Sessions<S>, rows: &[Row]) -> Option<SharedTable>
    ensures { IfSome result (λ shared. shared ≡ rows.now) }
{
    for restore in sessions.restores.iter() {
        if let Some(shared) = share_if(&restore.whole, rows) {
            return Some(shared);
        }
    }
    None
}

/// A further holder of the rows of the view that is kept, if they are these.
fn share_view(views: &Views, rows: &[Row]) -> Option<SharedTable>
    ensures { IfSome result (λ shared. shared ≡ rows.now) }
{
    match views.share() {
        Some(kept) => share_if(&kept, rows),
        None => None,
    }
}

/// A holder of these rows: a further one of those of an open restore or of the view that is kept, if one of these has them,
/// and they are let go; else the first one.
pub(crate) fn shared_rows<S: Drop>(
    sessions: &Sessions<S>,
    views: &Views,
    alloc: Global,
    table: Table,
) -> Result<SharedTable, AllocError>
    ensures { IfOk result (λ shared. shared ≡ table) }
{
    if let Some(shared) = share_restore(sessions, table.rows()) {
        return Ok(shared);
    }
    if let Some(shared) = share_view(views, table.rows()) {
        return Ok(shared);
    }
    SharedTable::new(alloc, table)
}
