//! What leads from a base to the rows of a restore.

ghost use Rattle.std.specs.Prelude.{◌≡◌, IfOk};
ghost use Rattle.store_restores.specs.Since.{removed_since, rows_since};

use attr_tables::Table;
use shared_tables::SharedTable;
use std::alloc::{AllocError, Global};
use tree_changes::{changes, removals};

/// What a restore tells and gives of its backup.
#[derive(Drop)]
pub(crate) struct Since {
    /// The rows whose removal is told.
    pub removed: Table,
    /// The rows whose entries are given.
    pub rows: SharedTable,
}

/// What leads from a base to the rows of a backup, or want of memory: one pass over both for the removals and one for the
/// entries. Without a base nothing is removed, and the entries are those of the very rows.
pub(crate) fn since_base(
    alloc: Global,
    whole: &SharedTable,
    base: Option<Table>,
) -> Result<Since, AllocError>
    ensures removed { IfOk result (λ since. since.removed ≡ removed_since base whole.now) }
    ensures rows { IfOk result (λ since. since.rows ≡ rows_since base whole.now) }
{
    let base = match base {
        Some(base) => base,
        None => {
            return Ok(Since {
                removed: Table::new(alloc),
                rows: whole.share()?,
            });
        }
    };
    let removed = removals(alloc, whole.rows(), base.rows())?;
    let rows = changes(alloc, whole.rows(), base.rows())?;
    Ok(Since {
        removed,
        rows: SharedTable::new(alloc, rows)?,
    })
}
