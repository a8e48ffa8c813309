//! What a commit writes.

ghost use Rattle.std.specs.Prelude.{◌≡◌, ◌≤◌, ◌<◌, true, length, Some, IfOk, slice_get};
ghost use Rattle.backup_index.specs.Index.{Index};
ghost use Rattle.store_commits.specs.Planned.{IsBuilt};

use crate::files::{assemble, host_files};
use crate::gather::Gathered;
use crate::judge::Lines;
use crate::plan::Plan;
use crate::settling::settle_rows;
use attr_tables::Table;
use disk_trait::Disk;
use pool_name::Namer;
use std::alloc::{AllocError, Global};
use store_parts::StoreParts;

/// The plan of a commit, by what was judged and gathered; or want of memory. Nothing changes.
pub(crate) fn build<D: Disk, N: Namer>(
    parts: &StoreParts<D, N>,
    alloc: Global,
    host: usize,
    lines: Lines,
    rows: Table,
    gathered: Gathered,
) -> Result<Plan, AllocError>
    requires host { host < length parts.now.catalog.hosts }
    requires rising { (index : Index) → slice_get parts.now.catalog.hosts host ≡ Some index → index.next ≤ lines.line.number }
    requires filled { lines.line.filled ≡ true }
    ensures { IfOk result (IsBuilt parts.now host lines gathered.read.parked gathered.read.folding gathered.counts rows) }
{
    let catalog = parts.catalog.propose_line(
        alloc,
        host,
        lines.line,
        lines.dropped.is_none(),
        lines.receipt,
    )?;
    let mut index = settle_rows(alloc, &parts.pool, &rows)?;
    let files = host_files(
        alloc,
        lines.file,
        &rows,
        &gathered.counts,
        &gathered.read.folding,
        gathered.read.parked.is_some(),
    )?;
    let number = lines.line.number;
    let pooled = index.take_changes(alloc);
    let changes = assemble(alloc, pooled, catalog.changes(), lines.file, number, files)?;
    Ok(Plan {
        number,
        host,
        catalog,
        index,
        rows,
        counts: gathered.counts,
        changes,
    })
}
