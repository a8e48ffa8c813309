//! What a deletion writes, by what was read.

ghost use Rattle.std.specs.Prelude.{◌≡◌, ◌<◌, length, Some, IfOk, slice_get};
ghost use Rattle.backup_index.specs.Index.{Index};
ghost use Rattle.backup_delete.specs.Windows.{part, IsWindow};
ghost use Rattle.store_deletions.specs.Built.{IsBuilt};

use crate::counts::counts_after;
use crate::files::assemble;
use crate::plan::DeletionPlan;
use attr_tables::Table;
use backup_delete::{Folded, Window, fold_within};
use office_catalog::Catalog;
use ref_counts::Counts;
use std::alloc::{AllocError, Global};

/// The plan of a deletion, by a host's counts and the tables of the backups in a window of it; or want of memory.
pub(crate) fn build(
    alloc: Global,
    catalog: &Catalog,
    host: usize,
    window: Window,
    tables: &[Table],
    old: &Counts,
    numbers: &[u32],
) -> Result<DeletionPlan, AllocError>
    requires within { host < length catalog.now.hosts }
    requires window { (index : Index) → slice_get catalog.now.hosts host ≡ Some index → IsWindow numbers.now index.lines window.first window.end }
    requires each { (index : Index) → slice_get catalog.now.hosts host ≡ Some index
        → length tables.now ≡ length (part window.first window.end index.lines) }
    ensures { IfOk result (IsBuilt catalog.now host window.first window.end tables.now old.now numbers.now) }
{
    let index = &catalog.hosts()[host];
    let file = index.host();
    let folded = fold_within(alloc, index.lines().lines(), window, tables, numbers)?;
    let Folded {
        lines,
        tables,
        added,
        taken,
    } = folded;
    let counts = counts_after(alloc, old, &taken, &added)?;
    let mut change = catalog.propose_lines(alloc, host, lines)?;
    let listed = change.take_changes(alloc);
    let changes = assemble(alloc, file, listed, tables.as_slice(), &counts)?;
    Ok(DeletionPlan {
        catalog: change,
        counts,
        changes,
    })
}
