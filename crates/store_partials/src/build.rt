//! What a park or a drop of a partial writes.

ghost use Rattle.std.specs.Prelude.{◌≡◌, IfOk};
ghost use Rattle.store_partials.specs.Parked.{IsBuilt, IsDropBuilt};

use crate::files::assemble;
use crate::plan::{DropPlan, ParkPlan};
use disk_trait::{Bytes, Disk};
use host_partials::PartialHead;
use intent_journal::Changes;
use partial_files::PartialFile;
use pool_name::Namer;
use ref_counts::{Counts, write_counts};
use std::alloc::{AllocError, Global};
use store_commits::settle_rows;
use store_parts::StoreParts;

/// The plan of a park, by the partial and its file, and by the host's counts with it; or want of memory. Nothing changes.
pub(crate) fn build_park<D: Disk, N: Namer>(
    parts: &StoreParts<D, N>,
    alloc: Global,
    host: usize,
    file: u32,
    partial: PartialFile,
    bytes: Bytes,
    counts: Counts,
) -> Result<ParkPlan, AllocError>
    ensures { IfOk result (IsBuilt parts.now host file partial bytes counts) }
{
    let mut index = settle_rows(alloc, &parts.pool, &partial.rows)?;
    let written = Bytes::from_vec(write_counts(alloc, file, &counts)?);
    let pooled = index.take_changes(alloc);
    let changes = assemble(pooled, file, written, Some(bytes))?;
    Ok(ParkPlan {
        host,
        index,
        head: PartialHead::of_file(&partial),
        counts,
        changes,
    })
}

/// The plan of a drop of a partial, by the host's counts without it; or want of memory.
pub(crate) fn build_drop(alloc: Global, file: u32, counts: Counts) -> Result<DropPlan, AllocError>
    ensures { IfOk result (IsDropBuilt file counts) }
{
    let written = Bytes::from_vec(write_counts(alloc, file, &counts)?);
    let changes = assemble(Changes::new(alloc), file, written, None)?;
    Ok(DropPlan { counts, changes })
}
