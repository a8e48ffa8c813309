//! The counts of a host after a commit.

ghost use Rattle.std.specs.Prelude.{◌≡◌, ◌+◌, ◌-◌, IfOk};
ghost use Rattle.disk_trait.specs.declared.ids.PoolId.{PoolId};
ghost use Rattle.ref_counts.specs.Numbers.{number, capped};
ghost use Rattle.stored_trees.specs.Occurrences.{occurrences};
ghost use Rattle.store_commits.specs.Planned.{unparked, counted_of};

use crate::former::Folding;
use attr_tables::Table;
use ref_counts::{Counts, add_table, take_table};
use std::alloc::{AllocError, Global};

/// The counts with those of what is stored in the place of a former table.
fn counted_folded(alloc: Global, old: &Counts, folding: &Folding) -> Result<Counts, AllocError>
    ensures { IfOk result (λ counts. (id : PoolId) → number counts id
        ≡ capped ((number old.now id - capped (occurrences id folding.now.rows)) + capped (occurrences id folding.now.entries))) }
{
    let less = take_table(alloc, old, &folding.rows)?;
    add_table(alloc, &less, &folding.entries)
}

/// The counts with those of a new tree, and of what is stored in the place of a former table.
fn counted_with(
    alloc: Global,
    old: &Counts,
    folding: &Option<Folding>,
    rows: &Table,
) -> Result<Counts, AllocError>
    ensures { IfOk result (λ counts. (id : PoolId) → number counts id ≡ counted_of (number old.now id) folding.now rows.now id) }
{
    match folding {
        None => add_table(alloc, old, rows),
        Some(folding) => {
            let kept = counted_folded(alloc, old, folding)?;
            add_table(alloc, &kept, rows)
        }
    }
}

/// The counts after a commit, by those before it: without those of the host's partial, if it has one.
pub(crate) fn counts_after(
    alloc: Global,
    old: &Counts,
    parked: &Option<Table>,
    folding: &Option<Folding>,
    rows: &Table,
) -> Result<Counts, AllocError>
    ensures { IfOk result (λ counts. (id : PoolId) → number counts id
        ≡ counted_of (unparked (number old.now id) parked.now id) folding.now rows.now id) }
{
    match parked {
        None => counted_with(alloc, old, folding, rows),
        Some(parked) => {
            let left = take_table(alloc, old, parked)?;
            counted_with(alloc, &left, folding, rows)
        }
    }
}
