//! The trees of backups and the entries of runs of them, from their tables.

ghost use Rattle.std.specs.Prelude.{◌≡◌, ◌<◌, ◌≤◌, true, length, drop, IfOk};
ghost use Rattle.merge_view.specs.Views.{view};
ghost use Rattle.merge_view.specs.Tables.{AllInOrder};
ghost use Rattle.backup_delete.specs.Trees.{tree_of, is_first_filled, AreUnfilled};

use attr_tables::Table;
use backup_rules::Line;
use merge_view::{stacked, view};
use std::alloc::{AllocError, Global};

/// Whether the backup at an index is filled.
pub(crate) fn is_filled(lines: &[Line], index: usize) -> bool
    requires { index < length lines.now }
    ensures { result ≡ is_first_filled (drop index lines.now) }
{
    lines[index].filled
}

/// The index of the first filled backup from one up to another, or else the second.
pub(crate) fn first_filled(lines: &[Line], index: usize, at: usize) -> usize
    requires within { at ≤ length lines.now }
    requires below { index ≤ at }
    ensures after { index ≤ result }
    ensures before { result ≤ at }
    ensures filled { result < at → is_first_filled (drop result lines.now) ≡ true }
    ensures unfilled { AreUnfilled lines.now index result }
{
    let mut i = index;
    'up: while i < at {
        if is_filled(lines, i) {
            return i;
        }
        i += 1;
    }
    at
}

/// The entries of the backups from an index up to another one, none of them filled, laid over each other; or want of
/// memory. They are put together in halves, so that each entry is copied once for each time that the run can be halved.
pub(crate) fn run_entries(
    alloc: Global,
    lines: &[Line],
    tables: &[Table],
    index: usize,
    next: usize,
) -> Result<Table, AllocError>
    requires same { length tables.now ≡ length lines.now }
    requires order { AllInOrder tables.now }
    requires within { next ≤ length lines.now }
    requires below { index ≤ next }
    requires unfilled { AreUnfilled lines.now index next }
    ensures { IfOk result (λ entries. tree_of (drop index lines.now) (drop index tables.now)
        ≡ view (tree_of (drop next lines.now) (drop next tables.now)) entries) }
{
    if index == next {
        return Ok(Table::new(alloc));
    }
    if next - index == 1 {
        return Ok(tables[index].copy(alloc)?);
    }
    let middle = index + (next - index) / 2;
    let older = run_entries(alloc, lines, tables, index, middle)?;
    let newer = run_entries(alloc, lines, tables, middle, next)?;
    Ok(stacked(alloc, &older, &newer)?)
}

/// The tree of the backup at an index, or want of memory: the table of the next filled one, viewed once through the
/// entries up to it.
pub(crate) fn tree_at(
    alloc: Global,
    lines: &[Line],
    tables: &[Table],
    index: usize,
) -> Result<Table, AllocError>
    requires same { length tables.now ≡ length lines.now }
    requires order { AllInOrder tables.now }
    requires within { index ≤ length lines.now }
    ensures { IfOk result (λ tree. tree ≡ tree_of (drop index lines.now) (drop index tables.now)) }
{
    let filled = first_filled(lines, index, lines.len());
    let entries = run_entries(alloc, lines, tables, index, filled)?;
    if filled == lines.len() {
        return Ok(view(alloc, &Table::new(alloc), &entries)?);
    }
    Ok(view(alloc, &tables[filled], &entries)?)
}
