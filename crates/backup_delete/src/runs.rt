//! A new table, by the tables of a run of deleted neighbours and those of the newer backups.

ghost use Rattle.std.specs.Prelude.{◌≡◌, ◌<◌, ◌≤◌, ◌++◌, [], ◌∷◌, false, length, drop, IfOk, OnOk, IfSome};
ghost use Rattle.merge_view.specs.Views.{reverse, trimmed};
ghost use Rattle.merge_view.specs.Tables.{AllInOrder};
ghost use Rattle.backup_delete.specs.Trees.{tree_of};
ghost use Rattle.backup_delete.specs.RunFolds.{goes_on};
ghost use Rattle.backup_delete.specs.Lookups.{trimmed_by_lookup};
ghost use Rattle.backup_delete.specs.Towers.{IsTower, HasReached, MayStand};

use crate::entries::{changing, remaining, resolved};
use crate::lookups::is_needed;
use crate::tower::{Tower, find_in, go_on};
use crate::trees::{first_filled, is_filled, run_entries, tree_at};
use attr_tables::{Row, Table};
use backup_rules::Line;
use merge_view::{reverse, stacked, trimmed};
use std::alloc::{AllocError, Global};

/// Whether the first backup behind an index isn't filled, and entries are left.
fn goes_on(entries: &Table, lines: &[Line], index: usize) -> bool
    requires { index ≤ length lines.now }
    ensures { result ≡ goes_on entries.now (drop index lines.now) }
{
    if index == lines.len() {
        return false;
    }
    if entries.is_empty() {
        return false;
    }
    !is_filled(lines, index)
}

/// The end of the block of backups at an index: one more than there are from `start` up to it, or those that are there.
fn block_end(lines: &[Line], start: usize, index: usize) -> usize
    requires below { start ≤ index }
    requires within { index ≤ length lines.now }
    ensures after { index ≤ result }
    ensures more { index < length lines.now → index < result }
    ensures end { result ≤ length lines.now }
{
    let count = index - start;
    if lines.len() - index <= count {
        lines.len()
    } else {
        index + count + 1
    }
}

/// The entries that change the tree of a backup that is filled or that comes after all, or if there are none.
fn last_trimmed(
    alloc: Global,
    lines: &[Line],
    tables: &[Table],
    index: usize,
    entries: &Table,
) -> Result<Table, AllocError>
    requires same { length tables.now ≡ length lines.now }
    requires within { index ≤ length lines.now }
    requires last { goes_on entries.now (drop index lines.now) ≡ false }
    ensures { IfOk result (λ kept. kept ≡ trimmed (tree_of (drop index lines.now) (drop index tables.now)) entries.now) }
{
    if index == lines.len() {
        return Ok(trimmed(alloc, &Table::new(alloc), entries)?);
    }
    Ok(changing(alloc, &tables[index], entries)?)
}

/// The entries that change the tree of the backup at an index, or want of memory: one pass over the tables from there
/// on, up to the first filled one, or until each entry's path was found. They are taken in blocks, each as large as all
/// before it, so that the entries are passed over once for each time that the tables can be halved.
fn trimmed_by(
    alloc: Global,
    lines: &[Line],
    tables: &[Table],
    index: usize,
    entries: &Table,
) -> Result<Table, AllocError>
    requires same { length tables.now ≡ length lines.now }
    requires order { AllInOrder tables.now }
    requires within { index ≤ length lines.now }
    ensures { IfOk result (λ kept. kept ≡ trimmed (tree_of (drop index lines.now) (drop index tables.now)) entries.now) }
{
    let mut done = Table::new(alloc);
    let _rows = entries.rows();
    let mut rest = entries.copy(alloc)?;
    let mut i = index;
    'up: while goes_on(&rest, lines, i) {
        let end = first_filled(lines, i, block_end(lines, index, i));
        let block = run_entries(alloc, lines, tables, i, end)?;
        let _block_rows = block.rows();
        let here = resolved(alloc, &rest, &block)?;
        let later = remaining(alloc, &rest, &block)?;
        done = stacked(alloc, &done, &here)?;
        rest = later;
        i = end;
    }
    let last = last_trimmed(alloc, lines, tables, i, &rest)?;
    Ok(stacked(alloc, &done, &last)?)
}

/// Appends a copy of an entry, if it changes the tree of the backup at a tower's start.
fn push_changing(
    alloc: Global,
    rows: &mut Vec<Row>,
    row: &Row,
    lines: &[Line],
    tables: &[Table],
    tower: &Tower,
) -> Result<(), AllocError>
    requires same { length tables.now ≡ length lines.now }
    requires order { AllInOrder tables.now }
    requires stands { IsTower lines.now tables.now tower.now.start tower.now }
    ensures { OnOk result (rows.new.items
        ≡ rows.old.items ++ trimmed_by_lookup (tree_of (drop tower.now.start lines.now) (drop tower.now.start tables.now)) (row.now ∷ [])) }
{
    if is_needed(row.node(), find_in(lines, tables, tower, row.path())) {
        Ok(rows.push(row.copy(alloc)?)?)
    } else {
        Ok(())
    }
}

/// The entries that change the tree of the backup at a tower's start, or want of memory: each is looked up in the blocks from
/// the nearest on, until one has its path, and else in the table of the filled backup.
fn trimmed_in(
    alloc: Global,
    lines: &[Line],
    tables: &[Table],
    tower: &Tower,
    entries: &Table,
) -> Result<Table, AllocError>
    requires same { length tables.now ≡ length lines.now }
    requires order { AllInOrder tables.now }
    requires stands { IsTower lines.now tables.now tower.now.start tower.now }
    ensures { IfOk result (λ kept. kept ≡ trimmed (tree_of (drop tower.now.start lines.now) (drop tower.now.start tables.now)) entries.now) }
{
    let mut rows = Vec::new(alloc);
    for row in entries.rows() {
        push_changing(alloc, &mut rows, row, lines, tables, tower)?;
    }
    Ok(Table::from_rows(rows))
}

/// The entries that change the tree of the backup at an index, if it is filled or its table has each of their paths; or want of
/// memory.
fn trimmed_near(
    alloc: Global,
    lines: &[Line],
    tables: &[Table],
    index: usize,
    entries: &Table,
) -> Result<Option<Table>, AllocError>
    requires same { length tables.now ≡ length lines.now }
    requires order { AllInOrder tables.now }
    requires within { index ≤ length lines.now }
    ensures { IfOk result (λ found. IfSome found (λ kept. kept ≡ trimmed (tree_of (drop index lines.now) (drop index tables.now)) entries.now)) }
{
    if !goes_on(entries, lines, index) {
        let kept = last_trimmed(alloc, lines, tables, index, entries)?;
        return Ok(Some(kept));
    }
    let near = &tables[index];
    let _rows = entries.rows();
    let _near_rows = near.rows();
    let later = remaining(alloc, entries, near)?;
    if !later.is_empty() {
        return Ok(None);
    }
    let here = resolved(alloc, entries, near)?;
    Ok(Some(here))
}

/// The entries that change the tree of the backup at an index, or want of memory: by its own table if that has each of their
/// paths, else by a tower, which goes on to it.
fn trimmed_by_tower(
    alloc: Global,
    lines: &[Line],
    tables: &[Table],
    index: usize,
    tower: &mut Tower,
    entries: &Table,
) -> Result<Table, AllocError>
    requires same { length tables.now ≡ length lines.now }
    requires order { AllInOrder tables.now }
    requires reached { HasReached lines.now tables.now index tower.old }
    ensures kept { IfOk result (λ kept. kept ≡ trimmed (tree_of (drop index lines.now) (drop index tables.now)) entries.now) }
    ensures reached { OnOk result (HasReached lines.now tables.now index tower.new) }
{
    let near = trimmed_near(alloc, lines, tables, index, entries)?;
    match near {
        Some(kept) => return Ok(kept),
        None => {}
    }
    go_on(alloc, lines, tables, index, tower)?;
    let kept = trimmed_in(alloc, lines, tables, tower, entries)?;
    Ok(kept)
}

/// The entries that change the tree of the backup at an index, or want of memory: by a tower that hasn't gone on past it, if
/// there is one.
fn trimmed_at(
    alloc: Global,
    lines: &[Line],
    tables: &[Table],
    index: usize,
    tower: &mut Option<Tower>,
    entries: &Table,
) -> Result<Table, AllocError>
    requires same { length tables.now ≡ length lines.now }
    requires order { AllInOrder tables.now }
    requires within { index ≤ length lines.now }
    requires stands { MayStand lines.now tables.now index tower.old }
    ensures kept { IfOk result (λ kept. kept ≡ trimmed (tree_of (drop index lines.now) (drop index tables.now)) entries.now) }
    ensures stands { OnOk result (MayStand lines.now tables.now index tower.new) }
{
    match tower {
        None => trimmed_by(alloc, lines, tables, index, entries),
        Some(tower) => {
            let kept = trimmed_by_tower(alloc, lines, tables, index, tower, entries)?;
            Ok(kept)
        }
    }
}

/// The new table of the backup at an index whose next newer one that stays is at another, or want of memory. Only if a
/// backup between is filled it takes both trees. A tower, if there is one, stands for the tables from the newer one on.
pub(crate) fn folded_table(
    alloc: Global,
    lines: &[Line],
    tables: &[Table],
    index: usize,
    next: usize,
    tower: &mut Option<Tower>,
) -> Result<Table, AllocError>
    requires same { length tables.now ≡ length lines.now }
    requires order { AllInOrder tables.now }
    requires within { next ≤ length lines.now }
    requires below { index ≤ next }
    requires stands { MayStand lines.now tables.now next tower.old }
    ensures table { IfOk result (λ table. table
        ≡ reverse (tree_of (drop index lines.now) (drop index tables.now)) (tree_of (drop next lines.now) (drop next tables.now))) }
    ensures stands { OnOk result (MayStand lines.now tables.now next tower.new) }
{
    if first_filled(lines, index, next) == next {
        let entries = run_entries(alloc, lines, tables, index, next)?;
        let _rows = entries.rows();
        return Ok(trimmed_at(alloc, lines, tables, next, tower, &entries)?);
    }
    let older = tree_at(alloc, lines, tables, index)?;
    let newer = tree_at(alloc, lines, tables, next)?;
    Ok(reverse(alloc, &older, &newer)?)
}
