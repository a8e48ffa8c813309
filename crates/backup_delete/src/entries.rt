//! The entries of an older backup, beside the table of a newer one.

ghost use Rattle.std.specs.Prelude.{◌≡◌, IfOk};
ghost use Rattle.std.specs.Option.{option_copied};
ghost use Rattle.attr_records.specs.Paths.{path_cmp};
ghost use Rattle.ordered_lists.specs.Order.{IsInOrder};
ghost use Rattle.ordered_lists.specs.Merge.{entry_at};
ghost use Rattle.merge_view.specs.Views.{trimmed};
ghost use Rattle.backup_delete.specs.RunFolds.{differing, elsewhere, resolved, remaining};

use crate::lookups::{are_few, remaining_by_lookup, resolved_by_lookup, trimmed_by_lookup};
use attr_tables::{Row, Table};
use merge_view::trimmed;
use ordered_lists::{Rule, merge};
use std::alloc::{AllocError, Global};
use std::cmp::Ordering;

/// An entry where a table has something else.
fn differing_row(
    alloc: Global,
    entry: Option<&Row>,
    base: Option<&Row>,
) -> Result<Option<Row>, AllocError>
    ensures { IfOk result (λ made. made ≡ entry_at differing (option_copied entry.entry) (option_copied base.entry)) }
{
    match entry {
        None => match base {
            None => Ok(None),
            Some(_) => Ok(None),
        },
        Some(row) => match base {
            None => Ok(None),
            Some(other) => {
                if row.node().is_same(other.node()) {
                    Ok(None)
                } else {
                    Ok(Some(row.copy(alloc)?))
                }
            }
        },
    }
}

/// An entry where a table has nothing.
fn elsewhere_row(
    alloc: Global,
    entry: Option<&Row>,
    base: Option<&Row>,
) -> Result<Option<Row>, AllocError>
    ensures { IfOk result (λ made. made ≡ entry_at elsewhere (option_copied entry.entry) (option_copied base.entry)) }
{
    match entry {
        None => match base {
            None => Ok(None),
            Some(_) => Ok(None),
        },
        Some(row) => match base {
            None => Ok(Some(row.copy(alloc)?)),
            Some(_) => Ok(None),
        },
    }
}

struct Differing;

impl Rule for Differing {
    ghost use Rattle.std.specs.Prelude.{List, ℕ};
    ghost use Rattle.attr_records.specs.Paths.{path_cmp};
    ghost use Rattle.attr_tables.specs.declared.records.Record.{Record};
    ghost use Rattle.backup_delete.specs.RunFolds.{differing};

    type Entry = Row;

    ghost Key = { List ℕ };

    ghost Held = { Record };

    ghost entry = { λ row. row };

    ghost order = { path_cmp };

    ghost gives = { differing };

    fn compare<'a>(left: &'a Row, right: &'a Row) -> Ordering {
        left.path().cmp(right.path())
    }

    fn make<'a>(
        alloc: Global,
        left: Option<&'a Row>,
        right: Option<&'a Row>,
    ) -> Result<Option<Row>, AllocError> {
        differing_row(alloc, left, right)
    }
}

struct Elsewhere;

impl Rule for Elsewhere {
    ghost use Rattle.std.specs.Prelude.{List, ℕ};
    ghost use Rattle.attr_records.specs.Paths.{path_cmp};
    ghost use Rattle.attr_tables.specs.declared.records.Record.{Record};
    ghost use Rattle.backup_delete.specs.RunFolds.{elsewhere};

    type Entry = Row;

    ghost Key = { List ℕ };

    ghost Held = { Record };

    ghost entry = { λ row. row };

    ghost order = { path_cmp };

    ghost gives = { elsewhere };

    fn compare<'a>(left: &'a Row, right: &'a Row) -> Ordering {
        left.path().cmp(right.path())
    }

    fn make<'a>(
        alloc: Global,
        left: Option<&'a Row>,
        right: Option<&'a Row>,
    ) -> Result<Option<Row>, AllocError> {
        elsewhere_row(alloc, left, right)
    }
}

/// The entries at a table's paths that differ from it, or want of memory: a look-up for each if they are few, else one
/// pass over both.
fn resolved_rows(alloc: Global, entries: &[Row], table: &[Row]) -> Result<Vec<Row>, AllocError>
    requires entries { IsInOrder path_cmp entries.now }
    requires table { IsInOrder path_cmp table.now }
    ensures { IfOk result (λ rows. rows.items ≡ resolved entries.now table.now) }
{
    if are_few(entries, table) {
        return resolved_by_lookup(alloc, entries, table);
    }
    merge::<Differing>(alloc, entries, table)
}

/// The entries at other paths than a table's, or want of memory: a look-up for each if they are few, else one pass over
/// both.
fn remaining_rows(alloc: Global, entries: &[Row], table: &[Row]) -> Result<Vec<Row>, AllocError>
    requires entries { IsInOrder path_cmp entries.now }
    requires table { IsInOrder path_cmp table.now }
    ensures { IfOk result (λ rows. rows.items ≡ remaining entries.now table.now) }
{
    if are_few(entries, table) {
        return remaining_by_lookup(alloc, entries, table);
    }
    merge::<Elsewhere>(alloc, entries, table)
}

/// The entries at a table's paths that differ from it, or want of memory: one pass over both, or over the entries alone
/// if they are few.
#[tactic(auto, using(crate::specs::RunFoldsLaws::resolved_in_order))]
pub(crate) fn resolved(alloc: Global, entries: &Table, table: &Table) -> Result<Table, AllocError>
    ensures { IfOk result (λ here. here ≡ resolved entries.now table.now) }
{
    let rows = resolved_rows(alloc, entries.rows(), table.rows())?;
    Ok(Table::from_rows(rows))
}

/// The entries at other paths than a table's, or want of memory: one pass over both, or over the entries alone if they
/// are few.
#[tactic(auto, using(crate::specs::RunFoldsLaws::remaining_in_order))]
pub(crate) fn remaining(alloc: Global, entries: &Table, table: &Table) -> Result<Table, AllocError>
    ensures { IfOk result (λ rest. rest ≡ remaining entries.now table.now) }
{
    let rows = remaining_rows(alloc, entries.rows(), table.rows())?;
    Ok(Table::from_rows(rows))
}

/// The entries that change a tree, or want of memory: one pass over both, or over the entries alone if they are few.
pub(crate) fn changing(alloc: Global, tree: &Table, entries: &Table) -> Result<Table, AllocError>
    ensures { IfOk result (λ kept. kept ≡ trimmed tree.now entries.now) }
{
    if are_few(entries.rows(), tree.rows()) {
        let rows = trimmed_by_lookup(alloc, tree.rows(), entries.rows())?;
        return Ok(Table::from_rows(rows));
    }
    Ok(trimmed(alloc, tree, entries)?)
}
