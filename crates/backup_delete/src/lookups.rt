//! The entries of a run that a large table resolves or leaves, or that change a large tree: each is looked up there.

ghost use Rattle.std.specs.Prelude.{◌≡◌, ◌<◌, ◌↔◌, ◌/◌, ◌++◌, [], ◌∷◌, length, IsTrue, IfOk, OnOk};
ghost use Rattle.std.specs.Option.{option_copied};
ghost use Rattle.attr_records.specs.Paths.{path_cmp};
ghost use Rattle.ordered_lists.specs.Order.{IsInOrder};
ghost use Rattle.merge_view.specs.Views.{trimmed};
ghost use Rattle.backup_delete.specs.Lookups.{is_other, is_needed, resolved_by_lookup, remaining_by_lookup, trimmed_by_lookup};
ghost use Rattle.backup_delete.specs.RunFolds.{resolved, remaining};

use attr_tables::{Record, Row, find};
use std::alloc::{AllocError, Global};

/// Whether the entries are so few beside a table's rows that to look each of them up costs less than a pass over all rows:
/// in a table of a million rows a look-up takes about as long as a pass over forty of them, and less in a smaller one.
pub(crate) fn are_few(entries: &[Row], table: &[Row]) -> bool
    ensures { IsTrue result ↔ (length entries.now < length table.now / 64) }
{
    entries.len() < table.len() / 64
}

/// Appends a copy of an entry, if a table has something else at its path.
fn push_differing(
    alloc: Global,
    rows: &mut Vec<Row>,
    row: &Row,
    table: &[Row],
) -> Result<(), AllocError>
    requires { IsInOrder path_cmp table.now }
    ensures { OnOk result (rows.new.items ≡ rows.old.items ++ resolved_by_lookup (row.now ∷ []) table.now) }
{
    match find(table, row.path().as_slice()) {
        None => Ok(()),
        Some(other) => {
            if row.node().is_same(other) {
                Ok(())
            } else {
                Ok(rows.push(row.copy(alloc)?)?)
            }
        }
    }
}

/// Appends a copy of an entry, if a table has nothing at its path.
fn push_elsewhere(
    alloc: Global,
    rows: &mut Vec<Row>,
    row: &Row,
    table: &[Row],
) -> Result<(), AllocError>
    requires { IsInOrder path_cmp table.now }
    ensures { OnOk result (rows.new.items ≡ rows.old.items ++ remaining_by_lookup (row.now ∷ []) table.now) }
{
    match find(table, row.path().as_slice()) {
        None => Ok(rows.push(row.copy(alloc)?)?),
        Some(_) => Ok(()),
    }
}

/// The entries at a table's paths that differ from it, or want of memory: a look-up for each.
pub(crate) fn resolved_by_lookup(
    alloc: Global,
    entries: &[Row],
    table: &[Row],
) -> Result<Vec<Row>, AllocError>
    requires entries { IsInOrder path_cmp entries.now }
    requires table { IsInOrder path_cmp table.now }
    ensures { IfOk result (λ rows. rows.items ≡ resolved entries.now table.now) }
{
    let mut rows = Vec::new(alloc);
    for row in entries {
        push_differing(alloc, &mut rows, row, table)?;
    }
    Ok(rows)
}

/// The entries at other paths than a table's, or want of memory: a look-up for each.
pub(crate) fn remaining_by_lookup(
    alloc: Global,
    entries: &[Row],
    table: &[Row],
) -> Result<Vec<Row>, AllocError>
    requires entries { IsInOrder path_cmp entries.now }
    requires table { IsInOrder path_cmp table.now }
    ensures { IfOk result (λ rows. rows.items ≡ remaining entries.now table.now) }
{
    let mut rows = Vec::new(alloc);
    for row in entries {
        push_elsewhere(alloc, &mut rows, row, table)?;
    }
    Ok(rows)
}

/// Whether nothing is there, or something else.
fn is_other(entry: &Record, there: Option<&Record>) -> bool
    ensures { result ≡ is_other entry.now (option_copied there.entry) }
{
    match there {
        None => true,
        Some(base) => !entry.is_same(base),
    }
}

/// Whether an entry changes what is there.
pub(crate) fn is_needed(entry: &Record, there: Option<&Record>) -> bool
    ensures { result ≡ is_needed entry.now (option_copied there.entry) }
{
    match entry {
        Record::Deleted => there.is_some(),
        Record::File(_) => is_other(entry, there),
        Record::Dir(_) => is_other(entry, there),
        Record::Link(_) => is_other(entry, there),
    }
}

/// Appends a copy of an entry, if it changes a tree.
fn push_needed(
    alloc: Global,
    rows: &mut Vec<Row>,
    row: &Row,
    tree: &[Row],
) -> Result<(), AllocError>
    requires { IsInOrder path_cmp tree.now }
    ensures { OnOk result (rows.new.items ≡ rows.old.items ++ trimmed_by_lookup tree.now (row.now ∷ [])) }
{
    if is_needed(row.node(), find(tree, row.path().as_slice())) {
        Ok(rows.push(row.copy(alloc)?)?)
    } else {
        Ok(())
    }
}

/// The entries that change a tree, or want of memory: a look-up for each.
pub(crate) fn trimmed_by_lookup(
    alloc: Global,
    tree: &[Row],
    entries: &[Row],
) -> Result<Vec<Row>, AllocError>
    requires tree { IsInOrder path_cmp tree.now }
    requires entries { IsInOrder path_cmp entries.now }
    ensures { IfOk result (λ rows. rows.items ≡ trimmed tree.now entries.now) }
{
    let mut rows = Vec::new(alloc);
    for row in entries {
        push_needed(alloc, &mut rows, row, tree)?;
    }
    Ok(rows)
}
