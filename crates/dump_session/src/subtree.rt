//! The rows of a dump's tree within a path.

ghost use Rattle.std.specs.Prelude.{◌≡◌, ◌++◌, ◌∷◌, [], true, cond, IfOk, OnOk};
ghost use Rattle.attr_records.specs.Paths.{path_cmp};
ghost use Rattle.ordered_lists.specs.Order.{IsInOrder};
ghost use Rattle.merge_view.specs.Runs.{within_rows};
ghost use Rattle.dump_session.specs.Removed.{is_gone, IsApart};
ghost use Rattle.dump_session.specs.Edits.{edited, outside};

use crate::edits::push_row;
use crate::nodes::Node;
use crate::removed::is_gone;
use attr_records::{PathName, is_within};
use attr_tables::{Row, Table};
use merge_view::{view, within};
use std::alloc::{AllocError, Global};
use std::collections::BTreeMap;

/// The nodes that were put within a path, in order, or want of memory.
fn puts_within(
    alloc: Global,
    puts: &BTreeMap<PathName, Node>,
    directory: &PathName,
) -> Result<Vec<Row>, AllocError>
    ensures { IfOk result (λ found. found.items ≡ within_rows directory.now puts.now.entries) }
{
    let mut found = Vec::new(alloc);
    for (path, node) in puts.range(directory..) {
        if !is_within(directory.as_slice(), path.as_slice()) {
            return Ok(found);
        }
        push_row(alloc, &mut found, path, node.as_record())?;
    }
    Ok(found)
}

/// Puts a row of the base behind the rows, unless a removed path takes it away.
fn push_left(
    alloc: Global,
    rows: &mut Vec<Row>,
    removed: &BTreeMap<PathName, ()>,
    row: &Row,
) -> Result<(), AllocError>
    requires { IsApart removed.now.entries }
    ensures { OnOk result (rows.new.items ≡ rows.old.items ++ cond (is_gone removed.now.entries row.now.0) [] (row.now ∷ [])) }
{
    if is_gone(removed, row.path(), row.path().as_slice()) {
        return Ok(());
    }
    push_row(alloc, rows, row.path(), row.node())?;
    Ok(())
}

/// The rows that no removed path takes away, or want of memory.
fn left_rows(
    alloc: Global,
    base: &[Row],
    removed: &BTreeMap<PathName, ()>,
) -> Result<Vec<Row>, AllocError>
    requires { IsApart removed.now.entries }
    ensures { IfOk result (λ rows. rows.items ≡ outside base.now removed.now.entries) }
{
    let mut rows = Vec::new(alloc);
    for row in base {
        push_left(alloc, &mut rows, removed, row)?;
    }
    Ok(rows)
}

/// The rows of a dump's tree within a path, or want of memory: linear in what base and puts have there.
pub fn rows_within(
    alloc: Global,
    base: &[Row],
    removed: &BTreeMap<PathName, ()>,
    puts: &BTreeMap<PathName, Node>,
    path: &PathName,
) -> Result<Table, AllocError>
    requires base_order { IsInOrder path_cmp base.now }
    requires puts_order { IsInOrder path_cmp puts.now.entries }
    requires apart { IsApart removed.now.entries }
    ensures { IfOk result (λ rows. rows ≡ within_rows path.now (edited base.now removed.now.entries puts.now.entries)) }
{
    let left = left_rows(alloc, within(base, path.as_slice()), removed)?;
    let found = puts_within(alloc, puts, path)?;
    let tree = Table::from_rows(left);
    let entries = Table::from_rows(found);
    let rows = view(alloc, &tree, &entries)?;
    Ok(rows)
}
