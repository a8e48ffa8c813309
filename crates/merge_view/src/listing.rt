ghost use Rattle.std.specs.Prelude.{◌≡◌, ◌≤◌, true, false, length, take, drop, IfOk};
ghost use Rattle.std.specs.List.{list_all, list_any};
ghost use Rattle.std.specs.Option.{option_copied};
ghost use Rattle.attr_records.specs.Paths.{path_cmp};
ghost use Rattle.ordered_lists.specs.Order.{IsInOrder};
ghost use Rattle.merge_view.specs.Runs.{comes_first, row_first, is_child, within_rows, children};

use attr_records::{PathName, compare, is_within, parent};
use attr_tables::{Row, Table};
use ordered_lists::prefix_length;
use std::alloc::{AllocError, Global};

/// Whether a path comes before a directory, or, if `past` says so, lies within it too.
fn comes_first(past: bool, directory: &[u8], path: &[u8]) -> bool
    ensures { result ≡ comes_first past directory.now path.now }
{
    compare(path, directory).is_lt() || (past && is_within(directory, path))
}

/// How many rows come before a directory, or, if `past` says so, before what is past it: by halving.
fn count_before(rows: &[Row], directory: &[u8], past: bool) -> usize
    requires { IsInOrder path_cmp rows.now }
    ensures within { result ≤ length rows.now }
    ensures prefix { list_all (row_first past directory.now) (take result rows.now) ≡ true }
    ensures rest { list_any (row_first past directory.now) (drop result rows.now) ≡ false }
{
    prefix_length(rows, |row: &Row| {
        comes_first(past, directory, row.path().as_slice())
    })
}

/// The rows of a directory and of all below it, which stand together: by halving.
pub fn within<'a>(rows: &'a [Row], directory: &[u8]) -> &'a [Row]
    requires { IsInOrder path_cmp rows.now }
    ensures { result.now ≡ within_rows directory.now rows.now }
{
    let rest = &rows[count_before(rows, directory, false)..];
    &rest[..count_before(rest, directory, true)]
}

/// Whether a path lies directly in a directory, or in the root if there is none.
fn is_child(path: &[u8], directory: Option<&PathName>) -> bool
    ensures { result ≡ is_child (option_copied directory.entry) path.now }
{
    match parent(path) {
        None => directory.is_none(),
        Some(found) => match directory {
            None => false,
            Some(directory) => found == directory.as_slice(),
        },
    }
}

/// Those rows that lie directly in a directory, or in the root if there is none, or want of memory.
fn listed(alloc: Global, rows: &[Row], directory: Option<&PathName>) -> Result<Vec<Row>, AllocError>
    ensures { IfOk result (λ found. found.items ≡ children (option_copied directory.entry) rows.now) }
{
    let mut found = Vec::new(alloc);
    for row in rows {
        if is_child(row.path().as_slice(), directory) {
            found.push(row.copy(alloc)?)?;
        }
    }
    Ok(found)
}

/// The rows of what lies directly in a directory, or in the root if there is none, or want of memory: one
/// pass over the rows of the directory, which a search finds.
#[tactic(auto, using(crate::proofs::Orders::listings))]
pub fn children(
    alloc: Global,
    tree: &Table,
    directory: Option<&PathName>,
) -> Result<Table, AllocError>
    ensures { IfOk result (λ found. found ≡ children (option_copied directory.entry) tree.now) }
{
    match directory {
        None => Ok(Table::from_rows(listed(alloc, tree.rows(), directory)?)),
        Some(path) => {
            let rows = within(tree.rows(), path.as_slice());
            Ok(Table::from_rows(listed(alloc, rows, directory)?))
        }
    }
}
