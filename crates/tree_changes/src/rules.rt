ghost use Rattle.std.specs.Prelude.{◌≡◌, IfOk};
ghost use Rattle.std.specs.Option.{option_copied};
ghost use Rattle.ordered_lists.specs.Merge.{entry_at};
ghost use Rattle.attr_tables.specs.Records.{is_dir, is_same_record};
ghost use Rattle.change_laws.specs.Changes.{alike, lost, changed, lost_rows, changed_rows};

use attr_tables::Row;
use ordered_lists::{Rule, merge};
use std::alloc::{AllocError, Global};
use std::cmp::Ordering;

/// Whether both are directories, or neither is.
fn is_alike(newer: bool, older: bool) -> bool
    ensures { result ≡ alike newer older }
{
    if newer { older } else { !older }
}

/// The older row, if the newer tree has none there or one of another kind and one of the two is a directory; or want of
/// memory.
fn lost_row(
    alloc: Global,
    newer: Option<&Row>,
    older: Option<&Row>,
) -> Result<Option<Row>, AllocError>
    ensures { IfOk result (λ made. made ≡ entry_at (lost is_dir) (option_copied newer.entry) (option_copied older.entry)) }
{
    match newer {
        None => match older {
            None => Ok(None),
            Some(row) => Ok(Some(row.copy(alloc)?)),
        },
        Some(other) => match older {
            None => Ok(None),
            Some(row) => {
                if is_alike(other.node().is_dir(), row.node().is_dir()) {
                    Ok(None)
                } else {
                    let path = other.path().copy(alloc)?;
                    Ok(Some(Row::new(path, row.node().copy(alloc)?)))
                }
            }
        },
    }
}

/// The newer row, if the older tree has another there or none; or want of memory.
fn changed_row(
    alloc: Global,
    newer: Option<&Row>,
    older: Option<&Row>,
) -> Result<Option<Row>, AllocError>
    ensures { IfOk result (λ made. made ≡ entry_at (changed is_same_record) (option_copied newer.entry) (option_copied older.entry)) }
{
    match newer {
        None => match older {
            None => Ok(None),
            Some(_) => Ok(None),
        },
        Some(row) => match older {
            None => Ok(Some(row.copy(alloc)?)),
            Some(other) => {
                if row.node().is_same(other.node()) {
                    Ok(None)
                } else {
                    Ok(Some(row.copy(alloc)?))
                }
            }
        },
    }
}

/// What the older tree has and the newer lost.
struct Lost;

impl Rule for Lost {
    ghost use Rattle.std.specs.Prelude.{List, ℕ};
    ghost use Rattle.attr_records.specs.Paths.{path_cmp};
    ghost use Rattle.attr_tables.specs.declared.records.Record.{Record};
    ghost use Rattle.attr_tables.specs.Records.{is_dir};
    ghost use Rattle.change_laws.specs.Changes.{lost};

    type Entry = Row;

    ghost Key = { List ℕ };

    ghost Held = { Record };

    ghost entry = { λ row. row };

    ghost order = { path_cmp };

    ghost gives = { lost is_dir };

    fn compare<'a>(left: &'a Row, right: &'a Row) -> Ordering {
        left.path().cmp(right.path())
    }

    fn make<'a>(
        alloc: Global,
        left: Option<&'a Row>,
        right: Option<&'a Row>,
    ) -> Result<Option<Row>, AllocError> {
        lost_row(alloc, left, right)
    }
}

/// What the newer tree has and the older hasn't, or has otherwise.
struct Changed;

impl Rule for Changed {
    ghost use Rattle.std.specs.Prelude.{List, ℕ};
    ghost use Rattle.attr_records.specs.Paths.{path_cmp};
    ghost use Rattle.attr_tables.specs.declared.records.Record.{Record};
    ghost use Rattle.attr_tables.specs.Records.{is_same_record};
    ghost use Rattle.change_laws.specs.Changes.{changed};

    type Entry = Row;

    ghost Key = { List ℕ };

    ghost Held = { Record };

    ghost entry = { λ row. row };

    ghost order = { path_cmp };

    ghost gives = { changed is_same_record };

    fn compare<'a>(left: &'a Row, right: &'a Row) -> Ordering {
        left.path().cmp(right.path())
    }

    fn make<'a>(
        alloc: Global,
        left: Option<&'a Row>,
        right: Option<&'a Row>,
    ) -> Result<Option<Row>, AllocError> {
        changed_row(alloc, left, right)
    }
}

/// The older rows that the newer tree lost, or want of memory: one pass over both.
pub fn lost_rows(alloc: Global, newer: &[Row], older: &[Row]) -> Result<Vec<Row>, AllocError>
    ensures { IfOk result (λ rows. rows.items ≡ lost_rows is_dir newer.now older.now) }
{
    merge::<Lost>(alloc, newer, older)
}

/// The newer rows where the older tree has another node or none, or want of memory: one pass over both.
pub fn changed_rows(alloc: Global, newer: &[Row], older: &[Row]) -> Result<Vec<Row>, AllocError>
    ensures { IfOk result (λ rows. rows.items ≡ changed_rows is_same_record newer.now older.now) }
{
    merge::<Changed>(alloc, newer, older)
}
