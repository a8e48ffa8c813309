ghost use Rattle.std.specs.Prelude.{◌≡◌, IfOk};
ghost use Rattle.std.specs.Option.{option_copied, option_map};
ghost use Rattle.attr_records.specs.Paths.{path_cmp};
ghost use Rattle.ordered_lists.specs.Merge.{entry_at, merge};
ghost use Rattle.merge_view.specs.Chosen.{chosen};

use crate::rules::{Choice, PathRule};
use attr_tables::{Record, Row};
use ordered_lists::{Rule, merge as merge_lists};
use std::alloc::{AllocError, Global};
use std::cmp::Ordering;
use std::marker::PhantomData;

/// A rule of rows as a rule of ordered lists.
struct ByPath<C> {
    rule: PhantomData<C>,
}

/// What a row says, if there is one.
fn node_of<'a>(row: Option<&'a Row>) -> Option<&'a Record>
    ensures { option_copied result ≡ option_map (λ row. row.1) (option_copied row.entry) }
{
    match row {
        None => None,
        Some(row) => Some(row.node()),
    }
}

/// The row of what was chosen at a path, if it has something there, or want of memory.
fn chosen_row(
    alloc: Global,
    choice: Choice,
    left: Option<&Row>,
    right: Option<&Row>,
) -> Result<Option<Row>, AllocError>
    ensures { IfOk result (λ made. made ≡ entry_at (chosen choice) (option_copied left.entry) (option_copied right.entry)) }
{
    let path = match left {
        Some(row) => row.path(),
        None => match right {
            Some(row) => row.path(),
            None => return Ok(None),
        },
    };
    match choice {
        Choice::Nothing => Ok(None),
        Choice::Left => match left {
            None => Ok(None),
            Some(row) => Ok(Some(Row::new(path.copy(alloc)?, row.node().copy(alloc)?))),
        },
        Choice::Right => match right {
            None => Ok(None),
            Some(row) => Ok(Some(Row::new(path.copy(alloc)?, row.node().copy(alloc)?))),
        },
        Choice::Mark => Ok(Some(Row::new(path.copy(alloc)?, Record::Deleted))),
    }
}

impl<C: PathRule> Rule for ByPath<C> {
    ghost use Rattle.std.specs.Prelude.{List, ℕ};
    ghost use Rattle.attr_records.specs.Paths.{path_cmp};
    ghost use Rattle.attr_tables.specs.declared.records.Record.{Record};

    type Entry = Row;

    ghost Key = { List ℕ };

    ghost Held = { Record };

    ghost entry = { λ row. row };

    ghost order = { path_cmp };

    ghost gives = { C.gives };

    fn compare<'a>(left: &'a Row, right: &'a Row) -> Ordering {
        left.path().cmp(right.path())
    }

    fn make<'a>(
        alloc: Global,
        left: Option<&'a Row>,
        right: Option<&'a Row>,
    ) -> Result<Option<Row>, AllocError> {
        let choice = C::choose(node_of(left), node_of(right));
        chosen_row(alloc, choice, left, right)
    }
}

/// The rows that a rule gives of two lists in the order of their paths, or want of memory: one pass over both.
pub fn merge<C: PathRule>(
    alloc: Global,
    left: &[Row],
    right: &[Row],
) -> Result<Vec<Row>, AllocError>
    ensures { IfOk result (λ rows. rows.items ≡ merge path_cmp C.gives left.now right.now) }
{
    merge_lists::<ByPath<C>>(alloc, left, right)
}
