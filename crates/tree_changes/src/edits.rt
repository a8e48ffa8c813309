ghost use Rattle.std.specs.Prelude.{◌≡◌, IfOk};
ghost use Rattle.attr_records.specs.Paths.{path_cmp, parent};
ghost use Rattle.ordered_lists.specs.Order.{IsInOrder};
ghost use Rattle.attr_tables.specs.Records.{is_dir, is_same_record};
ghost use Rattle.change_laws.specs.Changes.{lies_in, topmost, lost_rows, changed_rows};

use crate::rules::{changed_rows, lost_rows};
use attr_records::PathName;
use attr_tables::{Row, Table, find};
use std::alloc::{AllocError, Global};

/// Whether the directory that a path lies in is among rows: by halving.
fn lies_in(rows: &[Row], path: &PathName) -> bool
    requires { IsInOrder path_cmp rows.now }
    ensures { result ≡ lies_in rows.now (parent path.now) }
{
    match path.parent() {
        None => false,
        Some(directory) => find(rows, directory).is_some(),
    }
}

/// Those rows whose directory isn't among them, or want of memory: one look-up for each row.
fn topmost(alloc: Global, rows: &[Row]) -> Result<Vec<Row>, AllocError>
    requires { IsInOrder path_cmp rows.now }
    ensures { IfOk result (λ tops. tops.items ≡ topmost rows.now) }
{
    let mut tops = Vec::new(alloc);
    for row in rows {
        if !lies_in(rows, row.path()) {
            tops.push(row.copy(alloc)?)?;
        }
    }
    Ok(tops)
}

/// What is removed first on the way from older rows to newer ones, or want of memory: the topmost paths that the newer
/// lack, or have with another kind where one of the two is a directory, with what the older have there. One pass over
/// both, and a look-up by halving for each lost row.
#[tactic(auto, using(crate::proofs::Orders::orders))]
pub fn removals(alloc: Global, newer: &[Row], older: &[Row]) -> Result<Table, AllocError>
    requires newer { IsInOrder path_cmp newer.now }
    requires older { IsInOrder path_cmp older.now }
    ensures { IfOk result (λ rows. rows ≡ topmost (lost_rows is_dir newer.now older.now)) }
{
    let lost = lost_rows(alloc, newer, older)?;
    Ok(Table::from_rows(topmost(alloc, lost.as_slice())?))
}

/// What is put behind the removals, or want of memory: the newer rows where the older have another node or none. One pass
/// over both.
#[tactic(auto, using(crate::proofs::Orders::orders))]
pub fn changes(alloc: Global, newer: &[Row], older: &[Row]) -> Result<Table, AllocError>
    requires newer { IsInOrder path_cmp newer.now }
    requires older { IsInOrder path_cmp older.now }
    ensures { IfOk result (λ rows. rows ≡ changed_rows is_same_record newer.now older.now) }
{
    let rows = changed_rows(alloc, newer, older)?;
    Ok(Table::from_rows(rows))
}
