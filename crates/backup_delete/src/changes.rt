//! What becomes of tables.

ghost use Rattle.std.specs.Prelude.{◌≡◌, ◌++◌, length, IfOk, OnOk};
ghost use Rattle.std.specs.Option.{option_copied, option_to_list};
ghost use Rattle.merge_view.specs.Tables.{AllInOrder};
ghost use Rattle.backup_delete.specs.Folds.{changes};

use crate::numbers::Gone;
use crate::tower::begun;
use crate::walk::step;
use attr_tables::Table;
use backup_rules::Line;
use std::alloc::{AllocError, Global};
use std::marker::Model;

/// What becomes of the table of a backup, by its number: another table, or none where it is removed.
#[derive(Debug)]
pub struct TableChange {
    number: u32,
    table: Option<Table>,
}

impl Model for TableChange {
    ghost use Rattle.std.specs.Prelude.{List, ℕ, Option};
    ghost use Rattle.attr_tables.specs.declared.records.Record.{Record};

    ghost Value = { ℕ × Option (List (List ℕ × Record)) };

    ghost view = { λ c. (c.number, c.table) };
}

/// Written out: what is in it is then dropped here, for the prover too, and not in each crate above.
impl Drop for TableChange {
    fn drop(self) {
        let TableChange {
            number: _,
            table: _,
        } = self;
    }
}

impl TableChange {
    pub(crate) fn new(number: u32, table: Option<Table>) -> TableChange
        ensures { result ≡ (number, table) }
    {
        TableChange { number, table }
    }

    pub fn number(&self) -> u32
        ensures { result ≡ self.now.0 }
    {
        self.number
    }

    /// The new table, none where it is removed.
    pub fn table(&self) -> Option<&Table>
        ensures { option_copied result ≡ self.now.1 }
    {
        self.table.as_ref()
    }

    /// The number and the new table, which takes no memory.
    pub fn into_parts(self) -> (u32, Option<Table>)
        ensures { result ≡ self }
    {
        let TableChange { number, table } = self;
        (number, table)
    }
}

/// Appends a change, if there is one.
fn push_change(all: &mut Vec<TableChange>, change: Option<TableChange>) -> Result<(), AllocError>
    ensures { OnOk result (all.new.items ≡ all.old.items ++ option_to_list change) }
{
    match change {
        None => Ok(()),
        Some(change) => Ok(all.push(change)?),
    }
}

/// What becomes of the tables of backups, the newest first, or want of memory.
pub(crate) fn changes(
    alloc: Global,
    lines: &[Line],
    tables: &[Table],
    numbers: &Gone,
) -> Result<Vec<TableChange>, AllocError>
    requires same { length tables.now ≡ length lines.now }
    requires order { AllInOrder tables.now }
    ensures { IfOk result (λ all. all.items ≡ changes numbers.now lines.now tables.now) }
{
    let mut all = Vec::new(alloc);
    let mut tower = begun(alloc, lines, numbers);
    let mut next = lines.len();
    let mut index = lines.len();
    'down: while index > 0 {
        index -= 1;
        let change = step(alloc, lines, tables, numbers, index, &mut next, &mut tower)?;
        push_change(&mut all, change)?;
    }
    Ok(all)
}
