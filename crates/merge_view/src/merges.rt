ghost use Rattle.std.specs.Prelude.{◌≡◌, ◌≢◌, IfOk, IfSome};
ghost use Rattle.std.specs.Option.{option_copied};
ghost use Rattle.attr_tables.specs.declared.records.Record.{Record};
ghost use Rattle.merge_view.specs.Views.{IsWhole};
ghost use Rattle.merge_view.specs.Tables.{whole, stack, fronted, AllInOrder};
ghost use Rattle.merge_view.specs.Sources.{rows_of};

use crate::sources::{Source, laid_over};
use attr_tables::{Row, Table};
use std::alloc::{AllocError, Global};
use std::marker::Model;

/// All rows of tables laid over each other, those of the last table uppermost, or want of memory.
fn source_of<'a>(alloc: Global, tables: &'a [Table]) -> Result<Source<'a>, AllocError>
    ensures value { IfOk result (λ source. rows_of source ≡ stack tables.now) }
    ensures in_order { IfOk result (λ _. AllInOrder tables.now) }
{
    match tables {
        [] => Ok(Source::One(&[])),
        [table] => Ok(Source::One(table.rows())),
        _ => {
            let middle = tables.len() / 2;
            let newer = source_of(alloc, &tables[..middle])?;
            let older = source_of(alloc, &tables[middle..])?;
            Ok(laid_over(alloc, older, newer)?)
        }
    }
}

/// The rows of the tree that tables show, one after the other in the order of their paths: one pass over all tables,
/// which it borrows. As a value it is the list of the rows that it still gives. No row is copied. A row of the filled
/// table is compared once, and one of the others once more for each time that these can be halved.
#[derive(Drop)]
pub struct Merge<'a> {
    rows: Source<'a>,
}

impl<'a> Model for Merge<'a> {
    ghost use Rattle.std.specs.Prelude.{List, ℕ};
    ghost use Rattle.attr_tables.specs.declared.records.Record.{Record};
    ghost use Rattle.merge_view.specs.Sources.{rows_of};
    ghost use Rattle.merge_view.specs.Views.{without_marks};

    ghost Value = { List (List ℕ × Record) };

    ghost view = { λ merge. without_marks (rows_of merge.rows) };
}

impl<'a> Merge<'a> {
    /// The rows of the tree that tables show, or want of memory. The first table is that of a filled backup, and each
    /// next one holds the entries of the next older backup.
    pub fn new(alloc: Global, tables: &'a [Table]) -> Result<Merge<'a>, AllocError>
        ensures value { IfOk result (λ merge. merge ≡ whole tables.now) }
        ensures is_whole { IfOk result (λ merge. IsWhole merge) }
    {
        match tables {
            [] => Ok(Merge {
                rows: Source::One(&[]),
            }),
            [filled, others @ ..] => {
                let entries = source_of(alloc, others)?;
                let rows = laid_over(alloc, entries, Source::One(filled.rows()))?;
                Ok(Merge { rows })
            }
        }
    }

    /// The first of the rows that are left, which is no deletion mark; None if none is left.
    pub fn next(&mut self) -> Option<&'a Row>
        ensures given { fronted (option_copied result) self.new ≡ self.old }
        ensures no_mark { IfSome result (λ row. row.now.1 ≢ Record.Deleted) }
    {
        'marks: while let Some(row) = self.rows.next() {
            if !row.node().is_mark() {
                return Some(row);
            }
        }
        None
    }
}
