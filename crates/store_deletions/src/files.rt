//! The files that a deletion writes and removes.

ghost use Rattle.std.specs.Prelude.{◌≡◌, ◌++◌, IfOk, OnOk, IfSome};
ghost use Rattle.std.specs.Option.{option_copied};
ghost use Rattle.attr_tables.specs.declared.layouts.TableLayout.TheVariants.{Second};
ghost use Rattle.attr_tables.specs.Layout.{IsTable};
ghost use Rattle.ref_counts.specs.Layout.{IsCounts};
ghost use Rattle.store_deletions.specs.Written.{table_change, table_part, written, AreFit};

use attr_tables::write_table;
use backup_delete::TableChange;
use disk_trait::{Bytes, FileId};
use intent_journal::{Change, Changes};
use ref_counts::{Counts, write_counts};
use std::alloc::{AllocError, Global};

/// The change of a table's file: its new bytes, or none if it is removed.
fn table_change(alloc: Global, host: u32, change: &TableChange) -> Result<Change, AllocError>
    ensures is { IfOk result (λ made. made ≡ table_change host change.now) }
    ensures fits { OnOk result (IfSome change.now.1 (IsTable Second)) }
{
    let file = FileId::Table(host, change.number());
    match change.table() {
        None => Ok(Change { file, bytes: None }),
        Some(table) => {
            let bytes = write_table(alloc, table)?;
            Ok(Change {
                file,
                bytes: Some(bytes),
            })
        }
    }
}

/// Puts the changes of tables behind others.
fn push_tables(
    alloc: Global,
    host: u32,
    tables: &[TableChange],
    changes: &mut Changes,
) -> Result<(), AllocError>
    ensures pushed { OnOk result (changes.new ≡ changes.old ++ table_part host tables.now) }
    ensures fit { OnOk result (AreFit tables.now) }
{
    for table in tables {
        let change = table_change(alloc, host, table)?;
        changes.push(change)?;
    }
    Ok(())
}

/// The changes of a deletion: that of the host's index, and behind it those of its tables and its counts.
pub(crate) fn assemble(
    alloc: Global,
    host: u32,
    index: Changes,
    tables: &[TableChange],
    counts: &Counts,
) -> Result<Changes, AllocError>
    ensures written { IfOk result (λ changes. changes ≡ written index host tables.now counts.now) }
    ensures fit { OnOk result (AreFit tables.now) }
    ensures counts { OnOk result (IsCounts counts.now) }
{
    let mut changes = index;
    push_tables(alloc, host, tables, &mut changes)?;
    let bytes = Bytes::from_vec(write_counts(alloc, host, counts)?);
    changes.push(Change {
        file: FileId::Counts(host),
        bytes: Some(bytes),
    })?;
    Ok(changes)
}
