//! The files that a commit writes.

ghost use Rattle.std.specs.Prelude.{◌≡◌, ◌++◌, ◌∷◌, [], OnOk, IfOk};
ghost use Rattle.disk_trait.specs.declared.ids.FileId.{FileId as File};
ghost use Rattle.attr_tables.specs.Layout.{IsTable};
ghost use Rattle.attr_tables.specs.Tables.{table_file};
ghost use Rattle.ref_counts.specs.Layout.{IsCounts};
ghost use Rattle.ref_counts.specs.CountsFile.{counts_file};
ghost use Rattle.store_commits.specs.Planned.{IsFormerFile};
ghost use Rattle.store_commits.specs.Written.{change_of, former_part, partial_part, written};

use crate::former::Folding;
use attr_tables::{Table, TableLayout, write_table};
use disk_trait::{Bytes, FileId};
use intent_journal::{Change, Changes};
use ref_counts::{Counts, write_counts};
use std::alloc::{AllocError, Global};

/// The table of the former newest backup, which isn't filled any more.
#[derive(Debug, Drop)]
pub struct Former {
    pub number: u32,
    pub table: Bytes,
}

/// The files of a host after a commit but for its index, each in its layout.
#[derive(Debug, Drop)]
pub struct HostFiles {
    /// The new backup's table.
    pub table: Bytes,
    pub counts: Bytes,
    pub former: Option<Former>,
    /// Whether the host has a partial, whose file is taken away.
    pub parked: bool,
}

/// Puts a file's new bytes behind the changes.
fn push(changes: &mut Changes, file: FileId, bytes: Bytes) -> Result<(), AllocError>
    ensures { OnOk result (changes.new ≡ changes.old ++ change_of file bytes ∷ []) }
{
    changes.push(Change {
        file,
        bytes: Some(bytes),
    })?;
    Ok(())
}

/// Puts the former newest's table behind the changes, if it changes.
fn push_former(changes: &mut Changes, host: u32, former: Option<Former>) -> Result<(), AllocError>
    ensures { OnOk result (changes.new ≡ changes.old ++ former_part host former) }
{
    match former {
        Some(former) => push(changes, FileId::Table(host, former.number), former.table),
        None => Ok(()),
    }
}

/// Puts behind the changes that the file of a host's partial is taken away, if it has one.
fn push_partial(changes: &mut Changes, host: u32, parked: bool) -> Result<(), AllocError>
    ensures { OnOk result (changes.new ≡ changes.old ++ partial_part host parked) }
{
    if parked {
        changes.push(Change {
            file: FileId::Partial(host),
            bytes: None,
        })?;
    }
    Ok(())
}

/// The changes of a commit: those of the pool's index, behind them that of the host's index, and then the host's other files.
pub(crate) fn assemble(
    alloc: Global,
    pooled: Changes,
    listed: &Changes,
    host: u32,
    number: u32,
    files: HostFiles,
) -> Result<Changes, AllocError>
    ensures { IfOk result (λ changes. changes ≡ written pooled listed.now host number files) }
{
    let mut changes = pooled;
    changes.push_copies(alloc, listed.as_slice())?;
    push(&mut changes, FileId::Table(host, number), files.table)?;
    push(&mut changes, FileId::Counts(host), files.counts)?;
    push_former(&mut changes, host, files.former)?;
    push_partial(&mut changes, host, files.parked)?;
    Ok(changes)
}

/// The file of the former newest's entries.
fn former_file(alloc: Global, folding: &Option<Folding>) -> Result<Option<Former>, AllocError>
    ensures { IfOk result (IsFormerFile folding.now) }
{
    match folding {
        None => Ok(None),
        Some(folding) => {
            let table = write_table(alloc, &folding.entries)?;
            Ok(Some(Former {
                number: folding.number,
                table,
            }))
        }
    }
}

/// The files of a host after a commit but for its index.
pub(crate) fn host_files(
    alloc: Global,
    host: u32,
    rows: &Table,
    counts: &Counts,
    folding: &Option<Folding>,
    parked: bool,
) -> Result<HostFiles, AllocError>
    ensures table { IfOk result (λ files. IsTable TableLayout.Second rows.now × (files.table ≡ table_file TableLayout.Second rows.now)) }
    ensures former { IfOk result (λ files. IsFormerFile folding.now files.former) }
    ensures parked { IfOk result (λ files. files.parked ≡ parked) }
    ensures counts { IfOk result (λ files. IsCounts counts.now × (files.counts ≡ counts_file host counts.now)) }
{
    let table = write_table(alloc, rows)?;
    let counts = Bytes::from_vec(write_counts(alloc, host, counts)?);
    let former = former_file(alloc, folding)?;
    Ok(HostFiles {
        table,
        counts,
        former,
        parked,
    })
}
