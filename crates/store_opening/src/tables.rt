//! Tables that the lines of hosts call for.

ghost use Rattle.std.specs.Prelude.{◌≡◌, ◌||◌, false, List, ℕ, Option, IfOk, IfErr, OnOk};
ghost use Rattle.std.specs.BTreeSet.{contains};
ghost use Rattle.disk_trait.specs.declared.ids.FileId.{FileId as File};
ghost use Rattle.disk_trait.specs.declared.ids.FileId.TheVariants.{Table};
ghost use Rattle.disk_trait.specs.Names.{is_same_file};
ghost use Rattle.disk_trait.specs.Order.{file_cmp};
ghost use Rattle.disk_trait.specs.Files.{Files, lists};
ghost use Rattle.journal_view.specs.Found.{ListsSeen};
ghost use Rattle.office_catalog.specs.Held.{HoldsCatalog};
ghost use Rattle.store_opening.specs.Tables.{is_table, noted, first_gap, first_of_hosts, HasTables, IsMissingTable};

use crate::fault::OpenRefusal;
use backup_index::HostIndex;
use backup_rules::Line;
use disk_trait::{FileId, FileList};
use office_catalog::Catalog;
use std::alloc::{AllocError, Global};
use std::collections::BTreeSet;

fn is_table(file: FileId) -> bool
    ensures { result ≡ is_table file }
{
    match file {
        FileId::Table(_, _) => true,
        _ => false,
    }
}

/// Puts a file into the set, if it is a table.
fn note_file(tables: &mut BTreeSet<FileId>, file: FileId) -> Result<(), AllocError>
    ensures { OnOk result ((host number : ℕ) → contains file_cmp tables.new (Table host number)
        ≡ (is_same_file (Table host number) file || contains file_cmp tables.old (Table host number))) }
{
    if !is_table(file) {
        return Ok(());
    }
    match tables.insert(file) {
        Ok(_) => Ok(()),
        Err(_) => Err(AllocError),
    }
}

/// Puts the tables among files into the set.
fn note_all(tables: &mut BTreeSet<FileId>, files: &[FileId]) -> Result<(), AllocError>
    ensures { OnOk result ((host number : ℕ) → noted files.now (contains file_cmp tables.old (Table host number)) (Table host number)
        ≡ contains file_cmp tables.new (Table host number)) }
{
    for file in files {
        match note_file(tables, *file) {
            Ok(()) => {}
            Err(fault) => return Err(fault),
        }
    }
    Ok(())
}

/// The tables among files.
fn tables_of(alloc: Global, files: &[FileId]) -> Result<BTreeSet<FileId>, AllocError>
    ensures { IfOk result (λ tables. (host number : ℕ) → contains file_cmp tables (Table host number) ≡ lists files.now (Table host number)) }
{
    let mut tables = BTreeSet::new(alloc);
    match note_all(&mut tables, files) {
        Ok(()) => Ok(tables),
        Err(fault) => Err(fault),
    }
}

/// The first table that a line of a host calls for and the set lacks.
fn first_gap(tables: &BTreeSet<FileId>, host: u32, lines: &[Line]) -> Option<FileId>
    ensures { result ≡ first_gap (contains file_cmp tables.now) host lines.now }
{
    for line in lines {
        if !tables.contains(&FileId::Table(host, line.number)) {
            return Some(FileId::Table(host, line.number));
        }
    }
    None
}

/// The first of all hosts.
fn first_of_hosts(tables: &BTreeSet<FileId>, hosts: &[HostIndex]) -> Option<FileId>
    ensures { result ≡ first_of_hosts (contains file_cmp tables.now) hosts.now }
{
    for index in hosts {
        let gap = first_gap(tables, index.host(), index.lines().lines());
        if gap.is_some() {
            return gap;
        }
    }
    None
}

/// Refuses a table that a line of a host calls for and that isn't among the files. It looks each up once, in a set of those that
/// are there, and reads nothing.
pub(crate) fn refuse_gaps(
    alloc: Global,
    files: &FileList,
    catalog: &Catalog,
) -> Result<(), OpenRefusal>
    ensures none { OnOk result ((all : Files) → ListsSeen files.now all → HasTables catalog.now all) }
    ensures missing { IfErr result (λ refusal. (file : File) (found : Option (List ℕ)) → refusal ≡ OpenRefusal.Foreign file found
        → (all : Files) → ListsSeen files.now all → HoldsCatalog all catalog.now → IsMissingTable all file found) }
    ensures kind { IfErr result (λ refusal. refusal ≡ OpenRefusal.EpochsSpent → ⊥) }
    ensures no_fault { IfErr result (λ refusal. refusal ≡ OpenRefusal.DiskFault → ⊥) }
{
    let tables = match tables_of(alloc, files.as_slice()) {
        Ok(tables) => tables,
        Err(_) => return Err(OpenRefusal::Memory),
    };
    match first_of_hosts(&tables, catalog.hosts()) {
        None => Ok(()),
        Some(file) => Err(OpenRefusal::Foreign { file, found: None }),
    }
}
