//! Files that neither a head nor the index of a host calls for.

ghost use Rattle.std.specs.Prelude.{◌≡◌, true, false, List, ℕ, Option, Some, slice_get, IfOk, IfErr, OnOk, IsErrOf};
ghost use Rattle.fault_counts.specs.Counts.{Counted};
ghost use Rattle.disk_trait.specs.declared.ids.FileId.{FileId as File};
ghost use Rattle.disk_trait.specs.Files.{Files};
ghost use Rattle.journal_view.specs.Found.{is_seen, ListsSeen};
ghost use Rattle.journal_view.specs.View.{told, Quiet};
ghost use Rattle.office_catalog.specs.Held.{HoldsCatalog};
ghost use Rattle.office_changes.specs.ChangeLaws.{is_of_index};
ghost use Rattle.store_opening.specs.Strays.{is_known, has_line, is_stray, first_stray, HasNoStray, IsNamedByByte, IsStray};

use crate::fault::{OpenRefusal, refusal_of};
use disk_trait::{Disk, FileId, FileList};
use intent_journal::Journal;
use office_catalog::Catalog;
use office_files::{Owner, find_owner};
use std::alloc::Global;

/// Whether a host has a line of this number.
fn has_line(catalog: &Catalog, host: usize, number: u32) -> bool
    ensures { result ≡ has_line (slice_get catalog.now.hosts host) number }
{
    if host >= catalog.hosts().len() {
        return false;
    }
    catalog.line_at(host, number).is_some()
}

/// Whether what a file is part of is known.
fn is_known(catalog: &Catalog, owner: Owner) -> bool
    ensures { result ≡ is_known catalog.now.hosts owner }
{
    match owner {
        Owner::Store => true,
        Owner::Host(host) => catalog.index(host as usize).is_some(),
        Owner::Backup(host, number) => has_line(catalog, host as usize, number),
    }
}

/// Whether a file is of the index of the pool.
fn is_of_index(file: FileId) -> bool
    ensures { result ≡ is_of_index file }
{
    match file {
        FileId::PoolIndex | FileId::PoolBucket(_) => true,
        _ => false,
    }
}

/// Whether neither a head nor the index of a host calls for the file, or it is of a pool without a head.
fn is_stray(catalog: &Catalog, headed: bool, file: FileId) -> bool
    ensures { result ≡ is_stray catalog.now.hosts headed file }
{
    !is_known(catalog, find_owner(file)) || (is_of_index(file) && !headed)
}

/// The first of the files that is a stray.
fn first_stray(catalog: &Catalog, headed: bool, files: &[FileId]) -> Option<FileId>
    ensures { result ≡ first_stray catalog.now.hosts headed files.now }
{
    for file in files {
        if is_stray(catalog, headed, *file) {
            return Some(*file);
        }
    }
    None
}

/// A byte that names a file is one.
fn is_named_by_byte(file: FileId)
    ensures { IsNamedByByte file }
{
    match file {
        FileId::PoolBucket(_byte) => {}
        _ => {}
    }
}

/// What a stray file is refused with: what was found of it, or that it couldn't be read.
pub(crate) fn refusal_with<D: Disk>(
    alloc: Global,
    journal: &mut Journal<D>,
    file: FileId,
) -> OpenRefusal
    requires ready { journal.old.halted ≡ false }
    requires seen { is_seen file ≡ true }
    ensures foreign { (other : File) (found : Option (List ℕ)) → result ≡ OpenRefusal.Foreign other found → (other ≡ file) × ((all : Files) → told journal.old ≡ Some all → found ≡ all file) }
    ensures kind { result ≡ OpenRefusal.EpochsSpent → ⊥ }
    ensures quiet { Quiet journal.old journal.new }
    ensures counted { Counted (D.fault_count journal.old.disk) (D.fault_count journal.new.disk) (result ≡ OpenRefusal.DiskFault) }
{
    match journal_view::get(journal, alloc, file) {
        Ok(found) => OpenRefusal::Foreign { file, found },
        Err(fault) => refusal_of(fault),
    }
}

/// Refuses a file that is there though the catalog doesn't call for it, or that is of a pool without a head, with what was
/// found of it; else the files that are there. Nothing is written.
pub(crate) fn refuse_strays<D: Disk>(
    alloc: Global,
    journal: &mut Journal<D>,
    catalog: &Catalog,
) -> Result<FileList, OpenRefusal>
    requires { journal.old.halted ≡ false }
    ensures none { OnOk result ((all : Files) → told journal.old ≡ Some all → HasNoStray catalog.now all) }
    ensures seen { IfOk result (λ files. (all : Files) → told journal.old ≡ Some all → ListsSeen files all) }
    ensures stray { IfErr result (λ refusal. (file : File) (found : Option (List ℕ)) → refusal ≡ OpenRefusal.Foreign file found
        → (all : Files) → told journal.old ≡ Some all → HoldsCatalog all catalog.now → IsStray all file found) }
    ensures kind { IfErr result (λ refusal. refusal ≡ OpenRefusal.EpochsSpent → ⊥) }
    ensures quiet { Quiet journal.old journal.new }
    ensures counted { Counted (D.fault_count journal.old.disk) (D.fault_count journal.new.disk) (IsErrOf result OpenRefusal.DiskFault) }
{
    let files = match journal_view::list(journal, alloc) {
        Ok(files) => files,
        Err(fault) => return Err(refusal_of(fault)),
    };
    match first_stray(catalog, files.has(FileId::Head), files.as_slice()) {
        None => Ok(files),
        Some(file) => {
            is_named_by_byte(file);
            Err(refusal_with(alloc, journal, file))
        }
    }
}
