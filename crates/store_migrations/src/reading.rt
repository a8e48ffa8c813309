//! The table of a backup, with the layout that it has.

ghost use Rattle.std.specs.Prelude.{◌≡◌, ◌⊎◌, ◌↔◌, ℕ, false, Some, IfOk, IfErr, IsErrOf};
ghost use Rattle.fault_counts.specs.Counts.{Counted};
ghost use Rattle.disk_trait.specs.declared.ids.FileId.TheVariants.{Table as TableOf};
ghost use Rattle.disk_trait.specs.Files.{Files};
ghost use Rattle.journal_view.specs.View.{told, Quiet};
ghost use Rattle.merge_view.specs.Views.{Rows};
ghost use Rattle.backup_views.specs.Stored.{IsTableFile};
ghost use Rattle.backup_views.specs.Faults.{SaysDamaged};
ghost use Rattle.store_migrations.specs.Migrated.{IsTableRead};

use attr_tables::{TableFault, TableFile, read_table};
use backup_views::ViewFault;
use disk_trait::{Bytes, Disk, FileId};
use intent_journal::{Journal, JournalFault};
use std::alloc::Global;

/// What a fault of a journal that isn't halted is to a reader.
fn fault_of(fault: JournalFault) -> ViewFault
    requires { fault ≡ JournalFault.Halted → ⊥ }
    ensures kind { (result ≡ ViewFault.Disk) ⊎ (result ≡ ViewFault.Memory) }
    ensures disk { (result ≡ ViewFault.Disk) ↔ (fault ≡ JournalFault.Disk) }
{
    match fault {
        JournalFault::Disk => ViewFault::Disk,
        JournalFault::Memory => ViewFault::Memory,
        JournalFault::Halted => unreachable!(),
    }
}

/// The bytes of a table's file.
fn read_file<D: Disk>(
    alloc: Global,
    journal: &mut Journal<D>,
    file: FileId,
) -> Result<Option<Bytes>, ViewFault>
    requires ready { journal.old.halted ≡ false }
    requires table { (host : ℕ) × (number : ℕ) × (file ≡ TableOf host number) }
    ensures found { IfOk result (λ found. (all : Files) → told journal.old ≡ Some all → found ≡ all file) }
    ensures kind { IfErr result (λ fault. (fault ≡ ViewFault.Disk) ⊎ (fault ≡ ViewFault.Memory)) }
    ensures quiet { Quiet journal.old journal.new }
    ensures counted { Counted (D.fault_count journal.old.disk) (D.fault_count journal.new.disk) (IsErrOf result ViewFault.Disk) }
{
    match journal_view::get(journal, alloc, file) {
        Ok(found) => Ok(found),
        Err(fault) => Err(fault_of(fault)),
    }
}

/// The table whose file was found, with its layout.
fn decode(alloc: Global, file: FileId, found: Option<Bytes>) -> Result<TableFile, ViewFault>
    ensures is { IfOk result (λ read. IsTableRead read found) }
    ensures disk { result ≡ Err ViewFault.Disk → ⊥ }
    ensures damaged { IfErr result (λ fault. fault ≡ ViewFault.Memory ⊎ ((fault ≡ ViewFault.Damaged file found) × ((rows : Rows) → IsTableFile rows found → ⊥))) }
{
    let Some(bytes) = found else {
        return Err(ViewFault::Damaged { file, found: None });
    };
    match read_table(alloc, bytes.as_slice()) {
        Ok(read) => Ok(read),
        Err(TableFault::Memory) => Err(ViewFault::Memory),
        Err(TableFault::BadTable(_)) => Err(ViewFault::Damaged {
            file,
            found: Some(bytes),
        }),
    }
}

/// What a host's backup of this number stores, with the layout of its file. A refusal changes nothing: `Damaged` comes exactly if the
/// file is absent or no table's.
pub(crate) fn read_stored<D: Disk>(
    alloc: Global,
    journal: &mut Journal<D>,
    host: u32,
    number: u32,
) -> Result<TableFile, ViewFault>
    requires { journal.old.halted ≡ false }
    ensures is { IfOk result (λ read. (all : Files) → told journal.old ≡ Some all → IsTableRead read (all (TableOf host number))) }
    ensures damaged { IfErr result (SaysDamaged (told journal.old) host number) }
    ensures quiet { Quiet journal.old journal.new }
    ensures counted { Counted (D.fault_count journal.old.disk) (D.fault_count journal.new.disk) (IsErrOf result ViewFault.Disk) }
{
    let file = FileId::Table(host, number);
    let found = read_file(alloc, journal, file)?;
    match decode(alloc, file, found) {
        Ok(read) => Ok(read),
        Err(fault) => Err(fault),
    }
}
