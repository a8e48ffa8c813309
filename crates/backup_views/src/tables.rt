//! Tables read through the journal, and the trees that they show.

ghost use Rattle.std.specs.Prelude.{◌≡◌, ◌⊎◌, ◌≤◌, ℕ, List, Option, Some, None, true, false, length, take, IfOk, IfErr, IsErrOf};
ghost use Rattle.fault_counts.specs.Counts.{Counted};
ghost use Rattle.disk_trait.specs.declared.ids.FileId.TheVariants.{Table as TableOf};
ghost use Rattle.disk_trait.specs.Files.{Files};
ghost use Rattle.merge_view.specs.Views.{Rows, IsWhole};
ghost use Rattle.journal_view.specs.View.{told, Quiet};
ghost use Rattle.backup_views.specs.Stored.{IsTableFile, AreTableFiles, AreTables, TellsTree, tree_from, depth_of};
ghost use Rattle.backup_views.specs.Faults.{IsNoTable, SaysDamaged, SaysOneDamaged};

use crate::fault::{ViewFault, fault_of};
use attr_tables::{Table, TableFault, TableFile, read_table};
use backup_rules::Line;
use disk_trait::{Bytes, Disk, FileId};
use intent_journal::Journal;
use merge_view::whole;
use std::alloc::Global;

/// The bytes of a table's file.
fn read_file<D: Disk>(
    alloc: Global,
    journal: &mut Journal<D>,
    file: FileId,
) -> Result<Option<Bytes>, ViewFault>
    requires ready { journal.old.halted ≡ false }
    requires table { (host : ℕ) × (number : ℕ) × (file ≡ TableOf host number) }
    ensures found { IfOk result (λ found. (all : Files) → told journal.old ≡ Some all → found ≡ all file) }
    ensures kind { IfErr result (λ fault. (fault ≡ ViewFault.Disk) ⊎ (fault ≡ ViewFault.Memory)) }
    ensures quiet { Quiet journal.old journal.new }
    ensures counted { Counted (D.fault_count journal.old.disk) (D.fault_count journal.new.disk) (IsErrOf result ViewFault.Disk) }
{
    match journal_view::get(journal, alloc, file) {
        Ok(found) => Ok(found),
        Err(fault) => Err(fault_of(fault)),
    }
}

/// The table of a file that was read.
fn table_of(read: TableFile) -> Table
    ensures { result ≡ read.table }
{
    read.table
}

/// The table whose file was found, in either layout.
fn decode(alloc: Global, file: FileId, found: Option<Bytes>) -> Result<Table, ViewFault>
    ensures is { IfOk result (λ table. IsTableFile table found) }
    ensures one { IfOk result (λ table. (rows : Rows) → IsTableFile rows found → rows ≡ table) }
    ensures disk { result ≡ Err ViewFault.Disk → ⊥ }
    ensures damaged { IfErr result (λ fault. fault ≡ ViewFault.Memory ⊎ ((fault ≡ ViewFault.Damaged file found) × ((rows : Rows) → IsTableFile rows found → ⊥))) }
{
    let Some(bytes) = found else {
        return Err(ViewFault::Damaged { file, found: None });
    };
    match read_table(alloc, bytes.as_slice()) {
        Ok(read) => Ok(table_of(read)),
        Err(TableFault::Memory) => Err(ViewFault::Memory),
        Err(TableFault::BadTable(_)) => Err(ViewFault::Damaged {
            file,
            found: Some(bytes),
        }),
    }
}

/// What a host's backup of this number stores: its whole tree if it is filled, else the entries that differ from the next
/// newer backup's tree. A refusal changes nothing: `Damaged` comes exactly if the file is absent or no table's.
pub fn read_entries<D: Disk>(
    alloc: Global,
    journal: &mut Journal<D>,
    host: u32,
    number: u32,
) -> Result<Table, ViewFault>
    requires { journal.old.halted ≡ false }
    ensures is { IfOk result (λ table. (all : Files) → told journal.old ≡ Some all → IsTableFile table (all (TableOf host number))) }
    ensures one { IfOk result (λ table. (all : Files) (rows : Rows) → told journal.old ≡ Some all → IsTableFile rows (all (TableOf host number)) → rows ≡ table) }
    ensures damaged { IfErr result (SaysDamaged (told journal.old) host number) }
    ensures quiet { Quiet journal.old journal.new }
    ensures counted { Counted (D.fault_count journal.old.disk) (D.fault_count journal.new.disk) (IsErrOf result ViewFault.Disk) }
{
    let file = FileId::Table(host, number);
    let found = read_file(alloc, journal, file)?;
    match decode(alloc, file, found) {
        Ok(table) => Ok(table),
        Err(fault) => Err(fault),
    }
}

/// How many of these backups show the tree of the first.
fn depth(lines: &[Line]) -> usize
    ensures value { result ≡ depth_of lines.now }
    ensures within { result ≤ length lines.now }
{
    let mut count = 0;
    for line in lines {
        count += 1;
        if line.filled {
            return count;
        }
    }
    count
}

/// The tables of these backups of a host, the first one's first. A refusal changes nothing: `Damaged` comes only if one of
/// these files is absent or no table's.
pub fn read_tables<D: Disk>(
    alloc: Global,
    journal: &mut Journal<D>,
    host: u32,
    lines: &[Line],
) -> Result<Vec<Table>, ViewFault>
    requires { journal.old.halted ≡ false }
    ensures each { IfOk result (λ tables. length tables.items ≡ length lines.now) }
    ensures there { IfOk result (λ tables. (all : Files) → told journal.old ≡ Some all → AreTableFiles all host lines.now tables.items) }
    ensures one { IfOk result (λ tables. (all : Files) (stored : List Rows) → told journal.old ≡ Some all
        → AreTableFiles all host lines.now stored → tables.items ≡ stored) }
    ensures damaged { IfErr result (SaysOneDamaged (told journal.old) host lines.now) }
    ensures quiet { Quiet journal.old journal.new }
    ensures counted { Counted (D.fault_count journal.old.disk) (D.fault_count journal.new.disk) (IsErrOf result ViewFault.Disk) }
{
    let mut tables = Vec::new(alloc);
    for line in lines {
        let table = read_entries(alloc, journal, host, line.number)?;
        tables.push(table)?;
    }
    Ok(tables)
}

/// The tree of the first of these backups of a host, which are given from the one asked for up to the newest: out of the
/// tables from the nearest filled one downwards, and no others, each of which is there. A refusal changes nothing: `Damaged`
/// names one of these files, which is absent or no table's, with what was found of it.
pub fn read_tree<D: Disk>(
    alloc: Global,
    journal: &mut Journal<D>,
    host: u32,
    lines: &[Line],
) -> Result<Table, ViewFault>
    requires { journal.old.halted ≡ false }
    ensures tree { IfOk result (λ tree. (all : Files) (stored : List Rows) → told journal.old ≡ Some all → AreTables all host lines.now stored
        → tree ≡ tree_from lines.now stored) }
    ensures tells { IfOk result (λ tree. (all : Files) → told journal.old ≡ Some all → TellsTree all host lines.now tree) }
    ensures is_whole { IfOk result (λ tree. IsWhole tree) }
    ensures damaged { IfErr result (SaysOneDamaged (told journal.old) host (take (depth_of lines.now) lines.now)) }
    ensures quiet { Quiet journal.old journal.new }
    ensures counted { Counted (D.fault_count journal.old.disk) (D.fault_count journal.new.disk) (IsErrOf result ViewFault.Disk) }
{
    let count = depth(lines);
    let mut tables = read_tables(alloc, journal, host, &lines[..count])?;
    tables.reverse();
    let tree = whole(alloc, &tables)?;
    Ok(tree)
}
