//! The tree of a backup, for an event that keeps it.

ghost use Rattle.std.specs.Prelude.{◌≡◌, ◌<◌, Some, false, length, drop, IfOk, IfErr, Err, slice_get};
ghost use Rattle.fault_counts.specs.Counts.{Counted};
ghost use Rattle.disk_trait.specs.Files.{Files};
ghost use Rattle.backup_index.specs.Index.{Index};
ghost use Rattle.backup_views.specs.Stored.{TellsTree};
ghost use Rattle.journal_view.specs.View.{told};
ghost use Rattle.office_model.specs.Parts.{backup_of};
ghost use Rattle.store_parts.specs.Refusals.{IsReadFault};
ghost use Rattle.store_reads.specs.Shown.{IsLoaded, IsTreeAt, IsRefusal, Looks};
ghost use Rattle.store_reads.specs.Told.{TellsBackup, IsTableFault, IsBackupFault};

use crate::place::find_backup;
use attr_records::HostName;
use attr_tables::Table;
use backup_views::read_tree;
use disk_trait::Disk;
use office_model::Refusal;
use pool_name::Namer;
use std::alloc::Global;
use store_parts::{StoreParts, refusal_of_view};

/// The tree of the backup at this line of this host.
fn read_at<D: Disk, N: Namer>(
    parts: &mut StoreParts<D, N>,
    alloc: Global,
    host: usize,
    line: usize,
) -> Result<Table, Refusal>
    requires ready { parts.old.journal.halted ≡ false }
    requires host { host < length parts.old.catalog.hosts }
    requires line { (index : Index) → slice_get parts.old.catalog.hosts host ≡ Some index → line < length index.lines }
    ensures looks { Looks parts.old parts.new }
    ensures tree { IfOk result (IsTreeAt parts.old host line) }
    ensures tells { IfOk result (λ tree. (index : Index) (all : Files) → slice_get parts.old.catalog.hosts host ≡ Some index
        → told parts.old.journal ≡ Some all → TellsTree all host (drop line index.lines) tree) }
    ensures damaged { IfErr result (IsTableFault parts.old host line) }
    ensures fault { IfErr result (IsReadFault parts.old) }
    ensures counted { Counted (D.fault_count parts.old.journal.disk) (D.fault_count parts.new.journal.disk)
        (result ≡ Err Refusal.DiskFault) }
{
    let lines = parts.catalog.hosts()[host].lines().lines();
    match read_tree(alloc, &mut parts.journal, host as u32, &lines[line..]) {
        Ok(tree) => Ok(tree),
        Err(fault) => Err(refusal_of_view(fault)),
    }
}

/// The tree of the backup of this host and number, out of the tables from the nearest filled one, each of which is there. It
/// refuses a host or a backup that isn't there, a fault of the disk and want of memory, and a table that is absent or in no
/// table's grammar, as `Damaged`, with what was found of it. It changes nothing.
pub fn read_backup<D: Disk, N: Namer>(
    parts: &mut StoreParts<D, N>,
    alloc: Global,
    name: &HostName,
    number: u32,
) -> Result<Table, Refusal>
    requires ready { parts.old.journal.halted ≡ false }
    ensures looks { Looks parts.old parts.new }
    ensures loaded { IfOk result (IsLoaded parts.old name.now number) }
    ensures tells { IfOk result (TellsBackup parts.old name.now number) }
    ensures damaged { IfErr result (IsBackupFault parts.old name.now number) }
    ensures refusal { IfErr result (IsRefusal parts.old (λ office. backup_of office.hosts name.now number)) }
    ensures counted { Counted (D.fault_count parts.old.journal.disk) (D.fault_count parts.new.journal.disk)
        (result ≡ Err Refusal.DiskFault) }
{
    match find_backup(parts, name, number) {
        Ok((host, line)) => read_at(parts, alloc, host, line),
        Err(rule) => Err(Refusal::Broken(rule)),
    }
}
