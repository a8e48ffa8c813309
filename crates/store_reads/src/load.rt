//! The view of a backup is made the one that is kept.

ghost use Rattle.std.specs.Prelude.{◌≡◌, ◌<◌, Some, false, length, drop, OnOk, IfErr, Err, slice_get};
ghost use Rattle.fault_counts.specs.Counts.{Counted};
ghost use Rattle.disk_trait.specs.Files.{Files};
ghost use Rattle.backup_rules.specs.declared.lines.Line.{Line as LineValue};
ghost use Rattle.backup_index.specs.Index.{Index};
ghost use Rattle.backup_views.specs.Kept.{HasView, AreRowsRead, rows_of};
ghost use Rattle.journal_view.specs.View.{told};
ghost use Rattle.office_model.specs.Parts.{backup_of};
ghost use Rattle.store_parts.specs.Refusals.{IsReadFault};
ghost use Rattle.store_parts.specs.Runs.{Reads};
ghost use Rattle.store_reads.specs.Shown.{IsLoaded, IsRefusal};
ghost use Rattle.store_reads.specs.Told.{ReadsTree, IsTableFault, IsBackupFault};

use crate::place::find_backup;
use attr_records::HostName;
use disk_trait::Disk;
use office_model::Refusal;
use pool_name::Namer;
use std::alloc::Global;
use store_parts::{StoreParts, refusal_of_view};

/// Makes the view of the backup at this line of this host the one that is kept. A refusal keeps the view from before.
fn load<D: Disk, N: Namer>(
    parts: &mut StoreParts<D, N>,
    alloc: Global,
    host: usize,
    line: usize,
) -> Result<(), Refusal>
    requires ready { parts.old.journal.halted ≡ false }
    requires host { host < length parts.old.catalog.hosts }
    requires line { (index : Index) → slice_get parts.old.catalog.hosts host ≡ Some index → line < length index.lines }
    ensures reads { Reads parts.old parts.new }
    ensures has { OnOk result ((index : Index) (asked : LineValue) → slice_get parts.old.catalog.hosts host ≡ Some index
        → slice_get index.lines line ≡ Some asked → HasView parts.new.views host asked.number) }
    ensures read { OnOk result ((index : Index) (all : Files) → slice_get parts.old.catalog.hosts host ≡ Some index
        → told parts.old.journal ≡ Some all
        → AreRowsRead parts.old.views all host (drop line index.lines) (rows_of parts.new.views.kept)) }
    ensures damaged { IfErr result (IsTableFault parts.old host line) }
    ensures fault { IfErr result (IsReadFault parts.old) }
    ensures counted { Counted (D.fault_count parts.old.journal.disk) (D.fault_count parts.new.journal.disk)
        (result ≡ Err Refusal.DiskFault) }
{
    let lines = parts.catalog.hosts()[host].lines().lines();
    match parts
        .views
        .load(alloc, &mut parts.journal, host as u32, &lines[line..])
    {
        Ok(()) => Ok(()),
        Err(fault) => Err(refusal_of_view(fault)),
    }
}

/// Makes the view of the backup of this host and number the one that is kept. It refuses a host or a backup that isn't
/// there; a refusal keeps the view from before.
pub fn load_backup<D: Disk, N: Namer>(
    parts: &mut StoreParts<D, N>,
    alloc: Global,
    name: &HostName,
    number: u32,
) -> Result<(), Refusal>
    requires ready { parts.old.journal.halted ≡ false }
    ensures reads { Reads parts.old parts.new }
    ensures loaded { OnOk result (IsLoaded parts.old name.now number (rows_of parts.new.views.kept)) }
    ensures read { OnOk result (ReadsTree parts.old name.now number (rows_of parts.new.views.kept)) }
    ensures damaged { IfErr result (IsBackupFault parts.old name.now number) }
    ensures refusal { IfErr result (IsRefusal parts.old (λ office. backup_of office.hosts name.now number)) }
    ensures counted { Counted (D.fault_count parts.old.journal.disk) (D.fault_count parts.new.journal.disk)
        (result ≡ Err Refusal.DiskFault) }
{
    match find_backup(parts, name, number) {
        Ok((host, line)) => load(parts, alloc, host, line),
        Err(rule) => Err(Refusal::Broken(rule)),
    }
}
