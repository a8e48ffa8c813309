//! What a migration writes, by the tables that are read.

ghost use Rattle.std.specs.Prelude.{◌≡◌, ◌++◌, ◌<◌, false, length, Some, IfOk, IfErr, OnOk, IsErrOf, slice_get};
ghost use Rattle.fault_counts.specs.Counts.{Counted};
ghost use Rattle.journal_view.specs.View.{told, Quiet};
ghost use Rattle.intent_journal.specs.Changes.{AreChanges};
ghost use Rattle.backup_index.specs.Index.{Index};
ghost use Rattle.backup_views.specs.Faults.{SaysOneDamaged};
ghost use Rattle.store_migrations.specs.Migrated.{rewritten, IsPlanned, IsPlanFault};

use crate::reading::read_stored;
use attr_tables::{TableFile, TableLayout, write_table};
use backup_rules::Line;
use backup_views::ViewFault;
use disk_trait::{Disk, FileId};
use intent_journal::{Change, Changes, Journal};
use office_catalog::Catalog;
use office_model::Refusal;
use std::alloc::{AllocError, Global};
use store_parts::refusal_of_view;

/// Puts the change of a table that was read behind others, if it is of the first layout.
fn push_rewritten(
    alloc: Global,
    host: u32,
    number: u32,
    read: &TableFile,
    changes: &mut Changes,
) -> Result<(), AllocError>
    ensures { OnOk result (changes.new ≡ changes.old ++ rewritten host number read.now) }
{
    match read.layout {
        TableLayout::Second => Ok(()),
        TableLayout::First => {
            let bytes = write_table(alloc, &read.table)?;
            changes.push(Change {
                file: FileId::Table(host, number),
                bytes: Some(bytes),
            })
        }
    }
}

/// The changes of those of these backups' tables that are of the first layout. Each table is read, and let go before the next one;
/// the bytes of the changes are held all at once. A refusal changes nothing: `Damaged` comes only if one of these files is absent
/// or no table's.
fn gather<D: Disk>(
    alloc: Global,
    journal: &mut Journal<D>,
    host: u32,
    lines: &[Line],
) -> Result<Changes, ViewFault>
    requires { journal.old.halted ≡ false }
    ensures planned { IfOk result (IsPlanned (told journal.old) host lines.now) }
    ensures damaged { IfErr result (SaysOneDamaged (told journal.old) host lines.now) }
    ensures quiet { Quiet journal.old journal.new }
    ensures counted { Counted (D.fault_count journal.old.disk) (D.fault_count journal.new.disk) (IsErrOf result ViewFault.Disk) }
{
    let mut changes = Changes::new(alloc);
    for line in lines {
        let read = read_stored(alloc, journal, host, line.number)?;
        push_rewritten(alloc, host, line.number, &read, &mut changes)?;
    }
    Ok(changes)
}

/// The changes of a migration of a host of a catalog. The tables of its backups are read, and nothing changes.
pub(crate) fn plan_migration<D: Disk>(
    alloc: Global,
    journal: &mut Journal<D>,
    catalog: &Catalog,
    host: usize,
) -> Result<Changes, Refusal>
    requires ready { journal.old.halted ≡ false }
    requires within { host < length catalog.now.hosts }
    ensures planned { IfOk result (λ changes. (index : Index) → slice_get catalog.now.hosts host ≡ Some index
        → IsPlanned (told journal.old) host index.lines changes) }
    ensures are { IfOk result AreChanges }
    ensures refused { IfErr result (IsPlanFault (told journal.old) catalog.now host) }
    ensures quiet { Quiet journal.old journal.new }
    ensures counted { Counted (D.fault_count journal.old.disk) (D.fault_count journal.new.disk) (IsErrOf result Refusal.DiskFault) }
{
    let index = &catalog.hosts()[host];
    match gather(alloc, journal, index.host(), index.lines().lines()) {
        Ok(changes) => Ok(changes),
        Err(fault) => Err(refusal_of_view(fault)),
    }
}
