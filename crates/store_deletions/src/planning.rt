//! The plan of a deletion.

ghost use Rattle.std.specs.Prelude.{◌≡◌, ◌<◌, false, length, Some, IfOk, IfErr, IsErrOf, slice_get};
ghost use Rattle.fault_counts.specs.Counts.{Counted};
ghost use Rattle.journal_view.specs.View.{told, Quiet};
ghost use Rattle.backup_index.specs.Index.{Index};
ghost use Rattle.ref_counts.specs.Numbers.{Items};
ghost use Rattle.store_deletions.specs.Planned.{IsPlanned, IsPlanFault};
ghost use Rattle.store_deletions.specs.Called.{HasCalled, SaysOfTables};

use crate::build::build;
use crate::plan::DeletionPlan;
use backup_delete::window_of;
use backup_views::read_tables;
use disk_trait::Disk;
use intent_journal::Journal;
use office_catalog::Catalog;
use office_model::{BrokenRule, Refusal};
use pool_name::Namer;
use ref_counts::Counts;
use std::alloc::Global;
use store_parts::{StoreParts, refusal_of_view};

/// The plan of the deletion of the backups of these numbers from a host of a catalog, by its counts and by the tables of those of
/// its backups that the deletion touches, which are read.
fn plan_of<D: Disk>(
    alloc: Global,
    journal: &mut Journal<D>,
    catalog: &Catalog,
    counts: &Counts,
    host: usize,
    numbers: &[u32],
) -> Result<DeletionPlan, Refusal>
    requires ready { journal.old.halted ≡ false }
    requires within { host < length catalog.now.hosts }
    ensures planned { IfOk result (IsPlanned catalog.now (told journal.old) counts.now host numbers.now) }
    ensures refused { IfErr result (IsPlanFault (told journal.old) catalog.now host) }
    ensures called { IfOk result (λ plan. (index : Index) → slice_get catalog.now.hosts host ≡ Some index
        → HasCalled (told journal.old) host index.lines numbers.now) }
    ensures quiet { Quiet journal.old journal.new }
    ensures counted { Counted (D.fault_count journal.old.disk) (D.fault_count journal.new.disk) (IsErrOf result Refusal.DiskFault) }
{
    let index = &catalog.hosts()[host];
    let lines = index.lines().lines();
    let window = match window_of(alloc, lines, numbers) {
        Ok(window) => window,
        Err(_) => return Err(Refusal::Memory),
    };
    let touched = &lines[window.first..window.end];
    let tables = match read_tables(alloc, journal, index.host(), touched) {
        Ok(tables) => tables,
        Err(fault) => return Err(refusal_of_view(fault)),
    };
    match build(
        alloc,
        catalog,
        host,
        window,
        tables.as_slice(),
        counts,
        numbers,
    ) {
        Ok(plan) => Ok(plan),
        Err(_) => Err(Refusal::Memory),
    }
}

/// Plans the deletion of the backups of these numbers from a host; nothing changes. The tables that the deletion touches are read,
/// and no other: from the older neighbour of the oldest backup that goes up to the first filled one that stays behind the newest
/// of them, or to the end. A host without counts is refused: a store at work has none.
pub fn plan_deletion<D: Disk, N: Namer>(
    parts: &mut StoreParts<D, N>,
    alloc: Global,
    host: usize,
    numbers: &[u32],
) -> Result<DeletionPlan, Refusal>
    requires ready { parts.old.journal.halted ≡ false }
    requires within { host < length parts.old.catalog.hosts }
    ensures planned { IfOk result (λ plan. (counts : Items) → slice_get parts.old.counts host ≡ Some counts
        → IsPlanned parts.old.catalog (told parts.old.journal) counts host numbers.now plan) }
    ensures refused { IfErr result (λ refusal. (counts : Items) → slice_get parts.old.counts host ≡ Some counts
        → IsPlanFault (told parts.old.journal) parts.old.catalog host refusal) }
    ensures awake { IfErr result (λ refusal. refusal ≡ Refusal.Halted → ⊥) }
    ensures tables { SaysOfTables parts.old parts.new host numbers.now result }
    ensures within { IfOk result (λ plan. host < length parts.old.counts) }
    ensures quiet { Quiet parts.old.journal parts.new.journal }
    ensures others { parts.new ≡ record parts.old { journal = parts.new.journal } }
    ensures counted { Counted (D.fault_count parts.old.journal.disk) (D.fault_count parts.new.journal.disk) (IsErrOf result Refusal.DiskFault) }
{
    let Some(counts) = parts.counts.of_host(host) else {
        return Err(Refusal::Broken(BrokenRule::NoHost));
    };
    match plan_of(
        alloc,
        &mut parts.journal,
        &parts.catalog,
        counts,
        host,
        numbers,
    ) {
        Ok(plan) => Ok(plan),
        Err(refusal) => Err(refusal),
    }
}
