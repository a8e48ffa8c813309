//! Opening a disk.

ghost use Rattle.std.specs.Prelude.{◌≡◌, false, List, ℕ, Option, Some, IfOk, IfErr, option_map};
ghost use Rattle.fault_counts.specs.Counts.{Counted};
ghost use Rattle.disk_trait.specs.declared.ids.FileId.{FileId as File};
ghost use Rattle.disk_trait.specs.declared.ids.FileId.TheVariants.{Intent};
ghost use Rattle.disk_trait.specs.Files.{Files};
ghost use Rattle.disk_trait.specs.Images.{Leaves};
ghost use Rattle.intent_journal.specs.Overlay.{IsForeign as IsForeignIntent};
ghost use Rattle.journal_view.specs.Found.{seen, Finds, FindsAll, CanFind, IsOpenable, Reopened};
ghost use Rattle.journal_view.specs.View.{told, FindsNow};
ghost use Rattle.pool_changes.specs.Kept.{slots_of};
ghost use Rattle.pool_store.specs.Opening.{AreThePoolFiles};
ghost use Rattle.office_model.specs.Office.{Durable};
ghost use Rattle.office_model.specs.Step.{IsPicked};
ghost use Rattle.store_parts.specs.Runs.{IsAtWork};
ghost use Rattle.store_opening.specs.KeptTables.{HasTablesOf, HasTablesFound};
ghost use Rattle.store_opening.specs.Recovers.{Holds, SaysForeign, SaysWhy};
ghost use Rattle.store_opening.specs.Reopens.{IsOfFound};
ghost use Rattle.store_opening.specs.Opens.{IsOf, Opened, Left};
ghost use Rattle.store_opening.specs.Settles.{IsSynced, MayBeSynced, ComesToOne, IsStopped, IsOfOne};
ghost use Rattle.store_opening.specs.Whole.{KeepsData, HasAllOf, HasBuckets, SaysSpent};

use crate::begin::begin;
use crate::fault::{OpenRefusal, open_refusal};
use crate::found::Found;
use backup_views::Views;
use disk_trait::Disk;
use intent_journal::Journal;
use open_sessions::Sessions;
use pool_name::Namer;
use std::alloc::Global;
use store_parts::StoreParts;

/// Opens the journal of a disk; the disk comes back with each refusal.
fn open_journal<D: Disk>(alloc: Global, disk: D) -> Result<Journal<D>, (D, OpenRefusal)>
    ensures ready { IfOk result (λ journal. journal.halted ≡ false) }
    ensures done { IfOk result (λ journal. (all : Files) → D.files disk ≡ Some all → IsOpenable (D.files disk) (D.uncertain disk)
        → Reopened D.files D.uncertain D.moment D.left_since (CanFind (D.files disk) (D.uncertain disk)) disk journal.disk) }
    ensures counted { IfOk result (λ journal. D.fault_count journal.disk ≡ D.fault_count disk) }
    ensures failed { IfErr result (λ refused. (all : Files) → D.files disk ≡ Some all → IsOpenable (D.files disk) (D.uncertain disk)
        → Leaves D.moment D.left_since disk refused.0 (Finds (CanFind (D.files disk) (D.uncertain disk)))
        × FindsAll (D.files refused.0) (D.uncertain refused.0) (CanFind (D.files disk) (D.uncertain disk))) }
    ensures known { IfErr result (λ refused. (all : Files) (file : File) (found : Option (List ℕ)) → refused.1 ≡ OpenRefusal.Foreign file found
        → D.files disk ≡ Some all → IsOpenable (D.files disk) (D.uncertain disk) → ⊥) }
    ensures foreign { IfErr result (λ refused. (file : File) (found : Option (List ℕ)) → refused.1 ≡ OpenRefusal.Foreign file found
        → (file ≡ Intent) × IsForeignIntent (D.files disk) found) }
    ensures kind { IfErr result (λ refused. refused.1 ≡ OpenRefusal.EpochsSpent → ⊥) }
    ensures keeps { IfOk result (λ journal. KeepsData (D.files disk) (D.files journal.disk)) }
    ensures synced { IfOk result (λ journal. (all : Files) → D.files disk ≡ Some all → IsSynced ⟦<D as Disk>⟧ disk journal.disk) }
    ensures stopped { IfErr result (λ refused. (all : Files) → D.files disk ≡ Some all → IsOpenable (D.files disk) (D.uncertain disk)
        → MayBeSynced ⟦<D as Disk>⟧ disk refused.0) }
    ensures refused_counted { IfErr result (λ refused. Counted (D.fault_count disk) (D.fault_count refused.0) (refused.1 ≡ OpenRefusal.DiskFault)) }
{
    match Journal::open(alloc, disk) {
        Ok(journal) => Ok(journal),
        Err((disk, fault)) => Err((disk, open_refusal(fault))),
    }
}

/// The parts of a store on what was found, with nothing open.
fn parts_of<D: Disk, N: Namer>(
    alloc: Global,
    journal: Journal<D>,
    found: Found<N>,
) -> StoreParts<D, N>
    ensures is { IsOfFound result found 0 0 }
    ensures journal { result.journal ≡ journal }
{
    StoreParts {
        journal,
        pool: found.pool,
        catalog: found.catalog,
        counts: found.counts,
        partials: found.partials,
        sessions: Sessions::new(alloc),
        views: Views::new(),
        halted: false,
    }
}

/// Begins the next epoch on the disk of a journal, which comes back with each refusal.
fn start<D: Disk, N: Namer>(
    alloc: Global,
    journal: Journal<D>,
    namer: N,
) -> Result<StoreParts<D, N>, (D, OpenRefusal)>
    requires { journal.halted ≡ false }
    ensures opened { IfOk result (λ parts. (a b : Durable) → Holds N.digest_of journal a b
        → (o : Opened a b parts) × IsOfOne ⟦<D as Disk>⟧ N.digest_of journal.disk parts.journal.disk o.office) }
    ensures left_one { IfErr result (λ refused. (a b : Durable) → Holds N.digest_of journal a b
        → (office : Durable) × IsPicked a b office × IsOfOne ⟦<D as Disk>⟧ N.digest_of journal.disk refused.0 office) }
    ensures left { IfErr result (λ refused. (a b : Durable) → Holds N.digest_of journal a b
        → Left N.digest_of (D.files refused.0) (D.uncertain refused.0) a b refused.1) }
    ensures tables { IfOk result (λ parts. (all : Files) → told journal ≡ Some all → FindsNow parts.journal (HasTablesOf all)) }
    ensures left_tables { IfErr result (λ refused. (all : Files) → told journal ≡ Some all
        → FindsAll (D.files refused.0) (D.uncertain refused.0) (HasTablesOf all)) }
    ensures ready { IfOk result IsAtWork }
    ensures foreign { IfErr result (λ refused. SaysForeign (option_map seen (D.files refused.0)) refused.1) }
    ensures whole { IfOk result HasAllOf }
    ensures buckets { IfOk result HasBuckets }
    ensures listed { IfOk result (λ parts. AreThePoolFiles (D.files journal.disk) (slots_of parts.pool.names)) }
    ensures spent { IfErr result (λ refused. SaysSpent (option_map seen (D.files refused.0)) refused.1) }
    ensures counted { IfOk result (λ parts. D.fault_count parts.journal.disk ≡ D.fault_count journal.disk) }
    ensures left_counted { IfErr result (λ refused. Counted (D.fault_count journal.disk) (D.fault_count refused.0) (refused.1 ≡ OpenRefusal.DiskFault)) }
{
    let mut journal = journal;
    match begin(alloc, &mut journal, namer) {
        Ok(found) => Ok(parts_of(alloc, journal, found)),
        Err(refusal) => Err((journal.close(), refusal)),
    }
}

/// Opens the store of a disk. A disk without files is that of a store without hosts.
///
/// After Ok the office that the disk had is at work in its next epoch, and durable so. The disk comes back with each
/// refusal, and can be opened again: after `EpochsSpent` and `Memory` it has the office as it was, after `DiskFault` as it
/// was or in its next epoch. `Foreign` says what was found of the file; it never comes on a disk that a store left.
/// No table is written, whatever it answers; after Ok the old hosts are exactly those that have a table of the first layout.
///
/// Over any disk, after Ok the parts are at work. Over any disk that tells its files: after Ok they are those of a store, of which memory has what they hold, and the names in use
/// are those of the Pool files; the index of the pool is in buckets there; `EpochsSpent` comes only over those of a store in its last epoch.
pub fn open<D: Disk, N: Namer>(
    alloc: Global,
    disk: D,
    namer: N,
) -> Result<StoreParts<D, N>, (D, OpenRefusal)>
    ensures opened { IfOk result (λ parts. (a b : Durable) → IsOf N.digest_of (D.files disk) (D.uncertain disk) a b
        → (o : Opened a b parts) × ComesToOne ⟦<D as Disk>⟧ N.digest_of disk parts.journal.disk a b o.office) }
    ensures left { IfErr result (λ refused. (a b : Durable) → IsOf N.digest_of (D.files disk) (D.uncertain disk) a b
        → Left N.digest_of (D.files refused.0) (D.uncertain refused.0) a b refused.1) }
    ensures stops { IfErr result (λ refused. (a b : Durable) → IsOf N.digest_of (D.files disk) (D.uncertain disk) a b
        → IsStopped ⟦<D as Disk>⟧ N.digest_of disk refused.0 a b) }
    ensures tables { IfOk result (λ parts. (a b : Durable) → IsOf N.digest_of (D.files disk) (D.uncertain disk) a b
        → FindsNow parts.journal (HasTablesFound (D.files disk) (D.uncertain disk))) }
    ensures left_tables { IfErr result (λ refused. (a b : Durable) → IsOf N.digest_of (D.files disk) (D.uncertain disk) a b
        → FindsAll (D.files refused.0) (D.uncertain refused.0) (HasTablesFound (D.files disk) (D.uncertain disk))) }
    ensures ready { IfOk result IsAtWork }
    ensures foreign { IfErr result (λ refused. SaysWhy (D.files disk) (D.files refused.0) refused.1) }
    ensures whole { IfOk result HasAllOf }
    ensures buckets { IfOk result HasBuckets }
    ensures listed { IfOk result (λ parts. AreThePoolFiles (D.files disk) (slots_of parts.pool.names)) }
    ensures spent { IfErr result (λ refused. SaysSpent (option_map seen (D.files refused.0)) refused.1) }
    ensures counted { IfOk result (λ parts. D.fault_count parts.journal.disk ≡ D.fault_count disk) }
    ensures left_counted { IfErr result (λ refused. Counted (D.fault_count disk) (D.fault_count refused.0) (refused.1 ≡ OpenRefusal.DiskFault)) }
{
    let journal = match open_journal(alloc, disk) {
        Ok(journal) => journal,
        Err(refused) => return Err(refused),
    };
    match start(alloc, journal, namer) {
        Ok(parts) => Ok(parts),
        Err(refused) => Err(refused),
    }
}
