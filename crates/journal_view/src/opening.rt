//! Opening a disk, and opening it again.

ghost use Rattle.std.specs.Prelude.{◌≡◌, true, false, is_some, ℕ, List, Option, Some, IfOk, IfErr, OnOk, OnErr, IsErrOf};
ghost use Rattle.fault_counts.specs.Counts.{Counted};
ghost use Rattle.disk_trait.specs.declared.ids.FileId.{FileId};
ghost use Rattle.disk_trait.specs.Files.{Files};
ghost use Rattle.disk_trait.specs.Images.{IsWithin, Leaves};
ghost use Rattle.journal_view.specs.Found.{Finds, FindsAll, CanFind, IsOpenable, Reopened};
ghost use Rattle.journal_view.specs.View.{told, Quiet};

use disk_trait::Disk;
use intent_journal::{Journal, OpenJournalFault};
use std::alloc::Global;

/// Opens the journal of a disk. The files that it tells then are some that could be found in the disk after a crash at the
/// start, and a crash meanwhile leaves such.
///
/// The disk comes back with each refusal, and can be opened again. `Foreign` never comes where each image of the disk can be
/// opened, `Disk` only where a call of the disk failed; after `Foreign` and `Memory` nothing was written.
pub fn open<D: Disk>(alloc: Global, disk: D) -> Result<Journal<D>, (D, OpenJournalFault)>
    ensures ready { IfOk result (λ journal. journal.halted ≡ false) }
    ensures done { IfOk result (λ journal. (all : Files) → D.files disk ≡ Some all → IsOpenable (D.files disk) (D.uncertain disk)
        → Reopened D.files D.uncertain D.moment D.left_since (CanFind (D.files disk) (D.uncertain disk)) disk journal.disk) }
    ensures counted { IfOk result (λ journal. D.fault_count journal.disk ≡ D.fault_count disk) }
    ensures failed { IfErr result (λ refused. (all : Files) → D.files disk ≡ Some all → IsOpenable (D.files disk) (D.uncertain disk)
        → Leaves D.moment D.left_since disk refused.0 (Finds (CanFind (D.files disk) (D.uncertain disk)))
        × FindsAll (D.files refused.0) (D.uncertain refused.0) (CanFind (D.files disk) (D.uncertain disk))) }
    ensures known { IfErr result (λ refused. (all : Files) (file : FileId) (found : Option (List ℕ))
        → refused.1 ≡ OpenJournalFault.Foreign file found
        → D.files disk ≡ Some all → IsOpenable (D.files disk) (D.uncertain disk) → ⊥) }
    ensures unwritten { IfErr result (λ refused. (refused.1 ≡ OpenJournalFault.Disk → ⊥)
        → (D.files refused.0 ≡ D.files disk) × IsWithin (D.uncertain refused.0) (D.uncertain disk)) }
    ensures refused_counted { IfErr result (λ refused.
        Counted (D.fault_count disk) (D.fault_count refused.0) (refused.1 ≡ OpenJournalFault.Disk)) }
{
    match Journal::open(alloc, disk) {
        Ok(journal) => Ok(journal),
        Err(refused) => Err(refused),
    }
}

/// Opens the disk again, as `open` does; a journal at work stays as it was. After Ok the journal isn't halted.
///
/// After `Memory` it is halted as it was before, after `Foreign` and `Disk` it is halted.
pub fn reopen<D: Disk>(journal: &mut Journal<D>, alloc: Global) -> Result<(), OpenJournalFault>
    ensures ready { OnOk result (journal.new.halted ≡ false) }
    ensures done { OnOk result ((all : Files) → D.files journal.old.disk ≡ Some all
        → IsOpenable (D.files journal.old.disk) (D.uncertain journal.old.disk)
        → Reopened D.files D.uncertain D.moment D.left_since (CanFind (D.files journal.old.disk) (D.uncertain journal.old.disk))
        journal.old.disk journal.new.disk) }
    ensures failed { OnErr result ((all : Files) → D.files journal.old.disk ≡ Some all
        → IsOpenable (D.files journal.old.disk) (D.uncertain journal.old.disk)
        → Leaves D.moment D.left_since journal.old.disk journal.new.disk
        (Finds (CanFind (D.files journal.old.disk) (D.uncertain journal.old.disk)))
        × FindsAll (D.files journal.new.disk) (D.uncertain journal.new.disk)
        (CanFind (D.files journal.old.disk) (D.uncertain journal.old.disk))) }
    ensures known { IfErr result (λ fault. (all : Files) (file : FileId) (found : Option (List ℕ))
        → fault ≡ OpenJournalFault.Foreign file found
        → D.files journal.old.disk ≡ Some all → IsOpenable (D.files journal.old.disk) (D.uncertain journal.old.disk) → ⊥) }
    ensures running { OnOk result (journal.old.halted ≡ false → is_some (told journal.old) ≡ true → Quiet journal.old journal.new) }
    ensures memory { IfErr result (λ fault. fault ≡ OpenJournalFault.Memory → journal.old.halted ≡ false → Quiet journal.old journal.new) }
    ensures unwritten { IfErr result (λ fault. (fault ≡ OpenJournalFault.Disk → ⊥)
        → (D.files journal.new.disk ≡ D.files journal.old.disk) × IsWithin (D.uncertain journal.new.disk) (D.uncertain journal.old.disk)) }
    ensures stays { IfErr result (λ fault. fault ≡ OpenJournalFault.Memory → journal.new.halted ≡ journal.old.halted) }
    ensures stopped { IfErr result (λ fault. (fault ≡ OpenJournalFault.Memory → ⊥) → journal.new.halted ≡ true) }
    ensures tells { is_some (D.files journal.old.disk) ≡ true → is_some (D.files journal.new.disk) ≡ true }
    ensures counted { Counted (D.fault_count journal.old.disk) (D.fault_count journal.new.disk) (IsErrOf result OpenJournalFault.Disk) }
{
    match journal.reopen(alloc) {
        Ok(()) => Ok(()),
        Err(fault) => Err(fault),
    }
}
