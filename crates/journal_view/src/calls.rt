//! The calls of a journal at work.

ghost use Rattle.std.specs.Prelude.{◌≡◌, true, false, Option, Some, None, IfOk, OnOk, IsErrOf};
ghost use Rattle.fault_counts.specs.Counts.{Counted};
ghost use Rattle.disk_trait.specs.declared.ids.FileId.{FileId};
ghost use Rattle.disk_trait.specs.Names.{is_data};
ghost use Rattle.disk_trait.specs.Files.{Files, changed, appended, piece};
ghost use Rattle.disk_trait.specs.Images.{nothing, IsWithin};
ghost use Rattle.intent_journal.specs.Changes.{AreChanges};
ghost use Rattle.journal_view.specs.Found.{ListsSeen, is_seen};
ghost use Rattle.journal_view.specs.View.{told, Quiet, Committed, Staged};
ghost use Rattle.disk_trait.specs.declared.ids.PoolId.{PoolId};

use disk_trait::{Bytes, Disk, FileId, FileList, PoolId};
use intent_journal::{Changes, Journal, JournalFault};
use std::alloc::Global;

/// The bytes of a file, as it was committed or staged; `None` where it is absent. A refusal changes nothing.
pub fn get<D: Disk>(
    journal: &mut Journal<D>,
    alloc: Global,
    file: FileId,
) -> Result<Option<Bytes>, JournalFault>
    requires ready { journal.old.halted ≡ false }
    requires seen { is_seen file ≡ true }
    ensures found { IfOk result (λ found. (all : Files) → told journal.old ≡ Some all → found ≡ all file) }
    ensures quiet { Quiet journal.old journal.new }
    ensures running { IsErrOf result JournalFault.Halted → ⊥ }
    ensures counted { Counted (D.fault_count journal.old.disk) (D.fault_count journal.new.disk) (IsErrOf result JournalFault.Disk) }
{
    match journal.get(alloc, file) {
        Ok(found) => Ok(found),
        Err(fault) => Err(fault),
    }
}

/// A content of the pool, whole; `None` where its file is absent. A refusal changes nothing.
pub fn read_data<D: Disk>(
    journal: &mut Journal<D>,
    alloc: Global,
    id: PoolId,
) -> Result<Option<Bytes>, JournalFault>
    requires { journal.old.halted ≡ false }
    ensures found { IfOk result (λ found. (all : Files) → told journal.old ≡ Some all → found ≡ all (FileId.Pool id)) }
    ensures quiet { Quiet journal.old journal.new }
    ensures running { IsErrOf result JournalFault.Halted → ⊥ }
    ensures counted { Counted (D.fault_count journal.old.disk) (D.fault_count journal.new.disk) (IsErrOf result JournalFault.Disk) }
{
    match journal.read_data(alloc, id) {
        Ok(found) => Ok(found),
        Err(fault) => Err(fault),
    }
}

/// `room` bytes of a file from an offset on, or all that are left; `None` where it is absent. A refusal changes nothing.
pub fn read_at<D: Disk>(
    journal: &mut Journal<D>,
    alloc: Global,
    file: FileId,
    offset: u64,
    room: usize,
) -> Result<Option<Bytes>, JournalFault>
    requires ready { journal.old.halted ≡ false }
    requires seen { is_seen file ≡ true }
    ensures found { IfOk result (λ found. (all : Files) → told journal.old ≡ Some all → found ≡ piece (all file) offset room) }
    ensures quiet { Quiet journal.old journal.new }
    ensures running { IsErrOf result JournalFault.Halted → ⊥ }
    ensures counted { Counted (D.fault_count journal.old.disk) (D.fault_count journal.new.disk) (IsErrOf result JournalFault.Disk) }
{
    match journal.read_at(alloc, file, offset, room) {
        Ok(found) => Ok(found),
        Err(fault) => Err(fault),
    }
}

/// The files that are there, each once; Intent and Gate may be among them. A refusal changes nothing.
pub fn list<D: Disk>(journal: &mut Journal<D>, alloc: Global) -> Result<FileList, JournalFault>
    requires { journal.old.halted ≡ false }
    ensures found { IfOk result (λ found. (all : Files) → told journal.old ≡ Some all → ListsSeen found all) }
    ensures quiet { Quiet journal.old journal.new }
    ensures running { IsErrOf result JournalFault.Halted → ⊥ }
    ensures counted { Counted (D.fault_count journal.old.disk) (D.fault_count journal.new.disk) (IsErrOf result JournalFault.Disk) }
{
    match journal.list(alloc) {
        Ok(found) => Ok(found),
        Err(fault) => Err(fault),
    }
}

/// Makes the changes, all at once.
///
/// After Ok the files that are told are those with the changes, and all of them are durable. After `Memory` nothing was
/// done. After `Disk` the journal is halted, and a reopening finds the files before the changes or those after.
pub fn commit<D: Disk>(
    journal: &mut Journal<D>,
    alloc: Global,
    changes: &Changes,
) -> Result<(), JournalFault>
    requires ready { journal.old.halted ≡ false }
    requires changes { AreChanges changes.now }
    ensures { Committed journal.old changes.now result journal.new }
{
    journal.commit(alloc, changes)
}

/// Makes these bytes a content of the pool or a stage, which is uncertain until the next commit or barrier.
///
/// After `Disk`, the only refusal, the file may hold any bytes or be absent; the others stay. Takes no memory.
pub fn stage<D: Disk>(
    journal: &mut Journal<D>,
    file: FileId,
    bytes: &[u8],
) -> Result<(), JournalFault>
    requires ready { journal.old.halted ≡ false }
    requires kind { is_data file ≡ true }
    ensures ready { journal.new.halted ≡ journal.old.halted }
    ensures running { IsErrOf result JournalFault.Halted → ⊥ }
    ensures no_memory_asked { IsErrOf result JournalFault.Memory → ⊥ }
    ensures staged { (all : Files) → told journal.old ≡ Some all → Staged journal.old file all journal.new }
    ensures bytes { OnOk result (told journal.new ≡ changed (told journal.old) file (Some bytes.now)) }
    ensures counted { Counted (D.fault_count journal.old.disk) (D.fault_count journal.new.disk) (IsErrOf result JournalFault.Disk) }
{
    match journal.stage(file, bytes) {
        Ok(()) => Ok(()),
        Err(fault) => Err(fault),
    }
}

/// Puts bytes at the end of a content or a stage; an absent file counts as empty. The rest as `stage`.
pub fn append<D: Disk>(
    journal: &mut Journal<D>,
    file: FileId,
    bytes: &[u8],
) -> Result<(), JournalFault>
    requires ready { journal.old.halted ≡ false }
    requires kind { is_data file ≡ true }
    ensures ready { journal.new.halted ≡ journal.old.halted }
    ensures running { IsErrOf result JournalFault.Halted → ⊥ }
    ensures no_memory_asked { IsErrOf result JournalFault.Memory → ⊥ }
    ensures staged { (all : Files) → told journal.old ≡ Some all → Staged journal.old file all journal.new }
    ensures bytes { OnOk result (told journal.new ≡ appended (told journal.old) file bytes.now) }
    ensures counted { Counted (D.fault_count journal.old.disk) (D.fault_count journal.new.disk) (IsErrOf result JournalFault.Disk) }
{
    match journal.append(file, bytes) {
        Ok(()) => Ok(()),
        Err(fault) => Err(fault),
    }
}

/// Takes a content or a stage away, if it is there. The rest as `stage`.
pub fn drop_data<D: Disk>(journal: &mut Journal<D>, file: FileId) -> Result<(), JournalFault>
    requires ready { journal.old.halted ≡ false }
    requires kind { is_data file ≡ true }
    ensures ready { journal.new.halted ≡ journal.old.halted }
    ensures running { IsErrOf result JournalFault.Halted → ⊥ }
    ensures no_memory_asked { IsErrOf result JournalFault.Memory → ⊥ }
    ensures staged { (all : Files) → told journal.old ≡ Some all → Staged journal.old file all journal.new }
    ensures bytes { OnOk result (told journal.new ≡ changed (told journal.old) file None) }
    ensures counted { Counted (D.fault_count journal.old.disk) (D.fault_count journal.new.disk) (IsErrOf result JournalFault.Disk) }
{
    match journal.drop_data(file) {
        Ok(()) => Ok(()),
        Err(fault) => Err(fault),
    }
}

/// Makes contents and stages durable. A refusal changes nothing. Takes no memory.
pub fn barrier<D: Disk>(journal: &mut Journal<D>) -> Result<(), JournalFault>
    requires { journal.old.halted ≡ false }
    ensures durable { OnOk result (IsWithin (D.uncertain journal.new.disk) nothing) }
    ensures no_memory_asked { IsErrOf result JournalFault.Memory → ⊥ }
    ensures quiet { Quiet journal.old journal.new }
    ensures running { IsErrOf result JournalFault.Halted → ⊥ }
    ensures counted { Counted (D.fault_count journal.old.disk) (D.fault_count journal.new.disk) (IsErrOf result JournalFault.Disk) }
{
    journal.barrier()
}
