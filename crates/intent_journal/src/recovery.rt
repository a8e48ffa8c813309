//! What an opening does to a disk.

ghost use Rattle.std.specs.Prelude.{◌≡◌, ◌⊎◌, ℕ, List, Option, true, false, Some, None, IfOk, OnOk, OnErr, IfErr, IsErr, IsErrOf};
ghost use Rattle.std.specs.Option.{ForSome};
ghost use Rattle.fault_counts.specs.Counts.{Counted};
ghost use Rattle.disk_trait.specs.declared.ids.FileId.{FileId};
ghost use Rattle.disk_trait.specs.Files.{Files};
ghost use Rattle.disk_trait.specs.Images.{nothing, IsWithin, MayLeave, Leaves};
ghost use Rattle.intent_journal.specs.declared.changes.Change.{Change};
ghost use Rattle.intent_journal.specs.Changes.{IsIntent};
ghost use Rattle.intent_journal.specs.Layout.{intent_file, is_open};
ghost use Rattle.intent_journal.specs.Overlay.{ComesTo, IsRecoverable, IsSettled, IsAtRest, IsEmptied, IsForeign, IsFound, Looks, LooksDurably, Recovers};

use crate::changes::Changes;
use crate::fault::OpenJournalFault;
use crate::intent::{IntentFault, read_intent};
use crate::steps::replay;
use disk_trait::{Bytes, Disk, DiskError, Failed, FileId};
use std::alloc::Global;

/// Whether these are the bytes of an open Gate.
fn is_open(found: &Option<Bytes>) -> bool
    ensures { result ≡ is_open found.now }
{
    match found {
        None => false,
        Some(bytes) => bytes.as_slice() == b"O".as_slice(),
    }
}

/// A file of a disk.
fn find<D: Disk>(
    alloc: Global,
    disk: &mut D,
    file: FileId,
) -> Result<Option<Bytes>, OpenJournalFault>
    ensures found { IfOk result (λ found. ForSome (D.files disk.old) (λ all. found ≡ all file)) }
    ensures looks { Looks D.files D.uncertain D.moment D.left_since disk.old disk.new }
    ensures own { IfErr result (λ fault. (fault ≡ OpenJournalFault.Disk) ⊎ (fault ≡ OpenJournalFault.Memory)) }
    ensures counted { Counted (D.fault_count disk.old) (D.fault_count disk.new) (IsErrOf result OpenJournalFault.Disk) }
{
    match disk.read(alloc, file) {
        Ok(found) => Ok(found),
        Err(DiskError::Failed) => Err(OpenJournalFault::Disk),
        Err(DiskError::Memory) => Err(OpenJournalFault::Memory),
    }
}

/// The first sync of an opening.
fn settle<D: Disk>(disk: &mut D) -> Result<(), OpenJournalFault>
    ensures durable { OnOk result (IsWithin (D.uncertain disk.new) nothing) }
    ensures looks { Looks D.files D.uncertain D.moment D.left_since disk.old disk.new }
    ensures own { IfErr result (λ fault. fault ≡ OpenJournalFault.Disk) }
    ensures counted { Counted (D.fault_count disk.old) (D.fault_count disk.new) (IsErrOf result OpenJournalFault.Disk) }
{
    match disk.sync() {
        Ok(()) => Ok(()),
        Err(Failed) => Err(OpenJournalFault::Disk),
    }
}

/// The changes that an open Gate makes count, if it is open.
fn find_changes<D: Disk>(alloc: Global, disk: &mut D) -> Result<Option<Changes>, OpenJournalFault>
    ensures found { IfOk result (λ found. (all : Files) → D.files disk.old ≡ Some all → IsFound all found) }
    ensures looks { Looks D.files D.uncertain D.moment D.left_since disk.old disk.new }
    ensures foreign { IfErr result (λ fault. (file : FileId) (found : Option (List ℕ)) → fault ≡ OpenJournalFault.Foreign file found
        → (file ≡ FileId.Intent) × IsForeign (D.files disk.old) found) }
    ensures counted { Counted (D.fault_count disk.old) (D.fault_count disk.new) (IsErrOf result OpenJournalFault.Disk) }
{
    let gate = match find(alloc, disk, FileId::Gate) {
        Ok(gate) => gate,
        Err(fault) => return Err(fault),
    };
    if !is_open(&gate) {
        return Ok(None);
    }
    let intent = match find(alloc, disk, FileId::Intent) {
        Ok(Some(intent)) => intent,
        Ok(None) => return Err(OpenJournalFault::Foreign {
            file: FileId::Intent,
            found: None,
        }),
        Err(fault) => return Err(fault),
    };
    match read_intent(alloc, intent.as_slice()) {
        Ok(changes) => Ok(Some(changes)),
        Err(IntentFault::Foreign) => Err(OpenJournalFault::Foreign {
            file: FileId::Intent,
            found: Some(intent),
        }),
        Err(IntentFault::Memory) => Err(OpenJournalFault::Memory),
    }
}

/// Makes the changes that were found, closes Gate behind them, and empties Intent. Where none were found it writes nothing.
fn replay_found<D: Disk>(disk: &mut D, found: &Option<Changes>) -> Result<(), Failed>
    requires { IsWithin (D.uncertain disk.old) nothing }
    ensures at_rest { OnOk result ((all files : Files) → D.files disk.old ≡ Some all → IsFound all found.now → ComesTo files nothing all
        → IsAtRest (D.files disk.new) (D.uncertain disk.new) files) }
    ensures settled { OnOk result (((all : Files) → D.files disk.old ≡ Some all → IsFound all found.now)
        → IsSettled (D.files disk.new) (D.uncertain disk.new)) }
    ensures unwritten { found.now ≡ None → disk.new ≡ disk.old }
    ensures emptied { OnOk result ((found.now ≡ None → ⊥) → IsEmptied (D.files disk.new)) }
    ensures any_moment { (all files : Files) → D.files disk.old ≡ Some all → IsFound all found.now → ComesTo files nothing all
        → Leaves D.moment D.left_since disk.old disk.new (ComesTo files nothing) }
    ensures counted { Counted (D.fault_count disk.old) (D.fault_count disk.new) (IsErr result) }
{
    match found {
        None => Ok(()),
        Some(changes) => match replay(disk, changes.as_slice()) {
            Ok(()) => Ok(()),
            Err(Failed) => Err(Failed),
        },
    }
}

/// Brings a disk to rest: each image then comes to what the disk came to before.
pub(crate) fn recover<D: Disk>(alloc: Global, disk: &mut D) -> Result<(), OpenJournalFault>
    // Up to the first sync that succeeds a crash leaves what it might have left at the start; from then on, what
    // comes to the files that the disk came to.
    ensures any_moment { (all files : Files) → D.files disk.old ≡ Some all → ComesTo files nothing all
        → Leaves D.moment D.left_since disk.old disk.new (MayLeave (D.files disk.old) (D.uncertain disk.old))
        ⊎ Recovers D.files D.uncertain D.moment D.left_since disk.old disk.new files }
    ensures recovered { OnOk result ((all files : Files) → D.files disk.old ≡ Some all → ComesTo files nothing all
        → Recovers D.files D.uncertain D.moment D.left_since disk.old disk.new files) }
    ensures at_rest { OnOk result ((all files : Files) → D.files disk.old ≡ Some all → ComesTo files nothing all
        → IsAtRest (D.files disk.new) (D.uncertain disk.new) files) }
    ensures settled { OnOk result (IsSettled (D.files disk.new) (D.uncertain disk.new)) }
    // Where Gate was closed nothing was written; where it was open, Intent is empty.
    ensures shut { OnOk result ((all : Files) → D.files disk.old ≡ Some all → is_open (all FileId.Gate) ≡ false
        → LooksDurably D.files D.uncertain D.moment D.left_since disk.old disk.new) }
    ensures emptied { OnOk result ((all : Files) → D.files disk.old ≡ Some all → is_open (all FileId.Gate) ≡ true
        → IsEmptied (D.files disk.new)) }
    // Ok and Foreign exclude each other.
    ensures recoverable { OnOk result ((all : Files) → D.files disk.old ≡ Some all → IsRecoverable all) }
    // Unless the disk failed, a refusal comes with nothing written.
    ensures unwritten { IfErr result (λ fault. (fault ≡ OpenJournalFault.Disk → ⊥)
        → Looks D.files D.uncertain D.moment D.left_since disk.old disk.new) }
    ensures foreign { IfErr result (λ fault. (file : FileId) (found : Option (List ℕ)) → fault ≡ OpenJournalFault.Foreign file found
        → (file ≡ FileId.Intent) × IsForeign (D.files disk.old) found) }
    ensures counted { Counted (D.fault_count disk.old) (D.fault_count disk.new) (IsErrOf result OpenJournalFault.Disk) }
{
    match settle(disk) {
        Ok(()) => {}
        Err(fault) => return Err(fault),
    }
    let found = match find_changes(alloc, disk) {
        Ok(found) => found,
        Err(fault) => return Err(fault),
    };
    match replay_found(disk, &found) {
        Ok(()) => Ok(()),
        Err(Failed) => Err(OpenJournalFault::Disk),
    }
}
