//! Runs of calls on a disk, each of which a crash may cut short.

ghost use Rattle.std.specs.Prelude.{◌≡◌, ◌⊎◌, List, [], ◌∷◌, Some, OnOk, OnErr, IsErr};
ghost use Rattle.fault_counts.specs.Counts.{Counted};
ghost use Rattle.disk_trait.specs.Files.{Files, changed, SameButOne};
ghost use Rattle.disk_trait.specs.Images.{nothing, also, IsWithin, IsImage, MayLeave, Elapses, Leaves, LeavesOnly};
ghost use Rattle.intent_journal.specs.declared.changes.Change.{Change};
ghost use Rattle.intent_journal.specs.Changes.{applied, names, IsIntent};
ghost use Rattle.intent_journal.specs.Layout.{intent_file};
ghost use Rattle.intent_journal.specs.Overlay.{ComesTo, IsSettled, IsAtRest, IsEmptied, IsOpenOver, IsBeforeOrAfter, SyncsStages};
ghost use Rattle.intent_journal.specs.Steps.{Touched};

use crate::changes::Change;
use disk_trait::{Disk, Failed, FileId};

/// One write, which a sync makes durable.
pub(crate) fn replace_file<D: Disk>(disk: &mut D, file: FileId, bytes: &[u8]) -> Result<(), Failed>
    ensures told { OnOk result (D.files disk.new ≡ changed (D.files disk.old) file (Some bytes.now)) }
    ensures durable { OnOk result (IsWithin (D.uncertain disk.new) nothing) }
    ensures any_moment { (all : Files) → D.files disk.old ≡ Some all
        → Leaves D.moment D.left_since disk.old disk.new (IsImage all (also (D.uncertain disk.old) file)) }
    ensures counted { Counted (D.fault_count disk.old) (D.fault_count disk.new) (IsErr result) }
{
    match disk.write(file, bytes) {
        Ok(()) => {}
        Err(Failed) => return Err(Failed),
    }
    match disk.sync() {
        Ok(()) => Ok(()),
        Err(Failed) => Err(Failed),
    }
}

/// One change, by a write or a removal.
pub(crate) fn make_change<D: Disk>(disk: &mut D, change: &Change) -> Result<(), Failed>
    ensures told { OnOk result (D.files disk.new ≡ changed (D.files disk.old) change.now.file change.now.bytes) }
    ensures failed { OnErr result (SameButOne change.now.file (D.files disk.old) (D.files disk.new)) }
    ensures certain { IsWithin (D.uncertain disk.new) (also (D.uncertain disk.old) change.now.file) }
    ensures time { Elapses D.moment D.left_since disk.old disk.new (MayLeave (D.files disk.new) (D.uncertain disk.new)) }
    ensures counted { Counted (D.fault_count disk.old) (D.fault_count disk.new) (IsErr result) }
{
    match &change.bytes {
        Some(bytes) => match disk.write(change.file, bytes.as_slice()) {
            Ok(()) => Ok(()),
            Err(Failed) => Err(Failed),
        },
        None => match disk.remove(change.file) {
            Ok(()) => Ok(()),
            Err(Failed) => Err(Failed),
        },
    }
}

/// The changes, one after the other.
pub(crate) fn make_changes<D: Disk>(disk: &mut D, changes: &[Change]) -> Result<(), Failed>
    ensures told { OnOk result ((all : Files) → D.files disk.old ≡ Some all → IsWithin (D.uncertain disk.old) nothing
        → D.files disk.new ≡ Some (applied changes.now all)) }
    ensures touched { (all : Files) → D.files disk.old ≡ Some all → IsWithin (D.uncertain disk.old) nothing
        → Touched (D.files disk.new) (D.uncertain disk.new) all (names changes.now) }
    ensures any_moment { (all : Files) → D.files disk.old ≡ Some all → IsWithin (D.uncertain disk.old) nothing
        → Leaves D.moment D.left_since disk.old disk.new (IsImage all (names changes.now)) }
    ensures counted { Counted (D.fault_count disk.old) (D.fault_count disk.new) (IsErr result) }
{
    for change in changes {
        match make_change(disk, change) {
            Ok(()) => {}
            Err(Failed) => return Err(Failed),
        }
    }
    Ok(())
}

/// The changes, which a sync makes durable.
pub(crate) fn replace_files<D: Disk>(disk: &mut D, changes: &[Change]) -> Result<(), Failed>
    ensures told { OnOk result ((all : Files) → D.files disk.old ≡ Some all → IsWithin (D.uncertain disk.old) nothing
        → D.files disk.new ≡ Some (applied changes.now all)) }
    ensures durable { OnOk result (IsWithin (D.uncertain disk.new) nothing) }
    ensures any_moment { (all : Files) → D.files disk.old ≡ Some all → IsWithin (D.uncertain disk.old) nothing
        → Leaves D.moment D.left_since disk.old disk.new (IsImage all (names changes.now)) }
    ensures counted { Counted (D.fault_count disk.old) (D.fault_count disk.new) (IsErr result) }
{
    match make_changes(disk, changes) {
        Ok(()) => {}
        Err(Failed) => return Err(Failed),
    }
    match disk.sync() {
        Ok(()) => Ok(()),
        Err(Failed) => Err(Failed),
    }
}

/// Empties Intent behind a closed Gate, so that its changes don't stand on the disk a second time. No sync is owed: nothing
/// reads Intent while Gate is closed, so whatever a crash leaves of it comes to the same files.
pub(crate) fn forget_intent<D: Disk>(disk: &mut D) -> Result<(), Failed>
    ensures emptied { OnOk result (IsEmptied (D.files disk.new)) }
    ensures at_rest { (files : Files) → IsAtRest (D.files disk.old) (D.uncertain disk.old) files
        → IsAtRest (D.files disk.new) (D.uncertain disk.new) files }
    ensures settled { IsSettled (D.files disk.old) (D.uncertain disk.old) → IsSettled (D.files disk.new) (D.uncertain disk.new) }
    ensures any_moment { (files : Files) → IsAtRest (D.files disk.old) (D.uncertain disk.old) files
        → Leaves D.moment D.left_since disk.old disk.new (ComesTo files nothing) }
    ensures counted { Counted (D.fault_count disk.old) (D.fault_count disk.new) (IsErr result) }
{
    match disk.write(FileId::Intent, &[]) {
        Ok(()) => Ok(()),
        Err(Failed) => Err(Failed),
    }
}

/// Makes the changes of Intent, whose Gate is open, closes Gate behind them, and empties Intent.
pub(crate) fn replay<D: Disk>(disk: &mut D, changes: &[Change]) -> Result<(), Failed>
    ensures at_rest { OnOk result ((all : Files) → D.files disk.old ≡ Some all → IsWithin (D.uncertain disk.old) nothing
        → IsAtRest (D.files disk.new) (D.uncertain disk.new) (applied changes.now all)) }
    ensures settled { OnOk result (IsSettled (D.files disk.new) (D.uncertain disk.new)) }
    ensures emptied { OnOk result (IsEmptied (D.files disk.new)) }
    ensures any_moment { (all : Files) → D.files disk.old ≡ Some all → IsWithin (D.uncertain disk.old) nothing → IsOpenOver all changes.now
        → Leaves D.moment D.left_since disk.old disk.new (ComesTo (applied changes.now all) nothing) }
    ensures counted { Counted (D.fault_count disk.old) (D.fault_count disk.new) (IsErr result) }
{
    match replace_files(disk, changes) {
        Ok(()) => {}
        Err(Failed) => return Err(Failed),
    }
    match replace_file(disk, FileId::Gate, &[0x43]) {
        Ok(()) => {}
        Err(Failed) => return Err(Failed),
    }
    match forget_intent(disk) {
        Ok(()) => Ok(()),
        Err(Failed) => Err(Failed),
    }
}

/// Writes Intent, and opens Gate behind it.
pub(crate) fn open_gate<D: Disk>(disk: &mut D, intent: &[u8]) -> Result<(), Failed>
    ensures told { OnOk result (D.files disk.new ≡ changed (changed (D.files disk.old) FileId.Intent (Some intent.now)) FileId.Gate (Some (79 ∷ []))) }
    ensures durable { OnOk result (IsWithin (D.uncertain disk.new) nothing) }
    ensures any_moment { (all : Files) (changes : List Change) → D.files disk.old ≡ Some all
        → IsSettled (D.files disk.old) (D.uncertain disk.old)
        → intent.now ≡ intent_file changes → IsIntent changes
        → Leaves D.moment D.left_since disk.old disk.new (IsBeforeOrAfter all (D.uncertain disk.old) changes) }
    ensures stages { (all : Files) (changes : List Change) → D.files disk.old ≡ Some all
        → IsSettled (D.files disk.old) (D.uncertain disk.old) → intent.now ≡ intent_file changes → IsIntent changes
        → LeavesOnly D.moment D.left_since disk.old disk.new (ComesTo all (D.uncertain disk.old))
        ⊎ SyncsStages D.moment D.left_since disk.old disk.new all (D.uncertain disk.old) changes }
    ensures synced { OnOk result ((all : Files) (changes : List Change) → D.files disk.old ≡ Some all
        → IsSettled (D.files disk.old) (D.uncertain disk.old) → intent.now ≡ intent_file changes → IsIntent changes
        → SyncsStages D.moment D.left_since disk.old disk.new all (D.uncertain disk.old) changes) }
    ensures counted { Counted (D.fault_count disk.old) (D.fault_count disk.new) (IsErr result) }
{
    match replace_file(disk, FileId::Intent, intent) {
        Ok(()) => {}
        Err(Failed) => return Err(Failed),
    }
    match replace_file(disk, FileId::Gate, &[0x4F]) {
        Ok(()) => Ok(()),
        Err(Failed) => Err(Failed),
    }
}

/// A commit, whose bytes were made before.
pub(crate) fn carry_out<D: Disk>(
    disk: &mut D,
    intent: &[u8],
    changes: &[Change],
) -> Result<(), Failed>
    requires bytes { intent.now ≡ intent_file changes.now }
    requires changes { IsIntent changes.now }
    requires settled { IsSettled (D.files disk.old) (D.uncertain disk.old) }
    ensures at_rest { OnOk result ((all : Files) → D.files disk.old ≡ Some all
        → IsAtRest (D.files disk.new) (D.uncertain disk.new) (applied changes.now all)) }
    ensures settled { OnOk result (IsSettled (D.files disk.new) (D.uncertain disk.new)) }
    ensures emptied { OnOk result (IsEmptied (D.files disk.new)) }
    ensures any_moment { (all : Files) → D.files disk.old ≡ Some all
        → Leaves D.moment D.left_since disk.old disk.new (IsBeforeOrAfter all (D.uncertain disk.old) changes.now) }
    ensures stages { (all : Files) → D.files disk.old ≡ Some all
        → LeavesOnly D.moment D.left_since disk.old disk.new (ComesTo all (D.uncertain disk.old))
        ⊎ SyncsStages D.moment D.left_since disk.old disk.new all (D.uncertain disk.old) changes.now }
    ensures counted { Counted (D.fault_count disk.old) (D.fault_count disk.new) (IsErr result) }
{
    match open_gate(disk, intent) {
        Ok(()) => {}
        Err(Failed) => return Err(Failed),
    }
    match replay(disk, changes) {
        Ok(()) => Ok(()),
        Err(Failed) => Err(Failed),
    }
}
