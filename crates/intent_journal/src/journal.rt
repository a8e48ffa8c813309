//! The journal: what its calls give and leave.

ghost use Rattle.std.specs.Prelude.{◌≡◌, ◌⊎◌, ◌↔◌, ℕ, List, Option, false, true, Some, None, IfOk, IfErr, OnOk, OnErr, IsErr, IsErrOf, IsTrue};
ghost use Rattle.std.specs.Option.{ForSome};
ghost use Rattle.fault_counts.specs.Counts.{Counted};
ghost use Rattle.disk_trait.specs.declared.ids.FileId.{FileId};
ghost use Rattle.disk_trait.specs.Names.{is_data};
ghost use Rattle.disk_trait.specs.Files.{Files, changed, appended, piece, SameButOne, IsListing};
ghost use Rattle.disk_trait.specs.Images.{nothing, also, IsWithin, IsImage, MayLeave, Leaves, LeavesOnly};
ghost use Rattle.intent_journal.specs.Changes.{applied, AreChanges};
ghost use Rattle.intent_journal.specs.Overlay.{ComesTo, IsSettled, IsAtRest, IsForeign, Looks, Recovers, IsBeforeOrAfter};

use crate::changes::Changes;
use crate::fault::{JournalFault, OpenJournalFault};
use crate::intent::write_intent;
use crate::recovery::recover;
use crate::steps::carry_out;
use disk_trait::{Bytes, Disk, DiskError, Failed, FileId, FileList, PoolId};
use std::alloc::Global;

/// The files of a disk. A commit changes metadata files all at once; contents of the pool and stages are changed beside
/// it, one by one.
///
/// It is halted after a commit or a reopening that the disk failed in, until it is reopened. In a journal that isn't
/// halted Gate stands closed, and nothing but contents, stages and Intent, which then isn't read, is uncertain: so the
/// files are as they were committed.
#[derive(Drop)]
pub struct Journal<D: Disk> {
    disk: D,
    halted: bool,
    ghost settled: { halted ≡ false → IsSettled (D.files disk) (D.uncertain disk) },
}

impl<D: Disk> Journal<D> {
    ghost use Rattle.intent_journal.specs.Calls.{Opens, Refuses, Commits, Reads, Touches};

    /// Opens the journal of a disk: syncs it, and where Gate is open makes the changes of Intent, closes Gate behind them and
    /// empties Intent; where Gate is closed nothing is written. A disk that holds nothing is opened too.
    ///
    /// The disk comes back with each refusal. `Foreign` comes exactly where Gate is open and Intent is outside its
    /// layout, `Disk` only where a call of the disk failed; after `Foreign` and `Memory` nothing was written. After
    /// `Disk` the disk can be opened again, and comes to the files that it came to before.
    pub fn open(alloc: Global, disk: D) -> Result<Journal<D>, (D, OpenJournalFault)>
        ensures opened { IfOk result (Opens disk) }
        ensures refused { IfErr result (λ refused. Refuses D.files D.uncertain D.moment D.left_since D.fault_count disk refused.0 refused.1) }
    {
        let mut disk = disk;
        match recover(alloc, &mut disk) {
            Ok(()) => Ok(Journal {
                disk,
                halted: false,
            }),
            Err(fault) => Err((disk, fault)),
        }
    }

    /// Makes the changes, all at once: with four syncs each byte is written twice, in Intent and in its file; then Intent is
    /// emptied.
    ///
    /// After Ok the changed files are durable, and with them each content and stage. After `Halted` and `Memory` nothing
    /// was done. After `Disk` the journal is halted, and a reopening finds the files before the changes or those after.
    pub fn commit(&mut self, alloc: Global, changes: &Changes) -> Result<(), JournalFault>
        requires { AreChanges changes.now }
        ensures { Commits self.old changes.now result self.new }
    {
        if self.halted() {
            return Err(JournalFault::Halted);
        }
        let intent = write_intent(alloc, changes.as_slice())?;
        self.halted = true;
        match carry_out(&mut self.disk, intent.as_slice(), changes.as_slice()) {
            Ok(()) => {}
            Err(Failed) => return Err(JournalFault::Disk),
        }
        self.halted = false;
        Ok(())
    }

    /// The bytes of a file, as it was committed or staged; `None` where it is absent. A refusal changes nothing.
    pub fn get(&mut self, alloc: Global, file: FileId) -> Result<Option<Bytes>, JournalFault>
        ensures found { IfOk result (λ found. ForSome (D.files self.old.disk) (λ all. found ≡ all file)) }
        ensures reads { Reads self.old self.new }
        ensures halted { IsErrOf result JournalFault.Halted ↔ (self.old.halted ≡ true) }
        ensures counted { Counted (D.fault_count self.old.disk) (D.fault_count self.new.disk) (IsErrOf result JournalFault.Disk) }
    {
        if self.halted {
            return Err(JournalFault::Halted);
        }
        match self.disk.read(alloc, file) {
            Ok(found) => Ok(found),
            Err(DiskError::Failed) => Err(JournalFault::Disk),
            Err(DiskError::Memory) => Err(JournalFault::Memory),
        }
    }

    /// A content of the pool, whole; `None` where its file is absent. A refusal changes nothing.
    pub fn read_data(&mut self, alloc: Global, id: PoolId) -> Result<Option<Bytes>, JournalFault>
        ensures found { IfOk result (λ found. ForSome (D.files self.old.disk) (λ all. found ≡ all (FileId.Pool id))) }
        ensures reads { Reads self.old self.new }
        ensures halted { IsErrOf result JournalFault.Halted ↔ (self.old.halted ≡ true) }
        ensures counted { Counted (D.fault_count self.old.disk) (D.fault_count self.new.disk) (IsErrOf result JournalFault.Disk) }
    {
        match self.get(alloc, FileId::Pool(id)) {
            Ok(found) => Ok(found),
            Err(fault) => Err(fault),
        }
    }

    /// `room` bytes of a file from an offset on, or all that are left; `None` where the file is absent. A refusal
    /// changes nothing.
    pub fn read_at(
        &mut self,
        alloc: Global,
        file: FileId,
        offset: u64,
        room: usize,
    ) -> Result<Option<Bytes>, JournalFault>
        ensures found { IfOk result (λ found. ForSome (D.files self.old.disk) (λ all. found ≡ piece (all file) offset room)) }
        ensures reads { Reads self.old self.new }
        ensures halted { IsErrOf result JournalFault.Halted ↔ (self.old.halted ≡ true) }
        ensures counted { Counted (D.fault_count self.old.disk) (D.fault_count self.new.disk) (IsErrOf result JournalFault.Disk) }
    {
        if self.halted {
            return Err(JournalFault::Halted);
        }
        match self.disk.read_at(alloc, file, offset, room) {
            Ok(found) => Ok(found),
            Err(DiskError::Failed) => Err(JournalFault::Disk),
            Err(DiskError::Memory) => Err(JournalFault::Memory),
        }
    }

    /// The files that are there, each once. A refusal changes nothing.
    pub fn list(&mut self, alloc: Global) -> Result<FileList, JournalFault>
        ensures found { IfOk result (λ found. ForSome (D.files self.old.disk) (IsListing found)) }
        ensures reads { Reads self.old self.new }
        ensures halted { IsErrOf result JournalFault.Halted ↔ (self.old.halted ≡ true) }
        ensures counted { Counted (D.fault_count self.old.disk) (D.fault_count self.new.disk) (IsErrOf result JournalFault.Disk) }
    {
        if self.halted {
            return Err(JournalFault::Halted);
        }
        match self.disk.list(alloc) {
            Ok(found) => Ok(found),
            Err(DiskError::Failed) => Err(JournalFault::Disk),
            Err(DiskError::Memory) => Err(JournalFault::Memory),
        }
    }

    /// Makes these bytes a content of the pool or a stage, which is uncertain until the next commit's first sync or
    /// barrier. After `Halted` nothing was done; after `Disk` the file may hold any bytes or be absent. Takes no memory.
    pub fn stage(&mut self, file: FileId, bytes: &[u8]) -> Result<(), JournalFault>
        requires { is_data file ≡ true }
        ensures { Touches self.old file (changed (D.files self.old.disk) file (Some bytes.now)) result self.new }
    {
        if self.halted {
            return Err(JournalFault::Halted);
        }
        match self.disk.write(file, bytes) {
            Ok(()) => Ok(()),
            Err(Failed) => Err(JournalFault::Disk),
        }
    }

    /// Puts bytes at the end of a content or a stage; an absent file counts as empty. The rest as `stage`.
    pub fn append(&mut self, file: FileId, bytes: &[u8]) -> Result<(), JournalFault>
        requires { is_data file ≡ true }
        ensures { Touches self.old file (appended (D.files self.old.disk) file bytes.now) result self.new }
    {
        if self.halted {
            return Err(JournalFault::Halted);
        }
        match self.disk.append(file, bytes) {
            Ok(()) => Ok(()),
            Err(Failed) => Err(JournalFault::Disk),
        }
    }

    /// Takes a content or a stage away, if it is there. The rest as `stage`.
    pub fn drop_data(&mut self, file: FileId) -> Result<(), JournalFault>
        requires { is_data file ≡ true }
        ensures { Touches self.old file (changed (D.files self.old.disk) file None) result self.new }
    {
        if self.halted {
            return Err(JournalFault::Halted);
        }
        match self.disk.remove(file) {
            Ok(()) => Ok(()),
            Err(Failed) => Err(JournalFault::Disk),
        }
    }

    /// Makes contents and stages durable. A refusal changes nothing. Takes no memory.
    pub fn barrier(&mut self) -> Result<(), JournalFault>
        ensures durable { OnOk result (IsWithin (D.uncertain self.new.disk) nothing) }
        ensures no_memory_asked { IsErrOf result JournalFault.Memory → ⊥ }
        ensures reads { Reads self.old self.new }
        ensures halted { IsErrOf result JournalFault.Halted ↔ (self.old.halted ≡ true) }
        ensures counted { Counted (D.fault_count self.old.disk) (D.fault_count self.new.disk) (IsErrOf result JournalFault.Disk) }
    {
        if self.halted {
            return Err(JournalFault::Halted);
        }
        match self.disk.sync() {
            Ok(()) => Ok(()),
            Err(Failed) => Err(JournalFault::Disk),
        }
    }

    /// Opens the disk again, as `open` does; after it the journal isn't halted.
    ///
    /// After `Memory` it is halted as it was before; after `Foreign` and `Disk` it is halted.
    pub fn reopen(&mut self, alloc: Global) -> Result<(), OpenJournalFault>
        ensures done { OnOk result (Opens self.old.disk self.new) }
        ensures refused { IfErr result (λ fault. Refuses D.files D.uncertain D.moment D.left_since D.fault_count self.old.disk self.new.disk fault) }
        ensures stopped { IfErr result (λ fault. (fault ≡ OpenJournalFault.Memory → self.new.halted ≡ self.old.halted)
            × ((fault ≡ OpenJournalFault.Memory → ⊥) → self.new.halted ≡ true)) }
    {
        let was = self.halted;
        self.halted = true;
        match recover(alloc, &mut self.disk) {
            Ok(()) => {
                self.halted = false;
                Ok(())
            }
            Err(OpenJournalFault::Memory) => {
                self.halted = was;
                Err(OpenJournalFault::Memory)
            }
            Err(fault) => Err(fault),
        }
    }

    /// The disk, as it stands, halted or not.
    pub fn close(self) -> D
        ensures { result ≡ self.disk }
    {
        self.disk
    }

    /// Whether a commit or a reopening failed since the journal was last opened.
    pub fn halted(&self) -> bool
        ensures { result ≡ self.now.halted }
    {
        self.halted
    }

    /// How many of the disk's calls failed.
    pub fn faults(&self) -> u64
        ensures { result ≡ D.fault_count self.now.disk }
    {
        self.disk.faults()
    }
}
