ghost use Rattle.std.specs.Prelude.{ℕ, ◌≡◌, ◌⊎◌, ◌↔◌, ◌+◌, ◌-◌, ◌^◌, ◌<◌, ◌≤◌, [], Some, None, length, IsTrue, IfOk, OnOk, OnErr, IsErr, IsErrOf, Contains, min};
ghost use Rattle.std.specs.Option.{ForSome};
ghost use Rattle.fault_counts.specs.Counts.{Counted};
ghost use Rattle.disk_trait.specs.Files.{no_files, changed, appended, piece, SameButOne, IsListing};
ghost use Rattle.disk_trait.specs.Log.{IsWhole};
ghost use Rattle.disk_trait.specs.LogLaws.{IsWhole-prop};
ghost use Rattle.disk_trait.specs.Images.{nothing, also, IsWithin, MayLeave, Elapses};

use crate::disk::{Disk, DiskError, Failed};
use crate::ids::FileId;
use crate::image::{Choice, image_log};
use crate::list::FileList;
use crate::log::Log;
use owned_bytes::Bytes;
use std::alloc::{AllocError, Global};

/// How much a disk in memory takes before it is full. The memory for it is taken when the disk is made.
#[derive(Clone, Copy, Debug, PartialEq, Eq)]
pub struct DiskRoom {
    /// The changes and syncs.
    pub changes: u64,
    /// The bytes of all writes and appends together.
    pub bytes: u64,
}

/// A disk in memory, which tells its files and keeps its changes and syncs.
///
/// Its calls are counted from 0. Those that it was told to fail do fail, and so do the changes and
/// syncs that are past its room, and no others. A call that failed takes none of the room. Its
/// moments are counted from 0, too: each change and sync that it kept makes one, a change that
/// failed among them.
#[derive(Debug)]
pub struct MemoryDisk {
    log: Log,
    fails: Vec<u64>,
    calls: u64,
    whole: DiskRoom,
    faults: u64,
    ghost is_whole: { IsWhole log } by { IsWhole-prop log },
}

/// Written out: what is in it is then dropped here, for the prover too, and not in each crate above.
impl Drop for MemoryDisk {
    fn drop(self) {
        let MemoryDisk {
            log: _,
            fails: _,
            calls: _,
            whole: _,
            faults: _,
        } = self;
    }
}

/// Whether the call is one of these.
fn is_among(calls: &[u64], call: u64) -> bool
    ensures { IsTrue result ↔ Contains calls.now call }
{
    calls.contains(&call)
}

impl MemoryDisk {
    ghost use Rattle.disk_trait.specs.declared.ids.FileId.{FileId};
    ghost use Rattle.disk_trait.specs.Log.{log_files};
    ghost use Rattle.disk_trait.specs.Memory.{image_at, IsFresh, IsListed, IsPastRoom};

    /// A disk without files, which fails these of its calls.
    pub fn new(alloc: Global, fails: Vec<u64>, room: DiskRoom) -> Result<MemoryDisk, AllocError>
        ensures told { IfOk result (λ disk. ⟦<MemoryDisk as Disk>⟧.files disk ≡ Some no_files) }
        ensures certain { IfOk result (λ disk. ⟦<MemoryDisk as Disk>⟧.uncertain disk ≡ nothing) }
        ensures count { IfOk result (λ disk. ⟦<MemoryDisk as Disk>⟧.fault_count disk ≡ 0) }
        ensures fresh { IfOk result (IsFresh fails.items room) }
    {
        let log = Log::new(alloc, room)?;
        Ok(MemoryDisk {
            log,
            fails,
            calls: 0,
            whole: room,
            faults: 0,
        })
    }

    /// How many of its calls were kept: what a moment is.
    pub fn moment(&self) -> usize
        ensures { result ≡ ⟦<MemoryDisk as Disk>⟧.moment self.now }
    {
        self.log.past.len()
    }

    /// The disk that a crash at a moment left, its uncertain files being as chosen: it has the room that this one was
    /// made with, and no failing calls.
    pub fn image(
        &self,
        alloc: Global,
        moment: usize,
        choice: Choice,
    ) -> Result<MemoryDisk, AllocError>
        requires { moment ≤ ⟦<MemoryDisk as Disk>⟧.moment self.now }
        ensures told { IfOk result (λ disk. (asked : FileId) → log_files disk.log asked ≡ image_at self.now moment choice asked) }
        ensures certain { IfOk result (λ disk. ⟦<MemoryDisk as Disk>⟧.uncertain disk ≡ nothing) }
        ensures room { IfOk result (λ disk. (disk.log.room ≡ self.now.whole) × (disk.whole ≡ self.now.whole) × (disk.fails.items ≡ []) × (disk.calls ≡ 0) × (disk.faults ≡ 0)) }
        ensures left { IfOk result (λ disk. (since : ℕ) → since ≤ moment → ⟦<MemoryDisk as Disk>⟧.left_since self.now since (log_files disk.log)) }
    {
        match image_log(alloc, &self.log, moment, choice, self.whole) {
            Ok(log) => Ok(MemoryDisk {
                log,
                fails: Vec::new(alloc),
                calls: 0,
                whole: self.whole,
                faults: 0,
            }),
            Err(fault) => Err(fault),
        }
    }

    /// Counts a call, and says whether it is one to fail.
    fn is_listed(&mut self) -> bool
        ensures listed { IsTrue result ↔ IsListed self.old }
        ensures called { self.new ≡ record self.old { calls = min (self.old.calls + 1) (2 ^ 64 - 1) } }
    {
        let listed = is_among(self.fails.as_slice(), self.calls);
        self.calls = self.calls.saturating_add(1);
        listed
    }

    /// Counts a change of so many bytes, and says whether it is one to fail.
    fn is_refused(&mut self, count: u64) -> bool
        ensures refused { IsTrue result ↔ (IsListed self.old ⊎ IsPastRoom self.old count) }
        ensures called { self.new ≡ record self.old { calls = min (self.old.calls + 1) (2 ^ 64 - 1) } }
    {
        self.is_listed() || self.log.room.changes == 0 || self.log.room.bytes < count
    }

    /// Counts a failure.
    fn fault(&mut self)
        ensures counted { self.new ≡ record self.old { faults = min (self.old.faults + 1) (2 ^ 64 - 1) } }
        ensures later { self.old.faults ≤ self.new.faults }
    {
        self.faults = self.faults.saturating_add(1);
    }
}

impl Disk for MemoryDisk {
    ghost use Rattle.disk_trait.specs.Memory.{told_files, uncertain_files, moment_of, left_of, failures, memory_counts, memory_only, memory_tells, IsListed, IsPastRoom, Took};

    ghost files = { told_files };

    ghost uncertain = { uncertain_files };

    ghost moment = { moment_of };

    ghost left_since = { left_of };

    ghost fault_count = { failures };

    ghost counts_now = { λ disk t image le may. memory_counts disk t image le may };

    ghost only_now = { λ disk image left. memory_only disk image left };

    ghost tells = { λ disk other told. memory_tells disk other told };

    fn read(&mut self, alloc: Global, file: FileId) -> Result<Option<Bytes>, DiskError>
        ensures found { IfOk result (λ found. ForSome (told_files self.old) (λ all. found ≡ all file)) }
        ensures same { told_files self.new ≡ told_files self.old }
        ensures certain { IsWithin (uncertain_files self.new) (uncertain_files self.old) }
        ensures time { Elapses moment_of left_of self.old self.new (MayLeave (told_files self.new) (uncertain_files self.new)) }
        ensures counted { Counted (failures self.old) (failures self.new) (IsErrOf result DiskError.Failed) }
        ensures listed { IsErrOf result DiskError.Failed ↔ IsListed self.old }
        ensures took { Took 0 0 self.old self.new }
    {
        if self.is_listed() {
            self.fault();
            return Err(DiskError::Failed);
        }
        match self.log.read(alloc, file) {
            Ok(found) => Ok(found),
            Err(_) => Err(DiskError::Memory),
        }
    }

    fn read_at(
        &mut self,
        alloc: Global,
        file: FileId,
        from: u64,
        room: usize,
    ) -> Result<Option<Bytes>, DiskError>
        ensures found { IfOk result (λ found. ForSome (told_files self.old) (λ all. found ≡ piece (all file) from room)) }
        ensures same { told_files self.new ≡ told_files self.old }
        ensures certain { IsWithin (uncertain_files self.new) (uncertain_files self.old) }
        ensures time { Elapses moment_of left_of self.old self.new (MayLeave (told_files self.new) (uncertain_files self.new)) }
        ensures counted { Counted (failures self.old) (failures self.new) (IsErrOf result DiskError.Failed) }
        ensures listed { IsErrOf result DiskError.Failed ↔ IsListed self.old }
        ensures took { Took 0 0 self.old self.new }
    {
        if self.is_listed() {
            self.fault();
            return Err(DiskError::Failed);
        }
        match self.log.read_at(alloc, file, from, room) {
            Ok(found) => Ok(found),
            Err(_) => Err(DiskError::Memory),
        }
    }

    fn list(&mut self, alloc: Global) -> Result<FileList, DiskError>
        ensures found { IfOk result (λ found. ForSome (told_files self.old) (IsListing found)) }
        ensures same { told_files self.new ≡ told_files self.old }
        ensures certain { IsWithin (uncertain_files self.new) (uncertain_files self.old) }
        ensures time { Elapses moment_of left_of self.old self.new (MayLeave (told_files self.new) (uncertain_files self.new)) }
        ensures counted { Counted (failures self.old) (failures self.new) (IsErrOf result DiskError.Failed) }
        ensures listed { IsErrOf result DiskError.Failed ↔ IsListed self.old }
        ensures took { Took 0 0 self.old self.new }
    {
        if self.is_listed() {
            self.fault();
            return Err(DiskError::Failed);
        }
        match self.log.list(alloc) {
            Ok(list) => Ok(list),
            Err(_) => Err(DiskError::Memory),
        }
    }

    fn write(&mut self, file: FileId, bytes: &[u8]) -> Result<(), Failed>
        ensures told { OnOk result (told_files self.new ≡ changed (told_files self.old) file (Some bytes.now)) }
        ensures failed { OnErr result (SameButOne file (told_files self.old) (told_files self.new)) }
        ensures certain { IsWithin (uncertain_files self.new) (also (uncertain_files self.old) file) }
        ensures time { Elapses moment_of left_of self.old self.new (MayLeave (told_files self.new) (uncertain_files self.new)) }
        ensures counted { Counted (failures self.old) (failures self.new) (IsErr result) }
        ensures refused { IsErr result ↔ (IsListed self.old ⊎ IsPastRoom self.old (length bytes.now)) }
        ensures ok { OnOk result (Took 1 (length bytes.now) self.old self.new) }
        ensures err { OnErr result (Took 0 0 self.old self.new) }
        ensures same { OnErr result (told_files self.new ≡ told_files self.old) }
    {
        if self.is_refused(bytes.len() as u64) {
            self.fault();
            self.log.miss(file);
            return Err(Failed);
        }
        self.log.write(file, bytes);
        Ok(())
    }

    fn append(&mut self, file: FileId, bytes: &[u8]) -> Result<(), Failed>
        ensures told { OnOk result (told_files self.new ≡ appended (told_files self.old) file bytes.now) }
        ensures failed { OnErr result (SameButOne file (told_files self.old) (told_files self.new)) }
        ensures certain { IsWithin (uncertain_files self.new) (also (uncertain_files self.old) file) }
        ensures time { Elapses moment_of left_of self.old self.new (MayLeave (told_files self.new) (uncertain_files self.new)) }
        ensures counted { Counted (failures self.old) (failures self.new) (IsErr result) }
        ensures refused { IsErr result ↔ (IsListed self.old ⊎ IsPastRoom self.old (length bytes.now)) }
        ensures ok { OnOk result (Took 1 (length bytes.now) self.old self.new) }
        ensures err { OnErr result (Took 0 0 self.old self.new) }
        ensures same { OnErr result (told_files self.new ≡ told_files self.old) }
    {
        if self.is_refused(bytes.len() as u64) {
            self.fault();
            self.log.miss(file);
            return Err(Failed);
        }
        self.log.extend(file, bytes);
        Ok(())
    }

    fn remove(&mut self, file: FileId) -> Result<(), Failed>
        ensures told { OnOk result (told_files self.new ≡ changed (told_files self.old) file None) }
        ensures failed { OnErr result (SameButOne file (told_files self.old) (told_files self.new)) }
        ensures certain { IsWithin (uncertain_files self.new) (also (uncertain_files self.old) file) }
        ensures time { Elapses moment_of left_of self.old self.new (MayLeave (told_files self.new) (uncertain_files self.new)) }
        ensures counted { Counted (failures self.old) (failures self.new) (IsErr result) }
        ensures refused { IsErr result ↔ (IsListed self.old ⊎ IsPastRoom self.old 0) }
        ensures ok { OnOk result (Took 1 0 self.old self.new) }
        ensures err { OnErr result (Took 0 0 self.old self.new) }
        ensures same { OnErr result (told_files self.new ≡ told_files self.old) }
    {
        if self.is_refused(0) {
            self.fault();
            self.log.miss(file);
            return Err(Failed);
        }
        self.log.remove(file);
        Ok(())
    }

    fn sync(&mut self) -> Result<(), Failed>
        ensures durable { OnOk result (IsWithin (uncertain_files self.new) nothing) }
        ensures same { told_files self.new ≡ told_files self.old }
        ensures certain { IsWithin (uncertain_files self.new) (uncertain_files self.old) }
        ensures time { Elapses moment_of left_of self.old self.new (MayLeave (told_files self.new) (uncertain_files self.new)) }
        ensures counted { Counted (failures self.old) (failures self.new) (IsErr result) }
        ensures refused { IsErr result ↔ (IsListed self.old ⊎ IsPastRoom self.old 0) }
        ensures ok { OnOk result (Took 1 0 self.old self.new) }
        ensures err { OnErr result (Took 0 0 self.old self.new) }
    {
        if self.is_refused(0) {
            self.fault();
            return Err(Failed);
        }
        self.log.sync();
        Ok(())
    }

    fn faults(&self) -> u64 {
        self.faults
    }
}
