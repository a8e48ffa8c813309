//! The record of a disk in memory: what it began with, its changes and syncs, and the room that is left.

ghost use Rattle.std.specs.Prelude.{◌≡◌, ◌+◌, ◌<◌, ◌≤◌, [], Some, None, length, vec_len, vec_capacity, IfOk, OnOk, OnErr};
ghost use Rattle.disk_trait.specs.Files.{with_bytes, with_more, piece, IsListing};
ghost use Rattle.disk_trait.specs.Images.{nothing, also, IsWithin};
ghost use Rattle.disk_trait.specs.Maps.{files_of};
ghost use Rattle.disk_trait.specs.Log.{Call, spanned, call_of, calls_of, IsKept, AreKept, files_with, files_after, log_files, log_uncertain, LogElapses, IsWhole, Kept, Laid, Follows};
ghost use Rattle.disk_trait.specs.declared.map.FileMap.{FileMap};

use crate::ids::FileId;
use crate::list::FileList;
use crate::map::FileMap;
use crate::memory::DiskRoom;
use owned_bytes::Bytes;
use std::alloc::{AllocError, Global};

/// Where bytes lie among all that the disk was given.
#[derive(Clone, Copy, Debug)]
pub(crate) struct Span {
    pub(crate) from: usize,
    pub(crate) count: usize,
}

/// A change or a sync.
#[derive(Clone, Copy, Debug)]
pub(crate) enum Entry {
    /// The file held these bytes from then on.
    Written(FileId, Span),
    /// These bytes were put at its end.
    Extended(FileId, Span),
    /// It was taken away.
    Removed(FileId),
    /// A change of it failed.
    Missed(FileId),
    /// All was made durable.
    Synced,
}

/// What a disk began with, its changes and syncs since, the oldest first, and their bytes.
#[derive(Debug, Drop)]
pub(crate) struct Log {
    pub(crate) start: Vec<Entry>,
    pub(crate) past: Vec<Entry>,
    pub(crate) bytes: Vec<u8>,
    pub(crate) room: DiskRoom,
    /// The files as they are; none if there was no memory for them.
    pub(crate) index: Option<FileMap>,
}

/// The bytes of a span.
fn spanned(bytes: &[u8], span: Span) -> &[u8]
    requires { span.from + span.count ≤ length bytes.now }
    ensures { result.now ≡ spanned bytes.now span }
{
    let (_, rest) = bytes.split_at(span.from);
    let (found, _) = rest.split_at(span.count);
    found
}

/// Makes the bytes of a span the file.
fn write_span(
    alloc: Global,
    files: &mut FileMap,
    file: FileId,
    bytes: &[u8],
) -> Result<(), AllocError>
    ensures { OnOk result (files_of files.new ≡ files_with (files_of files.old) (Call.Changed file (Some bytes.now))) }
{
    match Bytes::from_slice(alloc, bytes) {
        Ok(bytes) => files.put(file, bytes),
        Err(fault) => Err(fault),
    }
}

/// Does again what an entry did.
fn apply(alloc: Global, files: &mut FileMap, bytes: &[u8], entry: Entry) -> Result<(), AllocError>
    requires { IsKept (length bytes.now) entry }
    ensures { OnOk result (files_of files.new ≡ files_with (files_of files.old) (call_of bytes.now entry)) }
{
    match entry {
        Entry::Written(file, span) => write_span(alloc, files, file, spanned(bytes, span)),
        Entry::Extended(file, span) => files.extend(alloc, file, spanned(bytes, span)),
        Entry::Removed(file) => {
            files.remove(file);
            Ok(())
        }
        Entry::Missed(_) => Ok(()),
        Entry::Synced => Ok(()),
    }
}

/// The files after an entry, if they were known before it and there is memory for them.
fn followed(alloc: Global, index: Option<FileMap>, bytes: &[u8], entry: Entry) -> Option<FileMap>
    requires { IsKept (length bytes.now) entry }
    ensures { (new : FileMap) → result ≡ Some new → Follows (call_of bytes.now entry) index new }
{
    match index {
        None => None,
        Some(mut files) => match apply(alloc, &mut files, bytes, entry) {
            Ok(()) => Some(files),
            Err(_) => None,
        },
    }
}

/// Does again what entries did, one after the other.
fn replay(
    alloc: Global,
    files: &mut FileMap,
    bytes: &[u8],
    entries: &[Entry],
) -> Result<(), AllocError>
    requires { AreKept (length bytes.now) entries.now }
    ensures { OnOk result (files_of files.new ≡ files_after (files_of files.old) (calls_of bytes.now entries.now)) }
{
    for entry in entries {
        match apply(alloc, files, bytes, *entry) {
            Ok(()) => {}
            Err(fault) => return Err(fault),
        }
    }
    Ok(())
}

impl Log {
    /// An empty record with room for these changes.
    pub(crate) fn new(alloc: Global, room: DiskRoom) -> Result<Log, AllocError>
        ensures start { IfOk result (λ log. log.start.items ≡ []) }
        ensures past { IfOk result (λ log. log.past.items ≡ []) }
        ensures room { IfOk result (λ log. log.room ≡ room) }
        ensures whole { IfOk result IsWhole }
    {
        let past = Vec::with_capacity(alloc, room.changes as usize)?;
        let bytes = Vec::with_capacity(alloc, room.bytes as usize)?;
        Ok(Log {
            start: Vec::new(alloc),
            past,
            bytes,
            room,
            index: Some(FileMap::new(alloc)),
        })
    }

    /// Takes bytes, for which there is room.
    fn lay(&mut self, bytes: &[u8]) -> Span
        requires whole { IsWhole self.old }
        requires room { length bytes.now ≤ self.old.room.bytes }
        ensures { Laid bytes.now result self.old self.new }
    {
        let span = Span {
            from: self.bytes.len(),
            count: bytes.len(),
        };
        match self.bytes.extend_from_slice(bytes) {
            Ok(()) => {}
            Err(_) => unreachable!(),
        }
        self.room.bytes -= bytes.len() as u64;
        span
    }

    /// Keeps a change or a sync, for which there is room, and does it to the files at hand.
    fn keep(&mut self, entry: Entry)
        requires whole { IsWhole self.old }
        requires kept { IsKept (length self.old.bytes.items) entry }
        requires room { 0 < self.old.room.changes }
        ensures { Kept (call_of self.old.bytes.items entry) 1 0 self.old self.new }
    {
        match self.past.push(entry) {
            Ok(()) => {}
            Err(_) => unreachable!(),
        }
        self.room.changes -= 1;
        let alloc = *self.past.allocator();
        let index = self.index.take();
        self.index = followed(alloc, index, self.bytes.as_slice(), entry);
    }

    /// Makes these bytes the file.
    pub(crate) fn write(&mut self, file: FileId, bytes: &[u8])
        requires whole { IsWhole self.old }
        requires changes { 0 < self.old.room.changes }
        requires bytes { length bytes.now ≤ self.old.room.bytes }
        ensures told { log_files self.new ≡ with_bytes (log_files self.old) file (Some bytes.now) }
        ensures certain { IsWithin (log_uncertain self.new) (also (log_uncertain self.old) file) }
        ensures time { LogElapses self.old self.new }
        ensures changes_taken { self.new.room.changes + 1 ≡ self.old.room.changes }
        ensures bytes_taken { self.new.room.bytes + length bytes.now ≡ self.old.room.bytes }
        ensures whole { IsWhole self.new }
    {
        let span = self.lay(bytes);
        self.keep(Entry::Written(file, span));
    }

    /// Puts these bytes at the end of a file.
    pub(crate) fn extend(&mut self, file: FileId, bytes: &[u8])
        requires whole { IsWhole self.old }
        requires changes { 0 < self.old.room.changes }
        requires bytes { length bytes.now ≤ self.old.room.bytes }
        ensures told { log_files self.new ≡ with_more (log_files self.old) file bytes.now }
        ensures certain { IsWithin (log_uncertain self.new) (also (log_uncertain self.old) file) }
        ensures time { LogElapses self.old self.new }
        ensures changes_taken { self.new.room.changes + 1 ≡ self.old.room.changes }
        ensures bytes_taken { self.new.room.bytes + length bytes.now ≡ self.old.room.bytes }
        ensures whole { IsWhole self.new }
    {
        let span = self.lay(bytes);
        self.keep(Entry::Extended(file, span));
    }

    /// Takes a file away.
    pub(crate) fn remove(&mut self, file: FileId)
        requires whole { IsWhole self.old }
        requires changes { 0 < self.old.room.changes }
        ensures told { log_files self.new ≡ with_bytes (log_files self.old) file None }
        ensures certain { IsWithin (log_uncertain self.new) (also (log_uncertain self.old) file) }
        ensures time { LogElapses self.old self.new }
        ensures changes_taken { self.new.room.changes + 1 ≡ self.old.room.changes }
        ensures bytes_taken { self.new.room.bytes ≡ self.old.room.bytes }
        ensures whole { IsWhole self.new }
    {
        self.keep(Entry::Removed(file));
    }

    /// Makes all durable.
    pub(crate) fn sync(&mut self)
        requires whole { IsWhole self.old }
        requires changes { 0 < self.old.room.changes }
        ensures durable { IsWithin (log_uncertain self.new) nothing }
        ensures same { log_files self.new ≡ log_files self.old }
        ensures time { LogElapses self.old self.new }
        ensures changes_taken { self.new.room.changes + 1 ≡ self.old.room.changes }
        ensures bytes_taken { self.new.room.bytes ≡ self.old.room.bytes }
        ensures whole { IsWhole self.new }
    {
        self.keep(Entry::Synced);
    }

    /// Notes a change that failed, if there is memory for it.
    pub(crate) fn miss(&mut self, file: FileId)
        requires whole { IsWhole self.old }
        ensures same { log_files self.new ≡ log_files self.old }
        ensures certain { IsWithin (log_uncertain self.new) (also (log_uncertain self.old) file) }
        ensures time { LogElapses self.old self.new }
        ensures room { self.new.room ≡ self.old.room }
        ensures whole { IsWhole self.new }
    {
        let changes = self.room.changes as usize;
        match self.past.reserve(changes + 1) {
            Ok(()) => self.note(file),
            Err(_) => {}
        }
    }

    /// Notes a change that failed, for which there is memory.
    fn note(&mut self, file: FileId)
        requires whole { IsWhole self.old }
        requires room { vec_len self.old.past + self.old.room.changes < vec_capacity self.old.past }
        ensures { Kept (Call.Missed file) 0 0 self.old self.new }
    {
        match self.past.push(Entry::Missed(file)) {
            Ok(()) => {}
            Err(_) => unreachable!(),
        }
    }

    /// The files as they are, by doing all again.
    pub(crate) fn rebuilt(&self, alloc: Global) -> Result<FileMap, AllocError>
        requires { IsWhole self.now }
        ensures { IfOk result (λ files. files_of files ≡ log_files self.now) }
    {
        let mut files = FileMap::new(alloc);
        let bytes = self.bytes.as_slice();
        match replay(alloc, &mut files, bytes, self.start.as_slice()) {
            Ok(()) => {}
            Err(fault) => return Err(fault),
        }
        match replay(alloc, &mut files, bytes, self.past.as_slice()) {
            Ok(()) => Ok(files),
            Err(fault) => Err(fault),
        }
    }

    /// What a file holds.
    pub(crate) fn read(&self, alloc: Global, file: FileId) -> Result<Option<Bytes>, AllocError>
        requires { IsWhole self.now }
        ensures { IfOk result (λ found. found ≡ log_files self.now file) }
    {
        match &self.index {
            Some(files) => files.read(alloc, file),
            None => match self.rebuilt(alloc) {
                Ok(files) => files.read(alloc, file),
                Err(fault) => Err(fault),
            },
        }
    }

    /// `room` bytes of what a file holds, from an offset on, or all that are left.
    pub(crate) fn read_at(
        &self,
        alloc: Global,
        file: FileId,
        from: u64,
        room: usize,
    ) -> Result<Option<Bytes>, AllocError>
        requires { IsWhole self.now }
        ensures { IfOk result (λ found. found ≡ piece (log_files self.now file) from room) }
    {
        match &self.index {
            Some(files) => files.read_at(alloc, file, from, room),
            None => match self.rebuilt(alloc) {
                Ok(files) => files.read_at(alloc, file, from, room),
                Err(fault) => Err(fault),
            },
        }
    }

    /// The files that are there.
    pub(crate) fn list(&self, alloc: Global) -> Result<FileList, AllocError>
        requires { IsWhole self.now }
        ensures { IfOk result (λ list. IsListing list (log_files self.now)) }
    {
        match &self.index {
            Some(files) => files.list(alloc),
            None => match self.rebuilt(alloc) {
                Ok(files) => files.list(alloc),
                Err(fault) => Err(fault),
            },
        }
    }
}
