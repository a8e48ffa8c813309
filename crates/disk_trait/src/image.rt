//! The images of a disk in memory.

ghost use Rattle.std.specs.Prelude.{◌≡◌, ◌≤◌, ◌++◌, [], length, take, IfOk, OnOk};
ghost use Rattle.disk_trait.specs.declared.ids.FileId.{FileId};
ghost use Rattle.disk_trait.specs.Files.{no_files};
ghost use Rattle.disk_trait.specs.Log.{AreKept, calls_of, files_after, log_start, log_calls, log_files, IsWhole};
ghost use Rattle.disk_trait.specs.Image.{of_byte, with_uncertain, image_after, override_of, over_with, over_after, IsLaid};

use crate::ids::FileId;
use crate::log::{Entry, Log, Span};
use crate::memory::DiskRoom;
use std::alloc::{AllocError, Global};

/// What uncertain files hold in an image.
#[derive(Clone, Copy, Debug, PartialEq, Eq)]
pub enum Choice {
    /// What they held on the disk.
    Written,
    /// Nothing: they are absent.
    Absent,
    /// This one byte.
    One(u8),
}

/// The entry that makes a span's bytes the file, or takes the file away.
fn override_of(file: FileId, span: Option<Span>) -> Entry
    ensures { result ≡ override_of file span }
{
    match span {
        Some(span) => Entry::Written(file, span),
        None => Entry::Removed(file),
    }
}

/// Overrides the file that an entry names; after a sync none is to be.
fn add_override(over: &mut Vec<Entry>, entry: Entry, span: Option<Span>) -> Result<(), AllocError>
    ensures { OnOk result (over.new.items ≡ over_with span over.old.items entry) }
{
    match entry {
        Entry::Written(file, _) => over.push(override_of(file, span))?,
        Entry::Extended(file, _) => over.push(override_of(file, span))?,
        Entry::Removed(file) => over.push(override_of(file, span))?,
        Entry::Missed(file) => over.push(override_of(file, span))?,
        Entry::Synced => over.clear(),
    }
    Ok(())
}

/// Entries that override each file that is uncertain after these.
fn overrides(alloc: Global, entries: &[Entry], span: Option<Span>) -> Result<Vec<Entry>, AllocError>
    ensures { IfOk result (λ over. over.items ≡ over_after span [] entries.now) }
{
    let mut over = Vec::new(alloc);
    for entry in entries {
        match add_override(&mut over, *entry, span) {
            Ok(()) => {}
            Err(fault) => return Err(fault),
        }
    }
    Ok(over)
}

/// What uncertain files hold, of bytes that were put behind the others.
fn lay_choice(bytes: &mut Vec<u8>, byte: Option<u8>) -> Result<Option<Span>, AllocError>
    ensures { IfOk result (λ span. IsLaid byte bytes.old.items span bytes.new.items) }
{
    match byte {
        None => Ok(None),
        Some(byte) => {
            let from = bytes.len();
            bytes.push(byte)?;
            Ok(Some(Span { from, count: 1 }))
        }
    }
}

/// Entries behind others.
fn joined(alloc: Global, first: &[Entry], second: &[Entry]) -> Result<Vec<Entry>, AllocError>
    ensures { IfOk result (λ made. made.items ≡ first.now ++ second.now) }
{
    let mut made = Vec::from_slice(alloc, first)?;
    made.extend_from_slice(second)?;
    Ok(made)
}

/// A record that begins with these entries.
fn begun(
    alloc: Global,
    start: Vec<Entry>,
    bytes: Vec<u8>,
    room: DiskRoom,
) -> Result<Log, AllocError>
    requires { AreKept (length bytes.items) start.items }
    ensures start { IfOk result (λ log. log_files log ≡ files_after no_files (calls_of bytes.items start.items)) }
    ensures past { IfOk result (λ log. log.past.items ≡ []) }
    ensures room { IfOk result (λ log. log.room ≡ room) }
    ensures whole { IfOk result IsWhole }
{
    let mut bytes = bytes;
    bytes.reserve(room.bytes as usize)?;
    let mut log = Log {
        start,
        past: Vec::with_capacity(alloc, room.changes as usize)?,
        bytes,
        room,
        index: None,
    };
    match log.rebuilt(alloc) {
        Ok(files) => log.index = Some(files),
        Err(fault) => return Err(fault),
    }
    Ok(log)
}

/// A record that begins as another does and goes on by these entries, each file that is uncertain after them holding
/// the byte, or being absent.
fn overridden(
    alloc: Global,
    log: &Log,
    older: &[Entry],
    byte: Option<u8>,
    room: DiskRoom,
) -> Result<Log, AllocError>
    requires start { AreKept (length log.now.bytes.items) log.now.start.items }
    requires older { AreKept (length log.now.bytes.items) older.now }
    ensures files { IfOk result (λ made. log_files made ≡ with_uncertain (of_byte byte) (log_start log.now) (calls_of log.now.bytes.items older.now)) }
    ensures past { IfOk result (λ made. made.past.items ≡ []) }
    ensures room { IfOk result (λ made. made.room ≡ room) }
    ensures whole { IfOk result IsWhole }
{
    let mut bytes = Vec::from_slice(alloc, log.bytes.as_slice())?;
    let span = lay_choice(&mut bytes, byte)?;
    let over = overrides(alloc, older, span)?;
    let mut start = joined(alloc, log.start.as_slice(), older)?;
    start.extend_from_slice(over.as_slice())?;
    match begun(alloc, start, bytes, room) {
        Ok(log) => Ok(log),
        Err(fault) => Err(fault),
    }
}

/// A record that begins as another does and goes on by these entries.
fn as_written(alloc: Global, log: &Log, older: &[Entry], room: DiskRoom) -> Result<Log, AllocError>
    requires start { AreKept (length log.now.bytes.items) log.now.start.items }
    requires older { AreKept (length log.now.bytes.items) older.now }
    ensures files { IfOk result (λ made. log_files made ≡ files_after (log_start log.now) (calls_of log.now.bytes.items older.now)) }
    ensures past { IfOk result (λ made. made.past.items ≡ []) }
    ensures room { IfOk result (λ made. made.room ≡ room) }
    ensures whole { IfOk result IsWhole }
{
    let bytes = Vec::from_slice(alloc, log.bytes.as_slice())?;
    let start = joined(alloc, log.start.as_slice(), older)?;
    match begun(alloc, start, bytes, room) {
        Ok(log) => Ok(log),
        Err(fault) => Err(fault),
    }
}

/// The record of a disk that is the image of another's at a moment: it begins with the image.
pub(crate) fn image_log(
    alloc: Global,
    log: &Log,
    moment: usize,
    choice: Choice,
    room: DiskRoom,
) -> Result<Log, AllocError>
    requires moment { moment ≤ length log.now.past.items }
    requires whole { IsWhole log.now }
    ensures files { IfOk result (λ made. (asked : FileId) → log_files made asked ≡ image_after (log_start log.now) (take moment (log_calls log.now)) choice asked) }
    ensures past { IfOk result (λ made. made.past.items ≡ []) }
    ensures room { IfOk result (λ made. made.room ≡ room) }
    ensures whole { IfOk result IsWhole }
{
    let (older, _) = log.past.as_slice().split_at(moment);
    match choice {
        Choice::Written => match as_written(alloc, log, older, room) {
            Ok(made) => Ok(made),
            Err(fault) => Err(fault),
        },
        Choice::Absent => match overridden(alloc, log, older, None, room) {
            Ok(made) => Ok(made),
            Err(fault) => Err(fault),
        },
        Choice::One(byte) => match overridden(alloc, log, older, Some(byte), room) {
            Ok(made) => Ok(made),
            Err(fault) => Err(fault),
        },
    }
}
