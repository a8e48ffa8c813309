//! Disks whose files are altered, one by one, and what a run leaves of them.

use disk_trait::{Choice, Disk, FileId, MemoryDisk};
use pool_name::Md5Namer;
use std::alloc::{AllocError, Global};
use std::test::Fail;
use store_talks::talks::{Machine, NOW, Talked, expect_files, image_of, pipe};

/// The files that an opening writes.
pub const OPENED: &[FileId] = &[FileId::Head, FileId::Intent, FileId::Gate];

/// A value of each bit of a byte.
const BITS: [u8; 8] = [1, 2, 4, 8, 16, 32, 64, 128];

/// A disk with the same files.
pub fn copy_of(alloc: Global, disk: &MemoryDisk) -> Result<MemoryDisk, Fail> {
    image_of(alloc, disk, disk.moment(), Choice::Written)
}

/// The bytes of a file that is there.
fn bytes_of(alloc: Global, disk: &mut MemoryDisk, file: FileId) -> Result<Vec<u8>, Fail> {
    match disk.read(alloc, file)? {
        Some(bytes) => Ok(bytes.into_vec()),
        None => Err(Fail::new(format_args!("{file} is absent"))),
    }
}

/// Whether a file is one of these.
fn is_among(files: &[FileId], file: FileId) -> bool {
    for one in files {
        if one.is_same(file) {
            return true;
        }
    }
    false
}

/// Fails where the second disk lacks a file of the first one, or has other bytes of it, but for these.
fn expect_within(
    alloc: Global,
    one: &mut MemoryDisk,
    other: &mut MemoryDisk,
    but: &[FileId],
) -> Result<(), Fail> {
    let files = one.list(alloc)?;
    for file in files.as_slice() {
        if !is_among(but, *file) {
            let bytes = bytes_of(alloc, one, *file)?;
            expect_files(alloc, other, &[(*file, Some(bytes.as_slice()))])?;
        }
    }
    Ok(())
}

/// Fails where two disks don't have the same files, byte for byte, but for these.
pub fn expect_same(
    alloc: Global,
    one: &mut MemoryDisk,
    other: &mut MemoryDisk,
    but: &[FileId],
) -> Result<(), Fail> {
    expect_within(alloc, one, other, but)?;
    expect_within(alloc, other, one, but)
}

/// Fails where a run ended otherwise than by the status and the line of a foreign file, or answered anything.
fn expect_note(alloc: Global, done: &Talked, file: FileId) -> Result<(), Fail> {
    let note = &done.note;
    let said = format!(in alloc; "{note}")?;
    let wanted = format!(in alloc; "foreign {file}")?;
    if note.status() == 5 && said.as_str() == wanted.as_str() && done.link.output().is_empty() {
        return Ok(());
    }
    Err(Fail::new(format_args!("{note:?}, and not {wanted}")))
}

/// Fails where a run over a copy of this disk isn't refused with this file's name, or leaves other files.
pub fn expect_foreign(rt: &impl Machine, disk: &mut MemoryDisk, file: FileId) -> Result<(), Fail> {
    let alloc = rt.alloc();
    let done = pipe(rt, copy_of(alloc, disk)?, Md5Namer, NOW, Vec::new(alloc))?;
    expect_note(alloc, &done, file)?;
    let mut left = done.disk;
    expect_same(alloc, disk, &mut left, &[])
}

/// Whether a place is one of the first or last 32 of so many, or behind them.
pub fn is_at_an_end(place: usize, count: usize) -> bool {
    place < 32 || place.saturating_add(32) >= count
}

/// The value of a bit that changes from place to place.
fn bit_of(place: usize) -> u8 {
    match BITS.get(place % 8) {
        Some(bit) => *bit,
        None => 1,
    }
}

/// The bytes with a bit turned at this place, or without the last one if there is no such place.
fn altered(alloc: Global, bytes: &[u8], place: usize) -> Result<Vec<u8>, AllocError> {
    let mut other = Vec::from_slice(alloc, bytes)?;
    if place >= bytes.len() {
        other.truncate(bytes.len().saturating_sub(1));
    }
    if let Some(byte) = other.get_mut(place) {
        *byte ^= bit_of(place);
    }
    Ok(other)
}

/// A disk with the same files but this one, which has other bytes at a place, or isn't whole.
pub fn altered_disk(
    alloc: Global,
    disk: &MemoryDisk,
    file: FileId,
    bytes: &[u8],
    place: usize,
) -> Result<MemoryDisk, Fail> {
    let mut other = copy_of(alloc, disk)?;
    let bytes = altered(alloc, bytes, place)?;
    other.write(file, bytes.as_slice())?;
    Ok(other)
}

/// The bytes of a file of a disk that is left as it is.
pub fn bytes_in(alloc: Global, disk: &MemoryDisk, file: FileId) -> Result<Vec<u8>, Fail> {
    let mut copy = copy_of(alloc, disk)?;
    bytes_of(alloc, &mut copy, file)
}

/// Fails where a run over a copy of this disk isn't refused with this file's name, or writes anything, while the file is cut by a byte, or
/// has a bit turned in one of its first or last 32 bytes.
pub fn expect_each_foreign(rt: &impl Machine, disk: &MemoryDisk, file: FileId) -> Result<(), Fail> {
    let alloc = rt.alloc();
    let bytes = bytes_in(alloc, disk, file)?;
    for place in 0..=bytes.len() {
        if is_at_an_end(place, bytes.len()) {
            let mut other = altered_disk(alloc, disk, file, bytes.as_slice(), place)?;
            expect_foreign(rt, &mut other, file)?;
        }
    }
    Ok(())
}
