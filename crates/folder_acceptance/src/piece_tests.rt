//! A file of several pieces is made piece by piece, and comes back as it was.

use crate::folders::{empty, expect, failing, path};
use crate::hosts::{Host, dump, new_host, restore};
use crate::real_folder_tests::{file, free_name, ours};
use crate::strange::{Odd, new_strange};
use backup_rules::Kind;
use disk_trait::Bytes;
use folder_restore::RestoreRefusal;
use folder_trait::{Folder, FolderFault, FoundNode, MemoryFolder};
use real_folder::RealFolder;
use std::alloc::{AllocError, Global};
use std::fs;
use std::test::Fail;

/// Two whole pieces, and a part of a third one.
const SIZE: usize = 150_000;

/// A mode by which nobody may write, with both set-id bits.
const MODE: u16 = 0o6400;

/// A time to the nanosecond.
const SECONDS: i64 = 1_000_000_000;

const NANOS: u32 = 123_456_789;

/// Puts this byte to the end of others, until there are so many.
fn grow(bytes: &mut Vec<u8>, size: usize, byte: u8) -> Result<(), AllocError> {
    bytes.resize(size, byte)?;
    Ok(())
}

/// The bytes of three pieces, which differ.
fn three_pieces(alloc: Global) -> Result<Bytes, AllocError> {
    let mut bytes = Vec::new(alloc);
    grow(&mut bytes, 65_536, b'a')?;
    grow(&mut bytes, 131_072, b'b')?;
    grow(&mut bytes, SIZE, b'c')?;
    Ok(Bytes::from_vec(bytes))
}

/// A folder of one file of three pieces.
fn large_folder(alloc: Global) -> Result<MemoryFolder, Fail> {
    let mut folder = empty(alloc);
    let bytes = three_pieces(alloc)?;
    let item = file(alloc, ours(MODE, SECONDS, NANOS), bytes.as_slice())?;
    folder.make(alloc, &path(alloc, "large")?, &item)?;
    Ok(folder)
}

/// The host pc1 with a backup of that folder.
fn dumped_large(alloc: Global) -> Result<Host, Fail> {
    let mut host = new_host(alloc, "pc1")?;
    let mut folder = large_folder(alloc)?;
    let number = dump(alloc, &mut host, &mut folder, Kind::Full)?;
    expect(number == 0, "another number")?;
    Ok(host)
}

/// Restores it into a folder.
fn restore_large<F: Folder>(alloc: Global, folder: &mut F) -> Result<(), Fail> {
    let mut host = dumped_large(alloc)?;
    let entries = restore(alloc, &mut host, folder, 0)?;
    expect(entries == 1, "other entries")
}

#[test]
fn file_of_three_pieces_comes_back(rt: HostRuntime) -> Result<(), Fail> {
    let alloc = rt.alloc();
    let mut back = new_strange(empty(alloc), Odd::Nothing);
    restore_large(alloc, &mut back)?;
    expect(back.pieces == 3, "other pieces")?;
    let wanted = large_folder(alloc)?;
    expect(back.inside.tree() == wanted.tree(), "another folder")
}

/// It fails unless the file of three pieces, and nothing else, lies in a folder.
fn expect_large(alloc: Global, folder: &mut RealFolder) -> Result<(), Fail> {
    let found = folder.list(alloc, None)?;
    expect(found.len() == 1, "other entries")?;
    let wanted = ours(MODE, SECONDS, NANOS);
    for one in found.as_slice() {
        let same = matches!(
            &one.node,
            FoundNode::File(file) if file.attr == wanted && file.group == 0 && file.size == SIZE as u64
        );
        expect(same, "another file")?;
    }
    let bytes = folder
        .read(alloc, &path(alloc, "large")?)?
        .ok_or("it has gone")?;
    expect(bytes == three_pieces(alloc)?, "other bytes")
}

#[test]
fn file_of_three_pieces_comes_back_to_a_real_folder(rt: HostRuntime) -> Result<(), Fail> {
    let alloc = rt.alloc();
    let name = free_name(&rt, "large")?;
    let mut folder = RealFolder::open_or_make(rt, name.as_str())?;
    restore_large(alloc, &mut folder)?;
    expect_large(alloc, &mut folder)?;
    expect(folder.faults() == 0, "a fault")?;
    fs::remove_dir_all(&rt, name.as_str())?;
    Ok(())
}

/// A restore in which this call of the folder fails ends so, with one fault.
fn expect_failed(alloc: Global, call: u64) -> Result<(), Fail> {
    let mut host = dumped_large(alloc)?;
    let mut folder = failing(alloc, call)?;
    let failed = matches!(
        restore(alloc, &mut host, &mut folder, 0),
        Err(RestoreRefusal::Folder)
    );
    expect(failed && folder.faults() == 1, "another end")
}

/// The folder is looked at, the file is made, and three pieces are put to it.
#[test]
fn restore_ends_at_each_piece_that_fails(rt: HostRuntime) -> Result<(), Fail> {
    for call in 0..5 {
        expect_failed(rt.alloc(), call)?;
    }
    Ok(())
}

fn make(alloc: Global, folder: &mut RealFolder, name: &str) -> Result<(), Fail> {
    let item = file(alloc, ours(0o400, 0, 0), b"")?;
    Ok(folder.make(alloc, &path(alloc, name)?, &item)?)
}

/// It fails unless a byte is put to a file, or the folder fails so.
fn expect_append(
    alloc: Global,
    folder: &mut RealFolder,
    name: &str,
    fault: Option<FolderFault>,
) -> Result<(), Fail> {
    let found = folder.append(alloc, &path(alloc, name)?, b"x").err();
    expect(found == fault, "another end")
}

#[test]
fn more_is_put_to_the_file_that_was_made_last_alone(rt: HostRuntime) -> Result<(), Fail> {
    let alloc = rt.alloc();
    let name = free_name(&rt, "last")?;
    let mut folder = RealFolder::open_or_make(rt, name.as_str())?;
    let failed = Some(FolderFault::Failed);
    expect_append(alloc, &mut folder, "a", failed)?;
    make(alloc, &mut folder, "a")?;
    expect_append(alloc, &mut folder, "a", None)?;
    make(alloc, &mut folder, "b")?;
    expect_append(alloc, &mut folder, "a", failed)?;
    expect(folder.faults() == 2, "other faults")?;
    fs::remove_dir_all(&rt, name.as_str())?;
    Ok(())
}
