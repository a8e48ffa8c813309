use crate::parts::{expect_row, parts_with};
use disk_trait::{Choice, Disk, DiskRoom, FileId, MemoryDisk, PoolId};
use office_model::{Answer, Refusal};
use office_talks::{Row, expect};
use pool_name::Md5Namer;
use std::alloc::{AllocError, Global};
use std::test::Fail;
use store_opening::{OpenRefusal, open, reopen};
use store_parts::StoreParts;

const ROOM: DiskRoom = DiskRoom {
    changes: 100,
    bytes: 10_000,
};

const CHOICES: [Choice; 3] = [Choice::Written, Choice::Absent, Choice::One(0x4F)];

// A disk without files, of which one call fails.
fn disk_failing(alloc: Global, call: u64) -> Result<MemoryDisk, AllocError> {
    MemoryDisk::new(alloc, Vec::from_array(alloc, [call])?, ROOM)
}

fn blank_disk(alloc: Global) -> Result<MemoryDisk, AllocError> {
    MemoryDisk::new(alloc, Vec::new(alloc), ROOM)
}

fn store_of(alloc: Global, disk: MemoryDisk) -> Result<StoreParts<MemoryDisk, Md5Namer>, Fail> {
    match open(alloc, disk, Md5Namer) {
        Ok(parts) => Ok(parts),
        Err(_) => Err(Fail::new("not opened")),
    }
}

// The disk of a store in its first epoch.
fn first_disk(alloc: Global) -> Result<MemoryDisk, Fail> {
    let parts = store_of(alloc, blank_disk(alloc)?)?;
    expect(
        parts.catalog.epoch() == 1 && parts.catalog.hosts().is_empty(),
        "another office",
    )?;
    Ok(parts.journal.close())
}

#[test]
fn a_blank_disk_opens_and_each_opening_raises_the_epoch(rt: HostRuntime) -> Result<(), Fail> {
    let alloc = rt.alloc();
    let mut parts = store_of(alloc, first_disk(alloc)?)?;
    expect(parts.catalog.epoch() == 2, "another epoch")?;
    match reopen(&mut parts, alloc, Md5Namer) {
        Ok(Answer::Reopened(epoch)) => expect(epoch == 3, "another answer")?,
        _ => return Err(Fail::new("not reopened")),
    }
    let again = store_of(alloc, parts.journal.close())?;
    expect(again.catalog.epoch() == 4, "the third epoch is lost")
}

// The epoch that the image of a crash is opened in.
fn epoch_after(
    alloc: Global,
    disk: &MemoryDisk,
    moment: usize,
    choice: Choice,
) -> Result<u64, Fail> {
    if moment > disk.moment() {
        return Err(Fail::new("a moment to come"));
    }
    let parts = store_of(alloc, disk.image(alloc, moment, choice)?)?;
    Ok(parts.catalog.epoch())
}

#[test]
fn each_crash_of_an_opening_opens_again(rt: HostRuntime) -> Result<(), Fail> {
    let alloc = rt.alloc();
    let disk = first_disk(alloc)?;
    let end = disk.moment();
    for moment in end.saturating_sub(20)..end {
        for choice in CHOICES {
            let epoch = epoch_after(alloc, &disk, moment, choice)?;
            expect(epoch == 1 || epoch == 2, "another epoch")?;
        }
    }
    expect(
        epoch_after(alloc, &disk, 0, Choice::Written)? == 1,
        "not blank",
    )?;
    expect(
        epoch_after(alloc, &disk, end, Choice::Absent)? == 2,
        "not durable",
    )
}

// The content `hello`, whose digest is its MD5 (RFC 1321).
const HELLO: FileId = FileId::Pool(PoolId {
    digest: *b"\x5d\x41\x40\x2a\xbc\x4b\x2a\x76\xb9\x71\x9d\x91\x10\x17\xc5\x92",
    extension: 0,
});

// The one index file of an older store, which lists it.
const INDEX: &[u8; 55] =
    b"RPI1\x00\x00\x00\x00\x00\x00\x00\x01\x5d\x41\x40\x2a\xbc\x4b\x2a\x76\xb9\x71\x9d\x91\x10\x17\xc5\x92\x00\x00\x00\x00\x00\x00\x00\x00\x00\x05\x00\xc1\x8f\x0c\xad\x12\xae\xf4\xa2\x4f\xf3\xa4\xe7\x0b\xc6\xa6\xaa";

// The disk of an older store that holds `hello`.
fn older_disk(alloc: Global) -> Result<MemoryDisk, Fail> {
    let mut disk = first_disk(alloc)?;
    let written = disk.write(HELLO, b"hello").is_ok()
        && disk.write(FileId::PoolIndex, INDEX).is_ok()
        && disk.sync().is_ok();
    expect(written, "not written")?;
    Ok(disk)
}

// The store that a stop left opens, and holds `hello`.
fn expect_hello(
    alloc: Global,
    disk: &MemoryDisk,
    moment: usize,
    choice: Choice,
) -> Result<(), Fail> {
    if moment > disk.moment() {
        return Err(Fail::new("a moment to come"));
    }
    let parts = store_of(alloc, disk.image(alloc, moment, choice)?)?;
    expect(parts.pool.stats().bytes == 5, "another pool")
}

// A file is absent, or has this many bytes.
fn expect_length(
    alloc: Global,
    disk: &mut MemoryDisk,
    file: FileId,
    length: Option<usize>,
) -> Result<(), Fail> {
    match disk.read(alloc, file) {
        Ok(found) => expect(found.map(|bytes| bytes.len()) == length, "another length"),
        Err(_) => Err(Fail::new("not read")),
    }
}

#[test]
fn an_opening_takes_an_older_index_over(rt: HostRuntime) -> Result<(), Fail> {
    let alloc = rt.alloc();
    let disk = older_disk(alloc)?;
    let start = disk.moment();
    let parts = store_of(alloc, disk)?;
    let mut disk = parts.journal.close();
    for moment in start..disk.moment() {
        for choice in CHOICES {
            expect_hello(alloc, &disk, moment, choice)?;
        }
    }
    expect_length(alloc, &mut disk, FileId::PoolIndex, None)?;
    expect_length(alloc, &mut disk, FileId::PoolBucket(0x5d), Some(56))
}

// A host's counts, which have `hello` once.
const COUNTS: &[u8; 58] =
    b"RCT1\x00\x00\x00\x00\x00\x00\x00\x00\x00\x00\x00\x01\x5d\x41\x40\x2a\xbc\x4b\x2a\x76\xb9\x71\x9d\x91\x10\x17\xc5\x92\x00\x00\x00\x00\x00\x00\x00\x00\x00\x01\xe2\x45\xfc\xfe\x00\xf9\xed\x44\xf6\xb3\x6c\x9a\x2c\x07\x88\xf4";

// A file that is written, its bytes, the file that is then refused, and whether it is there.
const STRAYS: &[(FileId, &[u8], FileId, bool)] = &[
    (FileId::Head, b"abc", FileId::Head, true),
    (FileId::Host(0), b"abc", FileId::Host(0), true),
    (FileId::Table(0, 0), b"", FileId::Table(0, 0), true),
    (FileId::Partial(0), b"abc", FileId::Partial(0), true),
    (FileId::Partial(2), b"abc", FileId::Partial(2), true),
    (FileId::PoolBucket(7), b"abc", FileId::PoolBucket(7), true),
    (FileId::Counts(0), COUNTS, FileId::PoolBucket(0x5d), false),
];

// The disk of a store with a host.
fn host_disk(alloc: Global) -> Result<MemoryDisk, Fail> {
    let mut parts = store_of(alloc, blank_disk(alloc)?)?;
    expect_row(
        alloc,
        &mut parts,
        &Row("PUT /hosts/a", "", "{\"host\":\"a\"}"),
    )?;
    Ok(parts.journal.close())
}

// The refusal says that this was found of the file.
fn expect_found(refusal: OpenRefusal, file: FileId, bytes: Option<&[u8]>) -> Result<(), Fail> {
    match refusal {
        OpenRefusal::Foreign { file: other, found } => {
            let same = match (&found, bytes) {
                (None, None) => true,
                (Some(found), Some(bytes)) => found.as_slice() == bytes,
                _ => false,
            };
            expect(other.is_same(file) && same, "another file")
        }
        _ => Err(Fail::new("not foreign")),
    }
}

// Opens a store whose disk has one file more or another one.
fn expect_foreign(alloc: Global, row: &(FileId, &[u8], FileId, bool)) -> Result<(), Fail> {
    let mut disk = host_disk(alloc)?;
    expect(disk.write(row.0, row.1).is_ok(), "not written")?;
    match open(alloc, disk, Md5Namer) {
        Err((_disk, refusal)) => expect_found(refusal, row.2, row.3.then_some(row.1)),
        Ok(_) => Err(Fail::new("opened")),
    }
}

#[test]
fn a_file_that_no_store_leaves_is_foreign(rt: HostRuntime) -> Result<(), Fail> {
    for row in STRAYS {
        expect_foreign(rt.alloc(), row)?;
    }
    Ok(())
}

// Counts that have no content.
const NO_COUNTS: &[u8; 32] =
    b"RCT1\x00\x00\x00\x00\x00\x00\x00\x00\x00\x00\x00\x00\x92\xb3\x81\xd2\x77\xb3\x95\x9c\x77\xa4\x64\x3c\xac\xb2\x4a\xf7";

// The disk of a store with a host, whose index has the line of a backup.
fn line_disk(alloc: Global) -> Result<MemoryDisk, Fail> {
    let parts = parts_with(alloc, blank_disk(alloc)?, &[0])?;
    let mut disk = parts.journal.close();
    expect(
        disk.write(FileId::Counts(0), NO_COUNTS).is_ok(),
        "not written",
    )?;
    Ok(disk)
}

#[test]
fn a_lost_table_is_foreign(rt: HostRuntime) -> Result<(), Fail> {
    let alloc = rt.alloc();
    match open(alloc, line_disk(alloc)?, Md5Namer) {
        Err((_disk, refusal)) => expect_found(refusal, FileId::Table(0, 0), None)?,
        Ok(_) => return Err(Fail::new("opened")),
    }
    let mut disk = line_disk(alloc)?;
    expect(disk.write(FileId::Table(0, 0), b"").is_ok(), "not written")?;
    let parts = store_of(alloc, disk)?;
    expect(parts.catalog.epoch() == 1, "another epoch")
}

// A call of an opening failed: the disk counted it, and opens again.
fn expect_opened(alloc: Global, disk: MemoryDisk, refusal: OpenRefusal) -> Result<(), Fail> {
    match refusal {
        OpenRefusal::DiskFault => expect(disk.faults() == 1, "no fault is counted")?,
        _ => return Err(Fail::new("another refusal")),
    }
    let epoch = store_of(alloc, disk)?.catalog.epoch();
    expect(epoch == 1 || epoch == 2, "another epoch")
}

// A call of a reopening fails: the store is halted, and opens again.
fn expect_reopened(
    alloc: Global,
    parts: &mut StoreParts<MemoryDisk, Md5Namer>,
) -> Result<(), Fail> {
    match reopen(parts, alloc, Md5Namer) {
        Err(Refusal::DiskFault) => expect(parts.halted, "not halted")?,
        _ => return Err(Fail::new("no fault")),
    }
    match reopen(parts, alloc, Md5Namer) {
        Ok(Answer::Reopened(epoch)) => expect(
            (epoch == 2 || epoch == 3) && !parts.halted,
            "another answer",
        ),
        _ => Err(Fail::new("not reopened")),
    }
}

fn expect_fault(alloc: Global, call: u64) -> Result<(), Fail> {
    match open(alloc, disk_failing(alloc, call)?, Md5Namer) {
        Err((disk, refusal)) => expect_opened(alloc, disk, refusal),
        Ok(mut parts) => expect_reopened(alloc, &mut parts),
    }
}

#[test]
fn a_failing_call_halts_or_gives_the_disk_back(rt: HostRuntime) -> Result<(), Fail> {
    let alloc = rt.alloc();
    for call in 0..4u64 {
        expect_fault(alloc, call)?;
    }
    for call in 255..300u64 {
        expect_fault(alloc, call)?;
    }
    Ok(())
}
