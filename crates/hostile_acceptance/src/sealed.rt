//! Sealed files that were altered: an opening names the one that it reads, and writes nothing; whatever calls for a table is refused with its
//! name, and the table stays as it is.

use crate::disks::{
    OPENED, altered_disk, bytes_in, copy_of, expect_each_foreign, expect_same, is_at_an_end,
};
use disk_trait::{Disk, FileId, MemoryDisk, PoolId};
use pool_name::Md5Namer;
use std::test::Fail;
use store_talks::scripts::Step::{Ask, Clean, Dump, File, Open};
use store_talks::scripts::{Put, Step, expect_steps};
use store_talks::talks::{DONE, HOST, Machine, NOW, Row, Says, blank_disk, expect, expect_talk};

/// A full backup and an incremental one of a host, and a content that no backup has any more, which is marked.
const FILLED: &[Step] = &[
    Ask(HOST),
    Dump(0, "full", &[Put("a.txt", "hello")]),
    Dump(1, "incr", &[Put("b", "other")]),
    Dump(2, "incr", &[Put("c", "third")]),
    Ask(Row("DELETE /hosts/pc1/backups/2", "", DONE)),
    Clean(13, 1, 0, 0),
];

/// The sealed files of that store that an opening reads: the buckets have `hello`, `other`, and the marked content.
const READ: &[FileId] = &[
    FileId::Head,
    FileId::Host(0),
    FileId::Counts(0),
    FileId::PoolBucket(0x5d),
    FileId::PoolBucket(0x79),
    FileId::PoolBucket(0xdd),
];

#[test]
fn an_opening_names_a_sealed_file_that_was_altered(rt: HostRuntime) -> Result<(), Fail> {
    let disk = expect_steps(&rt, blank_disk(rt.alloc(), &[])?, FILLED)?;
    for file in READ {
        expect_each_foreign(&rt, &disk, *file)?;
    }
    Ok(())
}

/// A host whose one dump was parked.
const PARKED: &[Step] = &[
    Ask(HOST),
    Open(0, "full"),
    Ask(Row("POST /dumps/1-0/park", "", DONE)),
];

#[test]
fn an_opening_names_a_partial_that_was_altered(rt: HostRuntime) -> Result<(), Fail> {
    let disk = expect_steps(&rt, blank_disk(rt.alloc(), &[])?, PARKED)?;
    expect_each_foreign(&rt, &disk, FileId::Partial(0))
}

/// The one file of an older store's index, with the content `hello`.
const INDEX: &[u8; 55] =
    b"RPI1\x00\x00\x00\x00\x00\x00\x00\x01\x5d\x41\x40\x2a\xbc\x4b\x2a\x76\xb9\x71\x9d\x91\x10\x17\xc5\x92\x00\x00\x00\x00\x00\x00\x00\x00\x00\x05\x00\xc1\x8f\x0c\xad\x12\xae\xf4\xa2\x4f\xf3\xa4\xe7\x0b\xc6\xa6\xaa";

/// A store whose one content is `hello`.
const HELLO: &[Step] = &[Ask(HOST), Dump(0, "full", &[Put("a.txt", "hello")])];

#[test]
fn an_opening_names_an_older_index_that_was_altered(rt: HostRuntime) -> Result<(), Fail> {
    let alloc = rt.alloc();
    let mut disk = expect_steps(&rt, blank_disk(alloc, &[])?, HELLO)?;
    disk.remove(FileId::PoolBucket(0x5d))?;
    disk.write(FileId::PoolIndex, INDEX)?;
    let _ = expect_steps(&rt, copy_of(alloc, &disk)?, &[File(0, "a.txt", b"hello")])?;
    expect_each_foreign(&rt, &disk, FileId::PoolIndex)
}

const BAD_GATEWAY: &str = "502 Bad Gateway";

/// The tables of the two backups, and what calls for each of them.
const TABLES: &[(FileId, Row)] = &[
    (
        FileId::Table(0, 0),
        Row(
            "GET /hosts/pc1/backups/0/list",
            "",
            Says::Json(
                BAD_GATEWAY,
                "{\"file\":\"table-0-0\",\"refused\":\"Damaged\"}",
            ),
        ),
    ),
    (
        FileId::Table(0, 1),
        Row(
            "GET /hosts/pc1/backups/1/list",
            "",
            Says::Json(
                BAD_GATEWAY,
                "{\"file\":\"table-0-1\",\"refused\":\"Damaged\"}",
            ),
        ),
    ),
];

/// Fails where a run over this disk doesn't answer so, or leaves other files but for those that its opening writes.
fn expect_damaged(rt: &impl Machine, disk: &mut MemoryDisk, row: &Row) -> Result<(), Fail> {
    let alloc = rt.alloc();
    let mut left = expect_talk(rt, copy_of(alloc, disk)?, Md5Namer, NOW, &[*row])?;
    expect_same(alloc, disk, &mut left, OPENED)
}

/// Fails where a table that is cut, or has a bit turned at one of its ends, isn't named so.
fn expect_each_damaged(
    rt: &impl Machine,
    disk: &MemoryDisk,
    file: FileId,
    row: &Row,
) -> Result<(), Fail> {
    let alloc = rt.alloc();
    let bytes = bytes_in(alloc, disk, file)?;
    for place in 0..=bytes.len() {
        if is_at_an_end(place, bytes.len()) {
            let mut other = altered_disk(alloc, disk, file, bytes.as_slice(), place)?;
            expect_damaged(rt, &mut other, row)?;
        }
    }
    Ok(())
}

#[test]
fn what_calls_for_an_altered_table_names_it(rt: HostRuntime) -> Result<(), Fail> {
    let disk = expect_steps(&rt, blank_disk(rt.alloc(), &[])?, FILLED)?;
    for (file, row) in TABLES {
        expect_each_damaged(&rt, &disk, *file, row)?;
    }
    Ok(())
}

/// The three contents.
const CONTENTS: &[[u8; 16]] = &[
    *b"\x5d\x41\x40\x2a\xbc\x4b\x2a\x76\xb9\x71\x9d\x91\x10\x17\xc5\x92",
    *b"\x79\x5f\x32\x02\xb1\x7c\xb6\xbc\x3d\x4b\x77\x1d\x8c\x6c\x9e\xaf",
    *b"\xdd\x5c\x8b\xf5\x15\x58\xff\xcb\xe5\x00\x70\x71\x90\x8e\x95\x24",
];

/// That is all that the store has: what no test here alters is the contents, which aren't sealed, and the journal's files.
#[test]
fn each_sealed_file_of_the_store_is_altered(rt: HostRuntime) -> Result<(), Fail> {
    let alloc = rt.alloc();
    let mut disk = expect_steps(&rt, blank_disk(alloc, &[])?, FILLED)?;
    let count = disk.list(alloc)?.as_slice().len();
    for file in READ {
        let _ = bytes_in(alloc, &disk, *file)?;
    }
    for digest in CONTENTS {
        let id = PoolId {
            digest: *digest,
            extension: 0,
        };
        let _ = bytes_in(alloc, &disk, FileId::Pool(id))?;
    }
    // Beside these there are two tables, Intent and Gate.
    expect(count == READ.len() + CONTENTS.len() + 4, "more files")
}
