//! The night: what deletion, cleaning and sweeping leave.

use disk_trait::{Disk, FileId, MemoryDisk};
use std::alloc::Global;
use std::test::Fail;
use store_talks::scripts::Step::{Ask, Clean, Dump, File, NoFile, Open, Read};
use store_talks::scripts::{Put, Step, expect_steps};
use store_talks::talks::{
    ABSENT, CONFLICT, DONE, HOST, MADE, Row, Says, WEEKLY, blank_disk, expect, expect_files,
};

/// A content of two hosts, one of which loses its backup: nothing is marked.
const TWO_HOSTS: &[Step] = &[
    Ask(HOST),
    Dump(0, "full", &[Put("a.txt", "hello")]),
    Ask(Row("PUT /hosts/pc2", "", Says::Json(MADE, "{\"host\":\"pc2\"}"))),
    Ask(Row(
        "POST /hosts/pc2/dumps?kind=full",
        "",
        Says::Json(MADE, "{\"dump\":\"1-1\"}"),
    )),
    Ask(Row("PUT /dumps/1-1/entry?path=b&kind=file", "hello", DONE)),
    Ask(Row(
        "POST /dumps/1-1/commit",
        "",
        Says::Json(MADE, "{\"number\":0}"),
    )),
    Read(
        "/stats",
        "{\"backups\":2,\"bytes\":5,\"dumps\":0,\"files\":1,\"hosts\":2,\"marked\":0,\"restores\":0}",
    ),
    Ask(Row("DELETE /hosts/pc1/backups/0", "", DONE)),
    Clean(5, 0, 0, 0),
    Read(
        "/stats",
        "{\"backups\":1,\"bytes\":5,\"dumps\":0,\"files\":1,\"hosts\":2,\"marked\":0,\"restores\":0}",
    ),
    Ask(Row(
        "GET /hosts/pc2/backups/0/file?path=b",
        "",
        Says::Bytes(b"hello"),
    )),
    NoFile(0, "a.txt"),
];

/// A mark that an open dump's put takes away; without the dump the content is marked and removed. There are 16 buckets.
const MARKS: &[Step] = &[
    Ask(HOST),
    Dump(0, "full", &[Put("a", "hello")]),
    Ask(Row("DELETE /hosts/pc1/backups/0", "", DONE)),
    Clean(5, 1, 0, 0),
    Read(
        "/stats",
        "{\"backups\":0,\"bytes\":5,\"dumps\":0,\"files\":1,\"hosts\":1,\"marked\":1,\"restores\":0}",
    ),
    Open(1, "full"),
    Ask(Row("PUT /dumps/1-1/entry?path=a&kind=file", "hello", DONE)),
    Clean(5, 0, 0, 1),
    Read(
        "/stats",
        "{\"backups\":0,\"bytes\":5,\"dumps\":1,\"files\":1,\"hosts\":1,\"marked\":0,\"restores\":0}",
    ),
    Ask(Row("DELETE /dumps/1-1", "", DONE)),
    Clean(5, 1, 0, 0),
    Clean(5, 0, 1, 0),
    Read(
        "/stats",
        "{\"backups\":0,\"bytes\":0,\"dumps\":0,\"files\":0,\"hosts\":1,\"marked\":0,\"restores\":0}",
    ),
    Ask(Row(
        "POST /night/clean?bucket=16",
        "",
        Says::Json("422 Unprocessable Entity", "{\"refused\":\"BadBucket\"}"),
    )),
];

/// A backup that is kept stays, until it is no longer.
const KEPT: &[Step] = &[
    Ask(HOST),
    Dump(0, "full", &[Put("a", "hello")]),
    Ask(Row("POST /hosts/pc1/backups/0/keep?on=1", "", DONE)),
    Ask(Row(
        "DELETE /hosts/pc1/backups/0",
        "",
        Says::Json(CONFLICT, "{\"refused\":\"Kept\"}"),
    )),
    File(0, "a", b"hello"),
    Ask(Row("POST /hosts/pc1/backups/0/keep?on=0", "", DONE)),
    Ask(Row("DELETE /hosts/pc1/backups/0", "", DONE)),
    NoFile(0, "a"),
];

/// The newest backup goes: the one before it is filled, and the next incremental is made against it.
const NEWEST: &[Step] = &[
    Ask(HOST),
    Ask(WEEKLY),
    Dump(0, "full", &[Put("p", "1")]),
    Dump(1, "incr", &[Put("p", "2")]),
    Dump(2, "incr", &[Put("p", "3")]),
    Ask(Row("DELETE /hosts/pc1/backups/2", "", DONE)),
    Read(
        "/hosts/pc1/backups",
        "{\"backups\":[{\"end\":1700000000,\"filled\":true,\"keep\":false,\"kind\":\"full\",\"number\":0,\"start\":1700000000},{\"end\":1700000000,\"filled\":true,\"keep\":false,\"kind\":\"incr\",\"number\":1,\"start\":1700000000}],\"dump\":null,\"next\":3}",
    ),
    File(1, "p", b"2"),
    Dump(3, "incr", &[]),
    Read(
        "/hosts/pc1/backups",
        "{\"backups\":[{\"end\":1700000000,\"filled\":true,\"keep\":false,\"kind\":\"full\",\"number\":0,\"start\":1700000000},{\"end\":1700000000,\"filled\":false,\"keep\":false,\"kind\":\"incr\",\"number\":1,\"start\":1700000000},{\"end\":1700000000,\"filled\":true,\"keep\":false,\"kind\":\"incr\",\"number\":3,\"start\":1700000000}],\"dump\":null,\"next\":4}",
    ),
    File(3, "p", b"2"),
    File(1, "p", b"2"),
    File(0, "p", b"1"),
    NoFile(2, "p"),
];

/// The table of the second backup is then without records, since the newest has the same tree.
const NEWEST_TABLES: [(FileId, Option<&[u8]>); 2] = [
    (FileId::Table(0, 1), Some(EMPTY)),
    (FileId::Table(0, 2), None),
];

/// What is asked from a disk without files on, in one run each.
const TALKS: [&[Step]; 3] = [TWO_HOSTS, MARKS, KEPT];

#[test]
fn nights_take_what_nothing_holds(rt: HostRuntime) -> Result<(), Fail> {
    let alloc = rt.alloc();
    for rows in TALKS {
        let _ = expect_steps(&rt, blank_disk(alloc, &[])?, rows)?;
    }
    let mut disk = expect_steps(&rt, blank_disk(alloc, &[])?, NEWEST)?;
    expect_files(alloc, &mut disk, &NEWEST_TABLES)
}

/// A file that is `a`, `b` and `a` again.
const MIDDLE: &[Step] = &[
    Ask(HOST),
    Ask(WEEKLY),
    Dump(0, "full", &[]),
    Dump(1, "incr", &[Put("p", "a")]),
    Dump(2, "incr", &[Put("p", "b")]),
    Dump(3, "incr", &[Put("p", "a")]),
];

/// The middle one goes; both contents are still in the pool.
const MIDDLE_GONE: &[Step] = &[
    Ask(Row("DELETE /hosts/pc1/backups/2", "", DONE)),
    Read(
        "/stats",
        "{\"backups\":3,\"bytes\":2,\"dumps\":0,\"files\":2,\"hosts\":1,\"marked\":0,\"restores\":0}",
    ),
    File(1, "p", b"a"),
    NoFile(2, "p"),
    File(3, "p", b"a"),
];

/// The content that no backup has any more leaves with the second cleaning.
const MIDDLE_CLEANED: &[Step] = &[
    Clean(9, 1, 0, 0),
    Clean(9, 0, 1, 0),
    Read(
        "/stats",
        "{\"backups\":3,\"bytes\":1,\"dumps\":0,\"files\":1,\"hosts\":1,\"marked\":0,\"restores\":0}",
    ),
    File(1, "p", b"a"),
    File(3, "p", b"a"),
];

/// A table of `p` = `a`. Seals and contents are MD5 (RFC 1321) as Python's `hashlib` computes it, here and below.
const FILE_A: &[u8] =
    b"RTB2\x00\x00\x00\x01\x01\x00\x01p\x00\x00\x01\xa4\x00\x00\x00\x00\x00\x00\x00\x00\x00\x00\x00\x00\x00\x00\x00\x00\x00\x00\x00\x00\x00\x00\x00\x00\x00\x00\x00\x00\x00\x00\x00\x01\x0c\xc1u\xb9\xc0\xf1\xb6\xa81\xc3\x99\xe2iw&a\x00\x00Up\xec\xa4\xf0k1\xdf\xc32\xcc3\xe8\xaa\xac\xfc";

/// A table of `p` = `b`.
const FILE_B: &[u8] =
    b"RTB2\x00\x00\x00\x01\x01\x00\x01p\x00\x00\x01\xa4\x00\x00\x00\x00\x00\x00\x00\x00\x00\x00\x00\x00\x00\x00\x00\x00\x00\x00\x00\x00\x00\x00\x00\x00\x00\x00\x00\x00\x00\x00\x00\x01\x92\xeb_\xfe\xe6\xae/\xec:\xd7\x1cwu1W\x8f\x00\x00\xf7\x80\xc61\x082/\x99\x14\x0c\xa9\x0czI&\x1d";

/// A table without records.
const EMPTY: &[u8] = b"RTB2\x00\x00\x00\x00:\x18\xdeM\x99\xfd\x0b\xacm\x92\x8e\xc2\x7f\xfb\x0a\x0d";

/// The host's counts: two of `a`, one of `b`.
const A_TWICE: &[u8] =
    b"RCT1\x00\x00\x00\x00\x00\x00\x00\x00\x00\x00\x00\x02\x0c\xc1u\xb9\xc0\xf1\xb6\xa81\xc3\x99\xe2iw&a\x00\x00\x00\x00\x00\x00\x00\x00\x00\x02\x92\xeb_\xfe\xe6\xae/\xec:\xd7\x1cwu1W\x8f\x00\x00\x00\x00\x00\x00\x00\x00\x00\x01\xf1b\x8e\xdaVJ\xf4\xbd\xcb\xbb\\#\x8aB\x86\x0d";

/// One of `a`.
const A_ONCE: &[u8] =
    b"RCT1\x00\x00\x00\x00\x00\x00\x00\x00\x00\x00\x00\x01\x0c\xc1u\xb9\xc0\xf1\xb6\xa81\xc3\x99\xe2iw&a\x00\x00\x00\x00\x00\x00\x00\x00\x00\x01\x95\xdf\xd6\x00%\xf0\x94O~\xc9{]\x80\xdd\x04\xcd";

const WITH_MIDDLE: [(FileId, Option<&[u8]>); 5] = [
    (FileId::Table(0, 0), Some(EMPTY)),
    (FileId::Table(0, 1), Some(FILE_A)),
    (FileId::Table(0, 2), Some(FILE_B)),
    (FileId::Table(0, 3), Some(FILE_A)),
    (FileId::Counts(0), Some(A_TWICE)),
];

const WITHOUT_MIDDLE: [(FileId, Option<&[u8]>); 5] = [
    (FileId::Table(0, 0), Some(EMPTY)),
    (FileId::Table(0, 1), Some(EMPTY)),
    (FileId::Table(0, 2), None),
    (FileId::Table(0, 3), Some(FILE_A)),
    (FileId::Counts(0), Some(A_ONCE)),
];

#[test]
fn the_middle_goes_from_tables_and_counts(rt: HostRuntime) -> Result<(), Fail> {
    let alloc = rt.alloc();
    let mut disk = expect_steps(&rt, blank_disk(alloc, &[])?, MIDDLE)?;
    expect_files(alloc, &mut disk, &WITH_MIDDLE)?;
    let mut disk = expect_steps(&rt, disk, MIDDLE_GONE)?;
    expect_files(alloc, &mut disk, &WITHOUT_MIDDLE)?;
    let mut disk = expect_steps(&rt, disk, MIDDLE_CLEANED)?;
    expect_files(alloc, &mut disk, &WITHOUT_MIDDLE)
}

/// The entry of `a.txt`, of five bytes.
const ENTRY: &[u8] =
    b"E\x01\x00\x05a.txt\x00\x00\x01\xa4\x00\x00\x00\x00\x00\x00\x00\x00\x00\x00\x00\x00\x00\x00\x00\x00\x00\x00\x00\x00\x00\x00\x00\x00\x00\x00\x00\x00\x00\x00\x00\x05";

/// A restore gives its three frames after its backup is deleted, cleaned and swept.
const RESTORE: &[Step] = &[
    Ask(HOST),
    Dump(0, "full", &[Put("a.txt", "hello")]),
    Ask(Row(
        "POST /hosts/pc1/backups/0/restores",
        "",
        Says::Json(MADE, "{\"restore\":\"1-1\"}"),
    )),
    Ask(Row("DELETE /hosts/pc1/backups/0", "", DONE)),
    Clean(5, 0, 0, 0),
    Clean(5, 0, 0, 0),
    Ask(Row("POST /night/sweep", "", DONE)),
    Ask(Row("GET /restores/1-1/next", "", Says::Bytes(ENTRY))),
    Ask(Row(
        "GET /restores/1-1/next",
        "",
        Says::Bytes(b"D\0\0\0\x05hello"),
    )),
    Ask(Row("GET /restores/1-1/next", "", Says::Bytes(b"Z\0\0\0\x01"))),
    Ask(Row("DELETE /restores/1-1", "", DONE)),
    Clean(5, 1, 0, 0),
    Clean(5, 0, 1, 0),
    Ask(Row("POST /night/sweep", "", DONE)),
    Ask(Row(
        "GET /restores/1-1/next",
        "",
        Says::Json(ABSENT, "{\"refused\":\"NoSession\"}"),
    )),
];

/// Whether the disk lists a content of the pool.
fn has_content(alloc: Global, disk: &mut MemoryDisk) -> Result<bool, Fail> {
    for file in disk.list(alloc)?.as_slice() {
        if matches!(file, FileId::Pool(_)) {
            return Ok(true);
        }
    }
    Ok(false)
}

#[test]
fn a_restore_holds_what_it_gives(rt: HostRuntime) -> Result<(), Fail> {
    let alloc = rt.alloc();
    let mut disk = expect_steps(&rt, blank_disk(alloc, &[])?, RESTORE)?;
    expect(
        !has_content(alloc, &mut disk)?,
        "a content is left on the disk",
    )
}
