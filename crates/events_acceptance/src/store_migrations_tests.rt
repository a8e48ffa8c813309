use crate::parts::{Parts, expect_ready, expect_rows, parts_with};
use attr_records::HostName;
use disk_trait::{Disk, DiskRoom, FileId, MemoryDisk, PoolId};
use office_model::{Answer, BrokenRule, Refusal};
use office_talks::{Row, expect};
use pool_name::FirstByteNamer;
use std::alloc::Global;
use std::test::Fail;
use store_migrations::migrate;
use wire_bytes::seal;

const ROOM: DiskRoom = DiskRoom {
    changes: 200,
    bytes: 20_000,
};

// The bodies in both layouts of a table that says of `a.txt` that it is the file `hello`, which it names by its first byte.
const FIRST: &[u8; 62] =
    b"RTB1\x00\x00\x00\x01\x01\x00\x05a.txt\x00\x00\x01\xa4\x00\x00\x00\x00\x00\x00\x00\x00\x00\x00\x00\x00\x00\x00\x00\x00\x00\x00\x00\x00\x00\x00\x00\x05h\x00\x00\x00\x00\x00\x00\x00\x00\x00\x00\x00\x00\x00\x00\x00\x00\x00";

const SECOND: &[u8; 70] =
    b"RTB2\x00\x00\x00\x01\x01\x00\x05a.txt\x00\x00\x01\xa4\x00\x00\x00\x00\x00\x00\x00\x00\x00\x00\x00\x00\x00\x00\x00\x00\x00\x00\x00\x00\x00\x00\x00\x00\x00\x00\x00\x00\x00\x00\x00\x05h\x00\x00\x00\x00\x00\x00\x00\x00\x00\x00\x00\x00\x00\x00\x00\x00\x00";

// The content `hello`.
const HELLO: FileId = FileId::Pool(PoolId {
    digest: *b"h\x00\x00\x00\x00\x00\x00\x00\x00\x00\x00\x00\x00\x00\x00\x00",
    extension: 0,
});

const TABLE: FileId = FileId::Table(0, 0);

// What is read of both backups, before a migration and after it.
const ROWS: &[Row] = &[
    Row("GET /hosts/a/backups/0/file?path=a.txt", "", "hello"),
    Row("GET /hosts/a/backups/0/entry?path=a.txt", "", ENTRY),
    Row("GET /hosts/a/backups/3/entry?path=a.txt", "", ENTRY),
];

const ENTRY: &str =
    "{\"gid\":0,\"group\":0,\"kind\":\"file\",\"mode\":\"0644\",\"mtime\":0,\"nanos\":0,\"size\":5,\"uid\":0}";

// The disk of two backups with these bytes as the table of the older one, and a table of the second layout for the newer.
fn disk_of(alloc: Global, older: &[u8], newer: &[u8]) -> Result<MemoryDisk, Fail> {
    let mut disk = MemoryDisk::new(alloc, Vec::new(alloc), ROOM)?;
    let written = disk.write(TABLE, older).is_ok()
        && disk.write(FileId::Table(0, 3), newer).is_ok()
        && disk.write(HELLO, b"hello").is_ok();
    expect(written, "not written")?;
    Ok(disk)
}

// The file of a body.
fn file_of(alloc: Global, body: &[u8]) -> Result<Vec<u8>, Fail> {
    Ok(seal(Vec::from_slice(alloc, body)?)?)
}

fn parts_of(alloc: Global, older: &[u8]) -> Result<Parts<FirstByteNamer>, Fail> {
    let newer = file_of(alloc, SECOND)?;
    parts_with(alloc, disk_of(alloc, older, newer.as_slice())?, &[0, 3])
}

// Parts whose older table is of the first layout.
fn old_parts(alloc: Global) -> Result<Parts<FirstByteNamer>, Fail> {
    let older = file_of(alloc, FIRST)?;
    parts_of(alloc, older.as_slice())
}

// Migrates a host.
fn reply_of(
    alloc: Global,
    parts: &mut Parts<FirstByteNamer>,
    host: &[u8],
) -> Result<Result<Answer, Refusal>, Fail> {
    let host = HostName::read(alloc, host)?;
    expect_ready(parts)?;
    Ok(migrate(parts, alloc, &host))
}

fn expect_done(alloc: Global, parts: &mut Parts<FirstByteNamer>) -> Result<(), Fail> {
    let reply = reply_of(alloc, parts, b"a")?;
    expect(matches!(reply, Ok(Answer::Done)), "not done")
}

// The disk has these bytes as the table of the older backup.
fn expect_table(alloc: Global, disk: &mut MemoryDisk, bytes: &[u8]) -> Result<(), Fail> {
    match disk.read(alloc, TABLE) {
        Ok(Some(found)) => expect(found.as_slice() == bytes, "another table"),
        _ => Err(Fail::new("not read")),
    }
}

#[test]
fn a_table_of_the_first_layout_is_written_anew(rt: HostRuntime) -> Result<(), Fail> {
    let alloc = rt.alloc();
    let mut parts = old_parts(alloc)?;
    expect_rows(alloc, &mut parts, ROWS)?;
    expect_done(alloc, &mut parts)?;
    expect_rows(alloc, &mut parts, ROWS)?;
    let second = file_of(alloc, SECOND)?;
    let mut disk = parts.journal.close();
    expect_table(alloc, &mut disk, second.as_slice())
}

// How many calls a disk has kept after so many migrations.
fn moment_after(alloc: Global, times: u32) -> Result<usize, Fail> {
    let mut parts = old_parts(alloc)?;
    for _i in 0..times {
        expect_done(alloc, &mut parts)?;
    }
    Ok(parts.journal.close().moment())
}

#[test]
fn a_second_migration_writes_nothing(rt: HostRuntime) -> Result<(), Fail> {
    let alloc = rt.alloc();
    let once = moment_after(alloc, 1)?;
    expect(moment_after(alloc, 0)? < once, "nothing was written")?;
    expect(moment_after(alloc, 2)? == once, "something was written")
}

#[test]
fn a_migration_of_no_host_is_refused(rt: HostRuntime) -> Result<(), Fail> {
    let alloc = rt.alloc();
    let mut parts = old_parts(alloc)?;
    let reply = reply_of(alloc, &mut parts, b"b")?;
    expect(
        matches!(reply, Err(Refusal::Broken(BrokenRule::NoHost))),
        "another answer",
    )?;
    let first = file_of(alloc, FIRST)?;
    let mut disk = parts.journal.close();
    expect_table(alloc, &mut disk, first.as_slice())
}

#[test]
fn a_damaged_table_is_told_and_nothing_is_written(rt: HostRuntime) -> Result<(), Fail> {
    let alloc = rt.alloc();
    let start = parts_of(alloc, b"RTB1")?.journal.close().moment();
    let mut parts = parts_of(alloc, b"RTB1")?;
    match reply_of(alloc, &mut parts, b"a")? {
        Err(
            Refusal::Damaged {
                file: FileId::Table(0, 0),
                found: Some(found),
            },
        ) => expect(
            found.as_slice() == b"RTB1".as_slice(),
            "something else was found",
        )?,
        _ => return Err(Fail::new("not damaged")),
    }
    expect(
        parts.journal.close().moment() == start,
        "something was written",
    )
}
