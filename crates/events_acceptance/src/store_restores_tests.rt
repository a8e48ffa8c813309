ghost use Rattle.std.specs.Prelude.{IfOk};
ghost use Rattle.attr_tables.specs.Records.{IsSound};

use crate::parts::{Parts, expect_rows, parts_with, reply_to};
use attr_records::{Attr, Dir, HostName, Link, LinkTarget, PathName};
use attr_tables::{Record, Row as TableRow, StoredFile, Table, write_table};
use disk_trait::{Bytes, Disk, DiskRoom, FileId, MemoryDisk, PoolId};
use office_model::{Answer, Event, Frame, Node, Refusal, SessionName};
use office_talks::{Row, expect};
use pool_name::{FirstByteNamer, Namer};
use std::alloc::{AllocError, Global};
use std::test::Fail;

const ROOM: DiskRoom = DiskRoom {
    changes: 100,
    bytes: 400_000,
};

const NUMBER: u32 = 5;

// The number of an older backup.
const OLDER: u32 = 4;

// A frame: an entry's kind, its path and a file's size; a piece's first byte and its length; a removed path; the count of the end.
struct Wanted(u8, &'static [u8], u64);

// All frames of the backup, the last one twice.
const FRAMES: [Wanted; 9] = [
    Wanted(b'f', b"e", 0),
    Wanted(b'f', b"f", 65_536),
    Wanted(b'p', b"a", 65_536),
    Wanted(b'f', b"g", 65_537),
    Wanted(b'p', b"b", 65_536),
    Wanted(b'p', b"c", 1),
    Wanted(b'l', b"l", 0),
    Wanted(b'z', b"", 4),
    Wanted(b'z', b"", 4),
];

// A content of one byte repeated, and a last one.
fn content_of(alloc: Global, byte: u8, last: u8) -> Result<Vec<u8>, AllocError> {
    let mut content = vec![in alloc; byte; 65_535]?;
    content.push(byte)?;
    if last > 0 {
        content.push(last)?;
    }
    Ok(content)
}

fn id_of(first: u8) -> PoolId {
    PoolId {
        digest: FirstByteNamer.name(&[first]),
        extension: 0,
    }
}

fn file_of(size: u64, first: u8) -> Record
    ensures { IsSound result }
{
    Record::File(StoredFile {
        attr: Attr::file_default(),
        group: 0,
        size,
        content: if size == 0 { None } else { Some(id_of(first)) },
    })
}

fn link_of(alloc: Global) -> Result<Record, Fail>
    ensures { IfOk result IsSound }
{
    Ok(Record::Link(Link {
        attr: Attr::link_default(),
        target: LinkTarget::read(alloc, b"e")?,
    }))
}

fn push(alloc: Global, table: &mut Table, path: &[u8], node: Record) -> Result<(), Fail>
    requires { IsSound node }
{
    table.push(TableRow::new(PathName::read(alloc, path)?, node))?;
    Ok(())
}

fn dir_of() -> Record
    ensures { IsSound result }
{
    Record::Dir(Dir {
        attr: Attr::dir_default(),
    })
}

fn table_of(alloc: Global) -> Result<Bytes, Fail> {
    let mut table = Table::new(alloc);
    push(alloc, &mut table, b"e", file_of(0, 0))?;
    push(alloc, &mut table, b"f", file_of(65_536, b'a'))?;
    push(alloc, &mut table, b"g", file_of(65_537, b'b'))?;
    push(alloc, &mut table, b"l", link_of(alloc)?)?;
    Ok(write_table(alloc, &table)?)
}

// A disk with a backup, whose second content has this file.
fn disk_of(alloc: Global, second: &[u8]) -> Result<MemoryDisk, Fail> {
    let mut disk = MemoryDisk::new(alloc, Vec::new(alloc), ROOM)?;
    let table = table_of(alloc)?;
    disk.write(FileId::Table(0, NUMBER), table.as_slice())?;
    disk.write(FileId::Pool(id_of(b'a')), &content_of(alloc, b'a', 0)?)?;
    disk.write(FileId::Pool(id_of(b'b')), second)?;
    Ok(disk)
}

fn parts_of(alloc: Global, second: &[u8]) -> Result<Parts<FirstByteNamer>, Fail> {
    parts_with(alloc, disk_of(alloc, second)?, &[NUMBER])
}

fn is_entry(path: &PathName, node: &Node, wanted: &Wanted) -> bool {
    if path.as_slice() != wanted.1 {
        return false;
    }
    match node {
        Node::File(file) => wanted.0 == b'f' && file.size == wanted.2,
        Node::Link(_) => wanted.0 == b'l',
        Node::Dir(_) => wanted.0 == b'd',
    }
}

fn is_piece(piece: &Bytes, wanted: &Wanted) -> bool {
    if wanted.0 != b'p' || piece.len() as u64 != wanted.2 {
        return false;
    }
    piece.as_slice().first() == wanted.1.first()
}

fn is_frame(frame: &Frame, wanted: &Wanted) -> bool {
    match frame {
        Frame::Entry { path, node } => is_entry(path, node, wanted),
        Frame::Piece(piece) => is_piece(piece, wanted),
        Frame::Deleted(path) => wanted.0 == b'x' && path.as_slice() == wanted.1,
        Frame::End(count) => wanted.0 == b'z' && u64::from(*count) == wanted.2,
    }
}

const RESTORE: Event = Event::ReadNext {
    restore: SessionName {
        epoch: 0,
        sequence: 0,
    },
};

const OPEN: [Row; 1] = [Row(
    "POST /hosts/a/backups/5/restores",
    "",
    "{\"restore\":\"0-0\"}",
)];

const CLOSE: [Row; 2] = [
    Row("DELETE /restores/0-0", "", "{}"),
    Row("DELETE /restores/0-0", "", "{\"refused\":\"NoSession\"}"),
];

fn expect_next(
    alloc: Global,
    parts: &mut Parts<FirstByteNamer>,
    wanted: &Wanted,
) -> Result<(), Fail> {
    match reply_to(alloc, parts, &RESTORE)? {
        Ok(Answer::Next(frame)) => expect(is_frame(&frame, wanted), "another frame"),
        _ => Err(Fail::new("no frame")),
    }
}

// Whether the next frame is refused for a damaged file.
fn is_damaged(alloc: Global, parts: &mut Parts<FirstByteNamer>) -> Result<bool, Fail> {
    match reply_to(alloc, parts, &RESTORE)? {
        Ok(_) => Ok(false),
        Err(Refusal::Damaged { .. }) => Ok(true),
        Err(_) => Err(Fail::new("another refusal")),
    }
}

#[test]
fn a_restore_gives_each_frame_of_its_backup(rt: HostRuntime) -> Result<(), Fail> {
    let alloc = rt.alloc();
    let mut parts = parts_of(alloc, &content_of(alloc, b'b', b'c')?)?;
    expect_rows(alloc, &mut parts, &OPEN)?;
    for wanted in &FRAMES {
        expect_next(alloc, &mut parts, wanted)?;
    }
    expect_rows(alloc, &mut parts, &CLOSE)
}

const NO_BACKUP: [Row; 3] = [
    Row(
        "POST /hosts/a/backups/4/restores",
        "",
        "{\"refused\":\"NoBackup\"}",
    ),
    Row(
        "POST /hosts/a/backups/5/restores?base=4",
        "",
        "{\"refused\":\"NoBackup\"}",
    ),
    Row(
        "POST /hosts/b/backups/5/restores",
        "",
        "{\"refused\":\"NoHost\"}",
    ),
];

#[test]
fn only_a_backup_is_restored(rt: HostRuntime) -> Result<(), Fail> {
    let alloc = rt.alloc();
    let mut parts = parts_of(alloc, &content_of(alloc, b'b', b'c')?)?;
    expect_rows(alloc, &mut parts, &NO_BACKUP)?;
    expect(parts.sessions.restores.is_empty(), "an open restore")
}

const DAMAGED: [bool; 7] = [false, false, false, false, false, true, true];

// A second content of these bytes is told to be damaged.
fn expect_damaged(alloc: Global, second: &[u8]) -> Result<(), Fail> {
    let mut parts = parts_of(alloc, second)?;
    expect_rows(alloc, &mut parts, &OPEN)?;
    for damaged in DAMAGED {
        expect(is_damaged(alloc, &mut parts)? == damaged, "another answer")?;
    }
    Ok(())
}

// A content of another digest, and one that is a byte too short.
#[test]
fn another_content_is_damaged_in_the_place_of_its_last_piece(rt: HostRuntime) -> Result<(), Fail> {
    let alloc = rt.alloc();
    expect_damaged(alloc, &content_of(alloc, b'x', b'c')?)?;
    expect_damaged(alloc, &content_of(alloc, b'b', 0)?)
}

// What the older backup has in the place of the newer one's rows: a directory with a file and another one, another large file,
// and no link.
fn older_table(alloc: Global) -> Result<Bytes, Fail> {
    let mut table = Table::new(alloc);
    push(alloc, &mut table, b"d", dir_of())?;
    push(alloc, &mut table, b"d/d", dir_of())?;
    push(alloc, &mut table, b"d/d/f", file_of(65_536, b'a'))?;
    push(alloc, &mut table, b"d/e", file_of(0, 0))?;
    push(alloc, &mut table, b"g", file_of(65_536, b'a'))?;
    push(alloc, &mut table, b"l", Record::Deleted)?;
    Ok(write_table(alloc, &table)?)
}

// The frames from the older backup to the newer one, the last one twice: the lost directory once, then the changed file and the
// link.
const SINCE: [Wanted; 7] = [
    Wanted(b'x', b"d", 0),
    Wanted(b'f', b"g", 65_537),
    Wanted(b'p', b"b", 65_536),
    Wanted(b'p', b"c", 1),
    Wanted(b'l', b"l", 0),
    Wanted(b'z', b"", 2),
    Wanted(b'z', b"", 2),
];

// And back.
const BACK: [Wanted; 9] = [
    Wanted(b'x', b"l", 0),
    Wanted(b'd', b"d", 0),
    Wanted(b'd', b"d/d", 0),
    Wanted(b'f', b"d/d/f", 65_536),
    Wanted(b'p', b"a", 65_536),
    Wanted(b'f', b"d/e", 0),
    Wanted(b'f', b"g", 65_536),
    Wanted(b'p', b"a", 65_536),
    Wanted(b'z', b"", 5),
];

// The frames of a restore of the backup of this number since that of another.
fn expect_since(alloc: Global, number: u32, base: u32, frames: &[Wanted]) -> Result<(), Fail> {
    let mut disk = disk_of(alloc, &content_of(alloc, b'b', b'c')?)?;
    let table = older_table(alloc)?;
    disk.write(FileId::Table(0, OLDER), table.as_slice())?;
    let mut parts = parts_with(alloc, disk, &[OLDER, NUMBER])?;
    let event = Event::OpenRead {
        host: HostName::read(alloc, b"a")?,
        number,
        base: Some(base),
    };
    match reply_to(alloc, &mut parts, &event)? {
        Ok(Answer::Restore(_)) => {}
        _ => return Err(Fail::new("no restore")),
    }
    for wanted in frames {
        expect_next(alloc, &mut parts, wanted)?;
    }
    Ok(())
}

// From the older backup to the newer one, and back; nothing leads from a backup to itself.
#[test]
fn a_restore_since_a_base_gives_what_leads_from_it(rt: HostRuntime) -> Result<(), Fail> {
    let alloc = rt.alloc();
    expect_since(alloc, NUMBER, OLDER, &SINCE)?;
    expect_since(alloc, OLDER, NUMBER, &BACK)?;
    expect_since(alloc, NUMBER, NUMBER, &[Wanted(b'z', b"", 0)])
}
