use attr_records::{Attr, Dir, PathName};
use attr_tables::{Record, Row, Table, write_table};
use backup_rules::{Kind, Line};
use backup_views::{ViewFault, Views, read_entries};
use disk_trait::{Disk, DiskRoom, FileId, MemoryDisk};
use intent_journal::Journal;
use std::alloc::Global;
use std::test::Fail;

const ROOM: DiskRoom = DiskRoom {
    changes: 100,
    bytes: 10_000,
};

fn line(number: u32, filled: bool) -> Line {
    Line {
        number,
        start: 0,
        end: 0,
        kind: Kind::Incr,
        filled,
        keep: false,
    }
}

// The file of a table with a directory at each path, and a deletion mark at those that begin with `-`.
fn write(alloc: Global, disk: &mut MemoryDisk, number: u32, paths: &[&[u8]]) -> Result<(), Fail> {
    let mut table = Table::new(alloc);
    for path in paths {
        let row = match path {
            [b'-', rest @ ..] => Row::new(PathName::read(alloc, rest)?, Record::Deleted),
            _ => Row::new(
                PathName::read(alloc, path)?,
                Record::Dir(Dir {
                    attr: Attr::dir_default(),
                }),
            ),
        };
        table.push(row)?;
    }
    let bytes = write_table(alloc, &table)?;
    disk.write(FileId::Table(1, number), bytes.as_slice())?;
    Ok(())
}

// The newest backup has `b` and `c`; the one before it has `a` besides, and no `c`; the oldest has `c` again.
fn journal_of(alloc: Global) -> Result<Journal<MemoryDisk>, Fail> {
    let mut disk = MemoryDisk::new(alloc, Vec::new(alloc), ROOM)?;
    write(alloc, &mut disk, 6, &[b"b", b"c"])?;
    write(alloc, &mut disk, 5, &[b"a", b"-c"])?;
    write(alloc, &mut disk, 3, &[b"c"])?;
    match Journal::open(alloc, disk) {
        Ok(journal) => Ok(journal),
        Err(_) => Err(Fail::new("the journal doesn't open")),
    }
}

fn expect_view(alloc: Global, lines: &[Line], wanted: &[&[u8]]) -> Result<(), Fail> {
    let mut journal = journal_of(alloc)?;
    let mut views = Views::new();
    if journal.halted() {
        return Err(Fail::new("halted"));
    }
    views.load(alloc, &mut journal, 1, lines)?;
    for path in wanted {
        let path = PathName::read(alloc, path)?;
        if views.find(&path).is_none() {
            return Err(Fail::new("a path is missing"));
        }
    }
    if views.rows().len() != wanted.len() {
        return Err(Fail::new("a path too many"));
    }
    Ok(())
}

#[test]
fn a_backup_is_viewed_through_the_tables_from_the_nearest_filled_one_down(
    rt: HostRuntime,
) -> Result<(), Fail> {
    let alloc = rt.alloc();
    let lines = [line(3, false), line(5, false), line(6, true)];
    expect_view(alloc, &lines, &[b"a", b"b", b"c"])?;
    expect_view(alloc, &lines[1..], &[b"a", b"b"])?;
    expect_view(alloc, &lines[2..], &[b"b", b"c"])?;
    expect_view(alloc, &[], &[])
}

#[test]
fn a_table_that_is_absent_is_damaged(rt: HostRuntime) -> Result<(), Fail> {
    let alloc = rt.alloc();
    let mut journal = journal_of(alloc)?;
    if journal.halted() {
        return Err(Fail::new("halted"));
    }
    match read_entries(alloc, &mut journal, 1, 4) {
        Err(
            ViewFault::Damaged {
                file: FileId::Table(1, 4),
                found: None,
            },
        ) => Ok(()),
        _ => Err(Fail::new("not damaged")),
    }
}
