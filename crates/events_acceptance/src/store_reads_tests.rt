ghost use Rattle.std.specs.Prelude.{◌≡◌, length};
ghost use Rattle.attr_tables.specs.Records.{IsSound, IsContentOf};

use crate::parts::{expect_rows, parts_with};
use attr_records::{Attr, Dir, PathName};
use attr_tables::{Record, Row as TableRow, StoredFile, Table, write_table};
use disk_trait::{Disk, DiskRoom, FileId, MemoryDisk, PoolId};
use office_talks::Row;
use pool_name::{FirstByteNamer, Namer};
use std::alloc::Global;
use std::test::Fail;

const ROOM: DiskRoom = DiskRoom {
    changes: 200,
    bytes: 20_000,
};

// The tables of three backups: the newest has all its paths, an older one those that differ from the next newer one. A
// path is a directory, a file by its content, or gone.
const NEWEST: [(&[u8], &[u8]); 4] = [
    (b"d", b"dir"),
    (b"d/e", b"dir"),
    (b"d/x", b"apple"),
    (b"z", b""),
];

const MIDDLE: [(&[u8], &[u8]); 2] = [(b"d/x", b"gone"), (b"d/y", b"banana")];

const OLDEST: [(&[u8], &[u8]); 1] = [(b"z", b"banana")];

// What is read: files, nodes and directories. The root is the one of the middle backup.
const ROWS: &[Row] = &[
    Row("GET /hosts/a/backups/5/file?path=d/x", "", "apple"),
    Row("GET /hosts/a/backups/5/file?path=z", "", ""),
    Row("GET /hosts/a/backups/2/file?path=d/x", "", NO_PATH),
    Row("GET /hosts/a/backups/2/file?path=d/y", "", "banana"),
    Row("GET /hosts/a/backups/0/file?path=z", "", "banana"),
    Row("GET /hosts/a/backups/0/file?path=d/y", "", "banana"),
    Row("GET /hosts/a/backups/2/file?path=z", "", ""),
    Row(
        "GET /hosts/a/backups/5/file?path=d",
        "",
        "{\"refused\":\"NotAFile\"}",
    ),
    Row("GET /hosts/a/backups/1/file?path=z", "", NO_BACKUP),
    Row("GET /hosts/a/backups/0/entry?path=z", "", FRUIT),
    Row("GET /hosts/a/backups/2/entry?path=d", "", DIRECTORY),
    Row("GET /hosts/a/backups/5/entry?path=d/y", "", NO_PATH),
    Row("GET /hosts/a/backups/9/entry?path=d", "", NO_BACKUP),
    Row("GET /hosts/a/backups/5/list?path=d", "", NEWEST_NAMES),
    Row("GET /hosts/a/backups/2/list?path=d", "", MIDDLE_NAMES),
    Row(
        "GET /hosts/a/backups/5/list?path=z",
        "",
        "{\"refused\":\"NotADirectory\"}",
    ),
    Row("GET /hosts/a/backups/2/list?path=d/x", "", NO_PATH),
    Row("GET /hosts/a/backups/2/list", "", ROOT_NAMES),
];

const NO_PATH: &str = "{\"refused\":\"NoPath\"}";

const NO_BACKUP: &str = "{\"refused\":\"NoBackup\"}";

const FRUIT: &str =
    "{\"gid\":0,\"group\":0,\"kind\":\"file\",\"mode\":\"0644\",\"mtime\":0,\"nanos\":0,\"size\":6,\"uid\":0}";

const DIRECTORY: &str =
    "{\"gid\":0,\"kind\":\"dir\",\"mode\":\"0755\",\"mtime\":0,\"nanos\":0,\"uid\":0}";

const NEWEST_NAMES: &str =
    "{\"entries\":[{\"gid\":0,\"kind\":\"dir\",\"mode\":\"0755\",\"mtime\":0,\"name\":\"e\",\"nanos\":0,\"uid\":0},{\"gid\":0,\"group\":0,\"kind\":\"file\",\"mode\":\"0644\",\"mtime\":0,\"name\":\"x\",\"nanos\":0,\"size\":5,\"uid\":0}]}";

const MIDDLE_NAMES: &str =
    "{\"entries\":[{\"gid\":0,\"kind\":\"dir\",\"mode\":\"0755\",\"mtime\":0,\"name\":\"e\",\"nanos\":0,\"uid\":0},{\"gid\":0,\"group\":0,\"kind\":\"file\",\"mode\":\"0644\",\"mtime\":0,\"name\":\"y\",\"nanos\":0,\"size\":6,\"uid\":0}]}";

const ROOT_NAMES: &str =
    "{\"entries\":[{\"gid\":0,\"kind\":\"dir\",\"mode\":\"0755\",\"mtime\":0,\"name\":\"d\",\"nanos\":0,\"uid\":0},{\"gid\":0,\"group\":0,\"kind\":\"file\",\"mode\":\"0644\",\"mtime\":0,\"name\":\"z\",\"nanos\":0,\"size\":0,\"uid\":0}]}";

fn id_of(content: &[u8]) -> PoolId {
    PoolId {
        digest: FirstByteNamer.name(content),
        extension: 0,
    }
}

// The id of a content, None of no bytes.
fn content_of(content: &[u8]) -> Option<PoolId>
    ensures { IsContentOf (length content.now) result }
{
    match content.len() {
        0 => None,
        _ => Some(id_of(content)),
    }
}

// What a row says: a directory, a file by its content, or a path that is gone.
fn record_of(said: &[u8]) -> Record
    ensures { IsSound result }
{
    if said == b"dir".as_slice() {
        return Record::Dir(Dir {
            attr: Attr::dir_default(),
        });
    }
    if said == b"gone".as_slice() {
        return Record::Deleted;
    }
    Record::File(StoredFile {
        attr: Attr::file_default(),
        group: 0,
        size: said.len() as u64,
        content: content_of(said),
    })
}

fn write(
    alloc: Global,
    disk: &mut MemoryDisk,
    number: u32,
    rows: &[(&[u8], &[u8])],
) -> Result<(), Fail> {
    let mut table = Table::new(alloc);
    for (path, said) in rows {
        table.push(TableRow::new(PathName::read(alloc, path)?, record_of(said)))?;
    }
    let bytes = write_table(alloc, &table)?;
    disk.write(FileId::Table(0, number), bytes.as_slice())?;
    Ok(())
}

fn disk_of(alloc: Global) -> Result<MemoryDisk, Fail> {
    let mut disk = MemoryDisk::new(alloc, Vec::new(alloc), ROOM)?;
    write(alloc, &mut disk, 5, &NEWEST)?;
    write(alloc, &mut disk, 2, &MIDDLE)?;
    write(alloc, &mut disk, 0, &OLDEST)?;
    disk.write(FileId::Pool(id_of(b"apple")), b"apple")?;
    disk.write(FileId::Pool(id_of(b"banana")), b"banana")?;
    Ok(disk)
}

#[test]
fn backups_are_read_through_newer_ones(rt: HostRuntime) -> Result<(), Fail> {
    let alloc = rt.alloc();
    let mut parts = parts_with(alloc, disk_of(alloc)?, &[0, 2, 5])?;
    expect_rows(alloc, &mut parts, ROWS)
}
