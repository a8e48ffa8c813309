ghost use Rattle.std.specs.Prelude.{IfOk};
ghost use Rattle.attr_tables.specs.Records.{IsSound};

use attr_records::{Attr, Dir, File, Item, Link, LinkTarget, PathName};
use attr_tables::{Record, Row, StoredFile, Table};
use disk_trait::{Bytes, PoolId};
use std::alloc::Global;
use std::test::Fail;
use stored_trees::{count_occurrences, find, names, resolve};

const ID: PoolId = PoolId {
    digest: [7; 16],
    extension: 0,
};

const OTHER: PoolId = PoolId {
    digest: [7; 16],
    extension: 1,
};

fn file(content: PoolId) -> Record
    ensures { IsSound result }
{
    Record::File(StoredFile {
        attr: Attr::file_default(),
        group: 9,
        size: 5,
        content: Some(content),
    })
}

// The directory `d` with two files of one content and one of another, and a link.
fn table(alloc: Global) -> Result<Table, Fail> {
    let mut table = Table::new(alloc);
    let dir = Record::Dir(Dir {
        attr: Attr::dir_default(),
    });
    table.push(Row::new(PathName::read(alloc, b"d")?, dir))?;
    let files: [(&[u8], PoolId); 3] = [(b"d/a", ID), (b"d/b", OTHER), (b"d/c", ID)];
    for (path, content) in files {
        table.push(Row::new(PathName::read(alloc, path)?, file(content)))?;
    }
    let link = Record::Link(Link {
        attr: Attr::link_default(),
        target: LinkTarget::read(alloc, b"d/a")?,
    });
    table.push(Row::new(PathName::read(alloc, b"l")?, link))?;
    Ok(table)
}

#[test]
fn rows_are_resolved_and_counted(rt: HostRuntime) -> Result<(), Fail> {
    let alloc = rt.alloc();
    let table = table(alloc)?;
    assert_eq!(rt; count_occurrences(table.rows(), &ID), 2);
    assert_eq!(rt; count_occurrences(table.rows(), &OTHER), 1);
    let path = PathName::read(alloc, b"d/c")?;
    let Some(record) = find(&table, &path) else {
        return Err(Fail::new("no row"));
    };
    assert!(rt; names(record, &ID));
    let hello = Bytes::from_slice(alloc, b"hello")?;
    let wanted = Item::File(File {
        attr: Attr::file_default(),
        group: 9,
        bytes: hello.copy(alloc)?,
    });
    assert!(rt; resolve(alloc, record, hello)? == Some(wanted));
    for row in table.rows() {
        assert!(rt; resolve(alloc, row.node(), Bytes::new(alloc))?.is_some());
    }
    assert!(rt; resolve(alloc, &Record::Deleted, Bytes::new(alloc))?.is_none());
    Ok(())
}
