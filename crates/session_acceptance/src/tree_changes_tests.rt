ghost use Rattle.std.specs.Prelude.{◌≤◌, IfOk};
ghost use Rattle.attr_tables.specs.Records.{IsSound};

use attr_records::{Attr, Dir, Link, LinkTarget, PathName};
use attr_tables::{Record, Row, StoredFile, Table};
use disk_trait::PoolId;
use std::alloc::Global;
use std::test::Fail;
use tree_changes::{changes, removals};

// A File of one byte under that name, in a hard-link group, changed at some nanosecond.
fn file(name: u8, group: u32, nanos: u32) -> Record
    requires { nanos ≤ 999999999 }
    ensures { IsSound result }
{
    Record::File(StoredFile {
        attr: Attr::new(0o644, 0, 0, 0, nanos),
        group,
        size: 1,
        content: Some(PoolId {
            digest: [name; 16],
            extension: 0,
        }),
    })
}

// A record by one byte: `d` for a directory, `e` for one of another mode, `l` for a link, `n` for the File `1` a nanosecond
// later, `h` for the File `1` in a hard-link group, and any other for the File of that name.
fn record_of(alloc: Global, kind: u8) -> Result<Record, Fail>
    ensures { IfOk result IsSound }
{
    match kind {
        b'd' => Ok(Record::Dir(Dir {
            attr: Attr::dir_default(),
        })),
        b'e' => Ok(Record::Dir(Dir {
            attr: Attr::new(0o700, 0, 0, 0, 0),
        })),
        b'l' => Ok(Record::Link(Link {
            attr: Attr::link_default(),
            target: LinkTarget::read(alloc, b"t")?,
        })),
        b'n' => Ok(file(b'1', 0, 1)),
        b'h' => Ok(file(b'1', 7, 0)),
        _ => Ok(file(kind, 0, 0)),
    }
}

// The table of words with blanks between them, each a path and the byte of its record.
fn table_of(alloc: Global, text: &[u8]) -> Result<Table, Fail> {
    let mut table = Table::new(alloc);
    for word in text.split(|byte| *byte == b' ') {
        if let [path @ .., kind] = word {
            let node = record_of(alloc, *kind)?;
            table.push(Row::new(PathName::read(alloc, path)?, node))?;
        }
    }
    Ok(table)
}

fn has_rows(alloc: Global, table: &Table, wanted: &[u8]) -> Result<bool, Fail> {
    let wanted = table_of(alloc, wanted)?;
    if table.len() != wanted.len() {
        return Ok(false);
    }
    for (row, other) in table.rows().iter().zip(wanted.rows()) {
        if row.path() != other.path() || !row.node().is_same(other.node()) {
            return Ok(false);
        }
    }
    Ok(true)
}

// Whether just these rows are removed and just these put on the way from the older ones to the newer.
fn leads(
    alloc: Global,
    older: &[u8],
    newer: &[u8],
    removed: &[u8],
    put: &[u8],
) -> Result<bool, Fail> {
    let from = table_of(alloc, older)?;
    let to = table_of(alloc, newer)?;
    let gone = removals(alloc, to.rows(), from.rows())?;
    if !has_rows(alloc, &gone, removed)? {
        return Ok(false);
    }
    let made = changes(alloc, to.rows(), from.rows())?;
    Ok(has_rows(alloc, &made, put)?)
}

#[test]
fn trees_that_are_equal_or_empty(rt: HostRuntime) -> Result<(), Fail> {
    let alloc = rt.alloc();
    assert!(rt; leads(alloc, b"ad a/b1 cl", b"ad a/b1 cl", b"", b"")?);
    assert!(rt; leads(alloc, b"", b"ad a/b1 cl", b"", b"ad a/b1 cl")?);
    assert!(rt; leads(alloc, b"ad a/b1 cl", b"", b"ad cl", b"")?);
    Ok(())
}

// A file becomes a directory with children; a directory becomes a file, and what was in it goes with it; a file becomes a
// link, which is put over it.
#[test]
fn kinds_that_change(rt: HostRuntime) -> Result<(), Fail> {
    let alloc = rt.alloc();
    assert!(rt; leads(alloc, b"a1", b"ad a/b1", b"a1", b"ad a/b1")?);
    assert!(rt; leads(alloc, b"ad a/b1 cl", b"a1 cl", b"ad", b"a1")?);
    assert!(rt; leads(alloc, b"c1", b"cl", b"", b"cl")?);
    Ok(())
}

// Nested directories that go are one removal, and `a-b` is no child of `a`; a directory stays, and one below it goes.
#[test]
fn directories_that_go(rt: HostRuntime) -> Result<(), Fail> {
    let alloc = rt.alloc();
    assert!(rt; leads(alloc, b"ad a/bd a/b/c1 a-b2 a.b3", b"a.b3", b"ad a-b2", b"")?);
    assert!(rt; leads(alloc, b"ad a/bd a/b/c1 a/d2", b"ad a/d2", b"a/bd", b"")?);
    Ok(())
}

// Of a directory, of a file by a nanosecond, and its hard-link group; another content.
#[test]
fn attributes_alone(rt: HostRuntime) -> Result<(), Fail> {
    let alloc = rt.alloc();
    assert!(rt;
        leads(
            alloc,
            b"ad a/b1 a/c1 a/d1",
            b"ae a/bn a/ch a/d1",
            b"",
            b"ae a/bn a/ch"
        )?
    );
    assert!(rt; leads(alloc, b"a1 b1", b"a1 b2", b"", b"b2")?);
    Ok(())
}
