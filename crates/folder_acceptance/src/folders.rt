//! Folders in memory, by tables of rows.

use attr_records::{Attr, Dir, File, Item, Link, LinkTarget, PathName};
use disk_trait::Bytes;
use folder_trait::{Folder, MemoryFolder};
use std::alloc::Global;
use std::test::Fail;

/// What stands at a path: a directory, the bytes of a file, those of one of a group of hard links, or the target of a link.
pub(crate) enum What {
    Dir,
    File(&'static str),
    Grouped(u32, &'static str),
    Link(&'static str),
}

/// A path with what stands there.
pub(crate) struct Row(pub &'static str, pub What);

/// A directory with a file, two hard links of one file, a file of their group with other bytes, and a link.
const MIXED: &[Row] = &[
    Row("d", What::Dir),
    Row("d/f", What::File("x")),
    Row("g", What::Grouped(7, "one")),
    Row("h", What::Grouped(7, "one")),
    Row("i", What::Grouped(7, "two")),
    Row("l", What::Link("d/f")),
];

pub(crate) fn mixed() -> &'static [Row] {
    MIXED
}

/// How many calls of a folder make this one: a call for each row, and one to finish the directory.
pub(crate) const MIXED_CALLS: u64 = 7;

/// It fails unless the test holds.
pub(crate) fn expect(test: bool, what: &'static str) -> Result<(), Fail> {
    if test {
        return Ok(());
    }
    Err(Fail::new(what))
}

pub(crate) fn path(alloc: Global, name: &str) -> Result<PathName, Fail> {
    Ok(PathName::read(alloc, name.as_bytes())?)
}

fn dir() -> Dir {
    Dir {
        attr: Attr::new(0o750, 1, 2, 1_600_000_000, 3),
    }
}

fn file(alloc: Global, group: u32, text: &str) -> Result<Item, Fail> {
    Ok(Item::File(File {
        attr: Attr::new(0o640, 4, 5, 1_500_000_000, 6),
        group,
        bytes: Bytes::from_slice(alloc, text.as_bytes())?,
    }))
}

fn link(alloc: Global, target: &str) -> Result<Item, Fail> {
    Ok(Item::Link(Link {
        attr: Attr::link_default(),
        target: LinkTarget::read(alloc, target.as_bytes())?,
    }))
}

pub(crate) fn item(alloc: Global, what: &What) -> Result<Item, Fail> {
    match what {
        What::Dir => Ok(Item::Dir(dir())),
        What::File(text) => file(alloc, 0, text),
        What::Grouped(group, text) => file(alloc, *group, text),
        What::Link(target) => link(alloc, target),
    }
}

fn make_row(alloc: Global, folder: &mut MemoryFolder, row: &Row) -> Result<(), Fail> {
    let path = path(alloc, row.0)?;
    let item = item(alloc, &row.1)?;
    Ok(folder.make(alloc, &path, &item)?)
}

fn finish_row(alloc: Global, folder: &mut MemoryFolder, row: &Row) -> Result<(), Fail> {
    if !matches!(row.1, What::Dir) {
        return Ok(());
    }
    let path = path(alloc, row.0)?;
    Ok(folder.finish(alloc, &path, &dir())?)
}

fn make_rows(alloc: Global, folder: &mut MemoryFolder, rows: &[Row]) -> Result<(), Fail> {
    for row in rows {
        make_row(alloc, folder, row)?;
    }
    Ok(())
}

/// A folder without entries, of which this call fails.
pub(crate) fn failing(alloc: Global, call: u64) -> Result<MemoryFolder, Fail> {
    let mut fails = Vec::new(alloc);
    fails.push(call)?;
    Ok(MemoryFolder::new(alloc, fails))
}

/// A folder without entries, of which no call fails.
pub(crate) fn empty(alloc: Global) -> MemoryFolder {
    MemoryFolder::new(alloc, Vec::new(alloc))
}

/// Makes these entries in a folder.
pub(crate) fn fill(alloc: Global, folder: &mut MemoryFolder, rows: &[Row]) -> Result<(), Fail> {
    make_rows(alloc, folder, rows)?;
    for row in rows {
        finish_row(alloc, folder, row)?;
    }
    Ok(())
}

/// A folder of these entries.
pub(crate) fn folder(alloc: Global, rows: &[Row]) -> Result<MemoryFolder, Fail> {
    let mut folder = empty(alloc);
    fill(alloc, &mut folder, rows)?;
    Ok(folder)
}

/// It fails unless these entries lie in a folder.
pub(crate) fn expect_rows(alloc: Global, found: &MemoryFolder, rows: &[Row]) -> Result<(), Fail> {
    let wanted = folder(alloc, rows)?;
    expect(wanted.tree() == found.tree(), "another folder")
}
