ghost use Rattle.std.specs.Prelude.{IfOk};
ghost use Rattle.attr_tables.specs.Records.{IsSound};

use attr_records::{Attr, Dir, Link, LinkTarget, PathName};
use attr_tables::{Record, Row, StoredFile, Table};
use disk_trait::PoolId;
use merge_view::{children, lookup, reverse, stacked, trimmed, view, whole};
use std::alloc::Global;
use std::test::Fail;

// A record by one byte: `d`, `l`, `x` for a deletion mark, and any other for a File of that many bytes.
fn record_of(alloc: Global, kind: u8) -> Result<Record, Fail>
    ensures { IfOk result IsSound }
{
    let id = PoolId {
        digest: [kind; 16],
        extension: 0,
    };
    match kind {
        b'd' => Ok(Record::Dir(Dir {
            attr: Attr::dir_default(),
        })),
        b'l' => Ok(Record::Link(Link {
            attr: Attr::link_default(),
            target: LinkTarget::read(alloc, b"t")?,
        })),
        b'x' => Ok(Record::Deleted),
        _ => Ok(Record::File(StoredFile {
            attr: Attr::file_default(),
            group: u32::from(kind),
            size: u64::from(kind) + 1,
            content: Some(id),
        })),
    }
}

fn table_of(alloc: Global, rows: &[(&[u8], u8)]) -> Result<Table, Fail> {
    let mut table = Table::new(alloc);
    for (path, kind) in rows {
        let node = record_of(alloc, *kind)?;
        table.push(Row::new(PathName::read(alloc, path)?, node))?;
    }
    Ok(table)
}

fn has_rows(alloc: Global, table: &Table, wanted: &[(&[u8], u8)]) -> Result<bool, Fail> {
    if table.len() != wanted.len() {
        return Ok(false);
    }
    for (row, (path, kind)) in table.rows().iter().zip(wanted) {
        if row.path().as_slice() != *path || !row.node().is_same(&record_of(alloc, *kind)?) {
            return Ok(false);
        }
    }
    Ok(true)
}

#[test]
fn a_folder_goes_and_comes_back(rt: HostRuntime) -> Result<(), Fail> {
    let alloc = rt.alloc();
    let first = table_of(
        alloc,
        &[
            (b"d", b'd'),
            (b"d/x", b'1'),
            (b"d/y", b'2'),
            (b"d/z", b'3'),
            (b"k", b'4'),
        ],
    )?;
    let second = table_of(alloc, &[(b"k", b'4')])?;
    let third = table_of(alloc, &[(b"d", b'd'), (b"k", b'4')])?;
    let newer = reverse(alloc, &second, &third)?;
    assert!(rt; has_rows(alloc, &newer, &[(b"d", b'x')])?);
    let older = reverse(alloc, &first, &second)?;
    assert!(rt;
        has_rows(
            alloc,
            &older,
            &[(b"d", b'd'), (b"d/x", b'1'), (b"d/y", b'2'), (b"d/z", b'3')]
        )?
    );
    let kept = trimmed(alloc, &third, &stacked(alloc, &older, &newer)?)?;
    assert!(rt;
        has_rows(
            alloc,
            &kept,
            &[(b"d/x", b'1'), (b"d/y", b'2'), (b"d/z", b'3')]
        )?
    );
    let seen = view(alloc, &third, &kept)?;
    assert!(rt;
        has_rows(
            alloc,
            &seen,
            &[
                (b"d", b'd'),
                (b"d/x", b'1'),
                (b"d/y", b'2'),
                (b"d/z", b'3'),
                (b"k", b'4')
            ]
        )?
    );
    Ok(())
}

#[test]
fn three_kinds_at_one_path(rt: HostRuntime) -> Result<(), Fail> {
    let alloc = rt.alloc();
    let path = PathName::read(alloc, b"p")?;
    let file = table_of(alloc, &[(b"p", b'1')])?;
    let dir = table_of(alloc, &[(b"p", b'd')])?;
    let link = table_of(alloc, &[(b"p", b'l')])?;
    let older = reverse(alloc, &file, &dir)?;
    let newer = reverse(alloc, &dir, &link)?;
    let tables = [link, newer, older];
    for (count, kind) in [(1, b'l'), (2, b'd'), (3, b'1')] {
        let shown = &tables[..count];
        let tree = whole(alloc, shown)?;
        assert!(rt; has_rows(alloc, &tree, &[(b"p", kind)])?);
        let wanted = record_of(alloc, kind)?;
        assert!(rt; lookup(shown, &path).is_some_and(|found| found.is_same(&wanted)));
    }
    assert!(rt; lookup(&tables, &PathName::read(alloc, b"q")?).is_none());
    Ok(())
}

#[test]
fn siblings_whose_names_begin_alike(rt: HostRuntime) -> Result<(), Fail> {
    let alloc = rt.alloc();
    let tree = table_of(
        alloc,
        &[
            (b"a", b'd'),
            (b"a/b", b'd'),
            (b"a/b/c", b'1'),
            (b"a-b", b'2'),
            (b"a.b", b'3'),
        ],
    )?;
    let root = children(alloc, &tree, None)?;
    assert!(rt;
        has_rows(
            alloc,
            &root,
            &[(b"a", b'd'), (b"a-b", b'2'), (b"a.b", b'3')]
        )?
    );
    let below = children(alloc, &tree, Some(&PathName::read(alloc, b"a")?))?;
    assert!(rt; has_rows(alloc, &below, &[(b"a/b", b'd')])?);
    let none = children(alloc, &tree, Some(&PathName::read(alloc, b"a-b")?))?;
    assert!(rt; none.is_empty());
    Ok(())
}
