ghost use Rattle.std.specs.Prelude.{◌≡◌, IfOk, length};
ghost use Rattle.attr_tables.specs.Records.{IsSound};

use attr_records::{Attr, PathName};
use attr_tables::{Record, Row, StoredFile, Table};
use backup_delete::*;
use backup_rules::{Kind, Line};
use disk_trait::PoolId;
use merge_view::reverse;
use ref_counts::{add, number, recount, take};
use std::alloc::Global;
use std::test::Fail;

const A: PoolId = PoolId {
    digest: [0x0c; 16],
    extension: 0,
};

const B: PoolId = PoolId {
    digest: [0x92; 16],
    extension: 0,
};

const C: PoolId = PoolId {
    digest: [0x92; 16],
    extension: 1,
};

// What a table becomes: removed, empty, or `p` with a content.
#[derive(Clone, Copy)]
enum Becomes {
    Removed,
    Empty,
    File(PoolId),
}

fn file(content: PoolId) -> Record
    ensures { IsSound result }
{
    Record::File(StoredFile {
        attr: Attr::file_default(),
        group: 0,
        size: 1,
        content: Some(content),
    })
}

fn table(alloc: Global, content: Option<PoolId>) -> Result<Table, Fail> {
    let mut table = Table::new(alloc);
    if let Some(content) = content {
        table.push(Row::new(PathName::read(alloc, b"p")?, file(content)))?;
    }
    Ok(table)
}

fn line(number: u32, filled: bool) -> Line {
    Line {
        number,
        start: 1,
        end: 2,
        kind: Kind::Incr,
        filled,
        keep: false,
    }
}

fn has_become(change: &TableChange, wanted: Becomes) -> bool {
    match (change.table(), wanted) {
        (None, Becomes::Removed) => true,
        (Some(table), Becomes::Empty) => table.is_empty(),
        (Some(table), Becomes::File(content)) => {
            table.len() == 1 && stored_trees::count_occurrences(table.rows(), &content) == 1
        }
        _ => false,
    }
}

fn expect(folded: &Folded, lines: &[(u32, bool)], changes: &[(u32, Becomes)]) -> Result<(), Fail> {
    if folded.lines.len() != lines.len() || folded.tables.len() != changes.len() {
        return Err(Fail::new("other numbers of lines or tables"));
    }
    for (line, (number, filled)) in folded.lines.lines().iter().zip(lines.iter()) {
        if line.number != *number || line.filled != *filled {
            return Err(Fail::new("another line"));
        }
    }
    for (change, (number, wanted)) in folded.tables.as_slice().iter().zip(changes.iter()) {
        if change.number() != *number || !has_become(change, *wanted) {
            return Err(Fail::new("another table"));
        }
    }
    Ok(())
}

// The first backup is filled and has nothing; the others have `p` = `a`, `b`, `a`.
#[test]
fn the_middle_of_three_contents_is_deleted(rt: HostRuntime) -> Result<(), Fail> {
    let alloc = rt.alloc();
    let lines = [line(0, true), line(1, false), line(2, false), line(3, true)];
    let tables = [
        table(alloc, None)?,
        table(alloc, Some(A))?,
        table(alloc, Some(B))?,
        table(alloc, Some(A))?,
    ];
    let folded = fold(alloc, &lines, &tables, &[2])?;
    let left = [(0, true), (1, false), (3, true)];
    let changes = [(2, Becomes::Removed), (1, Becomes::Empty)];
    expect(&folded, &left, &changes)?;
    let before = recount(alloc, &tables)?;
    assert_eq!(rt; (number(&before, A), number(&before, B)), (2, 1));
    let after = take(alloc, &add(alloc, &before, &folded.added)?, &folded.taken)?;
    assert_eq!(rt; (number(&after, A), number(&after, B)), (1, 0));
    Ok(())
}

// `p` = `a`, `b`, `c`, of which the first and the last are filled.
#[test]
fn the_newest_of_three_contents_is_deleted(rt: HostRuntime) -> Result<(), Fail> {
    let alloc = rt.alloc();
    let lines = [line(0, true), line(1, false), line(2, true)];
    let tables = [
        table(alloc, Some(A))?,
        table(alloc, Some(B))?,
        table(alloc, Some(C))?,
    ];
    let folded = fold(alloc, &lines, &tables, &[2])?;
    let changes = [(2, Becomes::Removed), (1, Becomes::File(B))];
    expect(&folded, &[(0, true), (1, true)], &changes)?;
    let mut all = fold(alloc, &lines, &tables, &[0, 1, 2])?;
    let removed = [
        (2, Becomes::Removed),
        (1, Becomes::Removed),
        (0, Becomes::Removed),
    ];
    expect(&all, &[], &removed)?;
    let last = all.tables.pop().map(TableChange::into_parts);
    assert!(rt; matches!(last, Some((0, None))));
    Ok(())
}

// The content of each path in twenty backups, the oldest first: A, B, C or none.
const PATHS: [(&[u8], &[u8]); 5] = [
    (b"a", b"ABCABCABCAAAAAAAAAAB"),
    (b"b", b"AABBCC--AAAAAAACCCCC"),
    (b"c", b"-AAA-BBB-AAAA--AAAAA"),
    (b"d", b"--AAAAAAAAAAAAAAAAAA"),
    (b"e", b"BBBBBBBBBBBBBBBBBBB-"),
];

fn content(contents: &[u8], backup: u32) -> Option<PoolId> {
    match contents.get(backup as usize) {
        Some(b'A') => Some(A),
        Some(b'B') => Some(B),
        Some(b'C') => Some(C),
        _ => None,
    }
}

fn tree(alloc: Global, backup: u32) -> Result<Table, Fail> {
    let mut tree = Table::new(alloc);
    for (path, contents) in &PATHS {
        if let Some(content) = content(contents, backup) {
            tree.push(Row::new(PathName::read(alloc, path)?, file(content)))?;
        }
    }
    Ok(tree)
}

// What the backups of these numbers are stored as, by the definition: the tree of one that is filled, and what another
// has otherwise than the next newer one.
fn stored(alloc: Global, numbers: &[u32], filled: &[u32]) -> Result<Vec<Table>, Fail> {
    let mut tables = Vec::new(alloc);
    for (i, number) in numbers.iter().enumerate() {
        let own = tree(alloc, *number)?;
        match numbers.get(i + 1) {
            Some(next) if !filled.contains(number) => {
                tables.push(reverse(alloc, &own, &tree(alloc, *next)?)?)?;
            }
            _ => tables.push(own)?,
        }
    }
    Ok(tables)
}

fn is_same(left: &Table, right: &Table) -> bool {
    for (a, b) in left.rows().iter().zip(right.rows().iter()) {
        if a.path() != b.path() || !a.node().is_same(b.node()) {
            return false;
        }
    }
    left.len() == right.len()
}

// The table of a number that had this one before.
fn table_after<'a>(folded: &'a Folded, number: u32, before: &'a Table) -> Option<&'a Table> {
    for change in folded.tables.as_slice() {
        if change.number() == number {
            return change.table();
        }
    }
    Some(before)
}

// Of the first backups, which are filled, which are deleted, and which stay.
struct Deleted {
    filled: &'static [u32],
    gone: &'static [u32],
    left: &'static [u32],
}

const ALL: [u32; 10] = [0, 1, 2, 3, 4, 5, 6, 7, 8, 9];

// Two runs; one backup, whose entries are looked for up to the newest; the newest goes, too; a filled one within a run,
// and filled ones beside runs.
const DELETED: [Deleted; 5] = [
    Deleted {
        filled: &[9],
        gone: &[1, 2, 5, 6, 7],
        left: &[0, 3, 4, 8, 9],
    },
    Deleted {
        filled: &[9],
        gone: &[1],
        left: &[0, 2, 3, 4, 5, 6, 7, 8, 9],
    },
    Deleted {
        filled: &[9],
        gone: &[7, 2, 9, 8, 1],
        left: &[0, 3, 4, 5, 6],
    },
    Deleted {
        filled: &[0, 6, 9],
        gone: &[1, 2, 5, 6, 7],
        left: &[0, 3, 4, 8, 9],
    },
    Deleted {
        filled: &[3, 5, 8, 9],
        gone: &[2, 3, 5, 6, 8, 9],
        left: &[0, 1, 4, 7],
    },
];

fn all_lines(alloc: Global, all: &[u32], filled: &[u32]) -> Result<Vec<Line>, Fail> {
    let mut lines = Vec::new(alloc);
    for number in all {
        lines.push(line(*number, filled.contains(number)))?;
    }
    Ok(lines)
}

fn expect_lines(folded: &Folded, case: &Deleted) -> Result<(), Fail> {
    if folded.lines.len() != case.left.len() {
        return Err(Fail::new("another number of lines"));
    }
    for (line, number) in folded.lines.lines().iter().zip(case.left.iter()) {
        let filled = case.filled.contains(number) || case.left.last() == Some(number);
        if line.number != *number || line.filled != filled {
            return Err(Fail::new("another line"));
        }
    }
    Ok(())
}

fn expect_tables(
    folded: &Folded,
    case: &Deleted,
    before: &[Table],
    wanted: &[Table],
) -> Result<(), Fail> {
    for (number, wanted) in case.left.iter().zip(wanted.iter()) {
        let table = match before.get(*number as usize) {
            Some(table) => table_after(folded, *number, table),
            None => None,
        };
        match table {
            Some(table) if is_same(table, wanted) => {}
            _ => return Err(Fail::new("another table")),
        }
    }
    Ok(())
}

fn expect_counts(
    alloc: Global,
    folded: &Folded,
    before: &[Table],
    wanted: &[Table],
) -> Result<(), Fail> {
    let counts = recount(alloc, before)?;
    let counts = take(alloc, &add(alloc, &counts, &folded.added)?, &folded.taken)?;
    let wanted = recount(alloc, wanted)?;
    for id in [A, B, C] {
        if number(&counts, id) != number(&wanted, id) {
            return Err(Fail::new("another count"));
        }
    }
    Ok(())
}

fn expect_stored(alloc: Global, all: &[u32], case: &Deleted) -> Result<(), Fail> {
    let lines = all_lines(alloc, all, case.filled)?;
    let tables = stored(alloc, all, case.filled)?;
    let wanted = stored(alloc, case.left, case.filled)?;
    if tables.len() != lines.len() || wanted.len() != case.left.len() {
        return Err(Fail::new("another number of tables"));
    }
    let folded = fold(alloc, lines.as_slice(), tables.as_slice(), case.gone)?;
    expect_lines(&folded, case)?;
    expect_tables(&folded, case, tables.as_slice(), wanted.as_slice())?;
    expect_counts(alloc, &folded, tables.as_slice(), wanted.as_slice())
}

#[test]
fn what_is_left_is_stored_by_the_definition(rt: HostRuntime) -> Result<(), Fail> {
    for case in &DELETED {
        expect_stored(rt.alloc(), &ALL, case)?;
    }
    Ok(())
}

const MANY: [u32; 20] = [
    0, 1, 2, 3, 4, 5, 6, 7, 8, 9, 10, 11, 12, 13, 14, 15, 16, 17, 18, 19,
];

// Nine runs of one backup each; the filled one in the middle stays, or is one of them.
const MANY_DELETED: [Deleted; 2] = [
    Deleted {
        filled: &[10, 19],
        gone: &[1, 3, 5, 7, 9, 11, 13, 15, 17],
        left: &[0, 2, 4, 6, 8, 10, 12, 14, 16, 18, 19],
    },
    Deleted {
        filled: &[9, 19],
        gone: &[1, 3, 5, 7, 9, 11, 13, 15, 17],
        left: &[0, 2, 4, 6, 8, 10, 12, 14, 16, 18, 19],
    },
];

#[test]
fn many_runs_are_deleted(rt: HostRuntime) -> Result<(), Fail> {
    for case in &MANY_DELETED {
        expect_stored(rt.alloc(), &MANY, case)?;
    }
    Ok(())
}

// `p` = `a`, `b`, `c`, `a`, where the third is filled or not: two neighbours are deleted.
#[test]
fn a_run_of_backups_is_deleted(rt: HostRuntime) -> Result<(), Fail> {
    let alloc = rt.alloc();
    for filled in [false, true] {
        let lines = [
            line(0, false),
            line(1, false),
            line(2, filled),
            line(3, true),
        ];
        let tables = [
            table(alloc, Some(A))?,
            table(alloc, Some(B))?,
            table(alloc, Some(C))?,
            table(alloc, Some(A))?,
        ];
        let folded = fold(alloc, &lines, &tables, &[1, 2])?;
        let changes = [
            (2, Becomes::Removed),
            (1, Becomes::Removed),
            (0, Becomes::Empty),
        ];
        expect(&folded, &[(0, false), (3, true)], &changes)?;
    }
    Ok(())
}
