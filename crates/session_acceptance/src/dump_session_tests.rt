ghost use Rattle.std.specs.Prelude.{◌≡◌, false, IfOk};
ghost use Rattle.attr_tables.specs.Records.{IsSound};
ghost use Rattle.merge_view.specs.Views.{is_mark};

use attr_records::{Attr, Dir, Link, LinkTarget, PathName, PutRule};
use attr_tables::{Record, Row, StoredFile, Table};
use disk_trait::PoolId;
use dump_session::{NodeKind, PutFault, RemoveFault, Session};
use merge_view::{children, reverse};
use std::alloc::Global;
use std::sync::Arc;
use std::test::Fail;

// What a call answers.
#[derive(Clone, Copy, PartialEq, Eq)]
enum Answer {
    Done,
    Broken(PutRule),
    NoPath,
    Memory,
}

// A call on an open dump at a path: `r` removes it, and any other byte puts the node of that byte. Then its
// answer, and how many paths the tree has after it.
struct Step(&'static [u8], u8, Answer, usize);

// A path and the byte of what is there, `x` for a deletion mark.
type Shown = (&'static [u8], u8);

const D_AND_K: [Step; 5] = [
    Step(b"d", b'd', Answer::Done, 1),
    Step(b"k", b'4', Answer::Done, 2),
    Step(b"d/x", b'1', Answer::Done, 3),
    Step(b"d/z", b'3', Answer::Done, 4),
    Step(b"d/y", b'2', Answer::Done, 5),
];

const D_GOES: [Step; 2] = [
    Step(b"d", b'r', Answer::Done, 1),
    Step(b"d/x", b'r', Answer::NoPath, 1),
];

const D_COMES: [Step; 1] = [Step(b"d", b'd', Answer::Done, 2)];

const P_OF_THREE_KINDS: [Step; 6] = [
    Step(b"p", b'1', Answer::Done, 1),
    Step(b"p/q", b'1', Answer::Broken(PutRule::NoParent), 1),
    Step(b"p", b'd', Answer::Done, 1),
    Step(b"p", b'l', Answer::Broken(PutRule::IsDirectory), 1),
    Step(b"p", b'd', Answer::Done, 1),
    Step(b"p/q", b'2', Answer::Done, 2),
];

const P_GOES_AND_COMES: [Step; 4] = [
    Step(b"p/r", b'3', Answer::Done, 3),
    Step(b"p", b'r', Answer::Done, 0),
    Step(b"p/q", b'2', Answer::Broken(PutRule::NoParent), 0),
    Step(b"p", b'l', Answer::Done, 1),
];

const SIBLINGS: [Step; 4] = [
    Step(b"a.b", b'3', Answer::Done, 1),
    Step(b"a", b'd', Answer::Done, 2),
    Step(b"a-b", b'2', Answer::Done, 3),
    Step(b"a/b", b'1', Answer::Done, 4),
];

const A_GOES: [Step; 1] = [Step(b"a", b'r', Answer::Done, 2)];

const D_FULL: [Shown; 4] = [(b"d", b'd'), (b"d/x", b'1'), (b"d/y", b'2'), (b"d/z", b'3')];

const D_FULL_AND_K: [Shown; 5] = [
    (b"d", b'd'),
    (b"d/x", b'1'),
    (b"d/y", b'2'),
    (b"d/z", b'3'),
    (b"k", b'4'),
];

const A_AND_SIBLINGS: [Shown; 4] = [(b"a", b'd'), (b"a/b", b'1'), (b"a-b", b'2'), (b"a.b", b'3')];

const IN_THE_ROOT: [Shown; 3] = [(b"a", b'd'), (b"a-b", b'2'), (b"a.b", b'3')];

const A_IS_GONE: [Shown; 2] = [(b"a-b", b'2'), (b"a.b", b'3')];

fn kind_of(kind: u8) -> NodeKind {
    match kind {
        b'd' => NodeKind::Dir,
        b'l' => NodeKind::Link,
        _ => NodeKind::File,
    }
}

// What may be put, by one byte: `d`, `l`, and any other for a File of that many bytes.
fn node_of(alloc: Global, kind: u8) -> Result<Record, Fail>
    ensures sound { IfOk result IsSound }
    ensures no_mark { IfOk result (λ node. is_mark node ≡ false) }
{
    match kind {
        b'd' => Ok(Record::Dir(Dir {
            attr: Attr::dir_default(),
        })),
        b'l' => Ok(Record::Link(Link {
            attr: Attr::link_default(),
            target: LinkTarget::read(alloc, b"t")?,
        })),
        _ => Ok(Record::File(StoredFile {
            attr: Attr::file_default(),
            group: 0,
            size: u64::from(kind) + 1,
            content: Some(PoolId {
                digest: [kind; 16],
                extension: 0,
            }),
        })),
    }
}

fn put(session: &mut Session, path: PathName, node: Record) -> Answer
    requires sound { IsSound node }
    requires no_mark { is_mark node ≡ false }
{
    match session.put(path, node) {
        Ok(()) => Answer::Done,
        Err(PutFault::Broken(rule)) => Answer::Broken(rule),
        Err(PutFault::Memory) => Answer::Memory,
    }
}

fn remove(alloc: Global, session: &mut Session, path: &PathName) -> Answer {
    match session.remove(alloc, path) {
        Ok(()) => Answer::Done,
        Err(RemoveFault::NoPath) => Answer::NoPath,
        Err(RemoveFault::Memory) => Answer::Memory,
    }
}

fn check(session: &Session, path: &PathName, kind: u8) -> Answer {
    match session.check_put(path, kind_of(kind)) {
        Ok(()) => Answer::Done,
        Err(rule) => Answer::Broken(rule),
    }
}

fn has_len(session: &Session, len: usize) -> bool {
    session.len() == len && session.is_empty() == (len == 0)
}

// Makes a call, and whether it answers so. What puts is asked of `check_put` before.
fn answers(alloc: Global, session: &mut Session, step: &Step) -> Result<bool, Fail> {
    let Step(path, kind, answer, len) = step;
    let path = PathName::read(alloc, path)?;
    if *kind == b'r' {
        return Ok(remove(alloc, session, &path) == *answer && has_len(session, *len));
    }
    let node = node_of(alloc, *kind)?;
    let checked = check(session, &path, *kind);
    Ok(checked == *answer && put(session, path, node) == *answer && has_len(session, *len))
}

// Whether something is the record of a byte.
fn is_shown(alloc: Global, node: &Record, kind: u8) -> Result<bool, Fail> {
    if kind == b'x' {
        return Ok(node.is_mark());
    }
    Ok(node.is_same(&node_of(alloc, kind)?))
}

// A table has these paths, each with the record of its byte.
fn expect_rows(alloc: Global, table: &Table, wanted: &[Shown]) -> Result<(), Fail> {
    if table.len() != wanted.len() {
        return Err(Fail::new("another number of rows"));
    }
    for (row, (path, kind)) in table.rows().iter().zip(wanted) {
        if row.path().as_slice() != *path || !is_shown(alloc, row.node(), *kind)? {
            return Err(Fail::new("another row"));
        }
    }
    Ok(())
}

// Makes the calls of a script, which answer as it says, and gives the tree, which has these paths.
fn expect_tree(
    alloc: Global,
    session: &mut Session,
    steps: &[Step],
    wanted: &[Shown],
) -> Result<Arc<Table>, Fail> {
    for step in steps {
        if !answers(alloc, session, step)? {
            return Err(Fail::new("another answer"));
        }
    }
    let tree = session.tree(alloc)?;
    expect_rows(alloc, &tree, wanted)?;
    Ok(Arc::new(alloc, tree)?)
}

#[test]
fn a_folder_goes_and_comes_back(rt: HostRuntime) -> Result<(), Fail> {
    let alloc = rt.alloc();
    let mut first = Session::begin_full(alloc)?;
    let oldest = expect_tree(alloc, &mut first, &D_AND_K, &D_FULL_AND_K)?;
    let mut second = Session::begin_incr(alloc, Arc::try_clone(&oldest)?);
    let middle = expect_tree(alloc, &mut second, &D_GOES, &[(b"k", b'4')])?;
    let mut third = Session::begin_incr(alloc, Arc::try_clone(&middle)?);
    let newest = expect_tree(alloc, &mut third, &D_COMES, &[(b"d", b'd'), (b"k", b'4')])?;
    let newer = reverse(alloc, &middle, &newest)?;
    expect_rows(alloc, &newer, &[(b"d", b'x')])?;
    let older = reverse(alloc, &oldest, &middle)?;
    expect_rows(alloc, &older, &D_FULL)
}

#[test]
fn kinds_at_one_path(rt: HostRuntime) -> Result<(), Fail> {
    let alloc = rt.alloc();
    let mut session = Session::begin_full(alloc)?;
    let tree = expect_tree(
        alloc,
        &mut session,
        &P_OF_THREE_KINDS,
        &[(b"p", b'd'), (b"p/q", b'2')],
    )?;
    let mut next = Session::begin_incr(alloc, tree);
    let _ = expect_tree(alloc, &mut next, &P_GOES_AND_COMES, &[(b"p", b'l')])?;
    Ok(())
}

#[test]
fn siblings_whose_names_begin_alike(rt: HostRuntime) -> Result<(), Fail> {
    let alloc = rt.alloc();
    let mut session = Session::begin_full(alloc)?;
    let tree = expect_tree(alloc, &mut session, &SIBLINGS, &A_AND_SIBLINGS)?;
    let root = children(alloc, &tree, None)?;
    expect_rows(alloc, &root, &IN_THE_ROOT)?;
    let mut next = Session::begin_incr(alloc, tree);
    let _ = expect_tree(alloc, &mut next, &A_GOES, &A_IS_GONE)?;
    let _ = expect_tree(alloc, &mut session, &A_GOES, &A_IS_GONE)?;
    Ok(())
}

const OVER_ANY_ROWS: [Step; 3] = [
    Step(b"b/d", b'd', Answer::Broken(PutRule::NoParent), 2),
    Step(b"b", b'd', Answer::Done, 3),
    Step(b"k", b'r', Answer::NoPath, 3),
];

#[test]
fn a_base_that_is_no_tree_stays_as_it_is(rt: HostRuntime) -> Result<(), Fail> {
    let alloc = rt.alloc();
    let mut base = Table::new(alloc);
    base.push(Row::new(PathName::read(alloc, b"a")?, Record::Deleted))?;
    let orphan = node_of(alloc, b'1')?;
    base.push(Row::new(PathName::read(alloc, b"b/c")?, orphan))?;
    let mut session = Session::begin_incr(alloc, Arc::new(alloc, base)?);
    let wanted: [Shown; 3] = [(b"a", b'x'), (b"b", b'd'), (b"b/c", b'1')];
    let _ = expect_tree(alloc, &mut session, &OVER_ANY_ROWS, &wanted)?;
    Ok(())
}
