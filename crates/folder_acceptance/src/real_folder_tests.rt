//! A real folder: what is made is listed and read as it was.

ghost use Rattle.std.specs.Prelude.{◌≤◌};

use attr_records::{Attr, Dir, File, Item, Link, LinkTarget, PathName};
use disk_trait::Bytes;
use folder_trait::{Folder, FolderFault, FoundNode, Progress};
use real_folder::{ProgressLine, RealFolder};
use std::alloc::{AllocError, Global};
use std::os::unix::fs::symlink;
use std::test::Fail;
use std::{fs, io};

/// The name of a folder beside nobody else's, in which nothing is.
pub(crate) fn free_name(rt: &HostRuntime, end: &str) -> io::Result<String> {
    let name = format!(in rt.alloc(); "/tmp/real_folder-{}-{end}", libc::getpid())?;
    let _ = fs::remove_dir_all(rt, name.as_str());
    Ok(name)
}

/// Attributes that the user may give.
pub(crate) fn ours(mode: u16, seconds: i64, nanos: u32) -> Attr
    requires bits { mode ≤ 4095 }
    requires second { nanos ≤ 999999999 }
{
    Attr::new(mode, libc::getuid(), libc::getgid(), seconds, nanos)
}

pub(crate) fn file(alloc: Global, attr: Attr, bytes: &[u8]) -> Result<Item, AllocError> {
    let bytes = Bytes::from_slice(alloc, bytes)?;
    Ok(Item::File(File {
        attr,
        group: 0,
        bytes,
    }))
}

#[test]
fn what_is_made_is_listed_and_read(rt: HostRuntime) -> Result<(), Fail> {
    let alloc = rt.alloc();
    let name = free_name(&rt, "made")?;
    let mut folder = RealFolder::open_or_make(rt, name.as_str())?;
    assert!(rt; folder.is_empty(alloc)?);
    let attr = ours(0o4640, -12, 345_678_901);
    let top = PathName::read(alloc, b"a")?;
    let text = PathName::read(alloc, "a/\u{e4} \\n\n".as_bytes())?;
    let further = PathName::read(alloc, b"a/b")?;
    let dir = Dir {
        attr: ours(0o2751, 1_000_000_000, 1),
    };
    folder.make(alloc, &top, &Item::Dir(dir))?;
    folder.make(alloc, &text, &file(alloc, attr, b"some bytes")?)?;
    folder.link(alloc, &further, &text)?;
    let target = LinkTarget::read(alloc, b"../nowhere")?;
    let link = ours(0o777, 0, 0);
    folder.make(
        alloc,
        &PathName::read(alloc, b"a/c")?,
        &Item::Link(Link { attr: link, target }),
    )?;
    folder.finish(alloc, &top, &dir)?;
    assert!(rt; !folder.is_empty(alloc)?);

    let found = folder.list(alloc, None)?;
    assert_eq!(rt; found.len(), 1);
    assert!(rt; matches!(&found[0].node, FoundNode::Dir(there) if *there == dir));
    let found = folder.list(alloc, Some(&top))?;
    assert_eq!(rt; found.len(), 3);
    assert_eq!(rt; found[0].name.as_slice(), b"b".as_slice());
    assert_eq!(rt; found[2].name.as_slice(), "\u{e4} \\n\n".as_bytes());
    for one in [&found[0], &found[2]] {
        assert!(rt;
            matches!(&one.node, FoundNode::File(there) if there.attr == attr && there.group == 1 && there.size == 10)
        );
    }
    assert!(rt;
        matches!(&found[1].node, FoundNode::Link(there) if there.target.as_slice() == b"../nowhere".as_slice())
    );
    let bytes = folder.read(alloc, &further)?.ok_or("gone")?;
    assert_eq!(rt; bytes.as_slice(), b"some bytes".as_slice());
    assert_eq!(rt; folder.faults(), 0);
    fs::remove_dir_all(&rt, name.as_str())?;
    Ok(())
}

/// Makes a folder outside with a file, and links to both of them in the folder of this name. Gives the file's path.
fn lead_outside(rt: &HostRuntime, name: &str, outside: &str) -> Result<String, Fail> {
    let alloc = rt.alloc();
    fs::create_dir(rt, outside)?;
    let kept = format!(in alloc; "{outside}/kept")?;
    fs::write(rt, kept.as_str(), "kept")?;
    symlink(rt, outside, format!(in alloc; "{name}/out")?)?;
    symlink(rt, kept.as_str(), format!(in alloc; "{name}/kept")?)?;
    Ok(kept)
}

/// Fails where a file or a directory is made at a path, or is given attributes there.
fn expect_refused(alloc: Global, folder: &mut RealFolder, path: &[u8]) -> Result<(), Fail> {
    let path = PathName::read(alloc, path)?;
    let item = file(alloc, ours(0o600, 0, 0), b"changed")?;
    let dir = Dir {
        attr: ours(0o700, 0, 0),
    };
    if folder.make(alloc, &path, &item).err() != Some(FolderFault::Failed) {
        return Err(Fail::new("a file was made"));
    }
    if folder.make(alloc, &path, &Item::Dir(dir)).err() != Some(FolderFault::Failed) {
        return Err(Fail::new("a directory was made"));
    }
    if folder.finish(alloc, &path, &dir).err() != Some(FolderFault::Failed) {
        return Err(Fail::new("it was given attributes"));
    }
    Ok(())
}

#[test]
fn no_path_leads_through_a_link_and_nothing_is_written_over(rt: HostRuntime) -> Result<(), Fail> {
    let alloc = rt.alloc();
    let name = free_name(&rt, "links")?;
    let outside = free_name(&rt, "outside")?;
    let mut folder = RealFolder::open_or_make(rt, name.as_str())?;
    let kept = lead_outside(&rt, name.as_str(), outside.as_str())?;
    expect_refused(alloc, &mut folder, b"out/kept")?;
    expect_refused(alloc, &mut folder, b"kept")?;
    expect_refused(alloc, &mut folder, b"out")?;
    let taken = PathName::read(alloc, b"kept")?;
    let more = PathName::read(alloc, b"more")?;
    assert_eq!(rt; folder.read(alloc, &taken).err(), Some(FolderFault::Failed));
    assert_eq!(rt;
        folder.link(alloc, &more, &taken).err(),
        Some(FolderFault::Failed)
    );
    assert_eq!(rt; folder.faults(), 11);
    assert_eq!(rt; fs::read_to_string(&rt, kept.as_str())?.as_str(), "kept");
    fs::remove_dir_all(&rt, name.as_str())?;
    fs::remove_dir_all(&rt, outside.as_str())?;
    Ok(())
}

#[test]
fn what_has_gone_is_no_fault(rt: HostRuntime) -> Result<(), Fail> {
    let alloc = rt.alloc();
    let name = free_name(&rt, "gone")?;
    let mut folder = RealFolder::open_or_make(rt, name.as_str())?;
    let path = PathName::read(alloc, b"gone/file")?;
    let mut line = ProgressLine::new(rt);
    line.went_on(1, 2);
    line.passed_over(&path);
    line.finish();
    assert!(rt; folder.read(alloc, &path)?.is_none());
    assert!(rt; folder.list(alloc, Some(&path))?.is_empty());
    assert_eq!(rt; folder.faults(), 0);
    fs::remove_dir_all(&rt, name.as_str())?;
    Ok(())
}

/// So many bytes of a file from a place.
fn piece(
    alloc: Global,
    folder: &mut RealFolder,
    path: &PathName,
    from: u64,
    room: usize,
) -> Result<Option<Bytes>, Fail> {
    Ok(folder.read_at(alloc, path, from, room)?)
}

/// It fails unless so many bytes of a file from a place are these.
fn expect_piece(
    alloc: Global,
    folder: &mut RealFolder,
    path: &PathName,
    from: u64,
    room: usize,
    wanted: &[u8],
) -> Result<(), Fail> {
    let found = piece(alloc, folder, path, from, room)?.ok_or("gone")?;
    if found.as_slice() == wanted {
        return Ok(());
    }
    Err(Fail::new("another piece"))
}

#[test]
fn pieces_are_of_one_file(rt: HostRuntime) -> Result<(), Fail> {
    let alloc = rt.alloc();
    let name = free_name(&rt, "pieces")?;
    let mut folder = RealFolder::open_or_make(rt, name.as_str())?;
    let path = PathName::read(alloc, b"a")?;
    let other = PathName::read(alloc, b"b")?;
    let attr = ours(0o600, 0, 0);
    folder.make(alloc, &path, &file(alloc, attr, b"first file")?)?;
    folder.make(alloc, &other, &file(alloc, attr, b"second")?)?;
    expect_piece(alloc, &mut folder, &path, 0, 6, b"first ")?;
    fs::rename(
        &rt,
        format!(in alloc; "{name}/b")?,
        format!(in alloc; "{name}/a")?,
    )?;
    expect_piece(alloc, &mut folder, &path, 6, 6, b"file")?;
    expect_piece(alloc, &mut folder, &path, 0, 99, b"second")?;
    assert!(rt; piece(alloc, &mut folder, &other, 0, 99)?.is_none());
    assert_eq!(rt; folder.faults(), 0);
    fs::remove_dir_all(&rt, name.as_str())?;
    Ok(())
}
