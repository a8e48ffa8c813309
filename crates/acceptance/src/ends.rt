//! A run of the program over ends in memory.

use admin_cli::{Done, run};
use caller_doors::ListDoor;
use command_line::Parsed;
use disk_trait::{Disk, DiskRoom, FileId, MemoryDisk};
use folder_trait::{MemoryFolder, NoProgress};
use pool_name::Md5Namer;
use std::alloc::{AllocError, AllocGlobal, Global};
use std::sync::Wait;
use std::test::Fail;
use std::thread::Threads;
use stream_traits::{FixedClock, MemoryLink, Moment, OpenGate};

/// The allocator, the threads and the waiting that a run takes.
pub trait Machine: AllocGlobal + Threads + Wait + Sync {}

impl<R: AllocGlobal + Threads + Wait + Sync> Machine for R {}

/// How a run over ends in memory ended, which has no workers.
pub type Ran = Done<MemoryDisk, MemoryLink, ListDoor, FixedClock, OpenGate>;

/// What a run is made of.
#[derive(Clone, Copy)]
pub struct Case<'a> {
    /// The words of the command line, with one space between two.
    pub line: &'a str,
    /// The text of the settings file.
    pub settings: &'a str,
    /// The input, in pieces.
    pub input: &'a [&'a str],
    /// The number of the disk's call that fails.
    pub disk_fails: u64,
    pub disk_room: DiskRoom,
    /// The number of the link's call that fails.
    pub link_fails: u64,
    pub link_room: usize,
}

/// The command `pipe` without input, with ample room and no call that fails.
pub const QUIET: Case<'static> = Case {
    line: "backup_server pipe --store store",
    settings: "",
    input: &[],
    disk_fails: u64::MAX,
    disk_room: DiskRoom {
        changes: 2_000,
        bytes: 2_000_000,
    },
    link_fails: u64::MAX,
    link_room: 65_536,
};

/// How a run ended: its status, what it says on standard error, and its output, in pieces.
#[derive(Clone, Copy)]
pub struct Want<'a> {
    pub status: u8,
    pub said: &'a str,
    pub output: &'a [&'a str],
}

/// The words of a command line.
pub fn words_of(alloc: Global, line: &str) -> Result<Vec<String>, AllocError> {
    let mut words = Vec::new(alloc);
    for word in line.split(' ') {
        words.push(String::from_str(alloc, word)?)?;
    }
    Ok(words)
}

/// The bytes of pieces, one after the other.
fn joined(alloc: Global, pieces: &[&str]) -> Result<Vec<u8>, AllocError> {
    let mut bytes = Vec::new(alloc);
    for piece in pieces {
        bytes.extend_from_slice(piece.as_bytes())?;
    }
    Ok(bytes)
}

/// The disk of a case, which has no files.
pub fn disk_of(alloc: Global, case: &Case<'_>) -> Result<MemoryDisk, AllocError> {
    let fails = Vec::from_array(alloc, [case.disk_fails])?;
    MemoryDisk::new(alloc, fails, case.disk_room)
}

/// The link of a case.
pub fn link_of(alloc: Global, case: &Case<'_>) -> Result<MemoryLink, AllocError> {
    let fails = Vec::from_array(alloc, [case.link_fails])?;
    let input = joined(alloc, case.input)?;
    MemoryLink::new(alloc, input, case.link_room, fails)
}

/// A clock that stands at 1,700,000,000.
pub fn new_clock() -> FixedClock {
    FixedClock::new(Moment::new(1_700_000_000).unwrap_or(Moment::first()))
}

/// Runs a case over this disk, without workers.
pub fn run_over(rt: &impl Machine, case: &Case<'_>, disk: MemoryDisk) -> Result<Ran, AllocError> {
    let alloc = rt.alloc();
    let words = words_of(alloc, case.line)?;
    let link = link_of(alloc, case)?;
    let mut clock = new_clock();
    let mut folder = MemoryFolder::new(alloc, Vec::new(alloc));
    Ok(run(
        rt,
        alloc,
        &Parsed::read(alloc, words.as_slice()),
        case.settings.as_bytes(),
        disk,
        Md5Namer,
        &mut clock,
        link,
        Vec::new(alloc),
        &mut folder,
        &mut NoProgress,
    ))
}

/// Whether a run ended as it was to.
fn is_wanted(alloc: Global, done: &Ran, want: &Want<'_>) -> Result<bool, AllocError> {
    let note = &done.note;
    let said = format!(in alloc; "{note}")?;
    let wanted = joined(alloc, want.output)?;
    let output = done.link.output();
    Ok(note.status() == want.status && said.as_str() == want.said && output == wanted.as_slice())
}

/// Fails where a run didn't end as it was to.
pub fn expect_end(alloc: Global, done: &Ran, want: &Want<'_>) -> Result<(), Fail> {
    if is_wanted(alloc, done, want) == Ok(true) {
        return Ok(());
    }
    let note = &done.note;
    let status = note.status();
    let output = String::from_utf8_lossy(alloc, done.link.output())?;
    Err(Fail::new(format_args!("status {status}, {note:?}, {output:?}")))
}

/// Runs a case over this disk, fails where it doesn't end so, and gives the disk back.
pub fn expect_run_over(
    rt: &impl Machine,
    case: &Case<'_>,
    disk: MemoryDisk,
    want: &Want<'_>,
) -> Result<MemoryDisk, Fail> {
    let done = run_over(rt, case, disk)?;
    expect_end(rt.alloc(), &done, want)?;
    Ok(done.disk)
}

/// Runs a case, fails where it doesn't end so, and gives the disk back.
pub fn expect_run(rt: &impl Machine, case: &Case<'_>, want: &Want<'_>) -> Result<MemoryDisk, Fail> {
    let disk = disk_of(rt.alloc(), case)?;
    expect_run_over(rt, case, disk, want)
}

/// Fails where a file of the disk doesn't hold these bytes, or isn't absent where there are none.
pub fn expect_file(
    alloc: Global,
    disk: &mut MemoryDisk,
    file: FileId,
    want: Option<&[u8]>,
) -> Result<(), Fail> {
    let found = disk.read(alloc, file);
    let is_same = match (&found, want) {
        (Ok(Some(bytes)), Some(want)) => bytes.as_slice() == want,
        (Ok(None), None) => true,
        _ => false,
    };
    if is_same {
        return Ok(());
    }
    Err(Fail::new(format_args!("{file} is {found:?}")))
}
