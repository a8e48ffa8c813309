//! A run of the program over a disk, a link and doors in memory.

use admin_cli::{Done, Worker, run};
use caller_doors::ListDoor;
use command_line::Parsed;
use disk_trait::{Disk, DiskRoom, FileId, MemoryDisk};
use folder_trait::{MemoryFolder, NoProgress};
use pool_name::Md5Namer;
use std::alloc::{AllocError, AllocGlobal, Global};
use std::collections::VecDeque;
use std::sync::Wait;
use std::test::Fail;
use std::thread::Threads;
use stream_traits::{FixedClock, Gate, MemoryLink, Moment, OpenGate};

/// The allocator, the threads and the waiting that a run takes.
pub trait Machine: AllocGlobal + Threads + Wait + Sync {}

impl<R: AllocGlobal + Threads + Wait + Sync> Machine for R {}

/// A worker at a door in memory.
pub type ListWorker<G> = Worker<ListDoor, FixedClock, G>;

/// How a run ended.
pub type Ran<G> = Done<MemoryDisk, MemoryLink, ListDoor, FixedClock, G>;

/// A run: the words of its line, with one space between two, the text of its settings file, and the input of its own link.
#[derive(Clone, Copy)]
pub struct Case<'a> {
    pub line: &'a str,
    pub settings: &'a str,
    pub input: &'a str,
}

/// The command `pipe`, without input.
pub const PIPE: Case<'static> = Case {
    line: "backup_server pipe --store store",
    settings: "",
    input: "",
};

/// The words of the command `serve`.
pub const SERVE_LINE: &str = "backup_server serve --listen 127.0.0.1:8080 --store store";

/// The command `serve`.
pub const SERVE: Case<'static> = Case {
    line: SERVE_LINE,
    settings: "",
    input: "",
};

/// The number of no call, and of no request.
pub const NEVER: u64 = u64::MAX;

/// The turns for which a gate waits at most.
pub const TURNS: u64 = 1_000_000_000;

/// A link that comes at a door: its input in pieces, the number of its call that fails, and the room for its output.
#[derive(Clone, Copy)]
pub struct Coming<'a> {
    pub input: &'a [&'a str],
    pub fails: u64,
    pub room: usize,
}

/// Ample room for an output.
pub const ROOM: usize = 65_536;

/// A link without input, with ample room and no call that fails.
pub const QUIET: Coming<'static> = Coming {
    input: &[],
    fails: NEVER,
    room: ROOM,
};

/// How a run ended: its status, what it says on standard error, and the output of its own link.
#[derive(Clone, Copy)]
pub struct Want<'a> {
    pub status: u8,
    pub said: &'a str,
    pub output: &'a str,
}

/// How a run ends in which no door failed and the store isn't halted.
pub const SERVED: Want<'static> = Want {
    status: 0,
    said: "",
    output: "",
};

/// A disk without files, with ample room, of which this call fails.
pub fn new_disk(alloc: Global, fails: u64) -> Result<MemoryDisk, AllocError> {
    let room = DiskRoom {
        changes: 2_000,
        bytes: 2_000_000,
    };
    MemoryDisk::new(alloc, Vec::from_array(alloc, [fails])?, room)
}

/// The words of a command line.
fn words_of(alloc: Global, line: &str) -> Result<Vec<String>, AllocError> {
    let mut words = Vec::new(alloc);
    for word in line.split(' ') {
        words.push(String::from_str(alloc, word)?)?;
    }
    Ok(words)
}

/// The bytes of pieces, one after the other.
pub fn joined(alloc: Global, pieces: &[&str]) -> Result<Vec<u8>, AllocError> {
    let mut bytes = Vec::new(alloc);
    for piece in pieces {
        bytes.extend_from_slice(piece.as_bytes())?;
    }
    Ok(bytes)
}

/// The link that comes so.
pub fn link_of(alloc: Global, coming: &Coming<'_>) -> Result<MemoryLink, AllocError> {
    let fails = Vec::from_array(alloc, [coming.fails])?;
    let input = joined(alloc, coming.input)?;
    MemoryLink::new(alloc, input, coming.room, fails)
}

/// A clock that stands at 1,700,000,000.
pub fn new_clock() -> FixedClock {
    FixedClock::new(Moment::new(1_700_000_000).unwrap_or(Moment::first()))
}

/// A link with this input, ample room and no call that fails.
pub fn quiet_link(alloc: Global, input: &str) -> Result<MemoryLink, AllocError> {
    let input = input.as_bytes().to_vec(alloc)?;
    MemoryLink::new(alloc, input, ROOM, Vec::new(alloc))
}

/// A worker at a door at which these links come, and of which one call fails.
pub fn worker_of<G: Drop>(
    alloc: Global,
    coming: &[Coming<'_>],
    fails: u64,
    gate: G,
) -> Result<ListWorker<G>, Fail> {
    let mut links = VecDeque::new(alloc);
    for link in coming {
        links.push_back(link_of(alloc, link)?)?;
    }
    worker_with(alloc, links, fails, gate)
}

/// The same, if the links are there.
pub fn worker_with<G: Drop>(
    alloc: Global,
    links: VecDeque<MemoryLink>,
    fails: u64,
    gate: G,
) -> Result<ListWorker<G>, Fail> {
    let fails = Vec::from_array(alloc, [fails])?;
    Ok(Worker {
        door: ListDoor::new(alloc, links, fails)?,
        clock: new_clock(),
        gate,
    })
}

/// Runs a case over this disk, these workers and this folder.
pub fn run_in<G: Gate + Drop>(
    rt: &impl Machine,
    case: &Case<'_>,
    disk: MemoryDisk,
    workers: Vec<ListWorker<G>>,
    folder: &mut MemoryFolder,
) -> Result<Ran<G>, AllocError> {
    let alloc = rt.alloc();
    let words = words_of(alloc, case.line)?;
    let link = quiet_link(alloc, case.input)?;
    let mut clock = new_clock();
    Ok(run(
        rt,
        alloc,
        &Parsed::read(alloc, words.as_slice()),
        case.settings.as_bytes(),
        disk,
        Md5Namer,
        &mut clock,
        link,
        workers,
        folder,
        &mut NoProgress,
    ))
}

/// Runs a case over this disk, these workers and a folder in which nothing lies.
pub fn run_at<G: Gate + Drop>(
    rt: &impl Machine,
    case: &Case<'_>,
    disk: MemoryDisk,
    workers: Vec<ListWorker<G>>,
) -> Result<Ran<G>, AllocError> {
    let alloc = rt.alloc();
    let mut folder = MemoryFolder::new(alloc, Vec::new(alloc));
    run_in(rt, case, disk, workers, &mut folder)
}

/// Runs a case over this disk, without workers.
pub fn run_over(
    rt: &impl Machine,
    case: &Case<'_>,
    disk: MemoryDisk,
) -> Result<Ran<OpenGate>, AllocError> {
    run_at(rt, case, disk, Vec::new(rt.alloc()))
}

/// Whether a run ended as it was to.
fn is_wanted<G>(alloc: Global, done: &Ran<G>, want: &Want<'_>) -> Result<bool, AllocError> {
    let note = &done.note;
    let said = format!(in alloc; "{note}")?;
    let output = done.link.output();
    Ok(
        note.status() == want.status
            && said.as_str() == want.said
            && output == want.output.as_bytes(),
    )
}

/// Fails where a run didn't end as it was to.
pub fn expect_end<G>(alloc: Global, done: &Ran<G>, want: &Want<'_>) -> Result<(), Fail> {
    if is_wanted(alloc, done, want) == Ok(true) {
        return Ok(());
    }
    let note = &done.note;
    let status = note.status();
    let output = String::from_utf8_lossy(alloc, done.link.output())?;
    Err(Fail::new(format_args!("status {status}, {note:?}, {output:?}")))
}

/// Runs a case over this disk, without workers, fails where it doesn't end so, and gives the disk back.
pub fn expect_run_over(
    rt: &impl Machine,
    case: &Case<'_>,
    disk: MemoryDisk,
    want: &Want<'_>,
) -> Result<MemoryDisk, Fail> {
    let done = run_over(rt, case, disk)?;
    expect_end(rt.alloc(), &done, want)?;
    Ok(done.disk)
}

/// The links that a worker served.
pub fn links_of<G>(done: &Ran<G>, worker: usize) -> Result<&[MemoryLink], Fail> {
    match done.workers.get(worker) {
        Some(worker) => Ok(worker.door.served()),
        None => Err(Fail::new("no such worker")),
    }
}

/// Fails where something else was sent over a link.
pub fn expect_sent(alloc: Global, link: &MemoryLink, want: &[u8]) -> Result<(), Fail> {
    if link.sent() == want {
        return Ok(());
    }
    let sent = String::from_utf8_lossy(alloc, link.sent())?;
    Err(Fail::new(format_args!("{sent:?}")))
}

/// Fails where the links that a worker served aren't as many as these outputs, each in pieces, or something else was sent over one.
pub fn expect_served<G>(
    alloc: Global,
    done: &Ran<G>,
    worker: usize,
    outputs: &[&[&str]],
) -> Result<(), Fail> {
    let links = links_of(done, worker)?;
    let count = links.len();
    if count != outputs.len() {
        return Err(Fail::new(format_args!("worker {worker} served {count} links")));
    }
    for (link, output) in links.iter().zip(outputs.iter()) {
        expect_sent(alloc, link, joined(alloc, output)?.as_slice())?;
    }
    Ok(())
}

/// Fails where a file of the disk doesn't hold these bytes, or isn't absent where there are none.
pub fn expect_file(
    alloc: Global,
    disk: &mut MemoryDisk,
    file: FileId,
    want: Option<&[u8]>,
) -> Result<(), Fail> {
    let found = disk.read(alloc, file);
    let is_same = match (&found, want) {
        (Ok(Some(bytes)), Some(want)) => bytes.as_slice() == want,
        (Ok(None), None) => true,
        _ => false,
    };
    if is_same {
        return Ok(());
    }
    Err(Fail::new(format_args!("{file} is {found:?}")))
}
