//! Talks with the program: what is asked, line by line, and what is to be answered.

use admin_cli::{Done, Note, run};
use caller_doors::ListDoor;
use command_line::Parsed;
use disk_trait::{Choice, Disk, DiskRoom, FileId, MemoryDisk};
use folder_trait::{MemoryFolder, NoProgress};
use pool_name::Namer;
use std::alloc::{AllocError, AllocGlobal, Global};
use std::sync::Wait;
use std::test::Fail;
use std::thread::Threads;
use stream_traits::{ListClock, MemoryLink, Moment, OpenGate};

/// The allocator, the threads and the waiting that a run takes.
pub trait Machine: AllocGlobal + Threads + Wait + Sync {}

impl<R: AllocGlobal + Threads + Wait + Sync> Machine for R {}

/// How a talk ended, which has no workers.
pub type Talked = Done<MemoryDisk, MemoryLink, ListDoor, ListClock, OpenGate>;

/// An answer: the status with its phrase and a body in JSON, or the bytes of a file or a frame.
#[derive(Clone, Copy)]
pub enum Says {
    Json(&'static str, &'static str),
    Bytes(&'static [u8]),
}

/// The method and the target of a request, its body, and the answer to it.
#[derive(Clone, Copy)]
pub struct Row(pub &'static str, pub &'static str, pub Says);

pub const OK: &str = "200 OK";

pub const MADE: &str = "201 Created";

pub const ABSENT: &str = "404 Not Found";

pub const CONFLICT: &str = "409 Conflict";

pub const DONE: Says = Says::Json(OK, "{}");

pub const HOST: Row = Row("PUT /hosts/pc1", "", Says::Json(MADE, "{\"host\":\"pc1\"}"));

pub const WEEKLY: Row = Row("PUT /hosts/pc1/rules?FillCycle=7", "", DONE);

/// What uncertain files hold after a stop: what was written, nothing, or one byte, which opens Gate. What they held before is what
/// they hold after a stop at the last sync.
pub const CHOICES: [Choice; 3] = [Choice::Written, Choice::Absent, Choice::One(0x4F)];

/// When nothing else is said: a Tuesday, 22:13:20 in UTC.
pub const START: u64 = 1_700_000_000;

pub const NOW: &[u64] = &[START];

const ROOM: DiskRoom = DiskRoom {
    changes: 1_000,
    bytes: 100_000,
};

/// A disk without files, of which these calls fail.
pub fn blank_disk(alloc: Global, fails: &[u64]) -> Result<MemoryDisk, AllocError> {
    MemoryDisk::new(alloc, Vec::from_slice(alloc, fails)?, ROOM)
}

/// Writes a request of this method and target, with its body's length.
pub fn put_request(
    out: &mut Vec<u8>,
    alloc: Global,
    ask: &str,
    body: &str,
) -> Result<(), AllocError> {
    let count = body.len();
    let text = format!(in alloc;
        "{ask} HTTP/1.1\r\nHost: b\r\nContent-Length: {count}\r\n\r\n{body}"
    )?;
    out.extend_from_slice(text.as_bytes())?;
    Ok(())
}

/// Writes a response of this status and this type.
pub fn put_response(
    out: &mut Vec<u8>,
    alloc: Global,
    status: &str,
    kind: &str,
    body: &[u8],
) -> Result<(), AllocError> {
    let count = body.len();
    let head = format!(in alloc;
        "HTTP/1.1 {status}\r\nContent-Type: application/{kind}\r\nContent-Length: {count}\r\n\r\n"
    )?;
    out.extend_from_slice(head.as_bytes())?;
    out.extend_from_slice(body)?;
    Ok(())
}

/// Writes the response that has an answer.
pub fn put_answer(out: &mut Vec<u8>, alloc: Global, says: Says) -> Result<(), AllocError> {
    match says {
        Says::Json(status, body) => put_response(out, alloc, status, "json", body.as_bytes()),
        Says::Bytes(body) => put_response(out, alloc, "200 OK", "octet-stream", body),
    }
}

/// What is sent to ask this.
pub fn input_of(alloc: Global, rows: &[Row]) -> Result<Vec<u8>, AllocError> {
    let mut bytes = Vec::new(alloc);
    for row in rows {
        put_request(&mut bytes, alloc, row.0, row.1)?;
    }
    Ok(bytes)
}

/// What comes back if this is answered.
pub fn output_of(alloc: Global, rows: &[Row]) -> Result<Vec<u8>, AllocError> {
    let mut bytes = Vec::new(alloc);
    for row in rows {
        put_answer(&mut bytes, alloc, row.2)?;
    }
    Ok(bytes)
}

/// A clock that gives these moments in turn.
pub fn clock_of(alloc: Global, seconds: &[u64]) -> Result<ListClock, Fail> {
    let mut moments = Vec::new(alloc);
    for second in seconds {
        moments.push(Moment::new(*second).unwrap_or(Moment::first()))?;
    }
    if moments.is_empty() {
        return Err(Fail::new("no moments"));
    }
    Ok(ListClock::new(moments))
}

/// The words of a command line, with one space between two.
fn words_of(alloc: Global, line: &str) -> Result<Vec<String>, AllocError> {
    let mut words = Vec::new(alloc);
    for word in line.split(' ') {
        words.push(String::from_str(alloc, word)?)?;
    }
    Ok(words)
}

/// Fails where a file of the disk doesn't hold these bytes, or isn't absent where there are none.
fn expect_file(
    alloc: Global,
    disk: &mut MemoryDisk,
    file: FileId,
    want: Option<&[u8]>,
) -> Result<(), Fail> {
    let found = disk.read(alloc, file);
    let is_same = match (&found, want) {
        (Ok(Some(bytes)), Some(want)) => bytes.as_slice() == want,
        (Ok(None), None) => true,
        _ => false,
    };
    if is_same {
        return Ok(());
    }
    Err(Fail::new(format_args!("{file} is {found:?}")))
}

/// Runs the program on this input.
pub fn pipe<N: Namer + Send>(
    rt: &impl Machine,
    disk: MemoryDisk,
    namer: N,
    seconds: &[u64],
    input: Vec<u8>,
) -> Result<Talked, Fail>
where
    N::State: Send,
{
    run_words(
        rt,
        disk,
        namer,
        "backup_server pipe --store store",
        seconds,
        input,
    )
}

/// Runs the program with the words of a command line, with one space between two, on this input.
pub fn run_words<N: Namer + Send>(
    rt: &impl Machine,
    disk: MemoryDisk,
    namer: N,
    line: &str,
    seconds: &[u64],
    input: Vec<u8>,
) -> Result<Talked, Fail>
where
    N::State: Send,
{
    let alloc = rt.alloc();
    let words = words_of(alloc, line)?;
    let link = MemoryLink::new(alloc, input, 65_536, Vec::new(alloc))?;
    let mut clock = clock_of(alloc, seconds)?;
    let mut folder = MemoryFolder::new(alloc, Vec::new(alloc));
    Ok(run(
        rt,
        alloc,
        &Parsed::read(alloc, words.as_slice()),
        b"",
        disk,
        namer,
        &mut clock,
        link,
        Vec::new(alloc),
        &mut folder,
        &mut NoProgress,
    ))
}

/// Runs the program on what is asked.
pub fn talk<N: Namer + Send>(
    rt: &impl Machine,
    disk: MemoryDisk,
    namer: N,
    seconds: &[u64],
    rows: &[Row],
) -> Result<Talked, Fail>
where
    N::State: Send,
{
    pipe(rt, disk, namer, seconds, input_of(rt.alloc(), rows)?)
}

/// Whether a run answered so.
pub fn is_answered(alloc: Global, done: &Talked, rows: &[Row]) -> Result<bool, AllocError> {
    let wanted = output_of(alloc, rows)?;
    Ok(done.link.output() == wanted.as_slice())
}

/// A failure that tells the first request that wasn't answered as it was to be, and what comes from its answer on.
fn fail_of(alloc: Global, done: &Talked, rows: &[Row]) -> Result<(), Fail> {
    let note = &done.note;
    let output = done.link.output();
    let mut wanted = Vec::new(alloc);
    for row in rows {
        let count = wanted.len();
        put_answer(&mut wanted, alloc, row.2)?;
        if !output.starts_with(wanted.as_slice()) {
            let ask = row.0;
            let rest = String::from_utf8_lossy(alloc, output.get(count..).unwrap_or(output))?;
            return Err(Fail::new(format_args!("{note:?}, {ask}: {rest}")));
        }
    }
    Err(Fail::new(format_args!("{note:?}")))
}

/// Asks, fails where the run doesn't end with status 0 or something is answered otherwise, and gives the disk back.
pub fn expect_talk<N: Namer + Send>(
    rt: &impl Machine,
    disk: MemoryDisk,
    namer: N,
    seconds: &[u64],
    rows: &[Row],
) -> Result<MemoryDisk, Fail>
where
    N::State: Send,
{
    let alloc = rt.alloc();
    let done = talk(rt, disk, namer, seconds, rows)?;
    if done.note != Note::Nothing || !is_answered(alloc, &done, rows)? {
        fail_of(alloc, &done, rows)?;
    }
    Ok(done.disk)
}

/// The place of the first of these that is what a run answered.
fn place_of(alloc: Global, done: &Talked, answers: &[&[Row]]) -> Result<Option<usize>, AllocError> {
    for (place, rows) in answers.iter().enumerate() {
        if is_answered(alloc, done, rows)? {
            return Ok(Some(place));
        }
    }
    Ok(None)
}

/// Asks what may be answered in several ways; fails where it is answered in none, or the run doesn't end with status 0. Gives the
/// place of the way, and the disk back.
pub fn place_answered<N: Namer + Send>(
    rt: &impl Machine,
    disk: MemoryDisk,
    namer: N,
    answers: &[&[Row]],
) -> Result<(usize, MemoryDisk), Fail>
where
    N::State: Send,
{
    let alloc = rt.alloc();
    let first = match answers {
        [first, ..] => *first,
        [] => return Err(Fail::new("no answers")),
    };
    let done = talk(rt, disk, namer, NOW, first)?;
    match place_of(alloc, &done, answers)? {
        Some(place) if done.note == Note::Nothing => Ok((place, done.disk)),
        _ => {
            fail_of(alloc, &done, first)?;
            Err(Fail::new("not answered"))
        }
    }
}

/// The disk that a stop at a moment leaves.
pub fn image_of(
    alloc: Global,
    disk: &MemoryDisk,
    moment: usize,
    choice: Choice,
) -> Result<MemoryDisk, Fail> {
    if moment > disk.moment() {
        return Err(Fail::new("a moment to come"));
    }
    Ok(disk.image(alloc, moment, choice)?)
}

/// Fails where a file doesn't hold what stands beside it, or isn't absent where nothing does.
pub fn expect_files(
    alloc: Global,
    disk: &mut MemoryDisk,
    files: &[(FileId, Option<&[u8]>)],
) -> Result<(), Fail> {
    for (file, bytes) in files {
        expect_file(alloc, disk, *file, *bytes)?;
    }
    Ok(())
}

pub fn expect(holds: bool, text: &'static str) -> Result<(), Fail> {
    if holds { Ok(()) } else { Err(Fail::new(text)) }
}
