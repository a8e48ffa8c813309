//! The calls of one request: a body that is handed on in pieces, and a file that is read in parts; also if a call is refused.

use self::Cause::{Disk, Memory, NoParent, NoSession, TokensFull, TooLarge};
use crate::interfaces::{interface, name_of};
use attr_records::PutRule;
use browse_http::serve_connection;
use disk_trait::Bytes;
use office_model::{Answer, BrokenRule, Event, Port, Refusal};
use std::alloc::{AllocError, Global};
use std::test::Fail;
use stream_traits::{FixedClock, MemoryLink, Moment, OpenGate};

/// Why a call is refused.
#[derive(Clone, Copy)]
enum Cause {
    NoSession,
    NoParent,
    TokensFull,
    TooLarge,
    Disk,
    Memory,
}

fn refusal(cause: Cause) -> Refusal {
    match cause {
        NoSession => Refusal::Broken(BrokenRule::NoSession),
        NoParent => Refusal::Broken(BrokenRule::Put(PutRule::NoParent)),
        TokensFull => Refusal::Broken(BrokenRule::TokensFull),
        TooLarge => Refusal::Broken(BrokenRule::Put(PutRule::FileTooLarge)),
        Disk => Refusal::DiskFault,
        Memory => Refusal::Memory,
    }
}

/// What a call is noted as.
fn word(event: &Event) -> &'static str {
    match event {
        Event::StageOpen { .. } => "stage ",
        Event::StageDrop { .. } => "drop ",
        Event::Put { .. } => "put ",
        Event::OpenFile { .. } => "open ",
        Event::ReadPart { .. } => "part ",
        Event::CloseFile { .. } => "close ",
        _ => "another ",
    }
}

/// A port that notes its calls, and refuses one of them. Its one file has so many bytes that weren't read.
#[derive(Drop)]
struct NotedPort {
    calls: String,
    /// How many calls come before the one that is refused.
    before: u64,
    cause: Cause,
    unread: usize,
}

impl NotedPort {
    /// A port that refuses nothing.
    fn new(alloc: Global, unread: usize) -> NotedPort {
        NotedPort {
            calls: String::new(alloc),
            before: u64::MAX,
            cause: Memory,
            unread,
        }
    }

    /// Notes a call: a piece by its length.
    fn note(&mut self, alloc: Global, event: &Event) -> Result<(), AllocError> {
        if let Event::StagePiece { bytes, .. } = event {
            let size = bytes.as_slice().len();
            let noted = format!(in alloc; "{size} ")?;
            return self.calls.push_str(noted.as_str());
        }
        self.calls.push_str(word(event))
    }

    /// The next part of the file.
    fn part(&mut self, alloc: Global) -> Result<Bytes, AllocError> {
        let size = self.unread.min(65_536);
        self.unread -= size;
        let mut part = Vec::new(alloc);
        part.resize(size, b'x')?;
        Ok(Bytes::from_vec(part))
    }
}

impl Port for NotedPort {
    ghost use Rattle.std.specs.Prelude.{◌≡◌};

    ghost moves = { λ old calls new. Unit {0} };

    fn call(&mut self, alloc: Global, event: &Event) -> Result<Answer, Refusal> {
        self.note(alloc, event)?;
        if self.before == 0 {
            self.before = u64::MAX;
            return Err(refusal(self.cause));
        }
        self.before = self.before.saturating_sub(1);
        match event {
            Event::StageOpen { .. } => Ok(Answer::Stage(7)),
            Event::StagePiece { .. } => Ok(Answer::Done),
            Event::StageDrop { .. } => Ok(Answer::Done),
            Event::Put { .. } => Ok(Answer::Done),
            Event::OpenFile { .. } => Ok(Answer::Opened {
                reader: 3,
                size: self.unread as u64,
            }),
            Event::ReadPart { .. } => Ok(Answer::Part(self.part(alloc)?)),
            Event::CloseFile { .. } => Ok(Answer::Done),
            _ => Err(Refusal::Halted),
        }
    }

    ghost none = { λ p. tt };

    ghost joined = { λ p q r xs ys a b. tt };
}

/// Whether two texts are the same.
fn is_same(one: &str, other: &str) -> bool {
    one == other
}

/// Serves an input over a port, and compares the calls, the status of the response, or none, and the end. It gives how many bytes
/// were sent.
fn expect(
    alloc: Global,
    mut port: NotedPort,
    input: &str,
    calls: &str,
    status: &str,
    end: &str,
) -> Result<usize, Fail> {
    let input = input.as_bytes().to_vec(alloc)?;
    let link = MemoryLink::new(alloc, input, 131_072, Vec::new(alloc))?;
    let mut clock = FixedClock::new(Moment::first());
    let interface = interface(alloc)?;
    let served = serve_connection(
        alloc,
        &mut port,
        link,
        &mut clock,
        &mut OpenGate,
        &interface,
    );
    let told = String::from_utf8_lossy(alloc, served.link.sent())?;
    let noted = port.calls.as_str();
    let line = told.as_str().lines().next().unwrap_or("");
    let given = line.split(' ').nth(1).unwrap_or("");
    let found = name_of(&served.end);
    if is_same(noted, calls) && is_same(given, status) && is_same(found, end) {
        return Ok(told.len());
    }
    Err(Fail::new(format_args!("{noted:?}, {given}, {found} for {calls:?}, {status}, {end}")))
}

/// So many letters.
fn letters(alloc: Global, count: usize) -> Result<String, Fail> {
    let mut bytes = Vec::new(alloc);
    bytes.resize(count, b'x')?;
    Ok(String::from_utf8(bytes)?)
}

/// Puts a file of a body of this length, of which so much comes.
fn put(alloc: Global, length: usize, comes: usize) -> Result<String, Fail> {
    let body = letters(alloc, comes)?;
    Ok(format!(in alloc; "{PUT}Content-Length: {length}\r\n\r\n{body}")?)
}

/// The front of a put.
const PUT: &str = "PUT /dumps/1-0/entry?path=a&kind=file HTTP/1.1\r\nHost: b\r\n";

/// Asks for a file.
const READ: &str = "GET /hosts/pc1/backups/0/file?path=a HTTP/1.1\r\nHost: b\r\n\r\n";

/// The length of a body, how much of it comes, and what comes of it.
const LENGTHS: [(usize, usize, &str, &str, &str); 6] = [
    (65_536, 65_536, "put ", "200", "ended"),
    (65_537, 65_537, "stage 65536 1 put ", "200", "ended"),
    (131_072, 131_072, "stage 65536 65536 put ", "200", "ended"),
    (131_072, 70_000, "stage 65536 drop ", "", "truncated"),
    (131_072, 0, "stage drop ", "", "truncated"),
    (5, 3, "", "", "truncated"),
];

#[test]
fn a_long_body_goes_on_in_pieces(rt: HostRuntime) -> Result<(), Fail> {
    let alloc = rt.alloc();
    for (length, comes, calls, status, end) in LENGTHS {
        let input = put(alloc, length, comes)?;
        let port = NotedPort::new(alloc, 0);
        expect(alloc, port, input.as_str(), calls, status, end)?;
    }
    Ok(())
}

/// The size of two chunks, the line behind them, and what comes of it.
const CHUNKS: [(usize, &str, &str, &str, &str); 6] = [
    (5, "0\r\n\r\n", "stage 10 put ", "200", "ended"),
    (32_768, "0\r\n\r\n", "stage 65536 put ", "200", "ended"),
    (
        40_000,
        "0\r\n\r\n",
        "stage 65536 14464 put ",
        "200",
        "ended",
    ),
    (40_000, "x\r\n", "stage 65536 drop ", "400", "bad request"),
    (5, "10000000000\r\n", "stage drop ", "413", "bad request"),
    (5, "", "stage drop ", "", "truncated"),
];

#[test]
fn chunks_are_joined_to_pieces(rt: HostRuntime) -> Result<(), Fail> {
    let alloc = rt.alloc();
    for (size, last, calls, status, end) in CHUNKS {
        let body = letters(alloc, size)?;
        let chunk = format!(in alloc; "{size:x}\r\n{body}\r\n")?;
        let input = format!(in alloc;
            "{PUT}Transfer-Encoding: chunked\r\n\r\n{chunk}{chunk}{last}"
        )?;
        let port = NotedPort::new(alloc, 0);
        expect(alloc, port, input.as_str(), calls, status, end)?;
    }
    Ok(())
}

/// How many calls of a put of 100,000 bytes come before the one that is refused, why it is, and what comes of it.
const REFUSED_PUTS: [(u64, Cause, &str, &str, &str); 10] = [
    (0, NoSession, "stage ", "404", "ended"),
    (1, NoSession, "stage 65536 ", "404", "ended"),
    (1, Disk, "stage 65536 ", "500", "ended"),
    (1, TooLarge, "stage 65536 drop ", "413", "ended"),
    (1, Memory, "stage 65536 drop ", "507", "memory"),
    (2, TooLarge, "stage 65536 34464 drop ", "413", "ended"),
    (3, NoSession, "stage 65536 34464 put ", "404", "ended"),
    (3, NoParent, "stage 65536 34464 put drop ", "409", "ended"),
    (3, TokensFull, "stage 65536 34464 put drop ", "422", "ended"),
    (3, Disk, "stage 65536 34464 put drop ", "500", "ended"),
];

#[test]
fn a_refused_put_leaves_no_stage(rt: HostRuntime) -> Result<(), Fail> {
    let alloc = rt.alloc();
    let input = put(alloc, 100_000, 100_000)?;
    for (before, cause, calls, status, end) in REFUSED_PUTS {
        let mut port = NotedPort::new(alloc, 0);
        port.before = before;
        port.cause = cause;
        expect(alloc, port, input.as_str(), calls, status, end)?;
    }
    Ok(())
}

/// The length of a file, and how it is read.
const FILES: [(usize, &str); 5] = [
    (0, "open part close "),
    (5, "open part part close "),
    (65_535, "open part part close "),
    (65_536, "open part part close "),
    (100_000, "open part part part close "),
];

/// A part that has no bytes is its end.
#[test]
fn a_file_is_read_to_its_end(rt: HostRuntime) -> Result<(), Fail> {
    let alloc = rt.alloc();
    for (size, calls) in FILES {
        let head = format!(in alloc;
            "HTTP/1.1 200 OK\r\nContent-Type: application/octet-stream\r\nContent-Length: {size}\r\n\r\n"
        )?;
        let port = NotedPort::new(alloc, size);
        let sent = expect(alloc, port, READ, calls, "200", "ended")?;
        assert_eq!(rt; sent, head.len().saturating_add(size));
    }
    Ok(())
}

/// How many calls of a read of 100,000 bytes come before the one that is refused, why it is, and what comes of it.
const REFUSED_READS: [(u64, Cause, &str, &str, &str); 6] = [
    (0, NoSession, "open ", "404", "ended"),
    (1, Disk, "open part close ", "500", "ended"),
    (1, Memory, "open part close ", "507", "memory"),
    (2, Disk, "open part part close ", "200", "cut"),
    (2, Memory, "open part part close ", "200", "memory"),
    (4, Disk, "open part part part close ", "200", "ended"),
];

#[test]
fn a_refused_part_cuts_its_response(rt: HostRuntime) -> Result<(), Fail> {
    let alloc = rt.alloc();
    for (before, cause, calls, status, end) in REFUSED_READS {
        let mut port = NotedPort::new(alloc, 100_000);
        port.before = before;
        port.cause = cause;
        expect(alloc, port, READ, calls, status, end)?;
    }
    Ok(())
}
