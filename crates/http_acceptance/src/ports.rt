//! Conversations over two ports: the plain office, and the store by the command `pipe`.

use admin_cli::{Worker, run};
use backup_rules::Rules;
use browse_http::{End, Interface, serve_connection};
use caller_doors::ListDoor;
use command_line::Parsed;
use disk_trait::{DiskRoom, MemoryDisk};
use folder_trait::{MemoryFolder, NoProgress};
use office_model::Port;
use pool_name::Md5Namer;
use request_events::Defaults;
use std::alloc::{AllocError, AllocGlobal, Global};
use std::sync::Wait;
use std::test::Fail;
use std::thread::Threads;
use stream_traits::{FixedClock, MemoryLink, Moment, OpenGate};
use tree_office::TreeOffice;
use wake_schedule::Zone;

/// The allocator, the threads and the waiting that a run takes.
pub trait Machine: AllocGlobal + Threads + Wait + Sync {}

impl<R: AllocGlobal + Threads + Wait + Sync> Machine for R {}

/// The fields of a connection's last response.
pub const CLOSE: &str = "Connection: close\r\n";

/// What a client is told before its body.
pub const CONTINUE: &str = "HTTP/1.1 100 Continue\r\n\r\n";

/// What the numbers of an empty office are told as.
pub const NOTHING_KEPT: &str =
    "{\"backups\":0,\"bytes\":0,\"dumps\":0,\"files\":0,\"hosts\":0,\"marked\":0,\"restores\":0}";

/// Four requests that make `a.txt` the one file of backup 0 of the host `pc1`.
pub const COMMIT: &str = "PUT /hosts/pc1 HTTP/1.1\r\nHost: b\r\n\r\n\
    POST /hosts/pc1/dumps?kind=full HTTP/1.1\r\nHost: b\r\n\r\n\
    PUT /dumps/1-0/entry?path=a.txt&kind=file HTTP/1.1\r\nHost: b\r\nContent-Length: 5\r\n\r\nhello\
    POST /dumps/1-0/commit HTTP/1.1\r\nHost: b\r\n\r\n";

/// The responses to them.
pub const COMMITTED: &str =
    "HTTP/1.1 201 Created\r\nContent-Type: application/json\r\nContent-Length: 14\r\n\r\n{\"host\":\"pc1\"}\
    HTTP/1.1 201 Created\r\nContent-Type: application/json\r\nContent-Length: 14\r\n\r\n{\"dump\":\"1-0\"}\
    HTTP/1.1 200 OK\r\nContent-Type: application/json\r\nContent-Length: 2\r\n\r\n{}\
    HTTP/1.1 201 Created\r\nContent-Type: application/json\r\nContent-Length: 12\r\n\r\n{\"number\":0}";

/// Asks for the file, as the last request.
pub const READ: &str =
    "GET /hosts/pc1/backups/0/file?path=a.txt HTTP/1.1\r\nHost: b\r\nConnection: close\r\n\r\n";

/// The response to that.
pub const CONTENT: &str =
    "HTTP/1.1 200 OK\r\nContent-Type: application/octet-stream\r\nContent-Length: 5\r\nConnection: close\r\n\r\nhello";

/// A disk without files, with ample room.
pub fn new_disk(alloc: Global) -> Result<MemoryDisk, AllocError> {
    let room = DiskRoom {
        changes: 2_000,
        bytes: 2_000_000,
    };
    MemoryDisk::new(alloc, Vec::new(alloc), room)
}

/// A link with this input, in pieces.
fn link_of(alloc: Global, input: &[&str]) -> Result<MemoryLink, AllocError> {
    let mut bytes = Vec::new(alloc);
    for piece in input {
        bytes.extend_from_slice(piece.as_bytes())?;
    }
    MemoryLink::new(alloc, bytes, 262_144, Vec::new(alloc))
}

/// A clock that stands at 1,700,000,000.
fn new_clock() -> FixedClock {
    FixedClock::new(Moment::new(1_700_000_000).unwrap_or(Moment::first()))
}

/// The interface of a server without a settings file.
fn interface(alloc: Global) -> Result<Interface, AllocError> {
    let defaults = match Zone::read("UTC") {
        Ok(zone) => Defaults {
            rules: Rules::defaults(alloc)?,
            zone,
        },
        Err(_) => return Err(AllocError),
    };
    Interface::new(alloc, defaults)
}

/// A response of JSON, with these fields behind its length.
pub fn json(alloc: Global, status: &str, fields: &str, body: &str) -> Result<String, AllocError> {
    let len = body.len();
    format!(in alloc;
        "HTTP/1.1 {status}\r\nContent-Type: application/json\r\nContent-Length: {len}\r\n{fields}\r\n{body}"
    )
}

/// A response of a file's bytes.
pub fn content(alloc: Global, bytes: &str) -> Result<String, AllocError> {
    let len = bytes.len();
    format!(in alloc;
        "HTTP/1.1 200 OK\r\nContent-Type: application/octet-stream\r\nContent-Length: {len}\r\n\r\n{bytes}"
    )
}

/// A request of a line without its version, and of a body, if it has one.
pub fn request(alloc: Global, line: &str, body: Option<&str>) -> Result<String, AllocError> {
    match body {
        Some(body) => {
            let len = body.len();
            format!(in alloc; "{line} HTTP/1.1\r\nHost: b\r\nContent-Length: {len}\r\n\r\n{body}")
        }
        None => format!(in alloc; "{line} HTTP/1.1\r\nHost: b\r\n\r\n"),
    }
}

/// A conversation: what a client sends, and what it is sent.
#[derive(Drop)]
pub struct Talk {
    asked: String,
    told: String,
}

impl Talk {
    /// A conversation that begins with these texts.
    pub fn new(alloc: Global, asked: &str, told: &str) -> Result<Talk, AllocError> {
        Ok(Talk {
            asked: String::from_str(alloc, asked)?,
            told: String::from_str(alloc, told)?,
        })
    }

    /// What the client sent up to now.
    pub fn asked(&self) -> &str {
        self.asked.as_str()
    }

    /// What it was sent up to now.
    pub fn told(&self) -> &str {
        self.told.as_str()
    }

    /// Goes on with these texts.
    pub fn go_on(&mut self, asked: &str, told: &str) -> Result<(), AllocError> {
        self.asked.push_str(asked)?;
        self.told.push_str(told)
    }

    /// Goes on with a request that is answered with JSON.
    pub fn ask(
        &mut self,
        alloc: Global,
        line: &str,
        status: &str,
        body: &str,
    ) -> Result<(), AllocError> {
        let asked = request(alloc, line, None)?;
        let told = json(alloc, status, "", body)?;
        self.go_on(asked.as_str(), told.as_str())
    }

    /// Goes on with a request that is refused.
    pub fn refuse(
        &mut self,
        alloc: Global,
        line: &str,
        status: &str,
        name: &str,
    ) -> Result<(), AllocError> {
        let body = format!(in alloc; "{{\"refused\":\"{name}\"}}")?;
        self.ask(alloc, line, status, body.as_str())
    }

    /// Goes on with a put of this body, which is done.
    pub fn put(&mut self, alloc: Global, line: &str, body: &str) -> Result<(), AllocError> {
        let asked = request(alloc, line, Some(body))?;
        let told = json(alloc, "200 OK", "", "{}")?;
        self.go_on(asked.as_str(), told.as_str())
    }

    /// Goes on with a read of a file, which is given.
    pub fn read(&mut self, alloc: Global, line: &str, bytes: &str) -> Result<(), AllocError> {
        let asked = request(alloc, line, None)?;
        let told = content(alloc, bytes)?;
        self.go_on(asked.as_str(), told.as_str())
    }

    /// Fails where the conversation goes otherwise over a port, or doesn't end so.
    pub fn expect(&self, rt: &impl Machine, end: &End) -> Result<(), Fail> {
        expect_both(rt, &[self.asked()], &[self.told()], end)
    }
}

/// The status of a run whose connection ended so, and what it says.
fn status_of(end: &End) -> (u8, &'static str) {
    match end {
        End::Ended => (0, ""),
        End::Truncated => (1, "input ended inside a request"),
        End::BadRequest => (1, "request not understood"),
        End::Cut(_) => (1, "response cut"),
        End::LinkFault => (3, "link failed"),
        End::Memory => (6, "no memory"),
    }
}

/// Whether bytes are these pieces, one after the other.
fn are_joined(bytes: &[u8], pieces: &[&str]) -> bool {
    let mut rest = bytes;
    for piece in pieces {
        match rest.strip_prefix(piece.as_bytes()) {
            Some(after) => rest = after,
            None => return false,
        }
    }
    rest.is_empty()
}

/// Fails where an input isn't answered so over a port, or the connection doesn't end so.
pub fn expect_over<P: Port>(
    alloc: Global,
    port: &mut P,
    input: &[&str],
    output: &[&str],
    end: &End,
) -> Result<(), Fail> {
    let link = link_of(alloc, input)?;
    let mut clock = new_clock();
    let interface = interface(alloc)?;
    let served = serve_connection(alloc, port, link, &mut clock, &mut OpenGate, &interface);
    if status_of(&served.end) == status_of(end) && are_joined(served.link.sent(), output) {
        return Ok(());
    }
    let sent = String::from_utf8_lossy(alloc, served.link.sent())?;
    Err(Fail::new(format_args!("{:?}, {sent:?}", served.end)))
}

/// Fails where an input isn't answered so by a plain office, or the connection doesn't end so.
pub fn expect_from_office(
    alloc: Global,
    input: &[&str],
    output: &[&str],
    end: &End,
) -> Result<(), Fail> {
    let mut office = TreeOffice::new(alloc, Md5Namer);
    expect_over(alloc, &mut office, input, output, end)
}

/// Fails where the command `pipe` over a store on this disk doesn't answer an input so, or ends otherwise.
pub fn expect_from_store(
    rt: &impl Machine,
    disk: MemoryDisk,
    input: &[&str],
    output: &[&str],
    end: &End,
) -> Result<(), Fail> {
    let alloc = rt.alloc();
    let mut words = Vec::new(alloc);
    for word in ["backup_server", "pipe", "--store", "store"] {
        words.push(String::from_str(alloc, word)?)?;
    }
    let link = link_of(alloc, input)?;
    let mut clock = new_clock();
    let workers: Vec<Worker<ListDoor, FixedClock, OpenGate>> = Vec::new(alloc);
    let mut folder = MemoryFolder::new(alloc, Vec::new(alloc));
    let done = run(
        rt,
        alloc,
        &Parsed::read(alloc, words.as_slice()),
        b"",
        disk,
        Md5Namer,
        &mut clock,
        link,
        workers,
        &mut folder,
        &mut NoProgress,
    );
    let note = &done.note;
    let said = format!(in alloc; "{note}")?;
    let (status, wanted) = status_of(end);
    if note.status() == status
        && said.as_str() == wanted
        && are_joined(done.link.output(), output)
    {
        return Ok(());
    }
    let sent = String::from_utf8_lossy(alloc, done.link.output())?;
    Err(Fail::new(format_args!("{note:?}, {sent:?}")))
}

/// Fails where an input isn't answered so by a plain office and by a new store, or a connection doesn't end so.
pub fn expect_both(
    rt: &impl Machine,
    input: &[&str],
    output: &[&str],
    end: &End,
) -> Result<(), Fail> {
    let alloc = rt.alloc();
    expect_from_office(alloc, input, output, end)?;
    expect_from_store(rt, new_disk(alloc)?, input, output, end)
}
