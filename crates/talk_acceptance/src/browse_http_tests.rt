use crate::interfaces::{interface, name_of};
use attr_records::HostName;
use browse_http::*;
use disk_trait::Bytes;
use office_model::{Answer, BrokenRule, Event, HostList, Port, Refusal, SessionName};
use std::alloc::{AllocError, Global};
use std::test::Fail;
use stream_traits::{FixedClock, Gate, MemoryLink, Moment, OpenGate};

/// A port that has one host, pc1, with a dump 1-0 and a backup of a file `hello`, whatever it is asked. An opening with a token
/// repeats that of backup 7, and a put with a token is one too many.
#[derive(Drop)]
struct OneHost {
    /// Whether the bytes of the file were read.
    is_read: bool,
}

impl Port for OneHost {
    ghost use Rattle.std.specs.Prelude.{◌≡◌};

    ghost moves = { λ old calls new. Unit {0} };

    fn call(&mut self, alloc: Global, event: &Event) -> Result<Answer, Refusal> {
        match event {
            Event::AddHost { .. } => Ok(Answer::Done),
            Event::OpenDump { host, token, .. } => {
                of_host(host)?;
                match token {
                    Some(_) => Ok(Answer::Already(7)),
                    None => Ok(Answer::Dump(DUMP)),
                }
            }
            Event::Put { dump, token, .. } => {
                of_dump(*dump)?;
                match token {
                    Some(_) => Err(Refusal::Broken(BrokenRule::TokensFull)),
                    None => Ok(Answer::Done),
                }
            }
            Event::Commit { dump, .. } => {
                of_dump(*dump)?;
                Ok(Answer::Committed(0))
            }
            Event::OpenFile { host, .. } => {
                of_host(host)?;
                self.is_read = false;
                Ok(Answer::Opened { reader: 0, size: 5 })
            }
            Event::ReadPart { .. } => Ok(Answer::Part(self.part(alloc)?)),
            Event::CloseFile { .. } => Ok(Answer::Done),
            Event::Hosts => {
                let mut hosts = HostList::new(alloc);
                hosts.push(alloc, &pc1(alloc)?)?;
                Ok(Answer::Hosts(hosts))
            }
            _ => Err(Refusal::Halted),
        }
    }

    ghost none = { λ p. tt };

    ghost joined = { λ p q r xs ys a b. tt };
}

impl OneHost {
    /// The next part of the file: all its bytes, and then none.
    fn part(&mut self, alloc: Global) -> Result<Bytes, AllocError> {
        if self.is_read {
            return Ok(Bytes::new(alloc));
        }
        self.is_read = true;
        Bytes::from_slice(alloc, b"hello")
    }
}

const DUMP: SessionName = SessionName {
    epoch: 1,
    sequence: 0,
};

fn of_host(host: &HostName) -> Result<(), Refusal> {
    if host.as_slice() == b"pc1".as_slice() {
        return Ok(());
    }
    Err(Refusal::Broken(BrokenRule::NoHost))
}

fn of_dump(dump: SessionName) -> Result<(), Refusal> {
    if dump.is_same(DUMP) {
        return Ok(());
    }
    Err(Refusal::Broken(BrokenRule::NoSession))
}

fn pc1(alloc: Global) -> Result<HostName, Refusal> {
    match HostName::read(alloc, b"pc1") {
        Ok(host) => Ok(host),
        Err(_) => Err(Refusal::Memory),
    }
}

/// Serves an input, and gives the link and the end.
fn serve(alloc: Global, input: &[u8], fails: u64) -> Result<(MemoryLink, End), Fail> {
    let fails = Vec::from_array(alloc, [fails])?;
    let link = MemoryLink::new(alloc, input.to_vec(alloc)?, 8_192, fails)?;
    let mut clock = FixedClock::new(Moment::first());
    let interface = interface(alloc)?;
    let served = serve_connection(
        alloc,
        &mut OneHost { is_read: false },
        link,
        &mut clock,
        &mut OpenGate,
        &interface,
    );
    Ok((served.link, served.end))
}

/// Compares what is sent for an input, and how the connection ends.
fn expect(alloc: Global, input: &[u8], output: &[u8], end: &str) -> Result<(), Fail> {
    let (link, found) = serve(alloc, input, u64::MAX)?;
    if link.sent() == output && name_of(&found) == end {
        return Ok(());
    }
    let output = String::from_utf8_lossy(alloc, link.sent())?;
    Err(Fail::new(format_args!("{found:?}, {output:?}")))
}

const FIRST_PATH: &[u8] = b"PUT /hosts/pc1 HTTP/1.1\r\nHost: b\r\n\r\n\
POST /hosts/pc1/dumps?kind=full HTTP/1.1\r\nHost: b\r\n\r\n\
PUT /dumps/1-0/entry?path=a.txt&kind=file HTTP/1.1\r\nHost: b\r\nContent-Length: 5\r\n\r\nhello\
POST /dumps/1-0/commit HTTP/1.1\r\nHost: b\r\n\r\n\
GET /hosts/pc1/backups/0/file?path=a.txt HTTP/1.1\r\nHost: b\r\nConnection: close\r\n\r\n";

const FIRST_OUTPUT: &[u8] =
    b"HTTP/1.1 201 Created\r\nContent-Type: application/json\r\nContent-Length: 14\r\n\r\n{\"host\":\"pc1\"}\
HTTP/1.1 201 Created\r\nContent-Type: application/json\r\nContent-Length: 14\r\n\r\n{\"dump\":\"1-0\"}\
HTTP/1.1 200 OK\r\nContent-Type: application/json\r\nContent-Length: 2\r\n\r\n{}\
HTTP/1.1 201 Created\r\nContent-Type: application/json\r\nContent-Length: 12\r\n\r\n{\"number\":0}\
HTTP/1.1 200 OK\r\nContent-Type: application/octet-stream\r\nContent-Length: 5\r\nConnection: close\r\n\r\nhello";

#[test]
fn the_first_path_is_answered(rt: HostRuntime) -> Result<(), Fail> {
    expect(rt.alloc(), FIRST_PATH, FIRST_OUTPUT, "ended")
}

#[test]
fn a_cut_input_has_a_prefix_of_the_responses(rt: HostRuntime) -> Result<(), Fail> {
    for cut in 0..FIRST_PATH.len() {
        let (link, end) = serve(rt.alloc(), &FIRST_PATH[..cut], u64::MAX)?;
        assert!(rt; FIRST_OUTPUT.starts_with(link.sent()));
        assert!(rt; matches!(end, End::Truncated | End::Ended));
    }
    Ok(())
}

#[test]
fn a_failed_call_of_the_link_ends_it(rt: HostRuntime) -> Result<(), Fail> {
    for fails in 0..8 {
        let (link, end) = serve(rt.alloc(), FIRST_PATH, fails)?;
        assert!(rt; matches!(end, End::LinkFault));
        assert!(rt; FIRST_OUTPUT.starts_with(link.output()));
        assert!(rt; link.output().starts_with(link.sent()));
    }
    Ok(())
}

/// Requests without the end of their heads, and the status lines, fields and bodies of their responses.
const REQUESTS: [(&str, &str); 25] = [
    (
        "PATCH /hosts/pc1",
        "405 Method Not Allowed\r\nContent-Type: application/json\r\nContent-Length: 22\r\nAllow: PUT\r\n\r\n{\"refused\":\"NoMethod\"}",
    ),
    (
        "HEAD /hosts/pc1",
        "405 Method Not Allowed\r\nContent-Type: application/json\r\nContent-Length: 22\r\nAllow: PUT\r\n\r\n",
    ),
    (
        "GET /state",
        "404 Not Found\r\nContent-Type: application/json\r\nContent-Length: 21\r\n\r\n{\"refused\":\"NoRoute\"}",
    ),
    (
        "PUT /hosts/a%2Db",
        "400 Bad Request\r\nContent-Type: application/json\r\nContent-Length: 21\r\n\r\n{\"refused\":\"BadName\"}",
    ),
    (
        "GET /hosts/A/backups/01/file?x=1",
        "400 Bad Request\r\nContent-Type: application/json\r\nContent-Length: 21\r\n\r\n{\"refused\":\"BadName\"}",
    ),
    (
        "GET /hosts/a/backups/01/file?x=1",
        "400 Bad Request\r\nContent-Type: application/json\r\nContent-Length: 23\r\n\r\n{\"refused\":\"BadNumber\"}",
    ),
    (
        "GET /hosts/a/backups/4294967296/file",
        "400 Bad Request\r\nContent-Type: application/json\r\nContent-Length: 23\r\n\r\n{\"refused\":\"BadNumber\"}",
    ),
    (
        "PUT /hosts/a?x=%FF",
        "400 Bad Request\r\nContent-Type: application/json\r\nContent-Length: 27\r\n\r\n{\"refused\":\"BadQuery.Utf8\"}",
    ),
    (
        "PUT /hosts/a?x=1&x=1",
        "400 Bad Request\r\nContent-Type: application/json\r\nContent-Length: 30\r\n\r\n{\"refused\":\"BadQuery.Unknown\"}",
    ),
    (
        "POST /hosts/a/dumps?kind=incr&kind=incr",
        "400 Bad Request\r\nContent-Type: application/json\r\nContent-Length: 31\r\n\r\n{\"refused\":\"BadQuery.Repeated\"}",
    ),
    (
        "POST /hosts/a/dumps",
        "400 Bad Request\r\nContent-Type: application/json\r\nContent-Length: 30\r\n\r\n{\"refused\":\"BadQuery.Missing\"}",
    ),
    (
        "POST /hosts/a/dumps?kind=none",
        "400 Bad Request\r\nContent-Type: application/json\r\nContent-Length: 28\r\n\r\n{\"refused\":\"BadQuery.Value\"}",
    ),
    (
        "PUT /dumps/x/entry?path=a//b&kind=file",
        "400 Bad Request\r\nContent-Type: application/json\r\nContent-Length: 36\r\n\r\n{\"refused\":\"BadPath.EmptyComponent\"}",
    ),
    (
        "PUT /dumps/x/entry?kind=file&path=%2e%2e",
        "400 Bad Request\r\nContent-Type: application/json\r\nContent-Length: 25\r\n\r\n{\"refused\":\"BadPath.Dot\"}",
    ),
    (
        "PUT /dumps/x/entry?kind=file&path=a%00",
        "400 Bad Request\r\nContent-Type: application/json\r\nContent-Length: 25\r\n\r\n{\"refused\":\"BadPath.Nul\"}",
    ),
    (
        "PUT /dumps/x/entry?kind=file&path=a",
        "411 Length Required\r\nContent-Type: application/json\r\nContent-Length: 22\r\n\r\n{\"refused\":\"NoLength\"}",
    ),
    (
        "POST /dumps/00-1/commit",
        "404 Not Found\r\nContent-Type: application/json\r\nContent-Length: 23\r\n\r\n{\"refused\":\"NoSession\"}",
    ),
    (
        "POST /hosts/a/dumps?kind=full",
        "404 Not Found\r\nContent-Type: application/json\r\nContent-Length: 20\r\n\r\n{\"refused\":\"NoHost\"}",
    ),
    (
        "POST /hosts/pc1/dumps?kind=full",
        "201 Created\r\nContent-Type: application/json\r\nContent-Length: 14\r\n\r\n{\"dump\":\"1-0\"}",
    ),
    (
        "POST /hosts/pc1/dumps?kind=full&token=0123456789abcdef0123456789abcdef",
        "200 OK\r\nContent-Type: application/json\r\nContent-Length: 12\r\n\r\n{\"number\":7}",
    ),
    (
        "PUT /dumps/1-0/entry?path=a&kind=dir&token=0123456789abcdef0123456789abcdef",
        "422 Unprocessable Entity\r\nContent-Type: application/json\r\nContent-Length: 24\r\n\r\n{\"refused\":\"TokensFull\"}",
    ),
    (
        "PUT /dumps/1-0/entry?path=a&kind=dir&token=0123456789abcdef0123456789abcdef0",
        "400 Bad Request\r\nContent-Type: application/json\r\nContent-Length: 28\r\n\r\n{\"refused\":\"BadQuery.Value\"}",
    ),
    (
        "GET /hosts",
        "200 OK\r\nContent-Type: application/json\r\nContent-Length: 17\r\n\r\n{\"hosts\":[\"pc1\"]}",
    ),
    (
        "POST /reopen",
        "503 Service Unavailable\r\nContent-Type: application/json\r\nContent-Length: 20\r\n\r\n{\"refused\":\"Halted\"}",
    ),
    (
        "PUT /hosts/a",
        "201 Created\r\nContent-Type: application/json\r\nContent-Length: 12\r\n\r\n{\"host\":\"a\"}",
    ),
];

/// Serves two requests, of which the first is answered so; the second shows that the connection goes on.
fn expect_response(alloc: Global, request: &str, response: &str) -> Result<(), Fail> {
    let input = format!(in alloc; "{request} HTTP/1.1\r\nHost: b\r\n\r\nGET / HTTP/1.0\r\n\r\n")?;
    let output = format!(in alloc;
        "HTTP/1.1 {response}HTTP/1.1 404 Not Found\r\nContent-Type: application/json\r\nContent-Length: 21\r\nConnection: close\r\n\r\n{{\"refused\":\"NoRoute\"}}"
    )?;
    expect(alloc, input.as_bytes(), output.as_bytes(), "ended")
}

#[test]
fn each_request_has_its_response(rt: HostRuntime) -> Result<(), Fail> {
    for (request, response) in REQUESTS {
        expect_response(rt.alloc(), request, response)?;
    }
    Ok(())
}

/// The first path with a file whose name has a quote, a backslash, a control byte, a byte that isn't ASCII and a space.
const ODD_NAME: &[u8] = b"PUT /hosts/pc1 HTTP/1.1\r\nHost: b\r\n\r\n\
POST /hosts/pc1/dumps?kind=full HTTP/1.1\r\nHost: b\r\n\r\n\
PUT /dumps/1-0/entry?path=%22%5C%01%C3%A9%20b&kind=file HTTP/1.1\r\nHost: b\r\nContent-Length: 5\r\n\r\nhello\
POST /dumps/1-0/commit HTTP/1.1\r\nHost: b\r\n\r\n\
GET /hosts/pc1/backups/0/file?path=%22%5c%01%c3%a9+b HTTP/1.1\r\nHost: b\r\nConnection: close\r\n\r\n";

#[test]
fn a_path_has_any_bytes_but_0(rt: HostRuntime) -> Result<(), Fail> {
    expect(rt.alloc(), ODD_NAME, FIRST_OUTPUT, "ended")
}

/// What a path that breaks no rule and one that is too long are answered, for another host.
const NO_HOST: &str =
    "404 Not Found\r\nContent-Type: application/json\r\nContent-Length: 20\r\n\r\n{\"refused\":\"NoHost\"}";

const TOO_LONG: &str =
    "400 Bad Request\r\nContent-Type: application/json\r\nContent-Length: 29\r\n\r\n{\"refused\":\"BadPath.TooLong\"}";

/// Asks for the file at a path of 2,047 components of one byte, each with a slash written so behind it, and a last one.
fn expect_of_path(alloc: Global, slash: &str, last: &str, response: &str) -> Result<(), Fail> {
    let mut request = String::from_str(alloc, "GET /hosts/a/backups/0/file?path=")?;
    for _ in 0..2_047 {
        request.push_str("a")?;
        request.push_str(slash)?;
    }
    request.push_str(last)?;
    expect_response(alloc, request.as_str(), response)
}

#[test]
fn a_path_has_at_most_4096_bytes(rt: HostRuntime) -> Result<(), Fail> {
    for slash in ["/", "%2F"] {
        expect_of_path(rt.alloc(), slash, "aa", NO_HOST)?;
        expect_of_path(rt.alloc(), slash, "aaa", TOO_LONG)?;
    }
    Ok(())
}

/// Whole inputs, what is sent for them, and the end.
const INPUTS: [(&[u8], &[u8], &str); 5] = [
    (b"", b"", "ended"),
    (b"\r\n\r\n", b"", "ended"),
    (b"GET / HTTP/1.1\r\nHost", b"", "truncated"),
    (
        b"PUT /dumps/1-0/entry?path=a&kind=file HTTP/1.1\r\nHost: b\r\nExpect: 100-continue\r\nContent-Length: 2\r\n\r\nx",
        b"HTTP/1.1 100 Continue\r\n\r\n",
        "truncated",
    ),
    (
        b"PUT /hosts/a HTTP/1.1\r\n\r\nPUT /hosts/a HTTP/1.1\r\nHost: b\r\n\r\n",
        b"HTTP/1.1 400 Bad Request\r\nContent-Type: application/json\r\nContent-Length: 21\r\nConnection: close\r\n\r\n{\"refused\":\"BadHead\"}",
        "bad request",
    ),
];

#[test]
fn each_input_has_its_end(rt: HostRuntime) -> Result<(), Fail> {
    for (input, output, end) in INPUTS {
        expect(rt.alloc(), input, output, end)?;
    }
    Ok(())
}

/// A gate that notes the requests that it holds.
#[derive(Drop)]
struct NotedGate {
    held: u64,
    last: u64,
}

impl Gate for NotedGate {
    fn hold(&mut self, index: u64) {
        self.held = self.held.wrapping_add(1);
        self.last = index;
    }
}

#[test]
fn the_gate_holds_each_request_once(rt: HostRuntime) -> Result<(), Fail> {
    let input = FIRST_PATH.to_vec(rt.alloc())?;
    let link = MemoryLink::new(rt.alloc(), input, 8_192, Vec::new(rt.alloc()))?;
    let mut clock = FixedClock::new(Moment::first());
    let mut gate = NotedGate { held: 0, last: 0 };
    let interface = interface(rt.alloc())?;
    let served = serve_connection(
        rt.alloc(),
        &mut OneHost { is_read: false },
        link,
        &mut clock,
        &mut gate,
        &interface,
    );
    assert_eq!(rt;
        (name_of(&served.end), gate.held, gate.last),
        ("ended", 5, 4)
    );
    Ok(())
}
