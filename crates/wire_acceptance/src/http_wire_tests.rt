use http::StatusCode;
use http_wire::*;
use slow_links::{SlowLink, link_of};
use std::alloc::Global;
use std::test::Fail;
use stream_traits::{Failed, Faults, Link, MemoryLink, ReadFault, Sink, Source};

/// A link that notes its calls: `r` for a read, `w` for a write, `f` for a flush.
#[derive(Drop)]
struct NotedLink {
    link: MemoryLink,
    calls: Vec<u8>,
}

impl Faults for NotedLink {
    ghost use Rattle.std.specs.Prelude.{Some};
    ghost use Rattle.stream_traits.specs.Memory.{bytes_left, bytes_written, bytes_sent, fault_count};

    ghost left = { λ noted. Some (bytes_left noted.link) };

    ghost written = { λ noted. Some (bytes_written noted.link) };

    ghost sent = { λ noted. Some (bytes_sent noted.link) };

    ghost faults = { λ noted. fault_count noted.link };

    fn faults(&self) -> u64 {
        self.link.faults()
    }
}

impl Source for NotedLink {
    fn read(&mut self, room: &mut [u8]) -> Result<usize, Failed> {
        let _ = self.calls.push(b'r');
        self.link.read(room)
    }
}

impl Sink for NotedLink {
    fn write(&mut self, bytes: &[u8]) -> Result<usize, Failed> {
        let _ = self.calls.push(b'w');
        self.link.write(bytes)
    }

    fn flush(&mut self) -> Result<(), Failed> {
        let _ = self.calls.push(b'f');
        self.link.flush()
    }
}

impl Link for NotedLink {}

fn outcome(read: &HeadRead) -> &'static str {
    match read {
        HeadRead::Whole(_) => "Whole",
        HeadRead::Ended => "Ended",
        HeadRead::Truncated => "Truncated",
        HeadRead::Bad { for_head: true, .. } => "refused for HEAD",
        HeadRead::Bad { refusal, .. } => refusal.name(),
        HeadRead::LinkFault => "LinkFault",
        HeadRead::Memory => "Memory",
    }
}

/// What reading a head over a link comes to.
fn read_over<L: Link + Drop>(alloc: Global, link: L) -> &'static str {
    let mut wire = Wire::new(alloc, link);
    outcome(&read_head(alloc, &mut wire))
}

/// Heads with the end of the input behind them, and what they come to.
const HEADS: [(&[u8], &str); 23] = [
    (b"", "Ended"),
    (b"\r\n\n\r\n", "Ended"),
    (b"\r\n\r", "Truncated"),
    (b"GET / HTTP/1.1\r\nHost: h\r\n\r\n", "Whole"),
    (b"\r\n\nGET / HTTP/1.0\n\n", "Whole"),
    (b"GET / HTTP/1.1\r\nHost: h\r\n\r", "Truncated"),
    (b"GET / HTTP/1.1\r\n\r\n", "BadHead"),
    (b"GET / HTTP/1.1\r\nHost: h\r\nhost: h\r\n\r\n", "BadHead"),
    (b"GET / HTTP/2.0\r\n", "BadHead"),
    (b"GET / HTTP/1.0\r\nA : b\r\n\r\n", "BadHead"),
    (b"GET \xff HTTP/1.1\r\nHost: h\r\n\r\n", "BadHead"),
    (
        b"GET / HTTP/1.0\r\nContent-Length: 1\r\nContent-Length: 1\r\n\r\n",
        "BadHead",
    ),
    (b"GET / HTTP/1.0\r\nContent-Length: +1\r\n\r\n", "BadHead"),
    (
        b"GET / HTTP/1.1\r\nHost: h\r\nTransfer-Encoding: chunked\r\n\r\n",
        "Whole",
    ),
    (
        b"GET / HTTP/1.0\r\nTransfer-Encoding: chunked\r\n\r\n",
        "BadHead",
    ),
    (
        b"GET / HTTP/1.0\r\nTransfer-Encoding: gzip\r\n\r\n",
        "NoLength",
    ),
    (
        b"GET / HTTP/1.0\r\nContent-Length: 1099511627775\r\n\r\n",
        "Whole",
    ),
    (
        b"GET / HTTP/1.0\r\nContent-Length: 1099511627776\r\n\r\n",
        "FileTooLarge",
    ),
    (
        b"GET / HTTP/1.0\r\nContent-Length: 999999999999999999999999999999\r\n\r\n",
        "FileTooLarge",
    ),
    (b"HEAD / HTTP/1.1\r\n\r\n", "refused for HEAD"),
    (b"\r\n\nHEAD  / HTTP/1.0\r\n", "refused for HEAD"),
    (
        b"HEAD / HTTP/1.0\r\nTransfer-Encoding: chunked\r\n\r\n",
        "refused for HEAD",
    ),
    (b"HEADS / HTTP/1.1\r\n\r\n", "BadHead"),
];

/// Compares what a head comes to, read in one piece and byte for byte.
fn expect_head(alloc: Global, input: &[u8], expected: &str) -> Result<(), Fail> {
    let whole = read_over(alloc, link_of(alloc, input, 0)?);
    let slow = SlowLink {
        link: link_of(alloc, input, 0)?,
    };
    if whole == expected && read_over(alloc, slow) == expected {
        return Ok(());
    }
    Err(Fail::new("another outcome"))
}

#[test]
fn each_head_has_its_outcome(rt: HostRuntime) -> Result<(), Fail> {
    for (input, expected) in HEADS {
        expect_head(rt.alloc(), input, expected)?;
    }
    Ok(())
}

/// Reads a head that was cut: it comes to an end of the input, or to what the whole one is refused for.
fn expect_cut(alloc: Global, input: &[u8], whole: &str) -> Result<(), Fail> {
    let found = read_over(alloc, link_of(alloc, input, 0)?);
    if found == "Truncated" || found == "Ended" || (found == whole && found != "Whole") {
        return Ok(());
    }
    Err(Fail::new("another outcome of a cut head"))
}

#[test]
fn a_cut_head_is_never_whole(rt: HostRuntime) -> Result<(), Fail> {
    for (input, whole) in HEADS {
        for cut in 0..input.len() {
            expect_cut(rt.alloc(), &input[..cut], whole)?;
        }
    }
    Ok(())
}

#[test]
fn a_head_of_too_many_bytes_is_refused(rt: HostRuntime) -> Result<(), Fail> {
    let mut input = b"GET / HTTP/1.0\r\nA: ".to_vec(rt.alloc())?;
    input.resize(16_384, b'a')?;
    assert_eq!(rt;
        read_over(rt.alloc(), link_of(rt.alloc(), input.as_slice(), 0)?),
        "HeadTooLarge"
    );
    input.truncate(16_383);
    assert_eq!(rt;
        read_over(rt.alloc(), link_of(rt.alloc(), input.as_slice(), 0)?),
        "Truncated"
    );
    Ok(())
}

#[test]
fn a_head_of_too_many_fields_is_refused(rt: HostRuntime) -> Result<(), Fail> {
    let mut input = b"GET / HTTP/1.0\r\n".to_vec(rt.alloc())?;
    for _ in 0..65 {
        input.extend_from_slice(b"A: b\r\n")?;
    }
    input.extend_from_slice(b"\r\n")?;
    expect_head(rt.alloc(), input.as_slice(), "HeadTooLarge")
}

/// Three requests, one behind the other.
const PIPELINED: &[u8] =
    b"POST /a HTTP/1.1\r\nHost: h\r\nContent-Length: 5\r\n\r\nhello\r\nGET /b HTTP/1.0\r\n\r\n\
PUT /c HTTP/1.1\r\nHost: h\r\nContent-Length: 003\r\n\r\nxyz";

/// Their targets and bodies.
const REQUESTS: [(&str, &[u8]); 3] = [("/a", b"hello"), ("/b", b""), ("/c", b"xyz")];

/// Reads a body of the length that its head names.
fn read_counted<L: Link>(
    alloc: Global,
    wire: &mut Wire<L>,
    head: &Head,
) -> Result<Vec<u8>, ReadFault> {
    let mut body = Vec::new(alloc);
    add_bytes(alloc, wire, &mut body, head.length().unwrap_or(0) as usize)?;
    Ok(body)
}

/// Reads a request, and compares its target and its body.
fn expect_request<L: Link>(
    alloc: Global,
    wire: &mut Wire<L>,
    target: &str,
    body: &[u8],
) -> Result<(), Fail> {
    let HeadRead::Whole(head) = read_head(alloc, wire) else {
        return Err(Fail::new("no head"));
    };
    let bytes = read_counted(alloc, wire, &head)?;
    if head.target() == target && bytes.as_slice() == body {
        return Ok(());
    }
    Err(Fail::new("another request"))
}

/// Reads the three requests, and the end of the input behind them.
fn expect_requests<L: Link + Drop>(alloc: Global, link: L) -> Result<(), Fail> {
    let mut wire = Wire::new(alloc, link);
    for (target, body) in REQUESTS {
        expect_request(alloc, &mut wire, target, body)?;
    }
    if matches!(read_head(alloc, &mut wire), HeadRead::Ended) {
        return Ok(());
    }
    Err(Fail::new("more requests"))
}

#[test]
fn requests_follow_each_other(rt: HostRuntime) -> Result<(), Fail> {
    expect_requests(rt.alloc(), link_of(rt.alloc(), PIPELINED, 0)?)?;
    let slow = SlowLink {
        link: link_of(rt.alloc(), PIPELINED, 0)?,
    };
    expect_requests(rt.alloc(), slow)
}

/// Heads, and what is written before their bodies.
const WAITING: [(&[u8], &[u8]); 5] = [
    (
        b"PUT / HTTP/1.1\r\nHost: h\r\nExpect: 100-Continue\r\nContent-Length: 1\r\n\r\n",
        b"HTTP/1.1 100 Continue\r\n\r\n",
    ),
    (
        b"PUT / HTTP/1.1\r\nHost: h\r\nExpect: 100-continue\r\nTransfer-Encoding: chunked\r\n\r\n",
        b"HTTP/1.1 100 Continue\r\n\r\n",
    ),
    (
        b"PUT / HTTP/1.1\r\nHost: h\r\nExpect: 100-continue\r\nContent-Length: 0\r\n\r\n",
        b"",
    ),
    (
        b"PUT / HTTP/1.0\r\nHost: h\r\nExpect: 100-continue\r\nContent-Length: 1\r\n\r\n",
        b"",
    ),
    (
        b"PUT / HTTP/1.1\r\nHost: h\r\nExpect: 200-ok\r\nContent-Length: 1\r\n\r\n",
        b"",
    ),
];

/// Reads a head and compares what was written.
fn expect_written(alloc: Global, input: &[u8], written: &[u8]) -> Result<(), Fail> {
    let mut wire = Wire::new(alloc, link_of(alloc, input, 64)?);
    let read = read_head(alloc, &mut wire);
    let link = wire.into_link();
    if matches!(read, HeadRead::Whole(_)) && link.output() == written {
        return Ok(());
    }
    Err(Fail::new("another output"))
}

#[test]
fn a_waiting_client_is_asked_for_its_body(rt: HostRuntime) -> Result<(), Fail> {
    for (input, written) in WAITING {
        expect_written(rt.alloc(), input, written)?;
    }
    Ok(())
}

/// A request whose body has one byte of the 1,099,511,627,775 that it names.
const CUT_BODY: &[u8] = b"PUT / HTTP/1.0\r\nContent-Length: 1099511627775\r\n\r\nx";

#[test]
fn a_body_that_is_cut_ends_too_early(rt: HostRuntime) -> Result<(), Fail> {
    let mut wire = Wire::new(rt.alloc(), link_of(rt.alloc(), CUT_BODY, 0)?);
    let HeadRead::Whole(head) = read_head(rt.alloc(), &mut wire) else {
        return Err(Fail::new("no head"));
    };
    let read = read_counted(rt.alloc(), &mut wire, &head);
    assert!(rt; matches!(read, Err(ReadFault::Ended)));
    assert_eq!(rt; wire.faults(), 0);
    Ok(())
}

#[test]
fn a_call_that_fails_is_a_fault_of_the_link(rt: HostRuntime) -> Result<(), Fail> {
    let fails = [0u64].to_vec(rt.alloc())?;
    let link = MemoryLink::new(rt.alloc(), Vec::new(rt.alloc()), 0, fails)?;
    let mut wire = Wire::new(rt.alloc(), link);
    assert_eq!(rt; outcome(&read_head(rt.alloc(), &mut wire)), "LinkFault");
    assert_eq!(rt; write_no_memory(&mut wire), Err(Failed));
    assert_eq!(rt; wire.faults(), 2);
    Ok(())
}

/// An answer without a body of its own.
const EMPTY: Response<'static> = Response {
    status: StatusCode::OK,
    content_type: "application/json",
    body: b"{}",
    allow: None,
    closes: false,
    is_head: false,
};

/// Reads a request and answers it; None at the end of the input.
fn answer_one<L: Link>(alloc: Global, wire: &mut Wire<L>) -> Result<Option<()>, Failed> {
    let HeadRead::Whole(head) = read_head(alloc, wire) else {
        return Ok(None);
    };
    if read_counted(alloc, wire, &head).is_err() {
        return Ok(None);
    }
    if !EMPTY.has_short_head() {
        return Err(Failed);
    }
    write_response(wire, &EMPTY)?;
    Ok(Some(()))
}

/// Answers the three requests over a link that is lent, and sends what is left to be sent.
fn answer_all<L: Link>(alloc: Global, link: &mut L) -> Result<(), Failed> {
    let mut wire = Wire::new(alloc, link);
    for _ in 0..4 {
        if answer_one(alloc, &mut wire)?.is_none() {
            break;
        }
    }
    wire.send()
}

#[test]
fn requests_that_came_together_are_answered_together(rt: HostRuntime) -> Result<(), Fail> {
    let mut noted = NotedLink {
        link: link_of(rt.alloc(), PIPELINED, 256)?,
        calls: Vec::new(rt.alloc()),
    };
    answer_all(rt.alloc(), &mut noted)?;
    assert_eq!(rt; noted.calls.as_slice(), b"frwwwfr".as_slice());
    assert_eq!(rt; noted.link.sent().len(), 216);
    Ok(())
}

/// The length of a body, whether the method is HEAD, and the calls of the link for a short response and this one behind it.
const CALLS: [(usize, bool, &[u8]); 6] = [
    (0, false, b"wwf"),
    (2, false, b"wwf"),
    (65_536, false, b"wwf"),
    (65_537, false, b"wwwf"),
    (65_536, true, b"wwf"),
    (65_537, true, b"wwf"),
];

/// Writes two responses over a link that is lent, and sends them.
fn write_two<L: Link>(
    alloc: Global,
    link: &mut L,
    first: &Response<'_>,
    second: &Response<'_>,
) -> Result<(), Fail> {
    let mut wire = Wire::new(alloc, link);
    if !first.has_short_head() || !second.has_short_head() {
        return Err(Fail::new("a long head"));
    }
    write_response(&mut wire, first)?;
    write_response(&mut wire, second)?;
    wire.send()?;
    Ok(())
}

/// Appends the bytes of a response.
fn add_response(output: &mut Vec<u8>, response: &Response<'_>) -> Result<(), Fail> {
    if !response.has_short_head() {
        return Err(Fail::new("a long head"));
    }
    output.extend_from_slice(head_text(response).as_slice())?;
    output.extend_from_slice(sent_body(response))?;
    Ok(())
}

/// Writes a short response and one with a body of this length, sends both, and compares the calls and the bytes.
fn expect_calls(alloc: Global, len: usize, is_head: bool, expected: &[u8]) -> Result<(), Fail> {
    let body = vec![in alloc; b'x'; len]?;
    let response = Response {
        status: StatusCode::OK,
        content_type: "text/plain",
        body: body.as_slice(),
        allow: None,
        closes: false,
        is_head,
    };
    let mut noted = NotedLink {
        link: link_of(alloc, b"", 140_000)?,
        calls: Vec::new(alloc),
    };
    write_two(alloc, &mut noted, &EMPTY, &response)?;
    let mut output = Vec::new(alloc);
    add_response(&mut output, &EMPTY)?;
    add_response(&mut output, &response)?;
    if noted.calls.as_slice() == expected && noted.link.sent() == output.as_slice() {
        return Ok(());
    }
    Err(Fail::new("other calls or bytes"))
}

#[test]
fn a_response_is_one_write_unless_its_body_is_long(rt: HostRuntime) -> Result<(), Fail> {
    for (len, is_head, calls) in CALLS {
        expect_calls(rt.alloc(), len, is_head, calls)?;
    }
    Ok(())
}

#[test]
fn nothing_waits_while_the_link_is_read(rt: HostRuntime) -> Result<(), Fail> {
    let mut slow = SlowLink {
        link: link_of(rt.alloc(), PIPELINED, 256)?,
    };
    answer_all(rt.alloc(), &mut slow)?;
    assert_eq!(rt; slow.link.sent().len(), 216);
    Ok(())
}

/// The head of a file of five bytes, whose connection goes on.
const FILE_HEAD: &[u8] =
    b"HTTP/1.1 200 OK\r\nContent-Type: application/octet-stream\r\nContent-Length: 5\r\n\r\n";

/// The same, where it closes.
const LAST_FILE_HEAD: &[u8] = b"HTTP/1.1 200 OK\r\nContent-Type: application/octet-stream\r\n\
Content-Length: 5\r\nConnection: close\r\n\r\n";

#[test]
fn the_head_of_bytes_is_written_before_them(rt: HostRuntime) -> Result<(), Fail> {
    let mut wire = Wire::new(rt.alloc(), link_of(rt.alloc(), b"", 512)?);
    write_bytes_head(&mut wire, 5, false)?;
    wire.write(b"hello")?;
    write_bytes_head(&mut wire, 5, true)?;
    wire.send()?;
    let link = wire.into_link();
    let mut expected = FILE_HEAD.to_vec(rt.alloc())?;
    expected.extend_from_slice(b"hello")?;
    expected.extend_from_slice(LAST_FILE_HEAD)?;
    assert_eq!(rt; link.sent(), expected.as_slice());
    Ok(())
}

/// Takes what may go into a thread.
fn take_away<T: Send + Drop>(_value: T) {}

#[test]
fn a_wire_goes_into_threads(rt: HostRuntime) -> Result<(), Fail> {
    take_away(Wire::new(rt.alloc(), link_of(rt.alloc(), b"", 0)?));
    Ok(())
}
