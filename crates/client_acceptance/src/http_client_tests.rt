use http::StatusCode;
use http_client::*;
use http_wire::*;
use slow_links::{SlowLink, link_of};
use std::alloc::Global;
use std::test::Fail;
use stream_traits::{Link, MemoryLink};

/// The most bytes of a body that these tests take.
const MOST: u32 = 9;

fn outcome(read: &ResponseRead) -> &'static str {
    match read {
        ResponseRead::Response { .. } => "Response",
        ResponseRead::Ended => "Ended",
        ResponseRead::Truncated => "Truncated",
        ResponseRead::Foreign => "Foreign",
        ResponseRead::TooLong => "TooLong",
        ResponseRead::LinkFault => "LinkFault",
        ResponseRead::Memory => "Memory",
    }
}

/// What reading a response over a link comes to.
fn read_over<L: Link + Drop>(alloc: Global, link: L) -> &'static str {
    let mut wire = Wire::new(alloc, link);
    outcome(&read_response(alloc, &mut wire, MOST))
}

/// Responses, whole.
const WHOLE: [&[u8]; 8] = [
    b"HTTP/1.1 200 OK\r\nContent-Type: application/json\r\nContent-Length: 5\r\n\r\nhello",
    b"\r\n\nHTTP/1.0 404 \ncontent-length:5\n\nhello",
    b"HTTP/1.1 200\r\nContent-Length: \t5 \r\n\r\nhello",
    b"HTTP/1.1 999 \xff\r\nContent-Length: 0005\r\n\r\nhello",
    b"HTTP/1.1 201 Created\r\nContent-Length: 0\r\n\r\n",
    b"HTTP/1.1 200 OK\r\nContent-Length: 000000000000000000000000000009\r\n\r\n123456789",
    b"HTTP/1.1 205 Reset Content\r\nConnection: close\r\nContent-Length: 1\r\n\r\nx",
    b"HTTP/1.1 507 Insufficient Storage\r\nContent-Length: 0\r\nConnection: close\r\n\r\n",
];

/// What is no response, and what it comes to.
const OTHERS: [(&[u8], &str); 34] = [
    (b"", "Ended"),
    (b"\r\n\n\r\n", "Ended"),
    (b"\r\n\r", "Truncated"),
    (b"HTTP/1.1 200 OK\r\n\r\nhello", "Foreign"),
    (b"HTTP/1.1 200 OK\r\nLength: 5\r\n\r\nhello", "Foreign"),
    (
        b"HTTP/1.1 200 OK\r\nContent-Length: 5\r\nContent-Length: 5\r\n\r\nhello",
        "Foreign",
    ),
    (
        b"HTTP/1.1 200 OK\r\nContent-Length: 5\r\ncontent-length: 6\r\n\r\nhello",
        "Foreign",
    ),
    (
        b"HTTP/1.1 200 OK\r\nContent-Length: 5, 5\r\n\r\nhello",
        "Foreign",
    ),
    (
        b"HTTP/1.1 200 OK\r\nContent-Length: +5\r\n\r\nhello",
        "Foreign",
    ),
    (
        b"HTTP/1.1 200 OK\r\nContent-Length: -5\r\n\r\nhello",
        "Foreign",
    ),
    (b"HTTP/1.1 200 OK\r\nContent-Length: \r\n\r\n", "Foreign"),
    (
        b"HTTP/1.1 200 OK\r\nContent-Length: 0x5\r\n\r\nhello",
        "Foreign",
    ),
    (
        b"HTTP/1.1 200 OK\r\nContent-Length: 5.0\r\n\r\nhello",
        "Foreign",
    ),
    (
        b"HTTP/1.1 200 OK\r\nTransfer-Encoding: chunked\r\n\r\n0\r\n\r\n",
        "Foreign",
    ),
    (
        b"HTTP/1.1 200 OK\r\nTransfer-Encoding: chunked\r\nContent-Length: 5\r\n\r\n0\r\n\r\n",
        "Foreign",
    ),
    (
        b"HTTP/1.1 200 OK\r\nContent-Length: 5\r\ntransfer-encoding: identity\r\n\r\nhello",
        "Foreign",
    ),
    (b"HTTP/1.1 100 Continue\r\n\r\n", "Foreign"),
    (
        b"HTTP/1.1 101 Switching Protocols\r\nContent-Length: 0\r\n\r\n",
        "Foreign",
    ),
    (b"HTTP/1.1 000 \r\nContent-Length: 0\r\n\r\n", "Foreign"),
    (
        b"HTTP/1.1 204 No Content\r\nContent-Length: 0\r\n\r\n",
        "Foreign",
    ),
    (
        b"HTTP/1.1 304 Not Modified\r\nContent-Length: 5\r\n\r\nhello",
        "Foreign",
    ),
    (b"HTTP/2.0 200 OK\r\n", "Foreign"),
    (b"HTTP/1.1 20 OK\r\n", "Foreign"),
    (b"HTTP/1.1 2000 OK\r\n", "Foreign"),
    (b"HTTP/1.1 +20 OK\r\n", "Foreign"),
    (b"GET / HTTP/1.1\r\nHost: h\r\n\r\n", "Foreign"),
    (b"SSH-2.0-OpenSSH_9.2\r\n", "Foreign"),
    (
        b"HTTP/1.1 200 OK\r\nA : b\r\nContent-Length: 0\r\n\r\n",
        "Foreign",
    ),
    (
        b"HTTP/1.1 200 OK\r\nContent-Length: 0\r\n B: c\r\n\r\n",
        "Foreign",
    ),
    (
        b"HTTP/1.1 200 OK\r\nContent-Length: 10\r\n\r\n1234567890",
        "TooLong",
    ),
    (
        b"HTTP/1.1 200 OK\r\nContent-Length: 4294967296\r\n\r\nhello",
        "TooLong",
    ),
    (
        b"HTTP/1.1 200 OK\r\nContent-Length: 1099511627775\r\n\r\nhello",
        "TooLong",
    ),
    (
        b"HTTP/1.1 200 OK\r\nContent-Length: 1099511627776\r\n\r\nhello",
        "TooLong",
    ),
    (
        b"HTTP/1.1 200 OK\r\nContent-Length: 18446744073709551621\r\n\r\nhello",
        "TooLong",
    ),
];

/// Compares what an input comes to, read in one piece and byte for byte.
fn expect_read(alloc: Global, input: &[u8], expected: &str) -> Result<(), Fail> {
    let whole = read_over(alloc, link_of(alloc, input, 0)?);
    let slow = SlowLink {
        link: link_of(alloc, input, 0)?,
    };
    if whole == expected && read_over(alloc, slow) == expected {
        return Ok(());
    }
    Err(Fail::new("another outcome"))
}

#[test]
fn each_input_has_its_outcome(rt: HostRuntime) -> Result<(), Fail> {
    for input in WHOLE {
        expect_read(rt.alloc(), input, "Response")?;
    }
    for (input, expected) in OTHERS {
        expect_read(rt.alloc(), input, expected)?;
    }
    Ok(())
}

/// Reads the front of a response: an end if it is empty lines, else a cut.
fn expect_cut(alloc: Global, front: &[u8]) -> Result<(), Fail> {
    let found = read_over(alloc, link_of(alloc, front, 0)?);
    let expected = match front {
        b"" | b"\r\n" | b"\r\n\n" => "Ended",
        _ => "Truncated",
    };
    if found == expected {
        return Ok(());
    }
    Err(Fail::new("another outcome of a cut response"))
}

#[test]
fn a_response_that_is_cut_at_any_byte_is_truncated(rt: HostRuntime) -> Result<(), Fail> {
    for input in WHOLE {
        for cut in 0..input.len() {
            expect_cut(rt.alloc(), &input[..cut])?;
        }
    }
    Ok(())
}

#[test]
fn what_is_foreign_or_too_long_stays_so(rt: HostRuntime) -> Result<(), Fail> {
    for (input, expected) in OTHERS {
        if expected == "Foreign" || expected == "TooLong" {
            let mut longer = input.to_vec(rt.alloc())?;
            longer.extend_from_slice(b"HTTP/1.1 200 OK\r\nContent-Length: 0\r\n\r\n")?;
            expect_read(rt.alloc(), longer.as_slice(), expected)?;
        }
    }
    Ok(())
}

/// A response whose head has so many bytes.
fn with_head_of(alloc: Global, len: usize) -> Result<Vec<u8>, Fail> {
    let mut input = b"HTTP/1.1 200 OK\r\nContent-Length: 1\r\nA: ".to_vec(alloc)?;
    if len < 4 {
        return Err(Fail::new("a short head"));
    }
    input.resize(len - 4, b'a')?;
    input.extend_from_slice(b"\r\n\r\nx")?;
    Ok(input)
}

/// The first bytes of an input.
fn front_of(input: &[u8], len: usize) -> Result<&[u8], Fail> {
    match input.get(..len) {
        Some(front) => Ok(front),
        None => Err(Fail::new("a shorter input")),
    }
}

#[test]
fn a_head_has_at_most_16_384_bytes(rt: HostRuntime) -> Result<(), Fail> {
    let most = with_head_of(rt.alloc(), 16_384)?;
    expect_read(rt.alloc(), most.as_slice(), "Response")?;
    let longer = with_head_of(rt.alloc(), 16_385)?;
    expect_read(rt.alloc(), longer.as_slice(), "Foreign")?;
    expect_read(rt.alloc(), front_of(longer.as_slice(), 16_384)?, "Foreign")?;
    expect_read(
        rt.alloc(),
        front_of(longer.as_slice(), 16_383)?,
        "Truncated",
    )
}

/// A response whose head has so many fields.
fn with_fields(alloc: Global, count: usize) -> Result<Vec<u8>, Fail> {
    let mut input = b"HTTP/1.1 200 OK\r\n".to_vec(alloc)?;
    for _ in 1..count {
        input.extend_from_slice(b"A: b\r\n")?;
    }
    input.extend_from_slice(b"Content-Length: 1\r\n\r\nx")?;
    Ok(input)
}

#[test]
fn a_head_has_at_most_64_fields(rt: HostRuntime) -> Result<(), Fail> {
    expect_read(
        rt.alloc(),
        with_fields(rt.alloc(), 64)?.as_slice(),
        "Response",
    )?;
    expect_read(
        rt.alloc(),
        with_fields(rt.alloc(), 65)?.as_slice(),
        "Foreign",
    )
}

/// Reads a response, and compares its status and its body.
fn expect_response<L: Link>(
    alloc: Global,
    wire: &mut Wire<L>,
    most: u32,
    status: u16,
    body: &[u8],
) -> Result<(), Fail> {
    match read_response(alloc, wire, most) {
        ResponseRead::Response {
            status: found,
            body: bytes,
        } if found == status && bytes.as_slice() == body => Ok(()),
        _ => Err(Fail::new("another response")),
    }
}

/// Three responses, one behind the other.
const PIPELINED: &[u8] =
    b"HTTP/1.1 200 OK\r\nContent-Length: 5\r\n\r\nhello\r\nHTTP/1.1 404 Not Found\r\n\
Content-Length: 0\r\n\r\nHTTP/1.1 201 Created\r\nContent-Length: 3\r\n\r\nxyz";

/// Reads the three responses, and the end of the input behind them.
fn expect_responses<L: Link + Drop>(alloc: Global, link: L) -> Result<(), Fail> {
    let mut wire = Wire::new(alloc, link);
    expect_response(alloc, &mut wire, MOST, 200, b"hello")?;
    expect_response(alloc, &mut wire, MOST, 404, b"")?;
    expect_response(alloc, &mut wire, MOST, 201, b"xyz")?;
    if outcome(&read_response(alloc, &mut wire, MOST)) == "Ended" {
        return Ok(());
    }
    Err(Fail::new("more responses"))
}

#[test]
fn responses_follow_each_other(rt: HostRuntime) -> Result<(), Fail> {
    expect_responses(rt.alloc(), link_of(rt.alloc(), PIPELINED, 0)?)?;
    let slow = SlowLink {
        link: link_of(rt.alloc(), PIPELINED, 0)?,
    };
    expect_responses(rt.alloc(), slow)
}

#[test]
fn a_response_that_is_too_long_is_left(rt: HostRuntime) -> Result<(), Fail> {
    let mut wire = Wire::new(rt.alloc(), link_of(rt.alloc(), PIPELINED, 0)?);
    let read = read_response(rt.alloc(), &mut wire, 4);
    assert_eq!(rt; outcome(&read), "TooLong");
    expect_response(rt.alloc(), &mut wire, 5, 200, b"hello")
}

/// Reads a response over a link that gives one byte at a time and one of whose calls fails, and compares what comes of it and the
/// count of faults.
fn expect_fault(alloc: Global, input: &[u8], call: u64) -> Result<(), Fail> {
    let fails = [call].to_vec(alloc)?;
    let link = MemoryLink::new(alloc, input.to_vec(alloc)?, 0, fails)?;
    let mut wire = Wire::new(alloc, SlowLink { link });
    let read = read_response(alloc, &mut wire, MOST);
    if outcome(&read) == "LinkFault" && wire.faults() == 1 {
        return Ok(());
    }
    Err(Fail::new("another fault"))
}

#[test]
fn a_call_that_fails_is_a_fault_of_the_link(rt: HostRuntime) -> Result<(), Fail> {
    for input in WHOLE {
        for call in 0..=input.len() {
            expect_fault(rt.alloc(), input, call as u64)?;
        }
    }
    Ok(())
}

/// Requests, and their bytes.
const REQUESTS: [(Request<'static>, &[u8]); 4] = [
    (
        Request {
            method: "GET",
            target: "/hosts?after=3",
            host: "backup.example:8070",
            body: None,
        },
        b"GET /hosts?after=3 HTTP/1.1\r\nHost: backup.example:8070\r\n\r\n",
    ),
    (
        Request {
            method: "POST",
            target: "/hosts/pc1/backups/0/restores",
            host: "h",
            body: Some(b""),
        },
        b"POST /hosts/pc1/backups/0/restores HTTP/1.1\r\nHost: h\r\nContent-Length: 0\r\n\r\n",
    ),
    (
        Request {
            method: "PUT",
            target: "/a%20b",
            host: "[::1]",
            body: Some(b"hello\r\n\r\n!"),
        },
        b"PUT /a%20b HTTP/1.1\r\nHost: [::1]\r\nContent-Length: 10\r\n\r\nhello\r\n\r\n!",
    ),
    (
        Request {
            method: "DELETE",
            target: "/",
            host: "",
            body: None,
        },
        b"DELETE / HTTP/1.1\r\nHost: \r\n\r\n",
    ),
];

/// Writes a request over a link of so much room, and gives the link back with what came of it.
fn write_over(
    alloc: Global,
    request: &Request<'_>,
    room: usize,
) -> Result<(Result<(), WireFault>, MemoryLink), Fail> {
    let mut wire = Wire::new(alloc, link_of(alloc, b"", room)?);
    let wrote = write_request(alloc, &mut wire, request);
    Ok((wrote, wire.into_link()))
}

/// Writes a request, and compares its bytes; with less room the link fails, and has a front of them.
fn expect_bytes(alloc: Global, request: &Request<'_>, bytes: &[u8]) -> Result<(), Fail> {
    let (wrote, link) = write_over(alloc, request, bytes.len())?;
    if wrote != Ok(()) || link.output() != bytes || !link.sent().is_empty() {
        return Err(Fail::new("other bytes"));
    }
    for room in 0..bytes.len() {
        let (wrote, link) = write_over(alloc, request, room)?;
        if wrote != Err(WireFault::LinkFault) || link.output() != &bytes[..room] {
            return Err(Fail::new("no fault, or other bytes"));
        }
    }
    Ok(())
}

#[test]
fn requests_have_their_bytes(rt: HostRuntime) -> Result<(), Fail> {
    for (request, bytes) in REQUESTS {
        expect_bytes(rt.alloc(), &request, bytes)?;
    }
    Ok(())
}

/// A request of a method, a target and a host.
fn plain_get<'a>(method: &'a str, target: &'a str, host: &'a str) -> Request<'a> {
    Request {
        method,
        target,
        host,
        body: None,
    }
}

/// Methods, targets and hosts, and whether a server reads them as they are.
const TEXTS: [(&str, &str, &str, bool); 19] = [
    ("GET", "/", "h", true),
    ("M-SEARCH", "*", "[::1]:80", true),
    ("!#$%&'*+-.^_`|~09azAZ", "/\u{e4}?a=%20&b#c", "", true),
    ("GET", "/", "a host", true),
    ("GET", "/", "\ta\u{e4}", true),
    ("", "/", "h", false),
    ("GE T", "/", "h", false),
    ("GET\r\n", "/", "h", false),
    ("G(T", "/", "h", false),
    ("G\u{e4}T", "/", "h", false),
    ("GET", "", "h", false),
    ("GET", "/a b", "h", false),
    ("GET", "/\r\nA: b", "h", false),
    ("GET", "/\t", "h", false),
    ("GET", "/\u{7f}", "h", false),
    ("GET", "/", "h\r\nA: b", false),
    ("GET", "/", "h\n", false),
    ("GET", "/", "h\u{0}", false),
    ("GET", "/", "h\u{7f}", false),
];

#[test]
fn a_request_is_plain_if_its_texts_may_stand_in_a_head(rt: HostRuntime) -> Result<(), Fail> {
    for (method, target, host, is_plain) in TEXTS {
        assert_eq!(rt; plain_get(method, target, host).is_plain(), is_plain);
    }
    for (request, _) in REQUESTS {
        assert!(rt; request.is_plain());
    }
    Ok(())
}

#[test]
fn a_plain_request_has_a_head_of_at_most_16_384_bytes(rt: HostRuntime) -> Result<(), Fail> {
    let mut target = String::from_str(rt.alloc(), "/")?;
    for _ in 1..16_358 {
        target.push('a')?;
    }
    let longest = plain_get("GET", target.as_str(), "h");
    assert!(rt; longest.is_plain());
    let (wrote, link) = write_over(rt.alloc(), &longest, 16_384)?;
    assert_eq!(rt; wrote, Ok(()));
    assert_eq!(rt; link.output().len(), 16_384);
    let mut server = Wire::new(rt.alloc(), link_of(rt.alloc(), link.output(), 0)?);
    expect_head(rt.alloc(), &mut server, &longest)?;
    target.push('a')?;
    assert!(rt; !plain_get("GET", target.as_str(), "h").is_plain());
    Ok(())
}

/// Reads a request as a server does, and compares all that it says.
fn expect_head<L: Link>(
    alloc: Global,
    wire: &mut Wire<L>,
    request: &Request<'_>,
) -> Result<(), Fail> {
    let HeadRead::Whole(head) = read_head(alloc, wire) else {
        return Err(Fail::new("no head"));
    };
    let mut body = Vec::new(alloc);
    let length = head.length();
    add_bytes(alloc, wire, &mut body, length.unwrap_or(0) as usize)?;
    let is_same_head = head.method() == request.method.as_bytes()
        && head.target() == request.target
        && head.version() == Version::Http11;
    let is_plain = !head.is_chunked() && !head.expects_continue() && !head.closes();
    let is_same_body = match request.body {
        None => length.is_none(),
        Some(bytes) => length == Some(bytes.len() as u64) && body.as_slice() == bytes,
    };
    if is_same_head && is_plain && is_same_body {
        return Ok(());
    }
    Err(Fail::new("another head"))
}

#[test]
fn the_servers_end_reads_what_the_clients_end_wrote(rt: HostRuntime) -> Result<(), Fail> {
    let mut wire = Wire::new(rt.alloc(), link_of(rt.alloc(), b"", 1_024)?);
    for (request, _) in REQUESTS {
        write_request(rt.alloc(), &mut wire, &request)?;
    }
    let link = wire.into_link();
    let mut server = Wire::new(rt.alloc(), link_of(rt.alloc(), link.output(), 0)?);
    for (request, _) in REQUESTS {
        expect_head(rt.alloc(), &mut server, &request)?;
    }
    assert!(rt; matches!(read_head(rt.alloc(), &mut server), HeadRead::Ended));
    Ok(())
}

/// A response of the server's end.
const ANSWER: Response<'static> = Response {
    status: StatusCode::METHOD_NOT_ALLOWED,
    content_type: "application/json",
    body: b"{\"a\":1}",
    allow: Some("GET, PUT"),
    closes: true,
    is_head: false,
};

#[test]
fn the_clients_end_reads_what_the_servers_end_wrote(rt: HostRuntime) -> Result<(), Fail> {
    let mut server = Wire::new(rt.alloc(), link_of(rt.alloc(), b"", 1_024)?);
    assert!(rt; ANSWER.has_short_head());
    write_response(&mut server, &ANSWER)?;
    write_bytes_head(&mut server, 5, false)?;
    server.write(b"hello")?;
    write_no_memory(&mut server)?;
    let link = server.into_link();
    let mut wire = Wire::new(rt.alloc(), link_of(rt.alloc(), link.output(), 0)?);
    expect_response(rt.alloc(), &mut wire, MOST, 405, b"{\"a\":1}")?;
    expect_response(rt.alloc(), &mut wire, MOST, 200, b"hello")?;
    expect_response(rt.alloc(), &mut wire, MOST, 507, b"")?;
    assert_eq!(rt;
        outcome(&read_response(rt.alloc(), &mut wire, MOST)),
        "Ended"
    );
    Ok(())
}
