//! Bodies in chunks, and files longer than a piece, over both ports.

use crate::ports::{
    CLOSE, NOTHING_KEPT, Talk, content, expect_both, expect_from_office, json, request,
};
use browse_http::End;
use std::alloc::{AllocError, Global};
use std::test::Fail;

/// A put of the file `a` into the first dump, up to its fields.
const PUT: &str = "PUT /dumps/1-0/entry?path=a&kind=file";

/// A request whose body comes in these chunks.
fn chunked(alloc: Global, line: &str, chunks: &str) -> Result<String, AllocError> {
    format!(in alloc; "{line} HTTP/1.1\r\nHost: b\r\nTransfer-Encoding: chunked\r\n\r\n{chunks}")
}

/// A conversation in which the host `pc1` has an open dump.
fn opened(alloc: Global) -> Result<Talk, Fail> {
    let mut talk = Talk::new(alloc, "", "")?;
    talk.ask(alloc, "PUT /hosts/pc1", "201 Created", "{\"host\":\"pc1\"}")?;
    talk.ask(
        alloc,
        "POST /hosts/pc1/dumps?kind=full",
        "201 Created",
        "{\"dump\":\"1-0\"}",
    )?;
    Ok(talk)
}

/// Goes on with the commit, and a read of the file `a`, which has these bytes.
fn committed(alloc: Global, talk: &mut Talk, bytes: &str) -> Result<(), Fail> {
    talk.ask(
        alloc,
        "POST /dumps/1-0/commit",
        "201 Created",
        "{\"number\":0}",
    )?;
    talk.read(alloc, "GET /hosts/pc1/backups/0/file?path=a", bytes)?;
    Ok(())
}

/// Chunks that carry `hello`.
const HELLOS: [&str; 5] = [
    "4\r\nhell\r\n1\r\no\r\n0\r\n\r\n",
    "5\r\nhello\r\n000\r\n\r\n",
    "005;name=value\r\nhello\r\n0;last\r\n\r\n",
    "5\r\nhello\r\n0\r\nTrailer: dropped\r\n\r\n",
    "1\r\nh\r\n1\r\ne\r\n1\r\nl\r\n1\r\nl\r\n1\r\no\r\n0\r\n\r\n",
];

#[test]
fn chunks_carry_a_body(rt: HostRuntime) -> Result<(), Fail> {
    let alloc = rt.alloc();
    for chunks in HELLOS {
        let mut talk = opened(alloc)?;
        let asked = chunked(alloc, PUT, chunks)?;
        let told = json(alloc, "200 OK", "", "{}")?;
        talk.go_on(asked.as_str(), told.as_str())?;
        committed(alloc, &mut talk, "hello")?;
        talk.expect(&rt, &End::Ended)?;
    }
    Ok(())
}

/// What breaks the grammar of chunks, or announces too much; the status and the name of what refuses it.
const BROKEN: [(&str, &str, &str); 6] = [
    ("zz\r\n", "400 Bad Request", "BadChunk"),
    ("\r\nhello\r\n0\r\n\r\n", "400 Bad Request", "BadChunk"),
    ("5\r\nhelloX", "400 Bad Request", "BadChunk"),
    (
        "5\r\nhello\r\n0\r\n: no name\r\n\r\n",
        "400 Bad Request",
        "BadChunk",
    ),
    ("10000000000\r\n", "413 Payload Too Large", "FileTooLarge"),
    (
        "5\r\nhello\r\nfffffffffb\r\n",
        "413 Payload Too Large",
        "FileTooLarge",
    ),
];

/// The connection ends, nothing was put, and nothing behind it is read.
#[test]
fn a_broken_chunk_ends_the_connection(rt: HostRuntime) -> Result<(), Fail> {
    let alloc = rt.alloc();
    for (chunks, status, name) in BROKEN {
        let mut talk = opened(alloc)?;
        let asked = chunked(alloc, PUT, chunks)?;
        let body = format!(in alloc; "{{\"refused\":\"{name}\"}}")?;
        let told = json(alloc, status, CLOSE, body.as_str())?;
        talk.go_on(asked.as_str(), told.as_str())?;
        expect_both(
            &rt,
            &[talk.asked(), "GET /stats HTTP/1.1\r\nHost: b\r\n\r\n"],
            &[talk.told()],
            &End::BadRequest,
        )?;
    }
    Ok(())
}

/// Route and query are judged before the body is read; their refusals are answered behind it, and the connection goes on.
#[test]
fn a_refused_request_drops_its_chunks(rt: HostRuntime) -> Result<(), Fail> {
    let alloc = rt.alloc();
    let mut talk = Talk::new(alloc, "", "")?;
    for (line, status, name) in [
        ("PUT /nowhere", "404 Not Found", "NoRoute"),
        (
            "PUT /dumps/1-0/entry?path=a",
            "400 Bad Request",
            "BadQuery.Missing",
        ),
        (PUT, "404 Not Found", "NoSession"),
    ] {
        let asked = chunked(alloc, line, "5\r\nhello\r\n0\r\n\r\n")?;
        let body = format!(in alloc; "{{\"refused\":\"{name}\"}}")?;
        let told = json(alloc, status, "", body.as_str())?;
        talk.go_on(asked.as_str(), told.as_str())?;
    }
    talk.ask(alloc, "GET /stats", "200 OK", NOTHING_KEPT)?;
    talk.expect(&rt, &End::Ended)
}

/// So many letters.
fn letters(alloc: Global, count: usize) -> Result<String, Fail> {
    let mut bytes = b"a piece".to_vec(alloc)?;
    bytes.resize(count, b'x')?;
    Ok(String::from_utf8(bytes)?)
}

/// Files about one and two pieces long come back, by their length and in one chunk.
#[test]
fn a_file_longer_than_a_piece_comes_back(rt: HostRuntime) -> Result<(), Fail> {
    let alloc = rt.alloc();
    for size in [65_535, 65_536, 65_537, 100_000] {
        let bytes = letters(alloc, size)?;
        let mut talk = opened(alloc)?;
        talk.put(alloc, PUT, bytes.as_str())?;
        let chunks = format!(in alloc; "{size:x}\r\n{bytes}\r\n0\r\n\r\n")?;
        let asked = chunked(alloc, PUT, chunks.as_str())?;
        let told = json(alloc, "200 OK", "", "{}")?;
        talk.go_on(asked.as_str(), told.as_str())?;
        committed(alloc, &mut talk, bytes.as_str())?;
        talk.expect(&rt, &End::Ended)?;
    }
    Ok(())
}

/// A long body that doesn't end has no response, and nothing was put.
#[test]
fn a_long_body_that_is_cut_is_not_put(rt: HostRuntime) -> Result<(), Fail> {
    let alloc = rt.alloc();
    let bytes = letters(alloc, 70_000)?;
    let talk = opened(alloc)?;
    let asked = format!(in alloc;
        "{PUT} HTTP/1.1\r\nHost: b\r\nContent-Length: 100000\r\n\r\n{bytes}"
    )?;
    expect_both(
        &rt,
        &[talk.asked(), asked.as_str()],
        &[talk.told()],
        &End::Truncated,
    )
}

/// A target of more than 4,096 bytes is refused by the first 4,097, whatever the length of the body.
#[test]
fn a_long_target_is_refused(rt: HostRuntime) -> Result<(), Fail> {
    let alloc = rt.alloc();
    let mut talk = opened(alloc)?;
    for (size, status, body) in [
        (4_096, "200 OK", "{}"),
        (4_097, "400 Bad Request", "{\"refused\":\"BadTarget\"}"),
        (100_000, "400 Bad Request", "{\"refused\":\"BadTarget\"}"),
    ] {
        let target = letters(alloc, size)?;
        let asked = request(
            alloc,
            "PUT /dumps/1-0/entry?path=l&kind=link",
            Some(target.as_str()),
        )?;
        let told = json(alloc, status, "", body)?;
        talk.go_on(asked.as_str(), told.as_str())?;
    }
    talk.expect(&rt, &End::Ended)
}

/// An empty file is read to its end at once.
#[test]
fn an_empty_file_comes_back(rt: HostRuntime) -> Result<(), Fail> {
    let alloc = rt.alloc();
    let mut talk = opened(alloc)?;
    let asked = chunked(alloc, PUT, "0\r\n\r\n")?;
    let told = json(alloc, "200 OK", "", "{}")?;
    talk.go_on(asked.as_str(), told.as_str())?;
    committed(alloc, &mut talk, "")?;
    let whole = content(alloc, "")?;
    expect_from_office(
        alloc,
        &[
            talk.asked(),
            "GET /hosts/pc1/backups/0/file?path=a HTTP/1.1\r\nHost: b\r\n\r\n",
        ],
        &[talk.told(), whole.as_str()],
        &End::Ended,
    )?;
    talk.expect(&rt, &End::Ended)
}
