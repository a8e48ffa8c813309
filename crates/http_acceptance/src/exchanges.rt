//! Heads, bodies and connections, over both ports.

use crate::ports::{
    CLOSE, COMMIT, COMMITTED, CONTENT, CONTINUE, NOTHING_KEPT, READ, Talk, expect_both,
    expect_from_office, json,
};
use browse_http::End;
use std::alloc::Global;
use std::test::Fail;

#[test]
fn a_plain_office_answers_as_the_store(rt: HostRuntime) -> Result<(), Fail> {
    expect_from_office(
        rt.alloc(),
        &[COMMIT, READ],
        &[COMMITTED, CONTENT],
        &End::Ended,
    )
}

/// Makes a host and opens its dump.
const OPEN: &str = "PUT /hosts/pc1 HTTP/1.1\r\nHost: b\r\n\r\n\
    POST /hosts/pc1/dumps?kind=full HTTP/1.1\r\nHost: b\r\n\r\n";

const OPENED: &str =
    "HTTP/1.1 201 Created\r\nContent-Type: application/json\r\nContent-Length: 14\r\n\r\n{\"host\":\"pc1\"}\
    HTTP/1.1 201 Created\r\nContent-Type: application/json\r\nContent-Length: 14\r\n\r\n{\"dump\":\"1-0\"}";

/// Requests with a body and a field `Expect`, what is sent before the body is read, and the status and the body of the response.
const EXPECTING: [(&str, &str, &str, &str); 8] = [
    (
        "PUT /dumps/1-0/entry?path=a&kind=file HTTP/1.1\r\nHost: b\r\nExpect: 100-continue\r\nContent-Length: 5\r\n\r\nhello",
        CONTINUE,
        "200 OK",
        "{}",
    ),
    (
        "PUT /dumps/1-0/entry?path=a&kind=file HTTP/1.1\r\nexpect: 100-CONTINUE\r\nHost: b\r\nContent-Length: 005\r\n\r\nhello",
        CONTINUE,
        "200 OK",
        "{}",
    ),
    (
        "PUT /dumps/1-0/entry?path=b&kind=file HTTP/1.1\r\nHost: b\r\nExpect: 100-continue\r\nContent-Length: 0\r\n\r\n",
        "",
        "200 OK",
        "{}",
    ),
    (
        "PUT /dumps/1-0/entry?path=c&kind=dir HTTP/1.1\r\nHost: b\r\nExpect: 100-continue\r\n\r\n",
        "",
        "200 OK",
        "{}",
    ),
    (
        "PUT /dumps/1-0/entry?path=d&kind=file HTTP/1.1\r\nHost: b\r\nExpect: 200-ok\r\nContent-Length: 1\r\n\r\nx",
        "",
        "200 OK",
        "{}",
    ),
    // Bodies that no event has are passed over, those of refused requests, too.
    (
        "POST /night/sweep HTTP/1.1\r\nHost: b\r\nExpect: 100-continue\r\nContent-Length: 24\r\n\r\nGET /stats HTTP/1.0\r\n\r\nx",
        CONTINUE,
        "200 OK",
        "{}",
    ),
    (
        "PUT /hosts/A HTTP/1.1\r\nHost: b\r\nExpect: 100-continue\r\nContent-Length: 24\r\n\r\nGET /stats HTTP/1.0\r\n\r\nx",
        CONTINUE,
        "400 Bad Request",
        "{\"refused\":\"BadName\"}",
    ),
    (
        "POST / HTTP/1.1\r\nHost: b\r\nExpect: 100-continue\r\nContent-Length: 2\r\n\r\n\r\n",
        CONTINUE,
        "404 Not Found",
        "{\"refused\":\"NoRoute\"}",
    ),
];

/// A client of version 1.0 isn't told to go on.
const OLD_CLIENT: &str =
    "PUT /dumps/1-0/entry?path=e&kind=file HTTP/1.0\r\nExpect: 100-continue\r\nContent-Length: 1\r\n\r\nx";

#[test]
fn a_client_that_waits_is_told_to_go_on(rt: HostRuntime) -> Result<(), Fail> {
    let alloc = rt.alloc();
    let mut talk = Talk::new(alloc, OPEN, OPENED)?;
    for (asked, before, status, body) in EXPECTING {
        let told = json(alloc, status, "", body)?;
        talk.go_on(asked, before)?;
        talk.go_on("", told.as_str())?;
    }
    let told = json(alloc, "200 OK", CLOSE, "{}")?;
    talk.go_on(OLD_CLIENT, told.as_str())?;
    talk.expect(&rt, &End::Ended)
}

/// Heads after which a connection closes, and the status and the body of the response.
const LAST: [(&str, &str, &str); 8] = [
    ("GET /stats HTTP/1.0\r\n\r\n", "200 OK", NOTHING_KEPT),
    ("\r\n\nGET /stats HTTP/1.0\n\n", "200 OK", NOTHING_KEPT),
    (
        "GET /stats HTTP/1.0\r\nHost: a\r\nHost: b\r\nConnection: keep-alive\r\n\r\n",
        "200 OK",
        NOTHING_KEPT,
    ),
    (
        "GET /stats HTTP/1.1\r\nHost: b\r\nConnection: CLOSE\r\n\r\n",
        "200 OK",
        NOTHING_KEPT,
    ),
    (
        "GET /stats HTTP/1.1\r\nHost: b\r\nConnection: keep-alive, close\r\n\r\n",
        "200 OK",
        NOTHING_KEPT,
    ),
    (
        "GET /stats HTTP/1.1\r\nHost: b\r\nConnection: keep-alive\r\nconnection: close\r\n\r\n",
        "200 OK",
        NOTHING_KEPT,
    ),
    (
        "PUT /hosts/A HTTP/1.0\r\nContent-Length: 2\r\n\r\nxx",
        "400 Bad Request",
        "{\"refused\":\"BadName\"}",
    ),
    (
        "POST /hosts/pc1/dumps?kind=full HTTP/1.0\r\n\r\n",
        "404 Not Found",
        "{\"refused\":\"NoHost\"}",
    ),
];

/// A host that is to be added.
const ADD: &str = "PUT /hosts/pc1 HTTP/1.1\r\nHost: b\r\n\r\n";

/// Requests behind the last one have no response, and do nothing.
#[test]
fn a_last_response_ends_the_connection(rt: HostRuntime) -> Result<(), Fail> {
    for (asked, status, body) in LAST {
        let told = json(rt.alloc(), status, CLOSE, body)?;
        expect_both(&rt, &[asked, ADD], &[told.as_str()], &End::Ended)?;
    }
    Ok(())
}

/// Heads that don't close a connection of version 1.1.
const GOING_ON: [&str; 3] = [
    "GET /stats HTTP/1.1\r\nHost: b\r\nConnection: keep-alive\r\n\r\n",
    "GET /stats HTTP/1.1\r\nHost: b\r\nConnection: closed, not-close\r\n\r\n",
    "\r\n\r\nGET /stats HTTP/1.1\nhost:b\n\n",
];

#[test]
fn a_connection_goes_on_where_it_may(rt: HostRuntime) -> Result<(), Fail> {
    let alloc = rt.alloc();
    let told = json(alloc, "200 OK", "", NOTHING_KEPT)?;
    let mut talk = Talk::new(alloc, "", "")?;
    for asked in GOING_ON {
        talk.go_on(asked, told.as_str())?;
    }
    talk.expect(&rt, &End::Ended)
}

/// What a client asks by the method HEAD, and what stands in the head of the response: its status, the length of the body that it
/// doesn't have, and further fields.
const HEADS: [(&str, &str); 5] = [
    (
        "HEAD /stats",
        "405 Method Not Allowed\r\nContent-Type: application/json\r\nContent-Length: 22\r\nAllow: GET",
    ),
    (
        "HEAD /hosts/pc1/backups/0/file?path=a.txt",
        "405 Method Not Allowed\r\nContent-Type: application/json\r\nContent-Length: 22\r\nAllow: GET",
    ),
    (
        "HEAD /dumps/1-0/entry",
        "405 Method Not Allowed\r\nContent-Type: application/json\r\nContent-Length: 22\r\nAllow: PUT, DELETE",
    ),
    (
        "HEAD /hosts/A",
        "405 Method Not Allowed\r\nContent-Type: application/json\r\nContent-Length: 22\r\nAllow: PUT",
    ),
    (
        "HEAD /",
        "404 Not Found\r\nContent-Type: application/json\r\nContent-Length: 21",
    ),
];

/// Goes on with a request by the method HEAD.
fn ask_head(alloc: Global, talk: &mut Talk, line: &str, head: &str) -> Result<(), Fail> {
    let asked = format!(in alloc; "{line} HTTP/1.1\r\nHost: b\r\n\r\n")?;
    let told = format!(in alloc; "HTTP/1.1 {head}\r\n\r\n")?;
    talk.go_on(asked.as_str(), told.as_str())?;
    Ok(())
}

/// A response without its body is followed by the next one.
#[test]
fn the_method_head_has_no_body(rt: HostRuntime) -> Result<(), Fail> {
    let alloc = rt.alloc();
    let mut talk = Talk::new(alloc, "", "")?;
    for (line, head) in HEADS {
        ask_head(alloc, &mut talk, line, head)?;
    }
    talk.ask(alloc, "GET /stats", "200 OK", NOTHING_KEPT)?;
    talk.expect(&rt, &End::Ended)
}

/// A head of this many bytes, with its empty line.
fn head_of(alloc: Global, size: usize) -> Result<String, Fail> {
    let mut bytes = b"GET /stats HTTP/1.0\r\nA: ".to_vec(alloc)?;
    bytes.resize(size.saturating_sub(4), b'a')?;
    bytes.extend_from_slice(b"\r\n\r\n")?;
    Ok(String::from_utf8(bytes)?)
}

/// The first 16,384 bytes hold the whole head, or there is none.
#[test]
fn a_head_has_at_most_16384_bytes(rt: HostRuntime) -> Result<(), Fail> {
    let alloc = rt.alloc();
    let whole = head_of(alloc, 16_384)?;
    let told = json(alloc, "200 OK", CLOSE, NOTHING_KEPT)?;
    expect_both(&rt, &[whole.as_str()], &[told.as_str()], &End::Ended)?;
    let large = head_of(alloc, 16_385)?;
    let told = json(
        alloc,
        "431 Request Header Fields Too Large",
        CLOSE,
        "{\"refused\":\"HeadTooLarge\"}",
    )?;
    expect_both(&rt, &[large.as_str()], &[told.as_str()], &End::BadRequest)
}

/// Heads that aren't taken, and the status and the name of what refuses them.
const BAD_HEADS: [(&str, &str, &str); 13] = [
    ("GET /stats HTTP/1.1\r\n\r\n", "400 Bad Request", "BadHead"),
    (
        "GET /stats HTTP/1.1\r\nHost: a\r\nHost: a\r\n\r\n",
        "400 Bad Request",
        "BadHead",
    ),
    ("GET /stats HTTP/2.0\r\n", "400 Bad Request", "BadHead"),
    (
        "PUT /hosts/a HTTP/1.1\r\nHost: b\r\nContent-Length: 1\r\nContent-Length: 1\r\n\r\nx",
        "400 Bad Request",
        "BadHead",
    ),
    (
        "PUT /hosts/a HTTP/1.1\r\nHost: b\r\nContent-Length: 0x1\r\n\r\nx",
        "400 Bad Request",
        "BadHead",
    ),
    (
        "PUT /hosts/a HTTP/1.1\r\nHost: b\r\nContent-Length: 1\r\nContent-Length: 2\r\n\r\nx",
        "400 Bad Request",
        "BadHead",
    ),
    (
        "PUT /hosts/a HTTP/1.1\r\nHost: b\r\nContent-Length: 1\r\nTransfer-Encoding: chunked\r\n\r\n0\r\n\r\n",
        "400 Bad Request",
        "BadHead",
    ),
    (
        "PUT /hosts/a HTTP/1.0\r\nTransfer-Encoding: chunked\r\n\r\n0\r\n\r\n",
        "400 Bad Request",
        "BadHead",
    ),
    (
        "PUT /hosts/a HTTP/1.1\r\nHost: b\r\nTransfer-Encoding: chunked\r\nTransfer-Encoding: chunked\r\n\r\n0\r\n\r\n",
        "411 Length Required",
        "NoLength",
    ),
    (
        "PUT /hosts/a HTTP/1.1\r\nHost: b\r\nTransfer-Encoding: chunked, gzip\r\n\r\n0\r\n\r\n",
        "411 Length Required",
        "NoLength",
    ),
    (
        "PUT /hosts/a HTTP/1.1\r\nHost: b\r\nContent-Length: 1099511627776\r\nExpect: 100-continue\r\n\r\n",
        "413 Payload Too Large",
        "FileTooLarge",
    ),
    (
        "PUT /hosts/a HTTP/1.1\r\nHost: b\r\nContent-Length: 99999999999999999999\r\n\r\n",
        "413 Payload Too Large",
        "FileTooLarge",
    ),
    (
        "PUT /hosts/a HTTP/1.1\r\nHost: b\r\nContent-Length: 999999999999999999999999999999\r\n\r\n",
        "413 Payload Too Large",
        "FileTooLarge",
    ),
];

/// A refused head closes the connection, whatever stands behind it.
#[test]
fn a_refused_head_ends_the_connection(rt: HostRuntime) -> Result<(), Fail> {
    let alloc = rt.alloc();
    for (asked, status, name) in BAD_HEADS {
        let body = format!(in alloc; "{{\"refused\":\"{name}\"}}")?;
        let told = json(alloc, status, CLOSE, body.as_str())?;
        expect_both(&rt, &[asked, ADD], &[told.as_str()], &End::BadRequest)?;
    }
    Ok(())
}

/// Refused heads of the method HEAD, and the heads of their responses, which have no body.
const BAD_HEADS_OF_HEAD: [(&str, &str); 3] = [
    (
        "HEAD /stats HTTP/1.1\r\n\r\n",
        "400 Bad Request\r\nContent-Type: application/json\r\nContent-Length: 21",
    ),
    (
        "\r\nHEAD /stats HTTP/2.0\r\n",
        "400 Bad Request\r\nContent-Type: application/json\r\nContent-Length: 21",
    ),
    (
        "HEAD /stats HTTP/1.1\r\nHost: b\r\nTransfer-Encoding: gzip\r\n\r\n",
        "411 Length Required\r\nContent-Type: application/json\r\nContent-Length: 22",
    ),
];

#[test]
fn a_refused_head_of_the_method_head_has_no_body(rt: HostRuntime) -> Result<(), Fail> {
    for (asked, head) in BAD_HEADS_OF_HEAD {
        let told = format!(in rt.alloc(); "HTTP/1.1 {head}\r\nConnection: close\r\n\r\n")?;
        expect_both(&rt, &[asked, ADD], &[told.as_str()], &End::BadRequest)?;
    }
    Ok(())
}
