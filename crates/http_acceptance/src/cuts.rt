//! An input that ends early, over both ports.

use crate::ports::{CONTINUE, Talk, expect_both, expect_from_office, expect_over, new_disk};
use admin_cli::{DirectPort, Store};
use browse_http::End;
use office_model::Port;
use pool_name::Md5Namer;
use std::alloc::Global;
use std::test::Fail;

/// The head and the body of a request, what is sent between the two, and the response.
type Exchange = (&'static str, &'static str, &'static str, &'static str);

/// Requests of one connection.
const EXCHANGES: [Exchange; 6] = [
    (
        "PUT /hosts/a HTTP/1.1\r\nHost: b\r\n\r\n",
        "",
        "",
        "HTTP/1.1 201 Created\r\nContent-Type: application/json\r\nContent-Length: 12\r\n\r\n{\"host\":\"a\"}",
    ),
    (
        "POST /hosts/a/dumps?kind=full HTTP/1.1\r\nHost: b\r\n\r\n",
        "",
        "",
        "HTTP/1.1 201 Created\r\nContent-Type: application/json\r\nContent-Length: 14\r\n\r\n{\"dump\":\"1-0\"}",
    ),
    (
        "PUT /dumps/1-0/entry?path=%62&kind=file HTTP/1.1\r\nHost: b\r\nExpect: 100-continue\r\nContent-Length: 10\r\n\r\n",
        "HTTP/1.0\r\n",
        CONTINUE,
        "HTTP/1.1 200 OK\r\nContent-Type: application/json\r\nContent-Length: 2\r\n\r\n{}",
    ),
    (
        "PATCH /stats HTTP/1.1\r\nHost: b\r\nContent-Length: 4\r\n\r\n",
        "\r\n\r\n",
        "",
        "HTTP/1.1 405 Method Not Allowed\r\nContent-Type: application/json\r\nContent-Length: 22\r\nAllow: GET\r\n\r\n{\"refused\":\"NoMethod\"}",
    ),
    (
        "POST /dumps/1-0/commit HTTP/1.1\r\nHost: b\r\n\r\n",
        "",
        "",
        "HTTP/1.1 201 Created\r\nContent-Type: application/json\r\nContent-Length: 12\r\n\r\n{\"number\":0}",
    ),
    (
        "GET /hosts/a/backups/0/file?path=b HTTP/1.1\r\nHost: b\r\n\r\n",
        "",
        "",
        "HTTP/1.1 200 OK\r\nContent-Type: application/octet-stream\r\nContent-Length: 10\r\n\r\nHTTP/1.0\r\n",
    ),
];

/// Fails where an input that ends inside this text, after `least` of its bytes at least, isn't answered so by a plain office.
fn expect_cuts(
    alloc: Global,
    before: &str,
    text: &str,
    least: usize,
    told: &str,
) -> Result<(), Fail> {
    for cut in least..text.len() {
        let front = str::from_utf8(&text.as_bytes()[..cut])?;
        expect_from_office(alloc, &[before, front], &[told], &End::Truncated)?;
    }
    Ok(())
}

/// Fails where an input that ends inside this request has anything but the responses to those before it and, behind its whole head,
/// what goes before its body; or where one that ends behind it has no response to it.
fn expect_exchange(alloc: Global, talk: &mut Talk, row: Exchange) -> Result<(), Fail> {
    let (head, body, between, response) = row;
    expect_cuts(alloc, talk.asked(), head, 1, talk.told())?;
    talk.go_on(head, between)?;
    expect_cuts(alloc, talk.asked(), body, 0, talk.told())?;
    talk.go_on(body, response)?;
    expect_from_office(alloc, &[talk.asked()], &[talk.told()], &End::Ended)
}

#[test]
fn a_cut_input_has_the_responses_to_its_whole_requests(rt: HostRuntime) -> Result<(), Fail> {
    let alloc = rt.alloc();
    let mut talk = Talk::new(alloc, "", "")?;
    for row in EXCHANGES {
        expect_exchange(alloc, &mut talk, row)?;
    }
    Ok(())
}

/// Fails where a connection that ends inside this text, after `least` of its bytes at least, has another output.
fn expect_cut_over<P: Port>(
    alloc: Global,
    port: &mut P,
    before: &str,
    text: &str,
    least: usize,
    told: &str,
) -> Result<(), Fail> {
    for cut in least..text.len() {
        let front = str::from_utf8(&text.as_bytes()[..cut])?;
        expect_over(alloc, port, &[before, front], &[told], &End::Truncated)?;
    }
    Ok(())
}

/// Makes connections that end inside this request, and last one that doesn't: only this one has its response.
fn expect_request_over<P: Port>(alloc: Global, port: &mut P, row: Exchange) -> Result<(), Fail> {
    let (head, body, between, response) = row;
    expect_cut_over(alloc, port, "", head, 1, "")?;
    expect_cut_over(alloc, port, head, body, 0, between)?;
    expect_over(
        alloc,
        port,
        &[head, body],
        &[between, response],
        &End::Ended,
    )
}

/// Connections to one store: what a request asks for is done when the whole one has come, and once.
#[test]
fn a_cut_request_does_nothing(rt: HostRuntime) -> Result<(), Fail> {
    let alloc = rt.alloc();
    let disk = new_disk(alloc)?;
    let Ok(store) = Store::open(alloc, disk, Md5Namer) else {
        return Err(Fail::new("no store"));
    };
    let mut port = DirectPort::new(store);
    for row in EXCHANGES {
        expect_request_over(alloc, &mut port, row)?;
    }
    Ok(())
}

/// A request of few bytes.
const SHORT: &str = "GET /hosts HTTP/1.0\r\n\r\n";

/// The program's run on each front of it, too.
#[test]
fn a_run_on_a_cut_input_has_its_status(rt: HostRuntime) -> Result<(), Fail> {
    for cut in 1..SHORT.len() {
        let front = str::from_utf8(&SHORT.as_bytes()[..cut])?;
        expect_both(&rt, &[front], &[], &End::Truncated)?;
    }
    Ok(())
}
