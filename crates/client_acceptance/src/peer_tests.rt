//! The calls of a pull over a link in memory: what is asked, byte for byte, and what is made of each kind of answer.

use attr_records::HostName;
use http_wire::Wire;
use office_model::{Frame, SessionName};
use peer_asks::{close_restore, list_backups, next_frame, open_restore};
use peer_exchange::PeerFault;
use slow_links::link_of;
use std::alloc::Global;
use std::test::Fail;
use stream_traits::MemoryLink;

const RESTORE: SessionName = SessionName {
    epoch: 1,
    sequence: 7,
};

/// What the other server says to a listing, an opening, a next frame and a close.
const ANSWERS: &[u8] =
    b"HTTP/1.1 200 OK\r\nContent-Length: 35\r\n\r\n{\"backups\":[],\"dump\":null,\"next\":0}HTTP/1.1 201 Created\r\nContent-Length: 17\r\n\r\n{\"restore\":\"1-7\"}HTTP/1.1 200 OK\r\nContent-Length: 4\r\n\r\nX\x00\x01aHTTP/1.1 200 OK\r\nContent-Length: 2\r\n\r\n{}";

/// What it was asked.
const REQUESTS: &[u8] =
    b"GET /hosts/pc1/backups HTTP/1.1\r\nHost: b\r\n\r\nPOST /hosts/pc1/backups/2/restores?base=1 HTTP/1.1\r\nHost: b\r\nContent-Length: 0\r\n\r\nGET /restores/1-7/next HTTP/1.1\r\nHost: b\r\n\r\nDELETE /restores/1-7 HTTP/1.1\r\nHost: b\r\nContent-Length: 0\r\n\r\n";

fn host(alloc: Global) -> Result<HostName, Fail> {
    Ok(HostName::read(alloc, b"pc1")?)
}

fn failed(_: PeerFault) -> Fail {
    Fail::new("a call that failed")
}

/// Lists the backups, of which there are none.
fn expect_none_listed(alloc: Global, wire: &mut Wire<MemoryLink>) -> Result<(), Fail> {
    let listing = list_backups(alloc, wire, &host(alloc)?).map_err(failed)?;
    if listing.lines.as_slice().is_empty() && listing.next == 0 {
        return Ok(());
    }
    Err(Fail::new("another listing"))
}

fn expect_path(path: &[u8]) -> Result<(), Fail> {
    if path == b"a".as_slice() {
        return Ok(());
    }
    Err(Fail::new("another path"))
}

/// Reads a frame, which is a removal.
fn expect_removal(alloc: Global, wire: &mut Wire<MemoryLink>) -> Result<(), Fail> {
    let frame = next_frame(alloc, wire, RESTORE).map_err(failed)?;
    match frame {
        Frame::Deleted(path) => expect_path(path.as_slice()),
        _ => Err(Fail::new("another frame")),
    }
}

/// Opens a restore since a base.
fn open_over(alloc: Global, wire: &mut Wire<MemoryLink>) -> Result<SessionName, PeerFault> {
    let Ok(host) = HostName::read(alloc, b"pc1") else {
        return Err(PeerFault::Memory);
    };
    open_restore(alloc, wire, &host, 2, Some(1))
}

#[test]
fn the_calls_of_a_pull_are_asked_and_answered(rt: HostRuntime) -> Result<(), Fail> {
    let alloc = rt.alloc();
    let mut wire = Wire::new(alloc, link_of(alloc, ANSWERS, 1_000)?);
    expect_none_listed(alloc, &mut wire)?;
    if open_over(alloc, &mut wire) != Ok(RESTORE) {
        return Err(Fail::new("another restore"));
    }
    expect_removal(alloc, &mut wire)?;
    close_restore(alloc, &mut wire, RESTORE).map_err(failed)?;
    let link = wire.into_link();
    if link.output() == REQUESTS && link.sent() == REQUESTS {
        return Ok(());
    }
    Err(Fail::new("other requests"))
}

/// Answers to an opening, and what each comes to.
const OPENINGS: &[(&[u8], Result<SessionName, PeerFault>)] = &[
    (
        b"HTTP/1.1 201 Created\r\nContent-Length: 17\r\n\r\n{\"restore\":\"1-7\"}",
        Ok(RESTORE),
    ),
    (
        b"HTTP/1.1 200 OK\r\nContent-Length: 17\r\n\r\n{\"restore\":\"1-7\"}",
        Err(PeerFault::Refused(200)),
    ),
    (
        b"HTTP/1.1 404 Not Found\r\nContent-Length: 23\r\n\r\n{\"refused\":\"NoBackup\"}\n",
        Err(PeerFault::Refused(404)),
    ),
    (
        b"HTTP/1.1 201 Created\r\nContent-Length: 2\r\n\r\n{}",
        Err(PeerFault::Foreign),
    ),
    (
        b"HTTP/1.1 201 Created\r\nContent-Length: 17\r\n\r\n{\"restore\"",
        Err(PeerFault::Foreign),
    ),
    (b"", Err(PeerFault::Foreign)),
    (b"HTTP/2 201\r\n\r\n", Err(PeerFault::Foreign)),
];

/// Opens a restore over a link with this input, and room for so many bytes.
fn expect_opening(
    alloc: Global,
    input: &[u8],
    room: usize,
    expected: Result<SessionName, PeerFault>,
) -> Result<(), Fail> {
    let mut wire = Wire::new(alloc, link_of(alloc, input, room)?);
    if open_over(alloc, &mut wire) == expected {
        return Ok(());
    }
    Err(Fail::new("another outcome of an opening"))
}

#[test]
fn each_answer_to_an_opening_has_its_outcome(rt: HostRuntime) -> Result<(), Fail> {
    for (input, expected) in OPENINGS {
        expect_opening(rt.alloc(), input, 1_000, *expected)?;
        expect_opening(rt.alloc(), input, 80, Err(PeerFault::Link))?;
    }
    Ok(())
}
