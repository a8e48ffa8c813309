//! What is asked of another server, and what its answers say: the texts, read from outside.

use attr_records::HostName;
use event_texts::request_of;
use listing_back::{read_listing, read_opened};
use office_model::{Event, SessionName};
use std::alloc::Global;
use std::test::Fail;

const RESTORE: SessionName = SessionName {
    epoch: 3,
    sequence: 18446744073709551615,
};

/// Asks for an event by this line, a method and a target; or by none.
fn expect_line(alloc: Global, event: &Event, expected: &str) -> Result<(), Fail> {
    let line = match request_of(alloc, event)? {
        Some(request) => format!(in alloc; "{} {}", request.method, request.target.as_str())?,
        None => format!(in alloc; "none")?,
    };
    if line.as_str() == expected {
        return Ok(());
    }
    Err(Fail::new("another request"))
}

fn host(alloc: Global) -> Result<HostName, Fail> {
    Ok(HostName::read(alloc, b"pc-1.example")?)
}

#[test]
fn a_pull_asks_for_a_listing_and_a_restore(rt: HostRuntime) -> Result<(), Fail> {
    let alloc = rt.alloc();
    let backups = Event::Backups { host: host(alloc)? };
    expect_line(alloc, &backups, "GET /hosts/pc-1.example/backups")?;
    let next = Event::ReadNext { restore: RESTORE };
    expect_line(alloc, &next, "GET /restores/3-18446744073709551615/next")?;
    let close = Event::CloseRead { restore: RESTORE };
    expect_line(alloc, &close, "DELETE /restores/3-18446744073709551615")?;
    expect_line(alloc, &Event::Sweep, "none")
}

/// Opens a restore by this line.
fn expect_opened(alloc: Global, base: Option<u32>, expected: &str) -> Result<(), Fail> {
    let event = Event::OpenRead {
        host: host(alloc)?,
        number: 4294967295,
        base,
    };
    expect_line(alloc, &event, expected)
}

#[test]
fn a_pull_names_its_base(rt: HostRuntime) -> Result<(), Fail> {
    let path = "POST /hosts/pc-1.example/backups/4294967295/restores";
    expect_opened(rt.alloc(), None, path)?;
    let with_base = "POST /hosts/pc-1.example/backups/4294967295/restores?base=0";
    expect_opened(rt.alloc(), Some(0), with_base)
}

/// The number of backups and the next number in a listing, or that it is none.
fn read_as(alloc: Global, bytes: &[u8]) -> Result<(usize, u64), Fail> {
    match read_listing(alloc, bytes)? {
        Some(listing) => Ok((listing.lines.as_slice().len(), listing.next)),
        None => Err(Fail::new("no listing")),
    }
}

#[test]
fn a_listing_is_read_back(rt: HostRuntime) -> Result<(), Fail> {
    let one =
        b"{\"backups\":[{\"end\":1700000060,\"filled\":true,\"keep\":false,\"kind\":\"incr\",\"number\":3,\"start\":1700000000}],\"dump\":\"18446744073709551615-0\",\"next\":4294967296}";
    if read_as(rt.alloc(), one)? != (1, 4294967296) {
        return Err(Fail::new("another listing"));
    }
    if read_as(rt.alloc(), b"{\"backups\":[],\"dump\":null,\"next\":0}")? != (0, 0) {
        return Err(Fail::new("another empty listing"));
    }
    Ok(())
}

/// What is no listing: cut, with a number too large, of another kind, without a member, no object.
const NO_LISTINGS: [&[u8]; 6] = [
    b"{\"backups\":[],\"dump\":null,\"next\":0",
    b"{\"backups\":[{\"end\":1,\"filled\":true,\"keep\":false,\"kind\":\"full\",\"number\":4294967296,\"start\":1}],\"dump\":null,\"next\":0}",
    b"{\"backups\":[{\"end\":1,\"filled\":true,\"keep\":false,\"kind\":\"whole\",\"number\":0,\"start\":1}],\"dump\":null,\"next\":0}",
    b"{\"backups\":[],\"next\":0}",
    b"{\"backups\":[],\"dump\":\"7\",\"next\":0}",
    b"[]",
];

#[test]
fn what_is_no_listing_is_read_as_none(rt: HostRuntime) -> Result<(), Fail> {
    for bytes in &NO_LISTINGS {
        if read_listing(rt.alloc(), bytes)?.is_some() {
            return Err(Fail::new("a listing"));
        }
    }
    Ok(())
}

#[test]
fn the_name_of_a_restore_is_read_back(rt: HostRuntime) -> Result<(), Fail> {
    let text = b"{\"restore\":\"3-18446744073709551615\"}";
    if read_opened(rt.alloc(), text)? != Some(RESTORE) {
        return Err(Fail::new("another restore"));
    }
    for bytes in &NO_LISTINGS {
        if read_opened(rt.alloc(), bytes)?.is_some() {
            return Err(Fail::new("a restore"));
        }
    }
    Ok(())
}
