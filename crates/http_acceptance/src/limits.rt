//! The limits of a head's fields, of a length, and of the number of hosts, over both ports.

use crate::ports::{
    CLOSE, CONTINUE, NOTHING_KEPT, Talk, expect_both, expect_from_office, expect_from_store, json,
};
use browse_http::End;
use disk_trait::{DiskRoom, MemoryDisk};
use std::alloc::{AllocError, Global};
use std::test::Fail;

/// A last request whose head has so many fields.
fn head_with(alloc: Global, fields: usize) -> Result<String, AllocError> {
    let mut text = String::from_str(alloc, "GET /stats HTTP/1.0\r\n")?;
    for _ in 0..fields {
        text.push_str("A: b\r\n")?;
    }
    text.push_str("\r\n")?;
    Ok(text)
}

#[test]
fn a_head_has_at_most_64_fields(rt: HostRuntime) -> Result<(), Fail> {
    let alloc = rt.alloc();
    let told = json(alloc, "200 OK", CLOSE, NOTHING_KEPT)?;
    let whole = head_with(alloc, 64)?;
    expect_both(&rt, &[whole.as_str()], &[told.as_str()], &End::Ended)?;
    let told = json(
        alloc,
        "431 Request Header Fields Too Large",
        CLOSE,
        "{\"refused\":\"HeadTooLarge\"}",
    )?;
    let large = head_with(alloc, 65)?;
    expect_both(&rt, &[large.as_str()], &[told.as_str()], &End::BadRequest)
}

/// Lengths that are taken, one of them in more digits than it needs.
const TAKEN: [&str; 4] = [
    "67108864",
    "67108865",
    "1099511627775",
    "0000000000000000000000000001099511627775",
];

/// A body of such a length is waited for.
#[test]
fn a_length_of_a_tebibyte_less_one_is_taken(rt: HostRuntime) -> Result<(), Fail> {
    let alloc = rt.alloc();
    for length in TAKEN {
        let asked = format!(in alloc;
            "PUT /dumps/1-0/entry?path=a&kind=file HTTP/1.1\r\nHost: b\r\nExpect: 100-continue\r\nContent-Length: {length}\r\n\r\nx"
        )?;
        expect_both(&rt, &[asked.as_str()], &[CONTINUE], &End::Truncated)?;
    }
    Ok(())
}

/// The hosts of a store that has as many as it may have are added.
fn filled(alloc: Global) -> Result<Talk, AllocError> {
    let mut talk = Talk::new(alloc, "", "")?;
    for number in 0..1_024 {
        let line = format!(in alloc; "PUT /hosts/h{number}")?;
        let body = format!(in alloc; "{{\"host\":\"h{number}\"}}")?;
        talk.ask(alloc, line.as_str(), "201 Created", body.as_str())?;
    }
    Ok(talk)
}

/// What each addition of a host writes: the names of all of them, twice.
const ROOM: DiskRoom = DiskRoom {
    changes: 50_000,
    bytes: 20_000_000,
};

#[test]
fn the_1025th_host_is_refused(rt: HostRuntime) -> Result<(), Fail> {
    let alloc = rt.alloc();
    let mut talk = filled(alloc)?;
    let full = "422 Unprocessable Entity";
    talk.refuse(alloc, "PUT /hosts/h1024", full, "HostsFull")?;
    talk.refuse(alloc, "PUT /hosts/h0", "409 Conflict", "HostExists")?;
    let none = "{\"backups\":[],\"dump\":null,\"next\":0}";
    talk.ask(alloc, "GET /hosts/h1023/backups", "200 OK", none)?;
    expect_from_office(alloc, &[talk.asked()], &[talk.told()], &End::Ended)?;
    let disk = MemoryDisk::new(alloc, Vec::new(alloc), ROOM)?;
    expect_from_store(&rt, disk, &[talk.asked()], &[talk.told()], &End::Ended)
}
