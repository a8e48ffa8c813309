//! A file that goes by stages, and is sent again with its token, over a plain office.

use crate::interfaces::{interface, name_of};
use browse_http::serve_connection;
use office_model::{BrokenRule, Event, Port, Refusal};
use pool_name::Md5Namer;
use std::alloc::Global;
use std::test::Fail;
use stream_traits::{FixedClock, MemoryLink, Moment, OpenGate};
use tree_office::TreeOffice;

/// Opens a dump.
const OPEN: &[u8] = b"PUT /hosts/pc1 HTTP/1.1\r\nHost: b\r\n\r\n\
POST /hosts/pc1/dumps?kind=full HTTP/1.1\r\nHost: b\r\n\r\n";

/// Puts a file by a stage.
const PUT: &[u8] =
    b"PUT /dumps/1-0/entry?path=a&kind=file&token=000000000000000000000000000000cc HTTP/1.1\r\nHost: b\r\nTransfer-Encoding: chunked\r\n\r\n5\r\nfirst\r\n0\r\n\r\n";

/// Puts another one there with the same token.
const AGAIN: &[u8] =
    b"PUT /dumps/1-0/entry?path=a&kind=file&token=000000000000000000000000000000cc HTTP/1.1\r\nHost: b\r\nTransfer-Encoding: chunked\r\n\r\n6\r\nsecond\r\n0\r\n\r\n";

/// Commits the dump, and reads the file.
const READ: &[u8] = b"POST /dumps/1-0/commit HTTP/1.1\r\nHost: b\r\n\r\n\
GET /hosts/pc1/backups/0/file?path=a HTTP/1.1\r\nHost: b\r\nConnection: close\r\n\r\n";

/// Serves an input, and fails if what is sent doesn't end so.
fn expect_last(
    alloc: Global,
    office: &mut TreeOffice<Md5Namer>,
    input: &[u8],
    last: &[u8],
) -> Result<(), Fail> {
    let link = MemoryLink::new(alloc, input.to_vec(alloc)?, 8_192, Vec::new(alloc))?;
    let mut clock = FixedClock::new(Moment::first());
    let interface = interface(alloc)?;
    let served = serve_connection(alloc, office, link, &mut clock, &mut OpenGate, &interface);
    if name_of(&served.end) == "ended" && served.link.sent().ends_with(last) {
        return Ok(());
    }
    let sent = String::from_utf8_lossy(alloc, served.link.sent())?;
    Err(Fail::new(format_args!("{:?}, {sent:?}", served.end)))
}

/// Fails where one of the first stages is open.
fn expect_no_stage(alloc: Global, office: &mut TreeOffice<Md5Namer>) -> Result<(), Fail> {
    for stage in 0..4 {
        match office.call(alloc, &Event::StageDrop { stage }) {
            Err(Refusal::Broken(BrokenRule::NoSession)) => {}
            _ => return Err(Fail::new("a stage is open")),
        }
    }
    Ok(())
}

/// The first put is done, and neither leaves its stage.
#[test]
fn a_put_that_is_sent_again_drops_its_stage(rt: HostRuntime) -> Result<(), Fail> {
    let alloc = rt.alloc();
    let mut office = TreeOffice::new(alloc, Md5Namer);
    expect_last(alloc, &mut office, OPEN, b"{\"dump\":\"1-0\"}")?;
    for put in [PUT, AGAIN] {
        expect_last(alloc, &mut office, put, b"{}")?;
        expect_no_stage(alloc, &mut office)?;
    }
    expect_last(alloc, &mut office, READ, b"first")
}
