//! Whole exchanges: requests that are read, called and answered.

use crate::fault::Fault;
use crate::input::{copies, put_of};
use crate::report::Report;
use backup_rules::Rules;
use browse_http::{End, Interface, Served, serve_connection};
use pool_name::Md5Namer;
use request_events::Defaults;
use std::alloc::{AllocError, Global};
use stream_traits::{FixedClock, MemoryLink, Moment, OpenGate};
use tree_office::TreeOffice;
use wake_schedule::Zone;

/// The bytes of each file.
const FILE: u32 = 1000;

/// The most bytes of a response, and of those that come before and behind those that are measured.
const MOST: usize = 1_200;

/// Makes a host and opens its dump.
const OPEN: &[u8] =
    b"PUT /hosts/pc1 HTTP/1.1\r\nHost: b\r\n\r\nPOST /hosts/pc1/dumps?kind=full HTTP/1.1\r\nHost: b\r\n\r\n";

/// Commits the dump.
const COMMIT: &[u8] = b"POST /dumps/1-0/commit HTTP/1.1\r\nHost: b\r\n\r\n";

/// Reads the file.
const GET: &[u8] =
    b"GET /hosts/pc1/backups/0/file?path=may.txt HTTP/1.1\r\nHost: backup.example\r\n\r\n";

/// A link over an input, with room for `responses` responses.
fn link_over(alloc: Global, input: Vec<u8>, responses: u32) -> Result<MemoryLink, AllocError> {
    MemoryLink::new(alloc, input, MOST * responses as usize, Vec::new(alloc))
}

/// The interface with the default rules, and the zone UTC.
fn interface(alloc: Global) -> Result<Interface, AllocError> {
    let defaults = match Zone::read("UTC") {
        Ok(zone) => Defaults {
            rules: Rules::defaults(alloc)?,
            zone,
        },
        Err(_) => return Err(AllocError),
    };
    Interface::new(alloc, defaults)
}

/// Serves an input from an office, and gives the link back.
fn serve(
    alloc: Global,
    office: &mut TreeOffice<Md5Namer>,
    link: MemoryLink,
) -> Result<MemoryLink, Fault> {
    let mut clock = FixedClock::new(Moment::first());
    let interface = interface(alloc)?;
    let Served { end, link } = serve_connection(
        alloc,
        office,
        link,
        &mut clock,
        &mut OpenGate,
        &interface,
    );
    match end {
        End::Ended => Ok(link),
        end => Err(Fault::Connection(end)),
    }
}

/// Serves an input of `count` requests of one kind, and says how long it took.
fn measure_input(
    report: &Report,
    office: &mut TreeOffice<Md5Namer>,
    what: &str,
    input: Vec<u8>,
    count: u32,
) -> Result<(), Fault> {
    let bytes = input.len();
    let link = link_over(report.alloc(), input, count.saturating_add(8))?;
    let begin = report.begin()?;
    let link = serve(report.alloc(), office, link)?;
    let micros = report.micros_since(begin)?;
    let sent = link.sent().len();
    report.say(
        micros,
        count,
        bytes.saturating_add(sent),
        format_args!("{what}: {count} exchanges, {sent} bytes of responses"),
    )
}

/// Measures puts of a small file, and reads of it.
pub fn measure(report: &Report, count: u32) -> Result<(), Fault> {
    let alloc = report.alloc();
    let mut office = TreeOffice::new(alloc, Md5Namer);
    let put = put_of(alloc, FILE)?;
    let mut puts = OPEN.to_vec(alloc)?;
    puts.extend_from_slice(copies(alloc, put.as_slice(), count)?.as_slice())?;
    puts.extend_from_slice(COMMIT)?;
    measure_input(report, &mut office, "puts", puts, count)?;
    measure_input(
        report,
        &mut office,
        "gets",
        copies(alloc, GET, count)?,
        count,
    )
}
