//! Responses that are written to a link.

use crate::fault::Fault;
use crate::report::Report;
use http::StatusCode;
use http_wire::{Response, Wire, write_response};
use stream_traits::MemoryLink;

/// The most bytes that a response here has.
const MOST: usize = 128;

const DONE: Response<'static> = Response {
    status: StatusCode::OK,
    content_type: "application/json",
    body: b"{\"host\":\"pc1\"}",
    allow: None,
    closes: false,
    is_head: false,
};

/// Writes `count` responses, and sends them.
fn write_all(wire: &mut Wire<MemoryLink>, count: u32) -> Result<(), Fault> {
    if !DONE.has_short_head() {
        return Err(Fault::Link);
    }
    for _ in 0..count {
        write_response(wire, &DONE)?;
    }
    wire.send()?;
    Ok(())
}

/// Measures how long it takes to write `count` responses.
pub fn measure(report: &Report, count: u32) -> Result<(), Fault> {
    let alloc = report.alloc();
    let room = MOST * count as usize;
    let link = MemoryLink::new(alloc, Vec::new(alloc), room, Vec::new(alloc))?;
    let mut wire = Wire::new(alloc, link);
    let begin = report.begin()?;
    write_all(&mut wire, count)?;
    let micros = report.micros_since(begin)?;
    let bytes = wire.into_link().output().len();
    report.say(
        micros,
        count,
        bytes,
        format_args!("responses: {count} responses of {bytes} bytes in all"),
    )
}
