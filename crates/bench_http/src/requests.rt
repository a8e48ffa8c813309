//! Requests that are read from a link.

use crate::fault::Fault;
use crate::input::{LOOKUP, copies, put_of};
use crate::report::Report;
use crate::sizes::Sizes;
use http_bodies::{Body, PIECE_SIZE, next_piece};
use http_wire::{Head, HeadRead, Wire, read_head};
use std::alloc::{AllocError, Global};
use stream_traits::MemoryLink;

/// The bytes of a small body.
const SMALL_BODY: u32 = 1000;

/// What was read.
#[derive(Clone, Copy)]
struct Count {
    requests: u32,
    body_bytes: usize,
}

/// A wire over bytes in memory, to which nothing is written.
fn wire_over(alloc: Global, input: Vec<u8>) -> Result<Wire<MemoryLink>, AllocError> {
    let link = MemoryLink::new(alloc, input, 0, Vec::new(alloc))?;
    Ok(Wire::new(alloc, link))
}

/// Reads the body of a request in pieces, and gives how many bytes it has.
fn body_len(alloc: Global, wire: &mut Wire<MemoryLink>, head: &Head) -> Result<usize, Fault> {
    let mut body = Body::of_length(head.length().unwrap_or(0));
    let mut len = 0usize;
    for _ in 0..u32::MAX {
        let piece = next_piece(alloc, wire, &mut body)?;
        len = len.saturating_add(piece.len());
        if piece.len() < PIECE_SIZE {
            return Ok(len);
        }
    }
    Err(Fault::Truncated)
}

/// Reads a request, and gives how many bytes its body has, or nothing at the end of the input.
fn read_request(alloc: Global, wire: &mut Wire<MemoryLink>) -> Result<Option<usize>, Fault> {
    match read_head(alloc, wire) {
        HeadRead::Whole(head) => Ok(Some(body_len(alloc, wire, &head)?)),
        HeadRead::Ended => Ok(None),
        HeadRead::Truncated => Err(Fault::Truncated),
        HeadRead::Bad { refusal, .. } => Err(Fault::Head(refusal)),
        HeadRead::LinkFault => Err(Fault::Link),
        HeadRead::Memory => Err(Fault::Memory),
    }
}

/// Reads requests up to the end of the input.
fn read_all(alloc: Global, wire: &mut Wire<MemoryLink>) -> Result<Count, Fault> {
    let mut body_bytes = 0usize;
    for requests in 0..u32::MAX {
        match read_request(alloc, wire)? {
            Some(len) => body_bytes = body_bytes.saturating_add(len),
            None => {
                return Ok(Count {
                    requests,
                    body_bytes,
                });
            }
        }
    }
    Err(Fault::Truncated)
}

/// Measures how long it takes to read an input.
fn measure_input(report: &Report, name: &str, input: Vec<u8>) -> Result<(), Fault> {
    let bytes = input.len();
    let mut wire = wire_over(report.alloc(), input)?;
    let begin = report.begin()?;
    let count = read_all(report.alloc(), &mut wire)?;
    let micros = report.micros_since(begin)?;
    let Count {
        requests,
        body_bytes,
    } = count;
    report.say(
        micros,
        requests,
        bytes,
        format_args!("{name}: {requests} requests with {body_bytes} bytes of bodies"),
    )
}

/// Measures heads without a body, small bodies, and one large body.
pub fn measure(report: &Report, sizes: Sizes) -> Result<(), Fault> {
    let alloc = report.alloc();
    measure_input(report, "heads", copies(alloc, LOOKUP, sizes.count)?)?;
    let put = put_of(alloc, SMALL_BODY)?;
    let puts = copies(alloc, put.as_slice(), sizes.count)?;
    measure_input(report, "small bodies", puts)?;
    measure_input(report, "large body", put_of(alloc, sizes.body)?)
}
