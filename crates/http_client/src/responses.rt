//! Responses that are read.

ghost use Rattle.std.specs.Prelude.{◌≡◌, ℕ, ◌<◌, ◌≤◌, length, Some, IfSome, IfNone};
ghost use Rattle.fault_counts.specs.Counts.{Counted};
ghost use Rattle.http_heads.specs.Fronts.{head_limit};
ghost use Rattle.http_heads.specs.Responses.{IsUnfinishedResponse, IsWholeResponse};
ghost use Rattle.http_wire.specs.Wires.{ahead_of, left_of, written_of, faults_of};
ghost use Rattle.http_client.specs.ResponseReads.{ReadsResponse, ReadsBody, ReadsResponseHead, EndsResponsesAs};

use http_heads::{ResponseFront, ResponseParts, is_blank, read_response_front};
use http_wire::{Wire, WireFault, add_bytes};
use std::alloc::Global;
use stream_traits::{Faults, Link, ReadFault};

/// What was read of a response.
#[derive(Drop)]
pub enum ResponseRead {
    /// A response, whole; what follows it is left.
    Response { status: u16, body: Vec<u8> },
    /// The input ended before the first byte of a response.
    Ended,
    /// The input ended inside a response.
    Truncated,
    /// Whatever follows, the input begins with no response whose head has at most 16,384 bytes and 64 fields, one of which names the
    /// length of a body in decimal.
    Foreign,
    /// The body has more bytes than are taken.
    TooLong,
    /// The link failed; its count of faults rose.
    LinkFault,
    Memory,
}

/// What was read of a response's head.
#[derive(Clone, Copy)]
enum ResponseHeadRead {
    Whole(ResponseParts),
    Ended,
    Truncated,
    Foreign,
    TooLong,
    LinkFault,
    Memory,
}

/// Reads a response, whole, with a body of at most `most` bytes. What was written is sent before the link is read. If the answer is
/// Ended, Foreign or TooLong, nothing was taken of the input, and after Truncated, LinkFault and Memory a front of it. The memory that
/// this takes grows with the bytes that come, and not with the length that the head names.
pub fn read_response<L: Link>(alloc: Global, wire: &mut Wire<L>, most: u32) -> ResponseRead
    ensures read { ReadsResponse most (left_of wire.old) (left_of wire.new) result }
    ensures written { written_of wire.new ≡ written_of wire.old }
    ensures counted { Counted (faults_of wire.old) (faults_of wire.new) (result ≡ ResponseRead.LinkFault) }
{
    match read_response_head(alloc, wire, most) {
        ResponseHeadRead::Whole(parts) => read_body(alloc, wire, parts),
        ResponseHeadRead::Ended => ResponseRead::Ended,
        ResponseHeadRead::Truncated => ResponseRead::Truncated,
        ResponseHeadRead::Foreign => ResponseRead::Foreign,
        ResponseHeadRead::TooLong => ResponseRead::TooLong,
        ResponseHeadRead::LinkFault => ResponseRead::LinkFault,
        ResponseHeadRead::Memory => ResponseRead::Memory,
    }
}

/// Reads the body behind a head.
fn read_body<L: Link>(alloc: Global, wire: &mut Wire<L>, parts: ResponseParts) -> ResponseRead
    requires { parts.length ≤ 4294967295 }
    ensures read { ReadsBody parts (left_of wire.old) (left_of wire.new) result }
    ensures written { written_of wire.new ≡ written_of wire.old }
    ensures counted { Counted (faults_of wire.old) (faults_of wire.new) (result ≡ ResponseRead.LinkFault) }
{
    let mut body = Vec::new(alloc);
    match add_bytes(alloc, wire, &mut body, parts.length as usize) {
        Ok(()) => ResponseRead::Response {
            status: parts.status,
            body,
        },
        Err(ReadFault::Ended) => ResponseRead::Truncated,
        Err(ReadFault::Failed) => ResponseRead::LinkFault,
        Err(ReadFault::Memory) => ResponseRead::Memory,
    }
}

/// Reads the head of a response. Nothing is taken but a whole head.
fn read_response_head<L: Link>(alloc: Global, wire: &mut Wire<L>, most: u32) -> ResponseHeadRead
    ensures read { ReadsResponseHead most (left_of wire.old) (left_of wire.new) result }
    ensures written { written_of wire.new ≡ written_of wire.old }
    ensures counted { Counted (faults_of wire.old) (faults_of wire.new) (result ≡ ResponseHeadRead.LinkFault) }
{
    loop {
        match read_more(alloc, wire, most) {
            None => {}
            Some(read) => return read,
        }
    }
}

/// Judges what is read ahead, and reads a piece behind it if a whole head may come.
fn read_more<L: Link>(alloc: Global, wire: &mut Wire<L>, most: u32) -> Option<ResponseHeadRead>
    ensures read { IfSome result (ReadsResponseHead most (left_of wire.old) (left_of wire.new)) }
    ensures left { IfNone result (left_of wire.new ≡ left_of wire.old) }
    ensures written { written_of wire.new ≡ written_of wire.old }
    ensures short { IfNone result (length (ahead_of wire.old) < head_limit) }
    ensures more { IfNone result (length (ahead_of wire.old) < length (ahead_of wire.new)) }
    ensures counted { Counted (faults_of wire.old) (faults_of wire.new) (result ≡ Some ResponseHeadRead.LinkFault) }
{
    match read_response_front(wire.ahead()) {
        ResponseFront::Whole { len, parts } => Some(take_head(wire, len, parts, most)),
        ResponseFront::TooLong => Some(ResponseHeadRead::TooLong),
        ResponseFront::Foreign => Some(ResponseHeadRead::Foreign),
        ResponseFront::Unfinished => read_on(alloc, wire),
    }
}

/// Takes a whole head, unless its body has more bytes than are taken.
fn take_head<L: Link>(
    wire: &mut Wire<L>,
    len: usize,
    parts: ResponseParts,
    most: u32,
) -> ResponseHeadRead
    requires { IsWholeResponse (ahead_of wire.old) len parts }
    ensures read { ReadsResponseHead most (left_of wire.old) (left_of wire.new) result }
    ensures written { written_of wire.new ≡ written_of wire.old }
    ensures counted { Counted (faults_of wire.old) (faults_of wire.new) (result ≡ ResponseHeadRead.LinkFault) }
{
    if parts.length > most as u64 {
        return ResponseHeadRead::TooLong;
    }
    wire.take(len);
    ResponseHeadRead::Whole(parts)
}

/// Reads a piece behind the beginning of a head, or says how the input ends there.
fn read_on<L: Link>(alloc: Global, wire: &mut Wire<L>) -> Option<ResponseHeadRead>
    requires { IsUnfinishedResponse (ahead_of wire.old) }
    ensures read { (most : ℕ) → IfSome result (ReadsResponseHead most (left_of wire.old) (left_of wire.new)) }
    ensures left { left_of wire.new ≡ left_of wire.old }
    ensures written { written_of wire.new ≡ written_of wire.old }
    ensures more { IfNone result (length (ahead_of wire.old) < length (ahead_of wire.new)) }
    ensures counted { Counted (faults_of wire.old) (faults_of wire.new) (result ≡ Some ResponseHeadRead.LinkFault) }
{
    match wire.fill(alloc) {
        Ok(0) => Some(at_end(wire.ahead())),
        Ok(_) => None,
        Err(WireFault::LinkFault) => Some(ResponseHeadRead::LinkFault),
        Err(WireFault::Memory) => Some(ResponseHeadRead::Memory),
    }
}

/// What the end of the input makes of the beginning of a head.
fn at_end(bytes: &[u8]) -> ResponseHeadRead
    requires { IsUnfinishedResponse bytes.now }
    ensures { EndsResponsesAs bytes.now result }
{
    if is_blank(bytes) {
        ResponseHeadRead::Ended
    } else {
        ResponseHeadRead::Truncated
    }
}
