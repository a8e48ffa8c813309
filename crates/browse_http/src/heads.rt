//! Heads of requests, and what is said if a request isn't read whole.

ghost use Rattle.std.specs.Prelude.{◌≡◌, ◌<◌, [], IfOk, IfErr, IsErrOf};
ghost use Rattle.fault_counts.specs.Counts.{Counted};
ghost use Rattle.http_wire.specs.Message.{no_memory_response};
ghost use Rattle.http_wire.specs.Wires.{left_of, written_of, faults_of};
ghost use Rattle.http_bodies.specs.Bodies.{IsAt};
ghost use Rattle.http_replies.specs.Messages.{bad_response, broken_response};
ghost use Rattle.browse_http.specs.Talk.{coding_of, request_limit, is_last, asks_head};
ghost use Rattle.browse_http.specs.Reading.{ReadsHead, SaysLast, EndsUncalled, EndsBody, IsRequest};

use crate::end::End;
use http_bodies::{Body, BodyStop};
use http_heads::{Head, HeadRefusal};
use http_replies::{BodyRefusal, write_bad, write_broken};
use http_wire::{HeadRead, Wire, read_head, write_no_memory};
use std::alloc::Global;
use stream_traits::{Failed, Faults, Link};

/// The most requests of a connection: the response to the last one closes it.
pub const REQUEST_LIMIT: u32 = 1_000_000;

/// A request whose head was read.
#[derive(Drop)]
pub struct Request {
    pub head: Head,
    /// How far its body was read.
    pub body: Body,
    /// The response is the connection's last.
    pub closes: bool,
    /// It asks for no body.
    pub is_head: bool,
}

/// Whether the response to the request at this index is the connection's last.
fn is_last(index: u32, head: &Head) -> bool
    requires { index < request_limit }
    ensures { result ≡ is_last index head.now }
{
    head.closes() || index + 1 == REQUEST_LIMIT
}

/// Whether the request asks for no body.
fn asks_head(head: &Head) -> bool
    ensures { result ≡ asks_head head.now }
{
    head.method() == b"HEAD".as_slice()
}

/// The body of a request, of which nothing was read.
fn body_of(head: &Head) -> Body
    ensures { IsAt (coding_of head.now) result [] [] }
{
    if head.is_chunked() {
        return Body::chunked();
    }
    Body::of_length(head.length().unwrap_or(0))
}

/// The request at this index, whose head was read.
pub fn request_of(index: u32, head: Head) -> Request
    requires { index < request_limit }
    ensures { IsRequest index head result }
{
    let body = body_of(&head);
    let closes = is_last(index, &head);
    let is_head = asks_head(&head);
    Request {
        head,
        body,
        closes,
        is_head,
    }
}

/// Refuses a head; without a body if it asks for HEAD.
fn refuse<L: Link>(wire: &mut Wire<L>, refusal: HeadRefusal, for_head: bool) -> End
    ensures says { SaysLast (bad_response refusal for_head) End.BadRequest (written_of wire.old) (written_of wire.new) result }
    ensures left { left_of wire.new ≡ left_of wire.old }
    ensures counted { Counted (faults_of wire.old) (faults_of wire.new) (result ≡ End.LinkFault) }
{
    match write_bad(wire, refusal, for_head) {
        Ok(()) => End::BadRequest,
        Err(Failed) => End::LinkFault,
    }
}

/// Refuses a body while it is read; without a body if the request asks for HEAD.
fn refuse_body<L: Link>(wire: &mut Wire<L>, refusal: BodyRefusal, is_head: bool) -> End
    ensures says { SaysLast (broken_response refusal is_head) End.BadRequest (written_of wire.old) (written_of wire.new) result }
    ensures left { left_of wire.new ≡ left_of wire.old }
    ensures counted { Counted (faults_of wire.old) (faults_of wire.new) (result ≡ End.LinkFault) }
{
    match write_broken(wire, refusal, is_head) {
        Ok(()) => End::BadRequest,
        Err(Failed) => End::LinkFault,
    }
}

/// Says that there is no memory.
pub fn give_up<L: Link>(wire: &mut Wire<L>) -> End
    ensures says { SaysLast no_memory_response End.Memory (written_of wire.old) (written_of wire.new) result }
    ensures left { left_of wire.new ≡ left_of wire.old }
    ensures counted { Counted (faults_of wire.old) (faults_of wire.new) (result ≡ End.LinkFault) }
{
    match write_no_memory(wire) {
        Ok(()) => End::Memory,
        Err(Failed) => End::LinkFault,
    }
}

/// How the connection ends if the reading of a body stopped. A fault of the link was counted before.
pub fn end_body<L: Link>(wire: &mut Wire<L>, stop: BodyStop, is_head: bool) -> End
    ensures ends { EndsBody stop is_head (written_of wire.old) (written_of wire.new) result }
    ensures left { left_of wire.new ≡ left_of wire.old }
    ensures counted { Counted (faults_of wire.old) (faults_of wire.new) ((result ≡ End.LinkFault) × (stop ≡ BodyStop.LinkFault → ⊥)) }
{
    match stop {
        BodyStop::Truncated => End::Truncated,
        BodyStop::LinkFault => End::LinkFault,
        BodyStop::Memory => give_up(wire),
        BodyStop::BadChunk => refuse_body(wire, BodyRefusal::BadChunk, is_head),
        BodyStop::TooLarge => refuse_body(wire, BodyRefusal::FileTooLarge, is_head),
    }
}

/// Reads the head of a request, or says how the connection ends if there is none.
pub fn take_head<L: Link>(alloc: Global, wire: &mut Wire<L>) -> Result<Head, End>
    ensures read { IfOk result (ReadsHead (left_of wire.old) (left_of wire.new) (written_of wire.old) (written_of wire.new)) }
    ensures ends { IfErr result (EndsUncalled [] (left_of wire.old) (left_of wire.new) (written_of wire.old) (written_of wire.new)) }
    ensures counted { Counted (faults_of wire.old) (faults_of wire.new) (IsErrOf result End.LinkFault) }
{
    match read_head(alloc, wire) {
        HeadRead::Whole(head) => Ok(head),
        HeadRead::Ended => Err(End::Ended),
        HeadRead::Truncated => Err(End::Truncated),
        HeadRead::Bad { refusal, for_head } => Err(refuse(wire, refusal, for_head)),
        HeadRead::LinkFault => Err(End::LinkFault),
        HeadRead::Memory => Err(give_up(wire)),
    }
}
