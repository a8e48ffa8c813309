//! One call over a wire.

ghost use Rattle.std.specs.Prelude.{◌≡◌, IfOk, IsErrOf};
ghost use Rattle.fault_counts.specs.Counts.{Counted};
ghost use Rattle.http_wire.specs.Wires.{faults_of, seen_of};
ghost use Rattle.http_client.specs.Requests.{ask_of};
ghost use Rattle.office_model.specs.Step.{IsAnswerTo};
ghost use Rattle.remote_port.specs.Asked.{asked_of};
ghost use Rattle.remote_port.specs.Hearing.{judged, Responds, Reads, Hears, response_of};

use crate::codec::{Asked, Codec};
use crate::end::PortEnd;
use http_client::{Request, ResponseRead, read_response, write_request};
use http_wire::{Wire, WireFault};
use office_model::{Answer, Event, Refusal};
use std::alloc::Global;
use stream_traits::{Failed, Faults, Link};

/// The most bytes of a response's body that are taken: as many as a listing may have.
const MOST: u32 = 67_108_864;

/// A response that was read.
#[derive(Drop)]
pub(crate) struct Response {
    pub(crate) status: u16,
    pub(crate) body: Vec<u8>,
}

/// What the reading of a response comes to.
fn judged(read: ResponseRead) -> Result<Response, PortEnd>
    ensures { result ≡ judged read }
{
    match read {
        ResponseRead::Response { status, body } => Ok(Response { status, body }),
        ResponseRead::Ended => Err(PortEnd::Foreign),
        ResponseRead::Truncated => Err(PortEnd::Foreign),
        ResponseRead::Foreign => Err(PortEnd::Foreign),
        ResponseRead::TooLong => Err(PortEnd::Memory),
        ResponseRead::LinkFault => Err(PortEnd::Link),
        ResponseRead::Memory => Err(PortEnd::Memory),
    }
}

/// The request that asks so, of the host `b`.
fn request_in<'a>(asked: &'a Asked<'a>) -> Request<'a>
    ensures { ask_of result ≡ asked_of asked.now }
{
    Request {
        method: asked.method,
        target: asked.target.as_str(),
        host: "b",
        body: asked.body,
    }
}

/// Writes and sends a request, and reads its response.
fn respond<L: Link>(
    alloc: Global,
    wire: &mut Wire<L>,
    request: &Request,
) -> Result<Response, PortEnd>
    ensures responded { Responds (seen_of wire.old) (seen_of wire.new) (ask_of request.now) result }
    ensures counted { Counted (faults_of wire.old) (faults_of wire.new) (IsErrOf result PortEnd.Link) }
{
    match write_request(alloc, wire, request) {
        Ok(()) => {}
        Err(WireFault::LinkFault) => return Err(PortEnd::Link),
        Err(WireFault::Memory) => return Err(PortEnd::Memory),
    }
    let read = read_response(alloc, wire, MOST);
    match wire.send() {
        Ok(()) => judged(read),
        Err(Failed) => Err(PortEnd::Link),
    }
}

/// Asks for an event by its request, and hears the reply.
pub(crate) fn hear<L: Link, C: Codec>(
    alloc: Global,
    wire: &mut Wire<L>,
    event: &Event,
    asked: &Asked,
) -> Result<Result<Answer, Refusal>, PortEnd>
    requires { asked_of asked.now ≡ C.request_of event.now }
    ensures heard { Hears C.request_of C.says (seen_of wire.old) (seen_of wire.new) event.now result }
    ensures in_kind { IfOk result (λ reply. IfOk reply (IsAnswerTo event.now)) }
    ensures counted { Counted (faults_of wire.old) (faults_of wire.new) (IsErrOf result PortEnd.Link) }
{
    let request = request_in(asked);
    match respond(alloc, wire, &request) {
        Ok(response) => reply_in::<C>(alloc, event, &response),
        Err(end) => Err(end),
    }
}

/// The reply that a response says.
fn reply_in<C: Codec>(
    alloc: Global,
    event: &Event,
    response: &Response,
) -> Result<Result<Answer, Refusal>, PortEnd>
    ensures reads { Reads C.says event.now (response_of response.now) result }
    ensures in_kind { IfOk result (λ reply. IfOk reply (IsAnswerTo event.now)) }
{
    match C::reply(alloc, event, response.status, response.body.as_slice()) {
        Ok(Some(reply)) => Ok(reply),
        Ok(None) => Err(PortEnd::Silent(response.status)),
        Err(_) => Err(PortEnd::Memory),
    }
}
