//! The exchange of an event's request.

ghost use Rattle.std.specs.Prelude.{◌≡◌, true, is_some, IfSome, IsErrOf, string_bytes};
ghost use Rattle.std.specs.Option.{option_copied};
ghost use Rattle.fault_counts.specs.Counts.{Counted};
ghost use Rattle.http_wire.specs.Wires.{faults_of, seen_of};
ghost use Rattle.peer_exchange.specs.Exchanges.{Exchanges};
ghost use Rattle.event_texts.specs.Requests.{request_of};
ghost use Rattle.peer_asks.specs.Asks.{most, body_for, ask_with, found};

use event_texts::request_of;
use http_client::Request;
use http_wire::Wire;
use office_model::Event;
use peer_exchange::{PeerFault, exchange};
use std::alloc::{AllocError, Global};
use stream_traits::{Faults, Link};

/// The most bytes of a body that are taken: as many as a listing may have.
const MOST: u32 = 67_108_864;

/// A GET has no body; the others have an empty one, so that its length is named.
fn body_for<'a>(method: &str) -> Option<&'a [u8]>
    ensures { option_copied result ≡ body_for method.now }
{
    if method == "GET" { None } else { Some(b"") }
}

/// The body of the answer to an event's request, if its status is the wanted one.
pub(crate) fn ask<L: Link>(
    alloc: Global,
    wire: &mut Wire<L>,
    event: &Event,
    wanted: u16,
) -> Result<Vec<u8>, PeerFault>
    requires { is_some (request_of event.now) ≡ true }
    ensures exchanged { IfSome (request_of event.now) (λ texts. Exchanges (seen_of wire.old) (seen_of wire.new) (ask_with texts) wanted most result) }
    ensures counted { Counted (faults_of wire.old) (faults_of wire.new) (IsErrOf result PeerFault.Link) }
{
    match request_of(alloc, event) {
        Ok(Some(texts)) => {
            let body = body_for(texts.method);
            let request = Request {
                method: texts.method,
                target: texts.target.as_str(),
                host: "b",
                body,
            };
            exchange(alloc, wire, &request, wanted, MOST)
        }
        Ok(None) => unreachable!(),
        Err(_) => Err(PeerFault::Memory),
    }
}

/// What was read of a body.
pub(crate) fn found<T>(read: Result<Option<T>, AllocError>) -> Result<T, PeerFault>
    ensures { result ≡ found read }
{
    match read {
        Ok(Some(value)) => Ok(value),
        Ok(None) => Err(PeerFault::Foreign),
        Err(_) => Err(PeerFault::Memory),
    }
}
