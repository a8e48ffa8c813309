//! A request, and its response.

ghost use Rattle.std.specs.Prelude.{◌≡◌, IsErrOf};
ghost use Rattle.fault_counts.specs.Counts.{Counted};
ghost use Rattle.http_wire.specs.Wires.{faults_of, seen_of};
ghost use Rattle.http_client.specs.Requests.{ask_of};
ghost use Rattle.peer_exchange.specs.Exchanges.{told, Exchanges};

use crate::fault::PeerFault;
use http_client::{Request, ResponseRead, read_response, write_request};
use http_wire::{Wire, WireFault};
use std::alloc::Global;
use stream_traits::{Failed, Faults, Link};

/// Writes a request, reads its response, and gives its body, of at most `most` bytes, if its status is the wanted one. The request is
/// sent before the link is read, and also where the whole response was read ahead. Whatever this comes to, a front of the request was
/// written, and a front of the input taken. After `Refused` a whole response was taken, so the next exchange is as good as the first one;
/// after another fault the answer to this request, or the rest of it, may still come.
pub fn exchange<L: Link>(
    alloc: Global,
    wire: &mut Wire<L>,
    request: &Request,
    wanted: u16,
    most: u32,
) -> Result<Vec<u8>, PeerFault>
    ensures exchanged { Exchanges (seen_of wire.old) (seen_of wire.new) (ask_of request.now) wanted most result }
    ensures counted { Counted (faults_of wire.old) (faults_of wire.new) (IsErrOf result PeerFault.Link) }
{
    match write_request(alloc, wire, request) {
        Ok(()) => {}
        Err(WireFault::LinkFault) => return Err(PeerFault::Link),
        Err(WireFault::Memory) => return Err(PeerFault::Memory),
    }
    let read = read_response(alloc, wire, most);
    match wire.send() {
        Ok(()) => judged(read, wanted),
        Err(Failed) => Err(PeerFault::Link),
    }
}

/// What the reading of a response comes to.
fn judged(read: ResponseRead, wanted: u16) -> Result<Vec<u8>, PeerFault>
    ensures { result ≡ told wanted read }
{
    match read {
        ResponseRead::Response { status, body } => {
            if status == wanted {
                Ok(body)
            } else {
                Err(PeerFault::Refused(status))
            }
        }
        ResponseRead::Ended => Err(PeerFault::Foreign),
        ResponseRead::Truncated => Err(PeerFault::Foreign),
        ResponseRead::Foreign => Err(PeerFault::Foreign),
        ResponseRead::TooLong => Err(PeerFault::Memory),
        ResponseRead::LinkFault => Err(PeerFault::Link),
        ResponseRead::Memory => Err(PeerFault::Memory),
    }
}
