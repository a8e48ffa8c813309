ghost use Rattle.std.specs.Prelude.{◌≡◌, ◌⊎◌, ℕ};
ghost use Rattle.fault_counts.specs.Counts.{Counted};
ghost use Rattle.stream_traits.specs.Seen.{seen_of};
ghost use Rattle.http_wire.specs.Wires.{left_of, written_of, sent_of, faults_of};
ghost use Rattle.browse_http.specs.Talk.{Converses, ServesLink};

use crate::end::End;
use crate::exchange::exchange;
use crate::heads::REQUEST_LIMIT;
use crate::interface::Interface;
use http_wire::Wire;
use office_model::Port;
use std::alloc::Global;
use stream_traits::{Clock, Failed, Faults, Gate, Link};

/// A connection that was served: how it ended, and its link, handed back.
#[derive(Drop)]
pub struct Served<L> {
    pub end: End,
    pub link: L,
}

/// Serves a connection: reads requests, holds each at the gate between its head and its body, makes the calls of each that isn't
/// refused, and writes the responses. It ends after 1,000,000 requests at the latest. What was written is sent
/// before more is read, and at the end. The settings give the rules of a host that is added, and the zone. The order of work, the
/// routes and the responses are those of the interface's description; heads and bodies are those of HTTP/1.1 (RFC 9112).
pub fn serve_connection<P: Port, L: Link, C: Clock, G: Gate>(
    alloc: Global,
    port: &mut P,
    link: L,
    clock: &mut C,
    gate: &mut G,
    interface: &Interface,
) -> Served<L>
    ensures { ServesLink interface.now.defaults P.moves port.old port.new (seen_of ⟦<L as Faults>⟧ link) (seen_of ⟦<L as Faults>⟧ result.link)
        (C.moments clock.old) (C.moments clock.new) result.end }
{
    let mut wire = Wire::new(alloc, link);
    let end = serve_wire(alloc, port, &mut wire, clock, gate, interface);
    Served {
        end,
        link: wire.into_link(),
    }
}

/// Serves the requests of a wire, and sends what was written last.
fn serve_wire<P: Port, L: Link, C: Clock, G: Gate>(
    alloc: Global,
    port: &mut P,
    wire: &mut Wire<L>,
    clock: &mut C,
    gate: &mut G,
    interface: &Interface,
) -> End
    ensures talk { Converses interface.now.defaults P.moves port.old port.new (left_of wire.old) (left_of wire.new)
        (written_of wire.old) (written_of wire.new) (C.moments clock.old) (C.moments clock.new) result }
    ensures sent { (result ≡ End.LinkFault → ⊥) → sent_of wire.new ≡ written_of wire.new }
    ensures counted { Counted (faults_of wire.old) (faults_of wire.new) (result ≡ End.LinkFault) }
{
    for index in 0..REQUEST_LIMIT {
        match exchange(alloc, port, wire, clock, gate, interface, index) {
            Ok(()) => {}
            Err(end) => return sent_last(wire, end),
        }
    }
    unreachable!()
}

/// Sends what was written before a connection ends so; or the link fails.
fn sent_last<L: Link>(wire: &mut Wire<L>, end: End) -> End
    ensures ends { (result ≡ end) ⊎ (result ≡ End.LinkFault) }
    ensures written { written_of wire.new ≡ written_of wire.old }
    ensures left { left_of wire.new ≡ left_of wire.old }
    ensures sent { (result ≡ End.LinkFault → ⊥) → sent_of wire.new ≡ written_of wire.new }
    ensures counted { (before : ℕ) → Counted before (faults_of wire.old) (end ≡ End.LinkFault)
        → Counted before (faults_of wire.new) (result ≡ End.LinkFault) }
{
    match wire.send() {
        Ok(()) => end,
        Err(Failed) => End::LinkFault,
    }
}
