ghost use Rattle.std.specs.Prelude.{◌≡◌, ◌<◌, Some, None, IfNone, IfSome};
ghost use Rattle.fault_counts.specs.Counts.{Counted};
ghost use Rattle.caller_doors.specs.Links.{IsEmptied};
ghost use Rattle.door_server.specs.Serving.{ServesDoor};

use crate::end::DoorEnd;
use browse_http::{Interface, Served, serve_connection};
use caller_doors::{Came, Door};
use office_model::Port;
use std::alloc::Global;
use stream_traits::{Clock, Faults, Gate};

/// Serves the links of a door, one after the other, until the door is closed or fails, and gives each back. A link that fails, or
/// want of memory in a connection, ends that connection alone. It ends, since only so many links come at a door: one that is not
/// meant to close counts down from the largest number.
pub fn serve_door<P: Port, D: Door, C: Clock, G: Gate>(
    alloc: Global,
    port: &mut P,
    door: &mut D,
    clock: &mut C,
    gate: &mut G,
    interface: &Interface,
) -> DoorEnd
    ensures serves { ServesDoor interface.now.defaults P.moves port.old port.new ⟦<D::Link as Faults>⟧ (D.coming door.old) (D.coming door.new)
        (D.given_back door.old) (D.given_back door.new) (C.moments clock.old) (C.moments clock.new) }
    ensures closed { result ≡ DoorEnd.Closed → IsEmptied (D.coming door.new) }
    ensures counted { Counted (D.faults door.old) (D.faults door.new) (result ≡ DoorEnd.Failed) }
{
    loop {
        match serve_next(alloc, port, door, clock, gate, interface) {
            None => {}
            Some(end) => return end,
        }
    }
}

/// Serves the next link of a door and gives it back, or says why there is none.
fn serve_next<P: Port, D: Door, C: Clock, G: Gate>(
    alloc: Global,
    port: &mut P,
    door: &mut D,
    clock: &mut C,
    gate: &mut G,
    interface: &Interface,
) -> Option<DoorEnd>
    ensures serves { ServesDoor interface.now.defaults P.moves port.old port.new ⟦<D::Link as Faults>⟧ (D.coming door.old) (D.coming door.new)
        (D.given_back door.old) (D.given_back door.new) (C.moments clock.old) (C.moments clock.new) }
    ensures fewer { IfNone result (D.most door.new < D.most door.old) }
    ensures closed { IfSome result (λ end. end ≡ DoorEnd.Closed → IsEmptied (D.coming door.new)) }
    ensures counted { Counted (D.faults door.old) (D.faults door.new) (result ≡ Some DoorEnd.Failed) }
{
    match door.next() {
        Came::Link(link) => {
            let served = serve_connection(alloc, port, link, clock, gate, interface);
            door.done(served.link);
            None
        }
        Came::Closed => Some(DoorEnd::Closed),
        Came::Failed => Some(DoorEnd::Failed),
    }
}
