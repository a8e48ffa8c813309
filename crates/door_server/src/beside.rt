ghost use Rattle.std.specs.List.{AllZip};
ghost use Rattle.door_server.specs.Served.{ServesCaller};

use crate::serving::serve_door;
use crate::worker::{Caller, Worker};
use browse_http::Interface;
use caller_doors::Door;
use office_model::Port;
use std::alloc::Global;
use std::thread;
use std::thread::Threads;
use stream_traits::{Clock, Faults, Gate};

/// Serves the doors of all these callers beside each other, each in a thread of its own where one can be made, and returns once
/// each has left its door, which was closed or failed.
pub fn serve_callers<P: Port + Send, T: Door, C: Clock, G: Gate, R: Threads + Sync>(
    rt: &R,
    alloc: Global,
    callers: &mut [Caller<P, T, C, G>],
    interface: &Interface,
)
    ensures { AllZip (ServesCaller interface.now.defaults P.moves ⟦<T::Link as Faults>⟧ T.coming T.given_back T.faults C.moments) callers.old
        callers.new }
{
    let serve = |_: usize, caller: &mut Caller<P, T, C, G>| serve_caller(alloc, caller, interface);
    thread::for_each_mut(rt, callers, usize::MAX, &serve);
}

/// Serves the door of one caller, until that is closed or failed.
fn serve_caller<P: Port, T: Door, C: Clock, G: Gate>(
    alloc: Global,
    caller: &mut Caller<P, T, C, G>,
    interface: &Interface,
)
    ensures { ServesCaller interface.now.defaults P.moves ⟦<T::Link as Faults>⟧ T.coming T.given_back T.faults C.moments caller.old
        caller.new }
{
    let Caller { port, worker } = caller;
    let Worker { door, clock, gate } = worker;
    let _end = serve_door(alloc, port, door, clock, gate, interface);
}
