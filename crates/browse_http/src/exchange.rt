//! One request, what comes of it, and its response.

ghost use Rattle.std.specs.Prelude.{◌≡◌, ◌<◌, [], None, Some, Ok, Err, OnOk, IfErr, IsErrOf};
ghost use Rattle.fault_counts.specs.Counts.{Counted};
ghost use Rattle.http_wire.specs.Wires.{left_of, written_of, faults_of};
ghost use Rattle.http_bodies.specs.Bodies.{IsAt};
ghost use Rattle.request_events.specs.declared.defaults.Defaults.{Defaults as DefaultsValue};
ghost use Rattle.request_events.specs.Plans.{planned};
ghost use Rattle.request_events.specs.Asked.{staged_by, goes_by_stages};
ghost use Rattle.browse_http.specs.Talk.{request_limit, coding_of, staged_of};
ghost use Rattle.browse_http.specs.Serving.{CallsNothing, Attends, AttendsLast, CarriesOut, CarriesOutLast, IsOf, GoesOn, EndsAt, is_open};

use crate::answers::{answer_refused, respond};
use crate::bodies::{read_kept, skip_rest};
use crate::end::End;
use crate::files::send_file;
use crate::heads::{Request, end_body, give_up, request_of, take_head};
use crate::interface::Interface;
use crate::stages::put_in_stages;
use http_wire::Wire;
use office_model::{Event, Port};
use request_events::{
    FilePut, Plan, RequestFault, RequestRefusal, Way, event_of, looked_at, plan_of, way_of,
};
use std::alloc::Global;
use stream_traits::{Clock, Faults, Gate, Link};

/// Whether an event opens a file.
fn is_open(event: &Event) -> bool
    ensures { result ≡ is_open event.now }
{
    matches!(event, Event::OpenFile { .. })
}

/// Calls an event, or all that a file takes, and sends the response.
fn carry_event<P: Port, L: Link>(
    alloc: Global,
    port: &mut P,
    wire: &mut Wire<L>,
    event: &Event,
    closes: bool,
    is_head: bool,
) -> Result<(), End>
    ensures goes { OnOk result (CarriesOut (IsOf (Ok event.now)) P.moves port.old port.new (written_of wire.old) (written_of wire.new) closes is_head) }
    ensures ends { IfErr result (CarriesOutLast (IsOf (Ok event.now)) P.moves port.old port.new (written_of wire.old) (written_of wire.new) closes is_head) }
    ensures left { left_of wire.new ≡ left_of wire.old }
    ensures counted { Counted (faults_of wire.old) (faults_of wire.new) (IsErrOf result End.LinkFault) }
{
    if is_open(event) {
        return send_file(alloc, port, wire, event, closes, is_head);
    }
    let reply = port.call(alloc, event);
    respond(alloc, wire, event, &reply, closes, is_head)
}

/// What comes of an event, or of its want; and the response.
fn carry_out<P: Port, L: Link>(
    alloc: Global,
    port: &mut P,
    wire: &mut Wire<L>,
    judged: Result<Event, RequestFault>,
    closes: bool,
    is_head: bool,
) -> Result<(), End>
    ensures goes { OnOk result (CarriesOut (IsOf judged) P.moves port.old port.new (written_of wire.old) (written_of wire.new) closes is_head) }
    ensures ends { IfErr result (CarriesOutLast (IsOf judged) P.moves port.old port.new (written_of wire.old) (written_of wire.new) closes is_head) }
    ensures left { left_of wire.new ≡ left_of wire.old }
    ensures counted { Counted (faults_of wire.old) (faults_of wire.new) (IsErrOf result End.LinkFault) }
{
    match judged {
        Ok(event) => carry_event(alloc, port, wire, &event, closes, is_head),
        Err(RequestFault::Refused(refusal)) => answer_refused(wire, refusal, closes, is_head),
        Err(RequestFault::Memory) => Err(give_up(wire)),
    }
}

/// A request whose file goes by stages.
fn attend_staged<P: Port, L: Link, C: Clock>(
    alloc: Global,
    port: &mut P,
    wire: &mut Wire<L>,
    clock: &mut C,
    request: &mut Request,
    put: FilePut,
) -> Result<(), End>
    requires { staged_of request.old.head (planned request.old.head) ≡ Some put }
    ensures goes { OnOk result ((defaults : DefaultsValue) → Attends defaults request.old.head P.moves port.old port.new request.old.body
        (left_of wire.old) (left_of wire.new) (written_of wire.old) (written_of wire.new) (C.moments clock.old) (C.moments clock.new)
        request.old.closes request.old.is_head) }
    ensures ends { IfErr result (λ end. (defaults : DefaultsValue) → AttendsLast defaults request.old.head P.moves port.old port.new request.old.body
        (left_of wire.old) (left_of wire.new) (written_of wire.old) (written_of wire.new) (C.moments clock.old) (C.moments clock.new)
        request.old.closes request.old.is_head end) }
    ensures counted { Counted (faults_of wire.old) (faults_of wire.new) (IsErrOf result End.LinkFault) }
{
    let answered = match put_in_stages(alloc, port, wire, &mut request.body, put) {
        Ok(answered) => answered,
        Err(stop) => return Err(end_body(wire, stop, request.is_head)),
    };
    clock.now();
    respond(
        alloc,
        wire,
        &answered.event,
        &answered.reply,
        request.closes,
        request.is_head,
    )
}

/// A request that is refused before its body is read.
fn attend_refused<L: Link, C: Clock>(
    alloc: Global,
    wire: &mut Wire<L>,
    clock: &mut C,
    request: &mut Request,
    refusal: RequestRefusal,
) -> Result<(), End>
    requires { planned request.old.head ≡ Err refusal }
    ensures goes { OnOk result ((defaults : DefaultsValue) → Attends defaults request.old.head CallsNothing tt tt request.old.body
        (left_of wire.old) (left_of wire.new) (written_of wire.old) (written_of wire.new) (C.moments clock.old) (C.moments clock.new)
        request.old.closes request.old.is_head) }
    ensures ends { IfErr result (λ end. (defaults : DefaultsValue) → AttendsLast defaults request.old.head CallsNothing tt tt request.old.body
        (left_of wire.old) (left_of wire.new) (written_of wire.old) (written_of wire.new) (C.moments clock.old) (C.moments clock.new)
        request.old.closes request.old.is_head end) }
    ensures counted { Counted (faults_of wire.old) (faults_of wire.new) (IsErrOf result End.LinkFault) }
{
    match skip_rest(alloc, wire, &mut request.body) {
        Ok(()) => {}
        Err(stop) => return Err(end_body(wire, stop, request.is_head)),
    }
    clock.now();
    answer_refused(wire, refusal, request.closes, request.is_head)
}

/// A request of one event, or of a file in parts.
fn attend_planned<P: Port, L: Link, C: Clock>(
    alloc: Global,
    port: &mut P,
    wire: &mut Wire<L>,
    clock: &mut C,
    interface: &Interface,
    request: &mut Request,
    plan: Plan,
) -> Result<(), End>
    requires planned { planned request.old.head ≡ Ok plan }
    requires whole { staged_by (goes_by_stages request.old.head) plan ≡ None }
    requires body { IsAt (coding_of request.old.head) request.old.body [] [] }
    ensures goes { OnOk result (Attends interface.now.defaults request.old.head P.moves port.old port.new request.old.body
        (left_of wire.old) (left_of wire.new) (written_of wire.old) (written_of wire.new) (C.moments clock.old) (C.moments clock.new)
        request.old.closes request.old.is_head) }
    ensures ends { IfErr result (AttendsLast interface.now.defaults request.old.head P.moves port.old port.new request.old.body
        (left_of wire.old) (left_of wire.new) (written_of wire.old) (written_of wire.new) (C.moments clock.old) (C.moments clock.new)
        request.old.closes request.old.is_head) }
    ensures counted { Counted (faults_of wire.old) (faults_of wire.new) (IsErrOf result End.LinkFault) }
{
    let kept = match read_kept(alloc, wire, &mut request.body, looked_at(&plan)) {
        Ok(kept) => kept,
        Err(stop) => return Err(end_body(wire, stop, request.is_head)),
    };
    let judged = event_of(alloc, plan, kept, clock.now(), &interface.defaults);
    carry_out(alloc, port, wire, judged, request.closes, request.is_head)
}

/// A request whose head was read: its route and query are judged, then its body is read, and what comes of it is answered.
fn attend<P: Port, L: Link, C: Clock>(
    alloc: Global,
    port: &mut P,
    wire: &mut Wire<L>,
    clock: &mut C,
    interface: &Interface,
    request: &mut Request,
) -> Result<(), End>
    requires { IsAt (coding_of request.old.head) request.old.body [] [] }
    ensures goes { OnOk result (Attends interface.now.defaults request.old.head P.moves port.old port.new request.old.body
        (left_of wire.old) (left_of wire.new) (written_of wire.old) (written_of wire.new) (C.moments clock.old) (C.moments clock.new)
        request.old.closes request.old.is_head) }
    ensures ends { IfErr result (AttendsLast interface.now.defaults request.old.head P.moves port.old port.new request.old.body
        (left_of wire.old) (left_of wire.new) (written_of wire.old) (written_of wire.new) (C.moments clock.old) (C.moments clock.new)
        request.old.closes request.old.is_head) }
    ensures counted { Counted (faults_of wire.old) (faults_of wire.new) (IsErrOf result End.LinkFault) }
{
    match plan_of(alloc, &interface.router, &request.head) {
        Ok(plan) => match way_of(&request.head, plan) {
            Way::Staged(put) => attend_staged(alloc, port, wire, clock, request, put),
            Way::Planned(plan) => attend_planned(
                alloc, port, wire, clock, interface, request, plan,
            ),
        },
        Err(RequestFault::Refused(refusal)) => attend_refused(alloc, wire, clock, request, refusal),
        Err(RequestFault::Memory) => Err(give_up(wire)),
    }
}

/// One request, what comes of it, and its response; or how the connection ends there.
pub fn exchange<P: Port, L: Link, C: Clock, G: Gate>(
    alloc: Global,
    port: &mut P,
    wire: &mut Wire<L>,
    clock: &mut C,
    gate: &mut G,
    interface: &Interface,
    index: u32,
) -> Result<(), End>
    requires { index < request_limit }
    ensures goes { OnOk result (GoesOn interface.now.defaults P.moves port.old port.new (left_of wire.old) (left_of wire.new)
        (written_of wire.old) (written_of wire.new) (C.moments clock.old) (C.moments clock.new) index) }
    ensures ends { IfErr result (EndsAt interface.now.defaults P.moves port.old port.new (left_of wire.old) (left_of wire.new)
        (written_of wire.old) (written_of wire.new) (C.moments clock.old) (C.moments clock.new) index) }
    ensures counted { Counted (faults_of wire.old) (faults_of wire.new) (IsErrOf result End.LinkFault) }
{
    let head = take_head(alloc, wire)?;
    gate.hold(u64::from(index));
    let mut request = request_of(index, head);
    attend(alloc, port, wire, clock, interface, &mut request)
}
