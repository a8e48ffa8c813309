//! The port, as its callers see it.

ghost use Rattle.std.specs.Prelude.{⊤};

use crate::codec::{Asked, Codec};
use crate::end::PortEnd;
use crate::hearing::hear;
use http_wire::Wire;
use office_model::{Answer, Event, Port, Refusal};
use std::alloc::Global;
use std::marker::PhantomData;
use stream_traits::Link;

/// A port to another server over HTTP: each call is a request and its response. Once an exchange gave no reply the port has ended:
/// whether that call was carried out isn't known, it and all later calls are answered want of memory, and nothing more is written or
/// read. An event that there is no request for is refused as the codec says, and the port goes on; so it does without memory for a
/// request.
#[derive(Drop)]
pub struct RemotePort<L: Link, C: Codec> {
    wire: Wire<L>,
    codec: PhantomData<C>,
    end: Option<PortEnd>,
    ghost plain: { ⊤ },
}

impl<L: Link, C: Codec> RemotePort<L, C> {
    ghost use Rattle.std.specs.Prelude.{◌≡◌, true, None, [], ◌∷◌, IfOk};
    ghost use Rattle.http_wire.specs.Wires.{seen_of};
    ghost use Rattle.office_model.specs.Step.{IsAnswerTo};
    ghost use Rattle.remote_port.specs.Asked.{asked_of};
    ghost use Rattle.remote_port.specs.Ports.{connection_of};
    ghost use Rattle.remote_port.specs.Speaks.{Speaks};

    /// A port over a wire. The link is to be a new connection: its first response is to be the one to the first call.
    pub fn new(wire: Wire<L>) -> RemotePort<L, C>
        ensures { connection_of result ≡ record { seen = seen_of wire; end = None } }
    {
        RemotePort {
            wire,
            codec: PhantomData,
            end: None,
        }
    }

    /// Why the port has ended, if it has.
    pub fn end(&self) -> Option<PortEnd>
        ensures { result ≡ (connection_of self.now).end }
    {
        self.end
    }

    /// The wire, as the calls left it.
    pub fn into_wire(self) -> Wire<L>
        ensures { seen_of result ≡ (connection_of self).seen }
    {
        self.wire
    }

    /// Asks for an event by its request.
    fn ask(&mut self, alloc: Global, event: &Event, asked: &Asked) -> Result<Answer, Refusal>
        requires may { C.may event.now ≡ true }
        requires asked { asked_of asked.now ≡ C.request_of event.now }
        requires open { self.old.end ≡ None }
        ensures moved { Speaks C.may C.request_of C.refusal_of C.says (connection_of self.old) (connection_of self.new) ((event.now, result) ∷ []) }
        ensures in_kind { IfOk result (IsAnswerTo event.now) }
    {
        match hear::<L, C>(alloc, &mut self.wire, event, asked) {
            Ok(reply) => reply,
            Err(end) => {
                self.end = Some(end);
                Err(Refusal::Memory)
            }
        }
    }
}

impl<L: Link, C: Codec> Port for RemotePort<L, C> {
    ghost use Rattle.remote_port.specs.Ports.{Moves, connection_of};
    ghost use Rattle.remote_port.specs.SpeaksLaws.{Speaks-none, Speaks-append};

    ghost moves = { λ p calls q. Moves p calls q };

    fn call(&mut self, alloc: Global, event: &Event) -> Result<Answer, Refusal> {
        if self.end.is_some() {
            return Err(Refusal::Memory);
        }
        match C::request(alloc, event) {
            Ok(Some(asked)) => self.ask(alloc, event, &asked),
            Ok(None) => Err(C::refusal(event)),
            Err(_) => Err(Refusal::Memory),
        }
    }

    ghost none = { λ p. Speaks-none C.may C.request_of C.refusal_of C.says (connection_of p) };

    ghost joined = { λ p q r xs ys a b. Speaks-append C.may C.request_of C.refusal_of C.says (connection_of p) (connection_of q) (connection_of r) xs ys a b };
}
