//! How events are asked for, and what the responses say.

ghost use Rattle.std.specs.Prelude.{◌≡◌, ℕ, Bool, is_some, IfOk, IfSome, IfNone};
ghost use Rattle.office_model.specs.declared.event.Event.{Event as EventValue};
ghost use Rattle.office_model.specs.declared.refusal.Refusal.{Refusal as RefusalValue};
ghost use Rattle.office_model.specs.Meaning.{Reply};
ghost use Rattle.office_model.specs.Step.{IsAnswerTo};
ghost use Rattle.http_client.specs.Requests.{Ask};
ghost use Rattle.peer_talk.specs.Mirror.{Response};
ghost use Rattle.remote_port.specs.Asked.{asked_of};

use office_model::{Answer, Event, Refusal};
use std::alloc::{AllocError, Global};

/// The request that asks for an event. Its body is borrowed from the event.
#[derive(Drop)]
pub struct Asked<'a> {
    /// As `PUT`.
    pub method: &'static str,
    pub target: String,
    /// The body, whose length is named, if there is one.
    pub body: Option<&'a [u8]>,
}

/// The texts of events on the way to another server: how each is asked for, and which reply a response says.
pub trait Codec {
    // there is a request for the event
    ghost may: { EventValue → Bool };

    // that request
    ghost request_of: { EventValue → Ask };

    // what an event is refused with that there is no request for
    ghost refusal_of: { EventValue → RefusalValue };

    // the response to the event says this reply
    ghost says: { EventValue → Response → Reply → Type 0 };

    // a server may reply so to the event, as it has it; the laws are of such replies
    ghost in_range: { EventValue → Reply → Type 0 };

    // the event as a server has it that reads the request at this moment
    ghost at: { ℕ → EventValue → EventValue };

    /// The request that asks for an event, or None if there is none for it.
    fn request<'a>(alloc: Global, event: &'a Event) -> Result<Option<Asked<'a>>, AllocError>
        ensures may { IfOk result (λ found. is_some found ≡ may event.now) }
        ensures asked { IfOk result (λ found. IfSome found (λ asked. asked_of asked ≡ request_of event.now)) };

    /// The refusal of an event that there is no request for. Nothing is asked then.
    fn refusal(event: &Event) -> Refusal
        ensures { result ≡ refusal_of event.now };

    /// The reply that a response says, or None if it says none to the event. A refusal that it says is a reply; that the server had no
    /// memory (507) is none, since that doesn't tell whether the event was carried out.
    fn reply(
        alloc: Global,
        event: &Event,
        status: u16,
        body: &[u8],
    ) -> Result<Option<Result<Answer, Refusal>>, AllocError>
        ensures said { IfOk result (λ found. IfSome found (says event.now (record { status = status; body = body.now }))) }
        ensures none { IfOk result (λ found. IfNone found ((reply : Reply) → says event.now (record { status = status; body = body.now }) reply → ⊥)) }
        ensures in_kind { IfOk result (λ found. IfSome found (λ reply. IfOk reply (IsAnswerTo event.now))) };
}
