//! The responses, written to a wire. None needs memory; the bodies of longer answers are made before.

ghost use Rattle.std.specs.Prelude.{◌≡◌, ◌≤◌, length, Some, IfSome, IfOk, IsErr, OnOk, OnErr};
ghost use Rattle.std.specs.Option.{option_copied};
ghost use Rattle.fault_counts.specs.Counts.{Counted};
ghost use Rattle.stream_traits.specs.Told.{behind, WroteFront};
ghost use Rattle.http_wire.specs.Message.{phrase, response_bytes};
ghost use Rattle.http_wire.specs.Wires.{left_of, written_of, faults_of};
ghost use Rattle.reply_bodies.specs.Replies.{long_body};
ghost use Rattle.http_replies.specs.Messages.{json_message, bytes_message, bad_response, broken_response, refused_response, reply_response, answer_message};

use crate::body_refusal::BodyRefusal;
use crate::names::{allowed_by, request_name};
use crate::statuses::{answer_status, bytes_status, head_status, refusal_status, request_status};
use disk_trait::Bytes;
use http::StatusCode;
use http_heads::HeadRefusal;
use http_wire::{Response, Wire, write_no_memory, write_response};
use office_model::{Answer, Event, Refusal};
use reply_bodies::{answer_text, refusal_text, refused_text};
use request_events::RequestRefusal;
use short_text::ShortText;
use stream_traits::{Failed, Faults, Link};

/// Writes a response of JSON.
fn write_text<L: Link>(
    wire: &mut Wire<L>,
    status: StatusCode,
    body: &[u8],
    allow: Option<&str>,
    closes: bool,
    is_head: bool,
) -> Result<(), Failed>
    requires status { length (phrase status) ≤ 64 }
    requires allow { IfSome (option_copied allow) (λ methods. length methods ≤ 64) }
    ensures all { OnOk result (written_of wire.new ≡ behind (written_of wire.old) (response_bytes (json_message status body.now (option_copied allow.entry) closes is_head))) }
    ensures front { OnErr result (WroteFront (written_of wire.old) (written_of wire.new) (response_bytes (json_message status body.now (option_copied allow.entry) closes is_head))) }
    ensures left { left_of wire.new ≡ left_of wire.old }
    ensures counted { Counted (faults_of wire.old) (faults_of wire.new) (IsErr result) }
{
    let response = Response {
        status,
        content_type: "application/json",
        body,
        allow,
        closes,
        is_head,
    };
    write_response(wire, &response)
}

/// Writes a response of short JSON.
fn write_json<L: Link>(
    wire: &mut Wire<L>,
    status: StatusCode,
    body: &ShortText,
    allow: Option<&str>,
    closes: bool,
    is_head: bool,
) -> Result<(), Failed>
    requires status { length (phrase status) ≤ 64 }
    requires allow { IfSome (option_copied allow) (λ methods. length methods ≤ 64) }
    ensures all { OnOk result (written_of wire.new ≡ behind (written_of wire.old) (response_bytes (json_message status body.now (option_copied allow.entry) closes is_head))) }
    ensures front { OnErr result (WroteFront (written_of wire.old) (written_of wire.new) (response_bytes (json_message status body.now (option_copied allow.entry) closes is_head))) }
    ensures left { left_of wire.new ≡ left_of wire.old }
    ensures counted { Counted (faults_of wire.old) (faults_of wire.new) (IsErr result) }
{
    write_text(wire, status, body.as_slice(), allow, closes, is_head)
}

/// Refuses a head; without a body if it asks for HEAD.
#[tactic(auto, unfolding(crate::specs::Messages::bad_response))]
pub fn write_bad<L: Link>(
    wire: &mut Wire<L>,
    refusal: HeadRefusal,
    for_head: bool,
) -> Result<(), Failed>
    ensures all { OnOk result (written_of wire.new ≡ behind (written_of wire.old) (bad_response refusal for_head)) }
    ensures front { OnErr result (WroteFront (written_of wire.old) (written_of wire.new) (bad_response refusal for_head)) }
    ensures left { left_of wire.new ≡ left_of wire.old }
    ensures counted { Counted (faults_of wire.old) (faults_of wire.new) (IsErr result) }
{
    let body = refused_text(refusal.name().as_bytes());
    write_json(wire, head_status(refusal), &body, None, true, for_head)
}

/// Refuses a body while it is read; without a body if the request asks for HEAD.
#[tactic(auto, unfolding(crate::specs::Messages::broken_response))]
pub fn write_broken<L: Link>(
    wire: &mut Wire<L>,
    refusal: BodyRefusal,
    is_head: bool,
) -> Result<(), Failed>
    ensures all { OnOk result (written_of wire.new ≡ behind (written_of wire.old) (broken_response refusal is_head)) }
    ensures front { OnErr result (WroteFront (written_of wire.old) (written_of wire.new) (broken_response refusal is_head)) }
    ensures left { left_of wire.new ≡ left_of wire.old }
    ensures counted { Counted (faults_of wire.old) (faults_of wire.new) (IsErr result) }
{
    let body = refused_text(refusal.name().as_bytes());
    write_json(wire, refusal.status(), &body, None, true, is_head)
}

/// Refuses a request.
#[tactic(auto, unfolding(crate::specs::Messages::refused_response))]
pub fn write_refusal<L: Link>(
    wire: &mut Wire<L>,
    refusal: RequestRefusal,
    closes: bool,
    is_head: bool,
) -> Result<(), Failed>
    ensures all { OnOk result (written_of wire.new ≡ behind (written_of wire.old) (refused_response refusal closes is_head)) }
    ensures front { OnErr result (WroteFront (written_of wire.old) (written_of wire.new) (refused_response refusal closes is_head)) }
    ensures left { left_of wire.new ≡ left_of wire.old }
    ensures counted { Counted (faults_of wire.old) (faults_of wire.new) (IsErr result) }
{
    let body = refused_text(request_name(refusal).as_bytes());
    write_json(
        wire,
        request_status(refusal),
        &body,
        allowed_by(refusal),
        closes,
        is_head,
    )
}

/// Writes the bytes of a file or of a part of it, as they lie in the answer.
fn write_bytes<L: Link>(
    wire: &mut Wire<L>,
    body: &[u8],
    closes: bool,
    is_head: bool,
) -> Result<(), Failed>
    ensures all { OnOk result (written_of wire.new ≡ behind (written_of wire.old) (response_bytes (bytes_message body.now closes is_head))) }
    ensures front { OnErr result (WroteFront (written_of wire.old) (written_of wire.new) (response_bytes (bytes_message body.now closes is_head))) }
    ensures left { left_of wire.new ≡ left_of wire.old }
    ensures counted { Counted (faults_of wire.old) (faults_of wire.new) (IsErr result) }
{
    let response = Response {
        status: bytes_status(),
        content_type: "application/octet-stream",
        body,
        allow: None,
        closes,
        is_head,
    };
    write_response(wire, &response)
}

/// Writes the response to a longer answer, whose body was made.
fn write_made<L: Link>(
    wire: &mut Wire<L>,
    event: &Event,
    answer: &Answer,
    body: &Bytes,
    closes: bool,
    is_head: bool,
) -> Result<(), Failed>
    requires { long_body answer.now ≡ Some body.now }
    ensures all { OnOk result (written_of wire.new ≡ behind (written_of wire.old) (response_bytes (answer_message event.now answer.now closes is_head))) }
    ensures front { OnErr result (WroteFront (written_of wire.old) (written_of wire.new) (response_bytes (answer_message event.now answer.now closes is_head))) }
    ensures left { left_of wire.new ≡ left_of wire.old }
    ensures counted { Counted (faults_of wire.old) (faults_of wire.new) (IsErr result) }
{
    if let Answer::Next(_) = answer {
        return write_bytes(wire, body.as_slice(), closes, is_head);
    }
    let status = answer_status(event, answer);
    write_text(wire, status, body.as_slice(), None, closes, is_head)
}

/// Writes the response to an answer. The body of a longer one was made before.
fn write_answer<L: Link>(
    wire: &mut Wire<L>,
    event: &Event,
    answer: &Answer,
    made: &Option<Bytes>,
    closes: bool,
    is_head: bool,
) -> Result<(), Failed>
    requires { made.now ≡ long_body answer.now }
    ensures all { OnOk result (written_of wire.new ≡ behind (written_of wire.old) (response_bytes (answer_message event.now answer.now closes is_head))) }
    ensures front { OnErr result (WroteFront (written_of wire.old) (written_of wire.new) (response_bytes (answer_message event.now answer.now closes is_head))) }
    ensures left { left_of wire.new ≡ left_of wire.old }
    ensures counted { Counted (faults_of wire.old) (faults_of wire.new) (IsErr result) }
{
    if let Some(body) = made {
        return write_made(wire, event, answer, body, closes, is_head);
    }
    if let Some(text) = answer_text(event, answer) {
        let status = answer_status(event, answer);
        return write_json(wire, status, &text, None, closes, is_head);
    }
    match answer {
        Answer::Content(bytes) => write_bytes(wire, bytes.as_slice(), closes, is_head),
        Answer::Part(bytes) => write_bytes(wire, bytes.as_slice(), closes, is_head),
        _ => unreachable!(),
    }
}

/// Writes the response to a reply.
#[tactic(auto, unfolding(crate::specs::Messages::reply_response))]
pub fn write_reply<L: Link>(
    wire: &mut Wire<L>,
    event: &Event,
    reply: &Result<Answer, Refusal>,
    made: &Option<Bytes>,
    closes: bool,
    is_head: bool,
) -> Result<(), Failed>
    requires { IfOk reply.now (λ answer. made.now ≡ long_body answer) }
    ensures all { OnOk result (written_of wire.new ≡ behind (written_of wire.old) (reply_response event.now reply.now closes is_head)) }
    ensures front { OnErr result (WroteFront (written_of wire.old) (written_of wire.new) (reply_response event.now reply.now closes is_head)) }
    ensures left { left_of wire.new ≡ left_of wire.old }
    ensures counted { Counted (faults_of wire.old) (faults_of wire.new) (IsErr result) }
{
    match reply {
        Ok(answer) => write_answer(wire, event, answer, made, closes, is_head),
        Err(Refusal::Memory) => write_no_memory(wire),
        Err(refusal) => {
            let text = refusal_text(refusal);
            write_json(wire, refusal_status(refusal), &text, None, closes, is_head)
        }
    }
}
