//! Requests that are written.

ghost use Rattle.std.specs.Prelude.{◌≡◌, ◌+◌, ◌≤◌, ◌++◌, [], length, unwrap_or, IfOk, IfErr, OnOk, OnErr, IsErrOf};
ghost use Rattle.std.specs.Option.{option_copied};
ghost use Rattle.fault_counts.specs.Counts.{Counted};
ghost use Rattle.stream_traits.specs.Told.{behind, WroteFront};
ghost use Rattle.http_wire.specs.Message.{length_line};
ghost use Rattle.http_wire.specs.Wires.{left_of, written_of, sent_of, faults_of};
ghost use Rattle.http_client.specs.Requests.{ask_of, request_head, request_bytes, length_part};

use http_wire::{Wire, WireFault, write_both};
use short_text::ShortText;
use std::alloc::{AllocError, Global};
use stream_traits::{Faults, Link};

/// A request. Its method is not HEAD, whose responses have no body behind their heads.
#[derive(Clone, Copy, Debug)]
pub struct Request<'a> {
    /// As `GET`.
    pub method: &'a str,
    /// A path, and a query if there is one, as they are to stand in the head: `/hosts?prefix=a%20b`.
    pub target: &'a str,
    /// Whom it is for, with the port unless that is 80: `backup.example:8070`.
    pub host: &'a str,
    /// The body, whose length is named, if there is one.
    pub body: Option<&'a [u8]>,
}

/// Writes a request, whatever its texts are: a server reads it as it is if it `is_plain`. It is sent before more is read from the link, or by `send`. If the link fails, a prefix of the request may be
/// written; without memory for its head nothing is.
pub fn write_request<L: Link>(
    alloc: Global,
    wire: &mut Wire<L>,
    request: &Request,
) -> Result<(), WireFault>
    ensures all { OnOk result (written_of wire.new ≡ behind (written_of wire.old) (request_bytes (ask_of request.now))) }
    ensures front { OnErr result (WroteFront (written_of wire.old) (written_of wire.new) (request_bytes (ask_of request.now))) }
    ensures memory { IfErr result (λ fault. fault ≡ WireFault.Memory → written_of wire.new ≡ written_of wire.old) }
    ensures sent { sent_of wire.new ≡ sent_of wire.old }
    ensures left { left_of wire.new ≡ left_of wire.old }
    ensures counted { Counted (faults_of wire.old) (faults_of wire.new) (IsErrOf result WireFault.LinkFault) }
{
    let head = head_text(alloc, request)?;
    write_both(wire, head.as_slice(), sent_body(request))?;
    Ok(())
}

/// The bytes that follow the head.
fn sent_body<'a>(request: &Request<'a>) -> &'a [u8]
    ensures { result.now ≡ unwrap_or (ask_of request.now).body [] }
{
    match request.body {
        None => b"",
        Some(body) => body,
    }
}

/// The bytes of a request up to its body.
#[tactic(auto, unfolding(crate::specs::Requests::request_head))]
fn head_text(alloc: Global, request: &Request) -> Result<Vec<u8>, AllocError>
    ensures { IfOk result (λ text. text.items ≡ request_head (ask_of request.now)) }
{
    let length = length_text(request);
    let mut text = Vec::new(alloc);
    text.extend_from_slice(request.method.as_bytes())?;
    text.extend_from_slice(b" ")?;
    text.extend_from_slice(request.target.as_bytes())?;
    text.extend_from_slice(b" HTTP/1.1")?;
    text.extend_from_slice(b"\r\n")?;
    text.extend_from_slice(b"Host: ")?;
    text.extend_from_slice(request.host.as_bytes())?;
    text.extend_from_slice(b"\r\n")?;
    text.extend_from_slice(length.as_slice())?;
    text.extend_from_slice(b"\r\n")?;
    Ok(text)
}

/// The line of the length, if there is a body.
pub fn length_text(request: &Request) -> ShortText
    ensures { result ≡ length_part (ask_of request.now).body }
{
    let mut text = ShortText::new();
    match request.body {
        None => {}
        Some(body) => push_length(&mut text, body.len()),
    }
    text
}

/// Appends the length of a body.
#[tactic(auto, unfolding(http_wire::specs::Message::length_line, http_wire::specs::Message::field_line))]
fn push_length(text: &mut ShortText, len: usize)
    requires { length text.old + 64 ≤ 512 }
    ensures { text.new ≡ text.old ++ length_line len }
{
    text.push(b"Content-Length");
    text.push(b": ");
    text.push_number(len as u64);
    text.push(b"\r\n");
}
