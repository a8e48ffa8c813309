//! A response, up to its body.

ghost use Rattle.std.specs.Prelude.{◌≡◌, ◌++◌, ◌+◌, ◌≤◌, length, IfSome, IsTrue};
ghost use Rattle.std.specs.Option.{option_copied};
ghost use Rattle.short_text.specs.Limits.{short_text_limit};
ghost use Rattle.http_wire.specs.Message.{phrase, status_line, field_line, length_line, allow_line, close_line, bytes_head, response_head, body_sent};
ghost use Rattle.http_wire.specs.Response.{message_of, HasShortHead};

use http::StatusCode;
use short_text::ShortText;

/// The interim response that asks for a body (RFC 9110, section 15.2.1).
pub const CONTINUE: &[u8] = b"HTTP/1.1 100 Continue\r\n\r\n";

/// The response to want of memory.
pub const NO_MEMORY: &[u8] =
    b"HTTP/1.1 507 Insufficient Storage\r\nContent-Length: 0\r\nConnection: close\r\n\r\n";

/// The end of a line.
const LINE_END: &[u8] = b"\r\n";

/// The end of a head.
const EMPTY_LINE: &[u8] = LINE_END;

/// The most bytes of the phrase, the type and the methods of a response.
const SHORT: usize = 64;

/// A response.
#[derive(Drop)]
pub struct Response<'a> {
    pub status: StatusCode,
    /// The type of the body, as `application/json`.
    pub content_type: &'a str,
    pub body: &'a [u8],
    /// The methods that the target takes, as `GET, PUT`.
    pub allow: Option<&'a str>,
    /// Whether it is the last one of its connection.
    pub closes: bool,
    /// Whether the request's method is HEAD, so that the body is left off.
    pub is_head: bool,
}

impl Response<'_> {
    /// Whether its texts are short enough for a head of at most 512 bytes: phrase, type and methods of at most 64 each.
    pub fn has_short_head(&self) -> bool
        ensures { IsTrue result → HasShortHead self.now }
    {
        if phrase_of(self.status).len() > SHORT {
            return false;
        }
        if self.content_type.len() > SHORT {
            return false;
        }
        match self.allow {
            None => true,
            Some(methods) => methods.len() <= SHORT,
        }
    }
}

/// The bytes of a response up to its body. They take no memory.
#[tactic(auto, unfolding(crate::specs::Message::response_head))]
pub fn head_text(response: &Response) -> ShortText
    requires { HasShortHead response.now }
    ensures { result ≡ response_head (message_of response.now) }
{
    let mut text = ShortText::new();
    push_status(&mut text, response.status);
    push_field(&mut text, b"Content-Type", response.content_type.as_bytes());
    push_length(&mut text, response.body.len());
    push_allow(&mut text, response.allow);
    push_close(&mut text, response.closes);
    text.push(EMPTY_LINE);
    text
}

/// The status of a response of bytes.
#[tactic(auto, unfolding(crate::specs::Message::phrase))]
fn ok_status() -> StatusCode
    ensures value { result ≡ 200 }
    ensures short { length (phrase result) ≤ 64 }
{
    StatusCode::OK
}

/// The head of a response of so many bytes that follow it in parts. It takes no memory.
#[tactic(auto, unfolding(crate::specs::Message::bytes_head))]
pub fn bytes_head_text(size: u64, closes: bool) -> ShortText
    ensures { result ≡ bytes_head size closes }
{
    let mut text = ShortText::new();
    push_status(&mut text, ok_status());
    push_field(&mut text, b"Content-Type", b"application/octet-stream");
    push_length(&mut text, size as usize);
    push_close(&mut text, closes);
    text.push(EMPTY_LINE);
    text
}

/// The bytes that follow the head: the body, or none if the method is HEAD.
pub fn sent_body<'a>(response: &Response<'a>) -> &'a [u8]
    ensures { result.now ≡ body_sent (message_of response.now) }
{
    if response.is_head { b"" } else { response.body }
}

/// Appends the status line, with the phrase that goes with the status.
#[tactic(auto, unfolding(crate::specs::Message::status_line))]
fn push_status(text: &mut ShortText, status: StatusCode)
    requires phrase { length (phrase status) ≤ 64 }
    requires room { length text.old + 96 ≤ short_text_limit }
    ensures value { text.new ≡ text.old ++ status_line status }
    ensures len { length text.new ≤ length text.old + 96 }
{
    text.push(b"HTTP/1.1 ");
    text.push(status.as_str().as_bytes());
    text.push(b" ");
    text.push(phrase_of(status).as_bytes());
    text.push(LINE_END);
}

/// The phrase that goes with a status, or none.
#[tactic(auto, unfolding(crate::specs::Message::phrase))]
fn phrase_of(status: StatusCode) -> &'static str
    ensures { result.now ≡ phrase status }
{
    status.canonical_reason().unwrap_or("")
}

/// Appends a field.
#[tactic(auto, unfolding(crate::specs::Message::field_line))]
fn push_field(text: &mut ShortText, name: &[u8], value: &[u8])
    requires { length text.old + length name.now + length value.now + 4 ≤ short_text_limit }
    ensures value { text.new ≡ text.old ++ field_line name.now value.now }
    ensures len { length text.new ≤ length text.old + length name.now + length value.now + 4 }
{
    text.push(name);
    text.push(b": ");
    text.push(value);
    text.push(LINE_END);
}

/// Appends the length of the body.
#[tactic(auto, unfolding(crate::specs::Message::length_line, crate::specs::Message::field_line))]
fn push_length(text: &mut ShortText, len: usize)
    requires { length text.old + 64 ≤ short_text_limit }
    ensures value { text.new ≡ text.old ++ length_line len }
    ensures len { length text.new ≤ length text.old + 64 }
{
    text.push(b"Content-Length");
    text.push(b": ");
    text.push_number(len as u64);
    text.push(LINE_END);
}

/// Appends the methods that the target takes, if they are given.
#[tactic(auto, unfolding(crate::specs::Message::allow_line))]
fn push_allow(text: &mut ShortText, allow: Option<&str>)
    requires short { IfSome (option_copied allow) (λ methods. length methods ≤ 64) }
    requires room { length text.old + 80 ≤ short_text_limit }
    ensures value { text.new ≡ text.old ++ allow_line (option_copied allow.entry) }
    ensures len { length text.new ≤ length text.old + 80 }
{
    match allow {
        None => {}
        Some(methods) => push_field(text, b"Allow", methods.as_bytes()),
    }
}

/// Appends the wish to close, if it is the last response.
#[tactic(auto, unfolding(crate::specs::Message::close_line))]
fn push_close(text: &mut ShortText, closes: bool)
    requires { length text.old + 32 ≤ short_text_limit }
    ensures value { text.new ≡ text.old ++ close_line closes }
    ensures len { length text.new ≤ length text.old + 32 }
{
    if closes {
        push_field(text, b"Connection", b"close");
    }
}

#[cfg(test)]
mod tests;
