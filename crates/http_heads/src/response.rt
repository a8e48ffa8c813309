//! The head of a response in memory, as a client looks at it.

ghost use Rattle.std.specs.Prelude.{◌≡◌, ◌<◌, ◌≤◌, length};
ghost use Rattle.std.specs.Option.{option_copied};
ghost use Rattle.httparse.specs.Spans.{IsResponseOf, IsResponseWithin};
ghost use Rattle.http_heads.specs.Fields.{length_texts};
ghost use Rattle.http_heads.specs.Fronts.{head_limit, field_limit};
ghost use Rattle.http_heads.specs.Responses.{IsResponseFront, ends_at_head, length_text, one_number};

use crate::fields::{Fields, Values};
use crate::front::{FIELD_LIMIT, HEAD_LIMIT};
use crate::judge::has_transfer_encoding;
use crate::text::{is_number, read_length};
use httparse::Status;
use httparse::spans::{EMPTY_HEADER_SPAN, HeaderSpan, ResponseSpans, parse_response};

/// The parts of a response's head that a client looks at.
#[derive(Clone, Copy, Debug, PartialEq, Eq)]
pub struct ResponseParts {
    pub status: u16,
    /// The length of the body in bytes.
    pub length: u64,
}

/// What the bytes that were read so far say of the response that they begin with.
#[derive(Clone, Copy, Debug, PartialEq, Eq)]
pub enum ResponseFront {
    /// A whole head, in the first `len` of the bytes, of a body of at most 1,099,511,627,775 bytes.
    Whole { len: usize, parts: ResponseParts },
    /// A whole head, of a body of more bytes.
    TooLong,
    /// Whatever follows, there is no head of at most 16,384 bytes and 64 fields, one of which names the length of a body in
    /// decimal: its status ends it (1xx, 204, 304), or its body comes in an encoding of its own.
    Foreign,
    /// More bytes can make it whole.
    Unfinished,
}

/// What the bytes that were read so far say of the response that they begin with; what it decides, it decides for the whole
/// input. It takes no memory.
pub fn read_response_front(bytes: &[u8]) -> ResponseFront
    ensures { IsResponseFront bytes.now result }
{
    let start = &bytes[..bytes.len().min(HEAD_LIMIT)];
    let mut spans = [EMPTY_HEADER_SPAN; FIELD_LIMIT];
    match parse_response(start, &mut spans) {
        Ok(Status::Complete(head)) => read_whole_response(start, head, &spans),
        Ok(Status::Partial) => unfinished_response(start.len()),
        Err(_) => ResponseFront::Foreign,
    }
}

/// What a whole head comes to.
fn read_whole_response(start: &[u8], head: ResponseSpans, spans: &[HeaderSpan]) -> ResponseFront
    requires at { IsResponseOf start.now spans.now head }
    requires within { IsResponseWithin start.now spans.now head }
    requires fits { (length start.now ≤ head_limit) × (length spans.now ≤ field_limit) }
    ensures front { IsResponseFront start.now result }
    ensures whole { result ≡ ResponseFront.Unfinished → ⊥ }
{
    let fields = Fields::new(start, &spans[..head.headers]);
    let Some(text) = length_text(head.code, &fields) else {
        return ResponseFront::Foreign;
    };
    match read_length(text) {
        Some(length) => ResponseFront::Whole {
            len: head.len,
            parts: ResponseParts {
                status: head.code,
                length,
            },
        },
        None => ResponseFront::TooLong,
    }
}

/// The digits of the body's length, if there is a body, it comes as it is, and one field names its length.
fn length_text<'a>(status: u16, fields: &Fields<'a>) -> Option<&'a [u8]>
    ensures { option_copied result ≡ length_text status fields.now }
{
    if ends_at_head(status) || has_transfer_encoding(fields) {
        return None;
    }
    one_number(fields)
}

/// Whether a response of this status ends with its head.
fn ends_at_head(status: u16) -> bool
    ensures { result ≡ ends_at_head status }
{
    status < 200 || status == 204 || status == 304
}

/// The text of the one length that the fields name, if it is a number.
fn one_number<'a>(fields: &Fields<'a>) -> Option<&'a [u8]>
    ensures { option_copied result ≡ one_number (length_texts fields.now) }
{
    match fields.values_of(b"Content-Length") {
        Values::Absent => None,
        Values::One(text) => { if is_number(text) { Some(text) } else { None } }
        Values::Several => None,
    }
}

/// What a front of this length without a whole head comes to, if no bytes refuse it.
fn unfinished_response(len: usize) -> ResponseFront
    ensures short { len < head_limit → result ≡ ResponseFront.Unfinished }
    ensures full { len ≡ head_limit → result ≡ ResponseFront.Foreign }
{
    if len == HEAD_LIMIT {
        ResponseFront::Foreign
    } else {
        ResponseFront::Unfinished
    }
}
