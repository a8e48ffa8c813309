//! Whether a request is one that a server reads as it is.

ghost use Rattle.std.specs.Prelude.{◌≡◌, length};
ghost use Rattle.std.specs.List.{list_all};
ghost use Rattle.httparse.specs.Grammar.{is_token, is_token_byte, is_uri_byte, is_value_byte};
ghost use Rattle.http_client.specs.Plain.{has_fitting_body, is_plain, is_target, is_value};
ghost use Rattle.http_client.specs.Requests.{ask_of, request_head};

use crate::requests::{Request, length_text};
use http_heads::{BODY_LIMIT, HEAD_LIMIT};

/// The bytes of a head besides its method, its target, its host and the line of the length.
const FIXED: u128 = 22;

impl Request<'_> {
    /// Whether a server reads it as it is: the method is a token, target and host have no byte that may not stand there, and the target
    /// has one; the head has at most 16,384 bytes, and the body at most 1,099,511,627,775.
    pub fn is_plain(&self) -> bool
        ensures { result ≡ is_plain (ask_of self.now) }
    {
        is_token(self.method.as_bytes())
            && is_target(self.target.as_bytes())
            && is_value(self.host.as_bytes())
            && self.head_len() <= HEAD_LIMIT as u128
            && self.has_fitting_body()
    }

    /// How many bytes its head has.
    #[tactic(auto, using(crate::proofs::AskLaws::head_size))]
    fn head_len(&self) -> u128
        ensures { result ≡ length (request_head (ask_of self.now)) }
    {
        let texts = self.method.len() as u128 + self.target.len() as u128 + self.host.len() as u128;
        texts + length_text(self).len() as u128 + FIXED
    }

    /// Whether its body has at most 1,099,511,627,775 bytes.
    fn has_fitting_body(&self) -> bool
        ensures { result ≡ has_fitting_body (ask_of self.now).body }
    {
        match self.body {
            None => true,
            Some(body) => body.len() as u64 <= BODY_LIMIT,
        }
    }
}

/// Whether the bytes are a token (RFC 9110, section 5.6.2).
fn is_token(bytes: &[u8]) -> bool
    ensures { result ≡ is_token bytes.now }
{
    !bytes.is_empty() && has_token_bytes(bytes)
}

/// Whether each byte may stand in a token.
fn has_token_bytes(bytes: &[u8]) -> bool
    ensures { result ≡ list_all is_token_byte bytes.now }
{
    for byte in bytes {
        if !is_token_byte(*byte) {
            return false;
        }
    }
    true
}

/// Whether a byte may stand in a token.
#[tactic(auto, unfolding(httparse::specs::Grammar::is_token_byte))]
fn is_token_byte(byte: u8) -> bool
    ensures { result ≡ is_token_byte byte }
{
    byte.is_ascii_alphanumeric() || b"!#$%&'*+-.^_`|~".contains(&byte)
}

/// Whether the bytes may be a target.
fn is_target(bytes: &[u8]) -> bool
    ensures { result ≡ is_target bytes.now }
{
    !bytes.is_empty() && has_target_bytes(bytes)
}

/// Whether each byte may stand in a target.
fn has_target_bytes(bytes: &[u8]) -> bool
    ensures { result ≡ list_all is_uri_byte bytes.now }
{
    for byte in bytes {
        if *byte <= b' ' || *byte == 127 {
            return false;
        }
    }
    true
}

/// Whether each byte may stand in the value of a field.
fn is_value(bytes: &[u8]) -> bool
    ensures { result ≡ is_value bytes.now }
{
    for byte in bytes {
        if !is_value_byte(*byte) {
            return false;
        }
    }
    true
}

/// Whether a byte may stand in the value of a field.
fn is_value_byte(byte: u8) -> bool
    ensures { result ≡ is_value_byte byte }
{
    byte == b'\t' || (byte >= b' ' && byte != 127)
}
