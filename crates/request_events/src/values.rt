ghost use Rattle.std.specs.Prelude.{◌≡◌, codes};
ghost use Rattle.http_query.specs.declared.keys.QueryRule.TheVariants.{Value};
ghost use Rattle.request_events.specs.Said.{Says, or_refuse};
ghost use Rattle.request_events.specs.Values.{value_in, dump_kind_of, flag_of, bucket_of, lower_token, token_of, token_in, base_in, path_of_text, path_in, place_in};
ghost use Rattle.request_events.specs.declared.refusal.RequestRefusal.TheVariants.{BadQuery};

use crate::refusal::{RequestFault, RequestRefusal};
use attr_records::{BadPath, PathName};
use backup_rules::Kind;
use http_query::{Query, QueryRule, read_number};
use office_model::Token;
use std::alloc::Global;

/// What a value of another form is answered.
pub const BAD_VALUE: RequestFault = RequestFault::Refused(RequestRefusal::BadQuery(
    QueryRule::Value,
));

/// What the absence of a needed key is answered.
pub const MISSING: RequestFault = RequestFault::Refused(RequestRefusal::BadQuery(
    QueryRule::Missing,
));

/// A value, or the refusal of one of another form.
pub fn in_form<T>(found: Option<T>) -> Result<T, RequestFault>
    ensures { Says result (or_refuse (BadQuery Value) found) }
{
    match found {
        Some(value) => Ok(value),
        None => Err(BAD_VALUE),
    }
}

/// The kind of a dump that a text names.
fn dump_kind_of(text: &str) -> Option<Kind>
    ensures { result ≡ dump_kind_of text.now }
{
    if text == "full" {
        Some(Kind::Full)
    } else if text == "incr" {
        Some(Kind::Incr)
    } else {
        None
    }
}

/// The kind of a dump, by the key `kind`.
pub fn dump_kind_in(query: &Query) -> Result<Kind, RequestFault>
    ensures { Says result (value_in dump_kind_of (codes "kind") query.now) }
{
    match query.value("kind") {
        Some(text) => in_form(dump_kind_of(text)),
        None => Err(MISSING),
    }
}

/// The flag that a text is.
fn flag_of(text: &str) -> Option<bool>
    ensures { result ≡ flag_of text.now }
{
    if text == "0" {
        Some(false)
    } else if text == "1" {
        Some(true)
    } else {
        None
    }
}

/// A flag, by its key.
pub fn flag_in(query: &Query, key: &str) -> Result<bool, RequestFault>
    ensures { Says result (value_in flag_of key.now query.now) }
{
    match query.value(key) {
        Some(text) => in_form(flag_of(text)),
        None => Err(MISSING),
    }
}

/// A bucket, by the key `bucket`.
pub fn bucket_in(query: &Query) -> Result<u8, RequestFault>
    ensures { Says result (value_in bucket_of (codes "bucket") query.now) }
{
    match query.value("bucket") {
        Some(text) => match read_number(text.as_bytes(), 255) {
            Some(bucket) => Ok(bucket as u8),
            None => Err(BAD_VALUE),
        },
        None => Err(MISSING),
    }
}

/// The token of these bytes, if the text is their lower-case hexadecimal digits.
fn lower_token(text: &str, bytes: [u8; 16]) -> Option<Token>
    ensures { result ≡ lower_token text.now bytes }
{
    let mut lower = [0u8; 32];
    match hex::encode_to_slice(&bytes, &mut lower) {
        Ok(()) => {}
        Err(_) => unreachable!(),
    }
    if text.as_bytes() == lower.as_slice() {
        Some(Token { bytes })
    } else {
        None
    }
}

/// The token that a text writes: 32 lower-case hexadecimal digits.
#[tactic(auto, unfolding(crate::specs::Values::token_of))]
fn token_of(text: &str) -> Option<Token>
    ensures { result ≡ token_of text.now }
{
    let mut bytes = [0u8; 16];
    match hex::decode_to_slice(text, &mut bytes) {
        Ok(()) => lower_token(text, bytes),
        Err(_) => None,
    }
}

/// The token, by the key `token`, or None if the key is absent.
pub fn token_in(query: &Query) -> Result<Option<Token>, RequestFault>
    ensures { Says result (token_in query.now) }
{
    match query.value("token") {
        Some(text) => match token_of(text) {
            Some(token) => Ok(Some(token)),
            None => Err(BAD_VALUE),
        },
        None => Ok(None),
    }
}

/// The number of a base, by the key `base`, or None if the key is absent.
pub fn base_in(query: &Query) -> Result<Option<u32>, RequestFault>
    ensures { Says result (base_in query.now) }
{
    match query.value("base") {
        Some(text) => match read_number(text.as_bytes(), u32::MAX as u64) {
            Some(number) => Ok(Some(number as u32)),
            None => Err(BAD_VALUE),
        },
        None => Ok(None),
    }
}

/// A text as a path.
fn path_of_text(alloc: Global, text: &str) -> Result<PathName, RequestFault>
    ensures { Says result (path_of_text text.now) }
{
    match PathName::read(alloc, text.as_bytes()) {
        Ok(path) => Ok(path),
        Err(BadPath::Memory) => Err(RequestFault::Memory),
        Err(rule) => Err(RequestFault::Refused(RequestRefusal::BadPath(rule))),
    }
}

/// The path, by the key `path`.
pub fn path_in(alloc: Global, query: &Query) -> Result<PathName, RequestFault>
    ensures { Says result (path_in query.now) }
{
    match query.value("path") {
        Some(text) => path_of_text(alloc, text),
        None => Err(MISSING),
    }
}

/// The path, by the key `path`, or None, the root, if the key is absent.
pub fn place_in(alloc: Global, query: &Query) -> Result<Option<PathName>, RequestFault>
    ensures { Says result (place_in query.now) }
{
    match query.value("path") {
        Some(text) => Ok(Some(path_of_text(alloc, text)?)),
        None => Ok(None),
    }
}
