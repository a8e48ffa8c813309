//! Listings, and the names of opened restores.

ghost use Rattle.std.specs.Prelude.{◌≡◌, IfOk};
ghost use Rattle.serde_json.specs.View.{view};
ghost use Rattle.listing_back.specs.Listings.{listing_in, opened_in, listing_of, opened_of};

use crate::lines::lines_in;
use crate::members::{count_at, maybe_session_in, session_of, text_at};
use json_back::read_json;
use office_model::{LineList, SessionName};
use serde_json::Value;
use std::alloc::{AllocError, Global};

/// What a server says of a host's backups.
#[derive(Debug, Drop)]
pub struct Listing {
    /// The backups, in the order in which they are listed.
    pub lines: LineList,
    /// The number of the next backup.
    pub next: u64,
    /// The dump that is open.
    pub dump: Option<SessionName>,
}

/// The listing that an object is.
fn listing_in(alloc: Global, value: &Value) -> Result<Option<Listing>, AllocError>
    ensures { IfOk result (λ listing. listing ≡ listing_in (view value.now)) }
{
    let Some(values) = value.get("backups").and_then(Value::as_array) else {
        return Ok(None);
    };
    let Some(lines) = lines_in(alloc, values.as_slice())? else {
        return Ok(None);
    };
    let Some(next) = count_at(value, "next") else {
        return Ok(None);
    };
    let Some(dump) = value.get("dump").and_then(maybe_session_in) else {
        return Ok(None);
    };
    Ok(Some(Listing { lines, next, dump }))
}

/// The restore that an object names.
fn opened_in(value: &Value) -> Option<SessionName>
    ensures { result ≡ opened_in (view value.now) }
{
    session_of(text_at(value, "restore")?)
}

/// The listing that the body of an answer is; none, if it is no such JSON.
pub fn read_listing(alloc: Global, bytes: &[u8]) -> Result<Option<Listing>, AllocError>
    ensures { IfOk result (λ listing. listing ≡ listing_of bytes.now) }
{
    match read_json(alloc, bytes)? {
        Some(value) => listing_in(alloc, &value),
        None => Ok(None),
    }
}

/// The restore that the body of an answer names; none, if it is no such JSON.
pub fn read_opened(alloc: Global, bytes: &[u8]) -> Result<Option<SessionName>, AllocError>
    ensures { IfOk result (λ name. name ≡ opened_of bytes.now) }
{
    match read_json(alloc, bytes)? {
        Some(value) => Ok(opened_in(&value)),
        None => Ok(None),
    }
}
