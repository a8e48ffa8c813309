//! Answers.

ghost use Rattle.std.specs.Prelude.{◌≡◌, IfOk};
ghost use Rattle.serde_json.specs.View.{view};
ghost use Rattle.push_replies.specs.Replies.{dump_in, dump_of, number_of_body, opened_of, committed_of, backups_of, entries_at, done_at, answer_of};

use crate::members::{number_at, session_of, text_at};
use entries_back::read_entries;
use json_back::read_json;
use listing_back::{Listing, read_listing};
use office_model::{Answer, Event, SessionName};
use serde_json::Value;
use std::alloc::{AllocError, Global};

/// The dump that an object names.
fn dump_in(value: &Value) -> Option<SessionName>
    ensures { result ≡ dump_in (view value.now) }
{
    session_of(text_at(value, "dump")?)
}

/// The dump that the body of a response names.
fn read_dump(alloc: Global, bytes: &[u8]) -> Result<Option<SessionName>, AllocError>
    ensures { IfOk result (λ dump. dump ≡ dump_of bytes.now) }
{
    match read_json(alloc, bytes)? {
        Some(value) => Ok(dump_in(&value)),
        None => Ok(None),
    }
}

/// The number of a backup that the body of a response names.
fn read_number(alloc: Global, bytes: &[u8]) -> Result<Option<u32>, AllocError>
    ensures { IfOk result (λ number. number ≡ number_of_body bytes.now) }
{
    match read_json(alloc, bytes)? {
        Some(value) => Ok(number_at(&value, "number")),
        None => Ok(None),
    }
}

/// The answer to the opening of a dump: its name, or the number of the backup that it is already.
fn read_opened(alloc: Global, status: u16, body: &[u8]) -> Result<Option<Answer>, AllocError>
    ensures { IfOk result (λ answer. answer ≡ opened_of status body.now) }
{
    if status == 201 {
        match read_dump(alloc, body)? {
            Some(dump) => Ok(Some(Answer::Dump(dump))),
            None => Ok(None),
        }
    } else {
        match read_number(alloc, body)? {
            Some(number) => Ok(Some(Answer::Already(number))),
            None => Ok(None),
        }
    }
}

/// The answer to a commit.
fn read_committed(alloc: Global, status: u16, body: &[u8]) -> Result<Option<Answer>, AllocError>
    ensures { IfOk result (λ answer. answer ≡ committed_of status body.now) }
{
    if status != 201 {
        return Ok(None);
    }
    match read_number(alloc, body)? {
        Some(number) => Ok(Some(Answer::Committed(number))),
        None => Ok(None),
    }
}

/// The listing of a host's backups.
fn read_backups(alloc: Global, status: u16, body: &[u8]) -> Result<Option<Answer>, AllocError>
    ensures { IfOk result (λ answer. answer ≡ backups_of status body.now) }
{
    if status != 200 {
        return Ok(None);
    }
    match read_listing(alloc, body)? {
        Some(Listing { lines, next, dump }) => Ok(Some(Answer::Backups { lines, next, dump })),
        None => Ok(None),
    }
}

/// What lies in a directory of a backup.
fn read_entries_at(alloc: Global, status: u16, body: &[u8]) -> Result<Option<Answer>, AllocError>
    ensures { IfOk result (λ answer. answer ≡ entries_at status body.now) }
{
    if status != 200 {
        return Ok(None);
    }
    match read_entries(alloc, body)? {
        Some(entries) => Ok(Some(Answer::Entries(entries))),
        None => Ok(None),
    }
}

/// What says that an event was done, of which nothing is read.
fn done_at(status: u16) -> Option<Answer>
    ensures { result ≡ done_at status }
{
    if status == 200 {
        Some(Answer::Done)
    } else {
        None
    }
}

/// The answer that a response says to an event.
pub(crate) fn read_answer(
    alloc: Global,
    event: &Event,
    status: u16,
    body: &[u8],
) -> Result<Option<Answer>, AllocError>
    ensures { IfOk result (λ answer. answer ≡ answer_of event.now status body.now) }
{
    match event {
        Event::OpenDump { .. } => read_opened(alloc, status, body),
        Event::Put { .. } | Event::Remove { .. } | Event::Abort { .. } => Ok(done_at(status)),
        Event::Commit { .. } => read_committed(alloc, status, body),
        Event::Backups { .. } => read_backups(alloc, status, body),
        Event::List { .. } => read_entries_at(alloc, status, body),
        _ => Ok(None),
    }
}
