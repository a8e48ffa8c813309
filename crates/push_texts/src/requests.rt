//! The request of an event.

ghost use Rattle.std.specs.Prelude.{◌≡◌, None, IfOk, string_bytes};
ghost use Rattle.office_model.specs.declared.event.Event.TheVariants as E;
ghost use Rattle.office_model.specs.declared.event.PutItem.TheVariants.{Whole};
ghost use Rattle.push_texts.specs.Requests.{push_texts, item_body, with_body, is_unsaid};

use crate::names::holds_replacement;
use crate::targets::{
    backups_target, commit_target, dump_target, list_target, opening_target, put_target,
    removal_target,
};
use attr_records::{HostName, Item, PathName};
use office_model::{Event, PutItem, SessionName};
use std::alloc::{AllocError, Global};
use std::marker::Model;

/// What a client writes of a request.
#[derive(Drop)]
pub struct PushRequest<'a> {
    pub method: &'static str,
    pub target: String,
    /// A GET has none.
    pub body: Option<&'a [u8]>,
}

impl<'a> Model for PushRequest<'a> {
    ghost use Rattle.std.specs.Prelude.{string_bytes};
    ghost use Rattle.std.specs.Option.{option_copied};
    ghost use Rattle.push_texts.specs.Requests.{PushTexts};

    ghost Value = { PushTexts };

    ghost view = { λ r. record { method = r.method.now; target = string_bytes r.target; body = option_copied r.body } };
}

/// The body that puts an item: the bytes of a file, the target of a link.
fn item_body(item: &Item) -> &[u8]
    ensures { result.now ≡ item_body item.now }
{
    match item {
        Item::File(file) => file.bytes.as_slice(),
        Item::Dir(_) => b"",
        Item::Link(link) => link.target.as_slice(),
    }
}

/// A request that has a body.
fn with_body<'a>(method: &'static str, target: String, body: &'a [u8]) -> PushRequest<'a>
    ensures { result ≡ with_body method.now (string_bytes target) body.now }
{
    PushRequest {
        method,
        target,
        body: Some(body),
    }
}

/// Whether a directory's path holds U+FFFD.
fn is_unsaid(directory: &Option<PathName>) -> bool
    ensures { result ≡ is_unsaid directory.now }
{
    match directory {
        None => false,
        Some(path) => holds_replacement(path.as_slice()),
    }
}

/// The request that puts an item at a path, if a query may say the path and the file isn't too large.
fn put_request<'a>(
    alloc: Global,
    dump: SessionName,
    path: &PathName,
    item: &'a Item,
) -> Result<Option<PushRequest<'a>>, AllocError>
    ensures { IfOk result (λ found. found ≡ push_texts (E.Put dump path.now (Whole item.now) None)) }
{
    if holds_replacement(path.as_slice()) || item.is_large() {
        return Ok(None);
    }
    let target = put_target(alloc, dump, path, item)?;
    Ok(Some(with_body("PUT", target, item_body(item))))
}

/// The request that removes a path, if a query may say it.
fn removal_request<'a>(
    alloc: Global,
    dump: SessionName,
    path: &PathName,
) -> Result<Option<PushRequest<'a>>, AllocError>
    ensures { IfOk result (λ found. found ≡ push_texts (E.Remove dump path.now None)) }
{
    if holds_replacement(path.as_slice()) {
        return Ok(None);
    }
    let target = removal_target(alloc, dump, path)?;
    Ok(Some(with_body("DELETE", target, b"")))
}

/// The request that lists a directory of a backup, if a query may say its path.
fn list_request<'a>(
    alloc: Global,
    host: &HostName,
    number: u32,
    directory: &Option<PathName>,
) -> Result<Option<PushRequest<'a>>, AllocError>
    ensures { IfOk result (λ found. found ≡ push_texts (E.List host.now number directory.now)) }
{
    if is_unsaid(directory) {
        return Ok(None);
    }
    let target = list_target(alloc, host, number, directory)?;
    Ok(Some(PushRequest {
        method: "GET",
        target,
        body: None,
    }))
}

/// The request that asks for an event: for those of a push, with an item that comes whole with at most 67,108,864 bytes, without a token,
/// and of a path that a query may say; None for the others.
pub fn push_request<'a>(
    alloc: Global,
    event: &'a Event,
) -> Result<Option<PushRequest<'a>>, AllocError>
    ensures { IfOk result (λ found. found ≡ push_texts event.now) }
{
    match event {
        Event::OpenDump {
            host,
            kind,
            token: None,
            ..
        } => {
            let target = opening_target(alloc, host, *kind)?;
            Ok(Some(with_body("POST", target, b"")))
        }
        Event::Put {
            dump,
            path,
            item: PutItem::Whole(item),
            token: None,
        } => put_request(alloc, *dump, path, item),
        Event::Remove {
            dump,
            path,
            token: None,
        } => removal_request(alloc, *dump, path),
        Event::Commit { dump, .. } => {
            let target = commit_target(alloc, *dump)?;
            Ok(Some(with_body("POST", target, b"")))
        }
        Event::Abort { dump } => {
            let target = dump_target(alloc, *dump)?;
            Ok(Some(with_body("DELETE", target, b"")))
        }
        Event::Backups { host } => {
            let target = backups_target(alloc, host)?;
            Ok(Some(PushRequest {
                method: "GET",
                target,
                body: None,
            }))
        }
        Event::List {
            host,
            number,
            directory,
        } => list_request(alloc, host, *number, directory),
        _ => Ok(None),
    }
}
