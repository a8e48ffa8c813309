//! What the query of a put says of its item.

ghost use Rattle.std.specs.Prelude.{◌≡◌, ◌≤◌, ◌-◌, ◌^◌, pos, codes, IfSome};
ghost use Rattle.http_query.specs.Numbers.{number_of, mode_of, seconds_of};
ghost use Rattle.request_events.specs.Said.{Says};
ghost use Rattle.request_events.specs.Values.{value_in, value_or};
ghost use Rattle.request_events.specs.Items.{item_kind_of, number_or, nanos_or, default_mode, attributes_of, attributes_in, group_in};

use crate::refusal::RequestFault;
use crate::values::{MISSING, in_form};
use attr_records::Attr;
use http_query::{Query, read_mode, read_number, read_seconds};

/// The kinds of an item.
#[derive(Clone, Copy, Debug, PartialEq, Eq)]
pub enum ItemKind {
    File,
    Dir,
    Link,
}

/// The kind of an item that a text names.
fn item_kind_of(text: &str) -> Option<ItemKind>
    ensures { result ≡ item_kind_of text.now }
{
    if text == "file" {
        Some(ItemKind::File)
    } else if text == "dir" {
        Some(ItemKind::Dir)
    } else if text == "link" {
        Some(ItemKind::Link)
    } else {
        None
    }
}

/// The kind of an item, by the key `kind`.
pub fn item_kind_in(query: &Query) -> Result<ItemKind, RequestFault>
    ensures { Says result (value_in item_kind_of (codes "kind") query.now) }
{
    match query.value("kind") {
        Some(text) => in_form(item_kind_of(text)),
        None => Err(MISSING),
    }
}

/// The mode of a kind if nothing else is said.
fn default_mode(kind: ItemKind) -> u16
    ensures value { result ≡ default_mode kind }
    ensures small { result ≤ 4095 }
{
    match kind {
        ItemKind::File => 0o644,
        ItemKind::Dir => 0o755,
        ItemKind::Link => 0o777,
    }
}

/// The mode, or this one if its key is absent.
fn mode_or(query: &Query, default: u16) -> Option<u16>
    requires { default ≤ 4095 }
    ensures value { result ≡ value_or mode_of default (codes "mode") query.now }
    ensures small { IfSome result (λ mode. mode ≤ 4095) }
{
    match query.value("mode") {
        Some(text) => read_mode(text.as_bytes()),
        None => Some(default),
    }
}

/// A number of 32 bits, or 0 if its key is absent.
fn number_or(query: &Query, key: &str) -> Option<u32>
    ensures { result ≡ number_or key.now query.now }
{
    match query.value(key) {
        Some(text) => match read_number(text.as_bytes(), u32::MAX as u64) {
            Some(number) => Some(number as u32),
            None => None,
        },
        None => Some(0),
    }
}

/// The seconds, or 0 if their key is absent.
fn seconds_or(query: &Query) -> Option<i64>
    ensures { result ≡ value_or seconds_of (pos 0) (codes "mtime") query.now }
{
    match query.value("mtime") {
        Some(text) => read_seconds(text.as_bytes()),
        None => Some(0),
    }
}

/// The nanoseconds, or 0 if their key is absent.
fn nanos_or(query: &Query) -> Option<u32>
    ensures value { result ≡ nanos_or query.now }
    ensures small { IfSome result (λ nanos. nanos ≤ 999999999) }
{
    match query.value("nanos") {
        Some(text) => match read_number(text.as_bytes(), 999_999_999) {
            Some(nanos) => Some(nanos as u32),
            None => None,
        },
        None => Some(0),
    }
}

/// The attributes of an item of a kind.
#[tactic(auto, unfolding(crate::specs::Items::attributes_of))]
fn attributes_of(kind: ItemKind, query: &Query) -> Option<Attr>
    ensures { result ≡ attributes_of kind query.now }
{
    let mode = mode_or(query, default_mode(kind))?;
    let uid = number_or(query, "uid")?;
    let gid = number_or(query, "gid")?;
    let mtime = seconds_or(query)?;
    let nanos = nanos_or(query)?;
    Some(Attr::new(mode, uid, gid, mtime, nanos))
}

/// The attributes of an item of a kind, or the refusal of a value.
pub fn attributes_in(kind: ItemKind, query: &Query) -> Result<Attr, RequestFault>
    ensures { Says result (attributes_in kind query.now) }
{
    in_form(attributes_of(kind, query))
}

/// The group of a file, or the refusal of its value.
pub fn group_in(query: &Query) -> Result<u32, RequestFault>
    ensures { Says result (group_in query.now) }
{
    in_form(number_or(query, "group"))
}
