//! Nodes, by the members of an object.

ghost use Rattle.std.specs.Prelude.{◌≡◌, ◌≤◌, option_map, IfOk, IfSome};
ghost use Rattle.serde_json.specs.View.{view};
ghost use Rattle.listing_back.specs.Members.{count_at, number_at, text_at};
ghost use Rattle.entries_back.specs.Entries.{integer_at, mode_at, nanos_at, attributes_in, file_in, dir_in, link_in, node_in};

use attr_records::{Attr, BadTarget, Dir, Link, LinkTarget, MAX_NANOS};
use http_query::read_mode;
use serde_json::Value;
use std::alloc::{AllocError, Global};
use tree_frames::{FileNode, Node};

/// The number of 64 bits at a key.
fn count_at(value: &Value, key: &str) -> Option<u64>
    ensures { result ≡ count_at key.now (view value.now) }
{
    value.get(key).and_then(Value::as_u64)
}

/// The number of 32 bits at a key.
fn number_at(value: &Value, key: &str) -> Option<u32>
    ensures { result ≡ number_at key.now (view value.now) }
{
    u32::try_from(count_at(value, key)?).ok()
}

/// The integer of 64 bits at a key.
fn integer_at(value: &Value, key: &str) -> Option<i64>
    ensures { result ≡ integer_at key.now (view value.now) }
{
    value.get(key).and_then(Value::as_i64)
}

/// The text at a key.
pub(crate) fn text_at<'a>(value: &'a Value, key: &str) -> Option<&'a str>
    ensures { option_map (λ text. text.now) result ≡ text_at key.now (view value.now) }
{
    value.get(key).and_then(Value::as_str)
}

/// The mode of a node.
fn mode_at(value: &Value) -> Option<u16>
    ensures value { result ≡ mode_at (view value.now) }
    ensures small { IfSome result (λ mode. mode ≤ 4095) }
{
    read_mode(text_at(value, "mode")?.as_bytes())
}

/// The nanoseconds of a node.
fn nanos_at(value: &Value) -> Option<u32>
    ensures value { result ≡ nanos_at (view value.now) }
    ensures small { IfSome result (λ nanos. nanos ≤ 999999999) }
{
    let nanos = number_at(value, "nanos")?;
    if nanos <= MAX_NANOS {
        Some(nanos)
    } else {
        None
    }
}

/// The attributes of a node.
fn attributes_in(value: &Value) -> Option<Attr>
    ensures { result ≡ attributes_in (view value.now) }
{
    let mode = mode_at(value)?;
    let uid = number_at(value, "uid")?;
    let gid = number_at(value, "gid")?;
    let mtime = integer_at(value, "mtime")?;
    let nanos = nanos_at(value)?;
    Some(Attr::new(mode, uid, gid, mtime, nanos))
}

/// The file that an object is.
fn file_in(value: &Value) -> Option<Node>
    ensures { result ≡ file_in (view value.now) }
{
    let attr = attributes_in(value)?;
    let group = number_at(value, "group")?;
    let size = count_at(value, "size")?;
    Some(Node::File(FileNode { attr, group, size }))
}

/// The directory that an object is.
fn dir_in(value: &Value) -> Option<Node>
    ensures { result ≡ dir_in (view value.now) }
{
    let attr = attributes_in(value)?;
    Some(Node::Dir(Dir { attr }))
}

/// The link that an object is.
fn link_in(alloc: Global, value: &Value) -> Result<Option<Node>, AllocError>
    ensures { IfOk result (λ node. node ≡ link_in (view value.now)) }
{
    let Some(attr) = attributes_in(value) else {
        return Ok(None);
    };
    let Some(text) = text_at(value, "target") else {
        return Ok(None);
    };
    match LinkTarget::read(alloc, text.as_bytes()) {
        Ok(target) => Ok(Some(Node::Link(Link { attr, target }))),
        Err(BadTarget::BadTarget) => Ok(None),
        Err(BadTarget::Memory) => Err(AllocError),
    }
}

/// The node that an object is.
pub(crate) fn node_in(alloc: Global, value: &Value) -> Result<Option<Node>, AllocError>
    ensures { IfOk result (λ node. node ≡ node_in (view value.now)) }
{
    let Some(kind) = text_at(value, "kind") else {
        return Ok(None);
    };
    if kind == "file" {
        Ok(file_in(value))
    } else if kind == "dir" {
        Ok(dir_in(value))
    } else if kind == "link" {
        link_in(alloc, value)
    } else {
        Ok(None)
    }
}
