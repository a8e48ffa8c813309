//! Entries of a directory.

ghost use Rattle.std.specs.Prelude.{◌≡◌, IfOk};
ghost use Rattle.serde_json.specs.View.{view, items_view};
ghost use Rattle.entries_back.specs.Entries.{path_of, entry_in, entries_in, listed_in, entries_of};

use crate::nodes::{node_in, text_at};
use attr_records::{BadPath, PathName};
use json_back::read_json;
use office_model::{EntryList, NamedNode};
use serde_json::Value;
use std::alloc::{AllocError, Global};

/// The path that a text is.
fn path_of(alloc: Global, text: &str) -> Result<Option<PathName>, AllocError>
    ensures { IfOk result (λ path. path ≡ path_of text.now) }
{
    match PathName::read(alloc, text.as_bytes()) {
        Ok(path) => Ok(Some(path)),
        Err(BadPath::Memory) => Err(AllocError),
        Err(_) => Ok(None),
    }
}

/// The entry that an object is.
fn entry_in(alloc: Global, value: &Value) -> Result<Option<NamedNode>, AllocError>
    ensures { IfOk result (λ entry. entry ≡ entry_in (view value.now)) }
{
    let Some(text) = text_at(value, "name") else {
        return Ok(None);
    };
    let Some(name) = path_of(alloc, text)? else {
        return Ok(None);
    };
    match node_in(alloc, value)? {
        Some(node) => Ok(Some(NamedNode { name, node })),
        None => Ok(None),
    }
}

/// The entries that these values are, if each is one.
fn entries_in(alloc: Global, values: &[Value]) -> Result<Option<EntryList>, AllocError>
    ensures { IfOk result (λ entries. entries ≡ entries_in (items_view values.now)) }
{
    let mut entries = EntryList::new(alloc);
    for value in values {
        let Some(entry) = entry_in(alloc, value)? else {
            return Ok(None);
        };
        entries.push(entry)?;
    }
    Ok(Some(entries))
}

/// The entries that an object lists.
fn listed_in(alloc: Global, value: &Value) -> Result<Option<EntryList>, AllocError>
    ensures { IfOk result (λ entries. entries ≡ listed_in (view value.now)) }
{
    let Some(values) = value.get("entries").and_then(Value::as_array) else {
        return Ok(None);
    };
    entries_in(alloc, values.as_slice())
}

/// The entries that the body of an answer lists; none, if it is no such JSON.
pub fn read_entries(alloc: Global, bytes: &[u8]) -> Result<Option<EntryList>, AllocError>
    ensures { IfOk result (λ entries. entries ≡ entries_of bytes.now) }
{
    match read_json(alloc, bytes)? {
        Some(value) => listed_in(alloc, &value),
        None => Ok(None),
    }
}
