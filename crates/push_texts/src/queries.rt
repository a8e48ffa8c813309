//! The queries of targets: pairs of keys and values, escaped as a form.

ghost use Rattle.std.specs.Prelude.{◌≡◌, [], ◌∷◌, codes, decimal, IfOk, OnOk, string_bytes};
ghost use Rattle.std.specs.Fmt.{signed_decimal};
ghost use Rattle.form_urlencoded.specs.Form.{append_pair, extend_pairs};
ghost use Rattle.push_texts.specs.Queries.{mode_text, attribute_pairs, item_pairs, put_pairs, path_pairs, kind_pairs};

use crate::names::path_text;
use attr_records::{Attr, Item, PathName};
use backup_rules::Kind;
use form_urlencoded::Serializer;
use std::alloc::{AllocError, Global};

/// Adds a number.
fn add_number(
    alloc: Global,
    form: &mut Serializer,
    key: &str,
    number: u32,
) -> Result<(), AllocError>
    ensures { OnOk result (form.new ≡ record form.old { form = append_pair form.old.form key.now (decimal number) }) }
{
    let text = format!(in alloc; "{number}")?;
    form.append_pair(key, text.as_str())?;
    Ok(())
}

/// Adds a time.
fn add_time(alloc: Global, form: &mut Serializer, seconds: i64) -> Result<(), AllocError>
    ensures { OnOk result (form.new ≡ record form.old { form = append_pair form.old.form (codes "mtime") (signed_decimal seconds) }) }
{
    let text = format!(in alloc; "{seconds}")?;
    form.append_pair("mtime", text.as_str())?;
    Ok(())
}

/// Adds a mode, in four octal digits.
fn add_mode(alloc: Global, form: &mut Serializer, mode: u16) -> Result<(), AllocError>
    ensures { OnOk result (form.new ≡ record form.old { form = append_pair form.old.form (codes "mode") (mode_text mode) }) }
{
    let first = mode / 512 % 8;
    let second = mode / 64 % 8;
    let third = mode / 8 % 8;
    let fourth = mode % 8;
    let text = format!(in alloc; "{first}{second}{third}{fourth}")?;
    form.append_pair("mode", text.as_str())?;
    Ok(())
}

/// Adds attributes.
fn add_attributes(alloc: Global, form: &mut Serializer, attr: &Attr) -> Result<(), AllocError>
    ensures { OnOk result (form.new ≡ record form.old { form = extend_pairs form.old.form (attribute_pairs attr.now) }) }
{
    add_mode(alloc, form, attr.mode())?;
    add_number(alloc, form, "uid", attr.uid())?;
    add_number(alloc, form, "gid", attr.gid())?;
    add_time(alloc, form, attr.mtime())?;
    add_number(alloc, form, "nanos", attr.nanos())?;
    Ok(())
}

/// Adds what is said of an item: its kind, the group of a file, and its attributes.
fn add_item(alloc: Global, form: &mut Serializer, item: &Item) -> Result<(), AllocError>
    ensures { OnOk result (form.new ≡ record form.old { form = extend_pairs form.old.form (item_pairs item.now) }) }
{
    match item {
        Item::File(file) => {
            form.append_pair("kind", "file")?;
            add_number(alloc, form, "group", file.group)?;
            add_attributes(alloc, form, &file.attr)
        }
        Item::Dir(dir) => {
            form.append_pair("kind", "dir")?;
            add_attributes(alloc, form, &dir.attr)
        }
        Item::Link(link) => {
            form.append_pair("kind", "link")?;
            add_attributes(alloc, form, &link.attr)
        }
    }
}

/// The query of the put of an item at a path.
pub(crate) fn put_query(alloc: Global, path: &PathName, item: &Item) -> Result<String, AllocError>
    ensures { IfOk result (λ text. string_bytes text ≡ extend_pairs [] (put_pairs path.now item.now)) }
{
    let mut form = Serializer::new(String::new(alloc));
    form.append_pair("path", path_text(path))?;
    add_item(alloc, &mut form, item)?;
    Ok(form.finish())
}

/// The query that names a path.
pub(crate) fn path_query(alloc: Global, path: &PathName) -> Result<String, AllocError>
    ensures { IfOk result (λ text. string_bytes text ≡ extend_pairs [] (path_pairs path.now)) }
{
    let mut form = Serializer::new(String::new(alloc));
    form.append_pair("path", path_text(path))?;
    Ok(form.finish())
}

/// The query that names the kind of a dump.
#[tactic(auto, unfolding(form_urlencoded::specs::Form::byte_serialize))]
pub(crate) fn kind_query(kind: Kind) -> &'static str
    ensures { result.now ≡ extend_pairs [] (kind_pairs kind) }
{
    match kind {
        Kind::Full => "kind=full",
        Kind::Incr => "kind=incr",
    }
}
