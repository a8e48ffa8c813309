//! Nodes, and lists of them with their names.

ghost use Rattle.std.specs.Prelude.{◌≡◌, ◌++◌, codes, map, None, OnOk, IfOk};
ghost use Rattle.std.specs.Option.{option_copied};
ghost use Rattle.tree_frames.specs.declared.nodes.Node.TheVariants.{File as FileValue, Dir as DirValue, Link as LinkValue};
ghost use Rattle.reply_bodies.specs.Objects.{json_list, json_text, json_integer, data_tokens, member_tokens, all_members};
ghost use Rattle.reply_bodies.specs.Replies.{octal, kind_members, name_members, node_members, node_data, entry_data, entries_data};

use crate::json_text::JsonText;
use crate::texts::{digits_text, octal, path_text, target_text};
use attr_records::{Attr, Dir, Link};
use disk_trait::Bytes;
use office_model::{EntryList, FileNode, NamedNode, Node};
use std::alloc::{AllocError, Global};

/// Appends the time of a node.
fn push_time(text: &mut JsonText, attr: &Attr) -> Result<(), AllocError>
    ensures { OnOk result (text.new ≡ text.old ++ member_tokens (codes "mtime", json_integer attr.now.mtime)) }
{
    text.push_integer("mtime", attr.mtime())
}

/// Appends kind, mode and time of a node.
fn push_kind(text: &mut JsonText, kind: &str, attr: &Attr) -> Result<(), AllocError>
    ensures { OnOk result (text.new ≡ text.old ++ all_members (kind_members kind.now attr.now)) }
{
    let mode = attr.mode();
    text.push_text("kind", kind)?;
    text.push_text("mode", digits_text(&octal(mode), mode))?;
    push_time(text, attr)?;
    Ok(())
}

/// Appends the name of a node that is listed.
fn push_name(text: &mut JsonText, name: Option<&str>) -> Result<(), AllocError>
    ensures { OnOk result (text.new ≡ text.old ++ all_members (name_members (option_copied name.entry))) }
{
    match name {
        Some(name) => text.push_text("name", name),
        None => Ok(()),
    }
}

/// Appends the members of a file.
fn push_file(text: &mut JsonText, name: Option<&str>, file: &FileNode) -> Result<(), AllocError>
    ensures { OnOk result (text.new ≡ text.old ++ all_members (node_members (option_copied name.entry) (FileValue file.now))) }
{
    text.push_count("gid", u64::from(file.attr.gid()))?;
    text.push_count("group", u64::from(file.group))?;
    push_kind(text, "file", &file.attr)?;
    push_name(text, name)?;
    text.push_count("nanos", u64::from(file.attr.nanos()))?;
    text.push_count("size", file.size)?;
    text.push_count("uid", u64::from(file.attr.uid()))?;
    Ok(())
}

/// Appends the members of a directory.
fn push_dir(text: &mut JsonText, name: Option<&str>, dir: &Dir) -> Result<(), AllocError>
    ensures { OnOk result (text.new ≡ text.old ++ all_members (node_members (option_copied name.entry) (DirValue dir.now))) }
{
    text.push_count("gid", u64::from(dir.attr.gid()))?;
    push_kind(text, "dir", &dir.attr)?;
    push_name(text, name)?;
    text.push_count("nanos", u64::from(dir.attr.nanos()))?;
    text.push_count("uid", u64::from(dir.attr.uid()))?;
    Ok(())
}

/// Appends the members of a link.
fn push_link(text: &mut JsonText, name: Option<&str>, link: &Link) -> Result<(), AllocError>
    ensures { OnOk result (text.new ≡ text.old ++ all_members (node_members (option_copied name.entry) (LinkValue link.now))) }
{
    text.push_count("gid", u64::from(link.attr.gid()))?;
    push_kind(text, "link", &link.attr)?;
    push_name(text, name)?;
    text.push_count("nanos", u64::from(link.attr.nanos()))?;
    text.push_text("target", target_text(&link.target))?;
    text.push_count("uid", u64::from(link.attr.uid()))?;
    Ok(())
}

/// Appends the members of a node.
fn push_members(text: &mut JsonText, name: Option<&str>, node: &Node) -> Result<(), AllocError>
    ensures { OnOk result (text.new ≡ text.old ++ all_members (node_members (option_copied name.entry) node.now)) }
{
    match node {
        Node::File(file) => push_file(text, name, file),
        Node::Dir(dir) => push_dir(text, name, dir),
        Node::Link(link) => push_link(text, name, link),
    }
}

/// Appends a node, with its name if it is listed.
fn push_node(text: &mut JsonText, name: Option<&str>, node: &Node) -> Result<(), AllocError>
    ensures { OnOk result (text.new ≡ text.old ++ data_tokens (node_data (option_copied name.entry) node.now)) }
{
    text.begin_object()?;
    push_members(text, name, node)?;
    text.end_object()?;
    Ok(())
}

/// Appends a node of a directory.
fn push_entry(text: &mut JsonText, entry: &NamedNode) -> Result<(), AllocError>
    ensures { OnOk result (text.new ≡ text.old ++ data_tokens (entry_data entry.now)) }
{
    push_node(text, Some(path_text(&entry.name)), &entry.node)
}

/// Appends the list of these nodes.
fn push_entries(text: &mut JsonText, entries: &[NamedNode]) -> Result<(), AllocError>
    ensures { OnOk result (text.new ≡ text.old ++ data_tokens (json_list (map entry_data entries.now))) }
{
    text.begin_array()?;
    for entry in entries {
        push_entry(text, entry)?;
    }
    text.end_array()?;
    Ok(())
}

/// The body that tells what lies in a directory.
pub fn entries_body(alloc: Global, entries: &EntryList) -> Result<Bytes, AllocError>
    ensures { IfOk result (λ body. body ≡ json_text (entries_data entries.now)) }
{
    let mut text = JsonText::new(alloc);
    text.begin_object()?;
    text.push_key("entries")?;
    push_entries(&mut text, entries.as_slice())?;
    text.end_object()?;
    Ok(text.into_bytes())
}

/// The body that tells what is at a path.
pub fn node_body(alloc: Global, node: &Node) -> Result<Bytes, AllocError>
    ensures { IfOk result (λ body. body ≡ json_text (node_data None node.now)) }
{
    let mut text = JsonText::new(alloc);
    push_node(&mut text, None, node)?;
    Ok(text.into_bytes())
}
