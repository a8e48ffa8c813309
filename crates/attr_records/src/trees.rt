ghost use Rattle.std.specs.Prelude.{◌≡◌, ℕ, List, length, IfOk};
ghost use Rattle.attr_records.specs.Paths.{parent};
ghost use Rattle.attr_records.specs.Items.{is_dir, is_large};
ghost use Rattle.attr_records.specs.Trees.{without, is_dir_at, is_parent_in, broken_rule, broken_put};

use crate::limits::{MAX_FILE_BYTES, MAX_PATHS};
use crate::nodes::{File, Item};
use crate::paths::{PathName, is_within};
use std::alloc::{AllocError, Global};
use std::collections::BTreeMap;

/// Why a node may not be put at a path. The rules stand in the order in which they are judged.
#[derive(Clone, Copy, Debug, PartialEq, Eq)]
pub enum PutRule {
    /// The parent of the path is neither the root nor a Dir of the tree.
    NoParent,
    /// A Dir is at the path, and the node isn't one.
    IsDirectory,
    /// The tree has 1,048,576 paths, this one not among them.
    TooManyEntries,
    /// The node is a File of more than 67,108,864 bytes.
    FileTooLarge,
}

/// Whether a Dir is at a path.
fn is_dir_at(tree: &BTreeMap<PathName, Item>, path: &PathName) -> bool
    ensures { result ≡ is_dir_at is_dir tree.now.entries path.now }
{
    match tree.get(path) {
        Some(item) => item.is_dir(),
        None => false,
    }
}

/// Whether a path lies in the root or in a Dir of the tree, or want of memory.
fn has_parent(
    alloc: Global,
    tree: &BTreeMap<PathName, Item>,
    path: &PathName,
) -> Result<bool, AllocError>
    ensures { IfOk result (λ there. there ≡ is_parent_in is_dir tree.now.entries (parent path.now)) }
{
    match path.parent_path(alloc)? {
        None => Ok(true),
        Some(directory) => Ok(is_dir_at(tree, &directory)),
    }
}

/// The first rule that a put of such a node breaks, or want of memory.
fn broken_rule(
    alloc: Global,
    tree: &BTreeMap<PathName, Item>,
    path: &PathName,
    dir: bool,
    large: bool,
) -> Result<Option<PutRule>, AllocError>
    ensures { IfOk result (λ rule. rule ≡ broken_rule is_dir tree.now.entries path.now dir large) }
{
    if !has_parent(alloc, tree, path)? {
        return Ok(Some(PutRule::NoParent));
    }
    if is_dir_at(tree, path) && !dir {
        return Ok(Some(PutRule::IsDirectory));
    }
    if tree.len() >= MAX_PATHS && !tree.contains_key(path) {
        return Ok(Some(PutRule::TooManyEntries));
    }
    if large {
        return Ok(Some(PutRule::FileTooLarge));
    }
    Ok(None)
}

/// The first rule that a put of an item breaks, or want of memory. It costs a logarithm of the tree.
pub fn broken_put(
    alloc: Global,
    tree: &BTreeMap<PathName, Item>,
    path: &PathName,
    item: &Item,
) -> Result<Option<PutRule>, AllocError>
    ensures { IfOk result (λ rule. rule ≡ broken_put is_dir is_large tree.now.entries path.now item.now) }
{
    Ok(broken_rule(alloc, tree, path, item.is_dir(), item.is_large())?)
}

/// The first rule that a put of a File of that size breaks, or want of memory. It costs a logarithm
/// of the tree.
pub fn broken_put_file(
    alloc: Global,
    tree: &BTreeMap<PathName, Item>,
    path: &PathName,
    size: u64,
) -> Result<Option<PutRule>, AllocError>
    ensures { IfOk result (λ rule. (file : File) → length file.bytes ≡ size
        → rule ≡ broken_put is_dir is_large tree.now.entries path.now (Item.File file)) }
{
    Ok(broken_rule(alloc, tree, path, false, size > MAX_FILE_BYTES)?)
}

/// Takes a path and all below it out of a tree.
pub fn remove(tree: &mut BTreeMap<PathName, Item>, path: &PathName)
    ensures { tree.new.entries ≡ without tree.old.entries path.now }
{
    tree.retain(|other, _| !is_within(path.as_slice(), other.as_slice()));
}
