ghost use Rattle.std.specs.Prelude.{◌≡◌, ◌≤◌, ◌++◌, Some, length, IfOk};
ghost use Rattle.ordered_lists.specs.Order.{IsInOrder};
ghost use Rattle.attr_records.specs.Paths.{path_cmp, parent};
ghost use Rattle.change_laws.specs.Changes.{alike};
ghost use Rattle.change_laws.specs.SameItems.{is_same_item};
ghost use Rattle.tree_frames.specs.Frames.{frames, removals_of, entries_of, removal_frames};
ghost use Rattle.tree_restores.specs.Since.{is_lost_at, is_lost_above, is_top_at, is_changed_at};

use crate::frames::push_row;
use attr_records::{Item, PathName};
use office_model::Frame;
use std::alloc::{AllocError, Global};
use std::collections::BTreeMap;

/// Whether both are directories, or neither is.
fn is_alike(newer: bool, older: bool) -> bool
    ensures { result ≡ alike newer older }
{
    if newer { older } else { !older }
}

/// Whether two nodes are one.
fn is_same_item(newer: &Item, older: &Item) -> bool
    ensures { result ≡ is_same_item newer.now older.now }
{
    match (newer, older) {
        (Item::File(file), Item::File(other)) => *file == *other,
        (Item::Dir(dir), Item::Dir(other)) => *dir == *other,
        (Item::Link(link), Item::Link(other)) => *link == *other,
        _ => false,
    }
}

/// Whether the base has a path that the tree lacks, or has with another kind where one of the two is a directory.
fn is_lost(
    base: &BTreeMap<PathName, Item>,
    tree: &BTreeMap<PathName, Item>,
    path: &PathName,
) -> bool
    ensures { result ≡ is_lost_at base.now.entries tree.now.entries path.now }
{
    let Some(older) = base.get(path) else {
        return false;
    };
    match tree.get(path) {
        Some(newer) => !is_alike(newer.is_dir(), older.is_dir()),
        None => true,
    }
}

/// Whether the directory of a path is lost, or want of memory.
fn is_lost_above(
    alloc: Global,
    base: &BTreeMap<PathName, Item>,
    tree: &BTreeMap<PathName, Item>,
    path: &PathName,
) -> Result<bool, AllocError>
    ensures { IfOk result (λ is. is ≡ is_lost_above base.now.entries tree.now.entries (parent path.now)) }
{
    match path.parent_path(alloc)? {
        None => Ok(false),
        Some(directory) => Ok(is_lost(base, tree, &directory)),
    }
}

/// Whether a path is lost and its directory isn't, or want of memory.
fn is_top(
    alloc: Global,
    base: &BTreeMap<PathName, Item>,
    tree: &BTreeMap<PathName, Item>,
    path: &PathName,
) -> Result<bool, AllocError>
    ensures { IfOk result (λ is. is ≡ is_top_at base.now.entries tree.now.entries path.now) }
{
    let above = is_lost_above(alloc, base, tree, path)?;
    Ok(is_lost(base, tree, path) && !above)
}

/// Whether the tree has at a path what the base has not.
fn is_changed(
    base: &BTreeMap<PathName, Item>,
    tree: &BTreeMap<PathName, Item>,
    path: &PathName,
) -> bool
    ensures { result ≡ is_changed_at base.now.entries tree.now.entries path.now }
{
    let Some(newer) = tree.get(path) else {
        return false;
    };
    match base.get(path) {
        Some(older) => !is_same_item(newer, older),
        None => true,
    }
}

/// The paths of a tree are in order.
fn in_order(tree: &BTreeMap<PathName, Item>)
    ensures { IsInOrder path_cmp tree.now.entries }
{
    let _paths = tree.len();
}

/// Adds a frame for each topmost path that the tree lost, or want of memory.
pub(crate) fn push_removals(
    alloc: Global,
    list: &mut Vec<Frame>,
    base: &BTreeMap<PathName, Item>,
    tree: &BTreeMap<PathName, Item>,
) -> Result<(), AllocError>
    ensures { IfOk result (λ _. list.new.items ≡ list.old.items ++ removal_frames (removals_of (Some base.now.entries) tree.now.entries)) }
{
    in_order(tree);
    for (path, _item) in base.iter() {
        if is_top(alloc, base, tree, path)? {
            list.push(Frame::Deleted(path.copy(alloc)?))?;
        }
    }
    Ok(())
}

/// Adds the frames of what the tree has and the base has not, and the end; or want of memory.
pub(crate) fn push_changes(
    alloc: Global,
    list: &mut Vec<Frame>,
    base: &BTreeMap<PathName, Item>,
    tree: &BTreeMap<PathName, Item>,
) -> Result<(), AllocError>
    requires { length tree.now.entries ≤ 1048576 }
    ensures { IfOk result (λ _. list.new.items ≡ list.old.items ++ frames (entries_of (Some base.now.entries) tree.now.entries)) }
{
    in_order(base);
    let mut count = 0;
    for (path, item) in tree.iter() {
        if is_changed(base, tree, path) {
            push_row(alloc, list, path, item)?;
            count += 1;
        }
    }
    list.push(Frame::End(count))?;
    Ok(())
}
