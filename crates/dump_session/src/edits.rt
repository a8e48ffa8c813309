ghost use Rattle.std.specs.Prelude.{◌≡◌, ◌<◌, ◌^◌, ◌++◌, ◌∷◌, [], Some, true, length, OnOk, OnErr, IfOk};
ghost use Rattle.std.specs.Option.{option_copied};
ghost use Rattle.attr_records.specs.Paths.{path_cmp, parent, is_within};
ghost use Rattle.ordered_lists.specs.Order.{IsInOrder};
ghost use Rattle.attr_records.specs.Trees.{node_at, with_node, without, IsTree, is_dir_at, is_dir_found};
ghost use Rattle.attr_tables.specs.Records.{IsSound, is_dir};
ghost use Rattle.merge_view.specs.Views.{HasNoMarks};
ghost use Rattle.merge_view.specs.Runs.{within_rows};
ghost use Rattle.dump_session.specs.Removed.{IsApart};
ghost use Rattle.dump_session.specs.Edits.{edited, left_at};

use crate::nodes::Node;
use crate::removed::{count_fresh, forget, is_gone, left_at, paths_within, take_away};
use attr_records::{PathName, is_within};
use attr_tables::{Record, Row, find};
use std::alloc::{AllocError, Global};
use std::cmp::Ordering;
use std::collections::BTreeMap;

/// What is at a path of a dump's tree.
pub fn found_at<'a>(
    base: &'a [Row],
    removed: &BTreeMap<PathName, ()>,
    puts: &'a BTreeMap<PathName, Node>,
    path: &PathName,
) -> Option<&'a Record>
    requires base_order { IsInOrder path_cmp base.now }
    requires puts_order { IsInOrder path_cmp puts.now.entries }
    requires apart { IsApart removed.now.entries }
    ensures { option_copied result ≡ node_at (edited base.now removed.now.entries puts.now.entries) path.now }
{
    match puts.get(path) {
        Some(node) => Some(node.as_record()),
        None => left_at(base, removed, path),
    }
}

/// Whether what is left of the base at a directory that a path lies in is a Dir.
fn is_dir_left(
    base: &[Row],
    removed: &BTreeMap<PathName, ()>,
    path: &PathName,
    directory: &[u8],
) -> bool
    requires base_order { IsInOrder path_cmp base.now }
    requires apart { IsApart removed.now.entries }
    requires above { is_within directory.now path.now ≡ true }
    ensures { result ≡ is_dir_found is_dir (left_at base.now removed.now.entries directory.now) }
{
    if is_gone(removed, path, directory) {
        return false;
    }
    match find(base, directory) {
        Some(node) => node.is_dir(),
        None => false,
    }
}

/// Whether a Dir of a dump's tree is at the directory that a path lies in. The last put before the path tells it
/// if it lies within the directory: it is there itself, or its own parents are, if the base is a tree. This takes
/// no memory.
pub fn is_dir_above(
    base: &[Row],
    removed: &BTreeMap<PathName, ()>,
    puts: &BTreeMap<PathName, Node>,
    path: &PathName,
    directory: &[u8],
) -> bool
    requires base_order { IsInOrder path_cmp base.now }
    requires puts_order { IsInOrder path_cmp puts.now.entries }
    requires apart { IsApart removed.now.entries }
    requires no_marks { HasNoMarks puts.now.entries }
    requires is_parent { parent path.now ≡ Some directory.now }
    ensures { IsTree is_dir (edited base.now removed.now.entries puts.now.entries)
        → result ≡ is_dir_at is_dir (edited base.now removed.now.entries puts.now.entries) directory.now }
{
    match puts.range(..path).next_back() {
        None => is_dir_left(base, removed, path, directory),
        Some((last, node)) => {
            if !is_within(directory, last.as_slice()) {
                return is_dir_left(base, removed, path, directory);
            }
            if last.as_slice() == directory {
                return node.as_record().is_dir();
            }
            true
        }
    }
}

/// Puts a node in the place of what was put at its path, or says that memory is wanting.
pub fn put_node(
    puts: &mut BTreeMap<PathName, Node>,
    path: PathName,
    node: Node,
) -> Result<(), AllocError>
    ensures ok { OnOk result (puts.new.entries ≡ with_node puts.old.entries path node) }
    ensures err { OnErr result (puts.new.entries ≡ puts.old.entries) }
{
    puts.insert(path, node)?;
    Ok(())
}

/// Takes a path and all below it out of a dump, and gives how many paths these are; or says that memory is wanting,
/// with nothing changed.
pub fn take_out(
    alloc: Global,
    base: &[Row],
    removed: &mut BTreeMap<PathName, ()>,
    puts: &mut BTreeMap<PathName, Node>,
    path: &PathName,
) -> Result<usize, AllocError>
    requires base_order { IsInOrder path_cmp base.now }
    requires puts_order { IsInOrder path_cmp puts.old.entries }
    requires removed_order { IsInOrder path_cmp removed.old.entries }
    requires apart { IsApart removed.old.entries }
    requires few { length (edited base.now removed.old.entries puts.old.entries) < 2 ^ 64 }
    requires no_marks { HasNoMarks puts.old.entries }
    ensures removed_order { OnOk result (IsInOrder path_cmp removed.new.entries) }
    ensures apart { OnOk result (IsApart removed.new.entries) }
    ensures tree { OnOk result (edited base.now removed.new.entries puts.new.entries ≡ without (edited base.now removed.old.entries puts.old.entries) path.now) }
    ensures puts { OnOk result (puts.new.entries ≡ without puts.old.entries path.now) }
    ensures count { IfOk result (λ count. count ≡ length (within_rows path.now (edited base.now removed.old.entries puts.old.entries))) }
    ensures err { OnErr result ((removed.new.entries ≡ removed.old.entries) × (puts.new.entries ≡ puts.old.entries)) }
{
    let paths = paths_within(alloc, puts, path)?;
    let fresh = count_fresh(base, removed, paths.as_slice());
    let taken = take_away(alloc, removed, base, path)?;
    forget(puts, paths.as_slice());
    Ok(taken + fresh)
}

/// Puts a row of this path and node behind the rows.
pub fn push_row(
    alloc: Global,
    rows: &mut Vec<Row>,
    path: &PathName,
    node: &Record,
) -> Result<(), AllocError>
    requires { IsSound node.now }
    ensures { OnOk result (rows.new.items ≡ rows.old.items ++ (path.now, node.now) ∷ []) }
{
    rows.push(Row::new(path.copy(alloc)?, node.copy(alloc)?))?;
    Ok(())
}

/// All rows of a dump's tree, or want of memory: one merge of the base and the puts.
#[tactic(auto, using(crate::proofs::EditLaws::laid_node))]
pub fn merged(
    alloc: Global,
    base: &[Row],
    removed: &BTreeMap<PathName, ()>,
    puts: &BTreeMap<PathName, Node>,
) -> Result<Vec<Row>, AllocError>
    requires { IsApart removed.now.entries }
    ensures { IfOk result (λ rows. rows.items ≡ edited base.now removed.now.entries puts.now.entries) }
{
    let mut rows = Vec::new(alloc);
    let mut i = 0;
    let mut left = puts.iter();
    let mut put = left.next();
    'both: while i < base.len() {
        let row = &base[i];
        if is_gone(removed, row.path(), row.path().as_slice()) {
            i += 1;
        } else {
            match put {
                None => {
                    push_row(alloc, &mut rows, row.path(), row.node())?;
                    i += 1;
                }
                Some((path, node)) => match path.cmp(row.path()) {
                    Ordering::Less => {
                        push_row(alloc, &mut rows, path, node.as_record())?;
                        put = left.next();
                    }
                    Ordering::Equal => {
                        push_row(alloc, &mut rows, path, node.as_record())?;
                        i += 1;
                        put = left.next();
                    }
                    Ordering::Greater => {
                        push_row(alloc, &mut rows, row.path(), row.node())?;
                        i += 1;
                    }
                },
            }
        }
    }
    'rest: while let Some((path, node)) = put {
        push_row(alloc, &mut rows, path, node.as_record())?;
        put = left.next();
    }
    Ok(rows)
}
