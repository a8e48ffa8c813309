//! What the last backup has and a folder lacks leaves an incremental dump.

ghost use Rattle.std.specs.Prelude.{◌≡◌, ◌++◌, ◌∷◌, [], cond, ℕ, List, map, true, Option, reverse, IfOk, IfErr, OnOk, IsErrOf};
ghost use Rattle.std.specs.Option.{ForSome, option_copied};
ghost use Rattle.fault_counts.specs.Counts.{Counted};
ghost use Rattle.attr_records.specs.Items.{Tree, is_dir};
ghost use Rattle.attr_records.specs.Trees.{IsTree, node_at, is_dir_found};
ghost use Rattle.folder_trait.specs.Folders.{path_in};
ghost use Rattle.folder_laws.specs.Walks.{children};
ghost use Rattle.folder_laws.specs.Lists.{named_in, leaves, known_at};
ghost use Rattle.folder_walk.specs.Rows.{rows_found};
ghost use Rattle.folder_walk.specs.Causes.{IsListFault, IsDumpCause};
ghost use Rattle.folder_walk.specs.Bases.{known_here, gone_of, knowns_of, IsCompared, ComparesOne, ListsDone, ListsStop};

use crate::asking::ask_list;
use crate::refusals::DumpRefusal;
use crate::rows::{Row, find_row, joined, rows_in};
use attr_records::{HostName, PathName};
use folder_laws::Known;
use folder_trait::{Folder, FoundNode};
use office_model::{EntryList, Node, Port};
use std::alloc::{AllocError, Global};

/// The path of a name in a directory. A backup has no name that with its directory is no path; if a port answers one there is none.
fn path_of(
    alloc: Global,
    directory: Option<&PathName>,
    name: &PathName,
) -> Result<PathName, AllocError>
    ensures { IfOk result (λ path. path ≡ path_in (option_copied directory.entry) name.now) }
{
    let bytes = joined(alloc, directory, name.as_slice())?;
    match PathName::read(alloc, bytes.as_slice()) {
        Ok(path) => Ok(path),
        Err(_) => Err(AllocError),
    }
}

/// The paths of a listing of a directory, in its order, each with whether a directory is there.
fn entries_of(
    alloc: Global,
    directory: Option<&PathName>,
    list: &EntryList,
) -> Result<Vec<(PathName, bool)>, AllocError>
    ensures { IfOk result (λ entries. entries.items ≡ map (named_in (option_copied directory.entry)) list.now) }
{
    let mut entries = Vec::new(alloc);
    for named in list.as_slice() {
        let path = path_of(alloc, directory, &named.name)?;
        entries.push((path, matches!(named.node, Node::Dir(_))))?;
    }
    Ok(entries)
}

/// Whether the rows have a directory at a path.
fn has_directory(rows: &[Row], path: &PathName) -> bool
    ensures { (tree : Tree) (directory : Option (List ℕ)) → IsTree is_dir tree → rows.now ≡ rows_found tree directory
        → result ≡ is_dir_found is_dir (node_at (children tree directory) path.now) }
{
    match find_row(rows, path.as_slice()) {
        Some(row) => matches!(row.node, FoundNode::Dir(_)),
        None => false,
    }
}

/// Whether the rows lack a path, or have another kind there where one of the two is a directory.
fn leaves(rows: &[Row], path: &PathName, was_dir: bool) -> bool
    ensures { (tree : Tree) (directory : Option (List ℕ)) → IsTree is_dir tree → rows.now ≡ rows_found tree directory
        → result ≡ leaves tree directory (path.now, was_dir) }
{
    match find_row(rows, path.as_slice()) {
        Some(row) => matches!(row.node, FoundNode::Dir(_)) != was_dir,
        None => true,
    }
}

/// Adds a path if it leaves.
fn push_if_gone(
    alloc: Global,
    gone: &mut Vec<PathName>,
    rows: &[Row],
    entry: &(PathName, bool),
) -> Result<(), AllocError>
    ensures { OnOk result ((tree : Tree) (directory : Option (List ℕ)) → IsTree is_dir tree → rows.now ≡ rows_found tree directory
        → gone.new.items ≡ gone.old.items ++ cond (leaves tree directory entry.now) (entry.now.0 ∷ []) []) }
{
    if !leaves(rows, &entry.0, entry.1) {
        return Ok(());
    }
    let path = entry.0.copy(alloc)?;
    gone.push(path)?;
    Ok(())
}

/// Adds the paths that leave, if the folder has the directory.
fn push_gone(
    alloc: Global,
    gone: &mut Vec<PathName>,
    there: bool,
    rows: &[Row],
    entries: &[(PathName, bool)],
) -> Result<(), AllocError>
    ensures { OnOk result ((tree : Tree) (directory : Option (List ℕ)) → IsTree is_dir tree → (there ≡ true → rows.now ≡ rows_found tree directory)
        → gone.new.items ≡ gone.old.items ++ gone_of tree directory there entries.now) }
{
    if !there {
        return Ok(());
    }
    for entry in entries {
        match push_if_gone(alloc, gone, rows, entry) {
            Ok(()) => {}
            Err(fault) => return Err(fault),
        }
    }
    Ok(())
}

/// Puts an entry on a stack if it is a directory.
fn push_if_directory(
    pending: &mut Vec<Known>,
    there: bool,
    rows: &[Row],
    entry: (PathName, bool),
) -> Result<(), AllocError>
    ensures { OnOk result ((tree : Tree) (directory : Option (List ℕ)) → IsTree is_dir tree → (there ≡ true → rows.now ≡ rows_found tree directory)
        → pending.new.items ≡ pending.old.items ++ cond entry.1 (known_at tree (known_here directory there) entry ∷ []) []) }
{
    let (path, is_dir) = entry;
    if !is_dir {
        return Ok(());
    }
    let there = there && has_directory(rows, &path);
    let directory = Some(path);
    pending.push(Known { directory, there })?;
    Ok(())
}

/// Puts the directories on a stack, the first on top.
fn push_directories(
    pending: &mut Vec<Known>,
    there: bool,
    rows: &[Row],
    entries: Vec<(PathName, bool)>,
) -> Result<(), AllocError>
    ensures { OnOk result ((tree : Tree) (directory : Option (List ℕ)) → IsTree is_dir tree → (there ≡ true → rows.now ≡ rows_found tree directory)
        → pending.new.items ≡ pending.old.items ++ reverse (knowns_of tree directory there entries.items)) }
{
    let mut entries = entries;
    while let Some(entry) = entries.pop() {
        match push_if_directory(pending, there, rows, entry) {
            Ok(()) => {}
            Err(fault) => return Err(fault),
        }
    }
    Ok(())
}

/// The rows of a directory of a folder, if it is there.
fn rows_if<F: Folder>(
    alloc: Global,
    folder: &mut F,
    directory: Option<&PathName>,
    there: bool,
) -> Result<Vec<Row>, DumpRefusal>
    ensures rows { IfOk result (λ rows. ForSome (F.tree folder.old) (λ tree. there ≡ true → rows.items ≡ rows_found tree (option_copied directory.entry))) }
    ensures cause { IfErr result (IsListFault (F.tree folder.old)) }
    ensures same { F.tree folder.new ≡ F.tree folder.old }
    ensures counted { Counted (F.fault_count folder.old) (F.fault_count folder.new) (IsErrOf result DumpRefusal.Folder) }
{
    if !there {
        return Ok(Vec::new(alloc));
    }
    match rows_in(alloc, folder, directory) {
        Ok(rows) => Ok(rows),
        Err(fault) => Err(fault),
    }
}

/// Compares what was answered of a directory of the last backup with what the folder has there.
fn compare_listing<F: Folder>(
    alloc: Global,
    folder: &mut F,
    directory: Option<&PathName>,
    there: bool,
    list: &EntryList,
    pending: &mut Vec<Known>,
    gone: &mut Vec<PathName>,
) -> Result<(), DumpRefusal>
    ensures compared { OnOk result (ForSome (F.tree folder.old) (λ tree. IsTree is_dir tree → IsCompared tree (known_here (option_copied directory.entry) there) list.now pending.old.items gone.old.items pending.new.items gone.new.items)) }
    ensures cause { IfErr result (IsListFault (F.tree folder.old)) }
    ensures same { F.tree folder.new ≡ F.tree folder.old }
    ensures counted { Counted (F.fault_count folder.old) (F.fault_count folder.new) (IsErrOf result DumpRefusal.Folder) }
{
    let Ok(entries) = entries_of(alloc, directory, list) else {
        return Err(DumpRefusal::Memory);
    };
    let rows = match rows_if(alloc, folder, directory, there) {
        Ok(rows) => rows,
        Err(fault) => return Err(fault),
    };
    match push_gone(alloc, gone, there, rows.as_slice(), entries.as_slice()) {
        Ok(()) => {}
        Err(AllocError) => return Err(DumpRefusal::Memory),
    }
    match push_directories(pending, there, rows.as_slice(), entries) {
        Ok(()) => Ok(()),
        Err(AllocError) => Err(DumpRefusal::Memory),
    }
}

/// Asks for a directory of the last backup, and compares it with what the folder has there.
fn compare_directory<P: Port, F: Folder>(
    alloc: Global,
    port: &mut P,
    folder: &mut F,
    host: &HostName,
    number: u32,
    known: Known,
    pending: &mut Vec<Known>,
    gone: &mut Vec<PathName>,
) -> Result<(), DumpRefusal>
    ensures compared { ComparesOne P.moves port.old port.new (F.tree folder.old) host.now number known pending.old.items gone.old.items pending.new.items gone.new.items result }
    ensures cause { IfErr result (IsDumpCause (F.tree folder.old)) }
    ensures same { F.tree folder.new ≡ F.tree folder.old }
    ensures counted { Counted (F.fault_count folder.old) (F.fault_count folder.new) (IsErrOf result DumpRefusal.Folder) }
{
    let Known { directory, there } = known;
    let list = match ask_list(alloc, port, host, number, directory.as_ref()) {
        Ok(list) => list,
        Err(fault) => return Err(fault),
    };
    match compare_listing(
        alloc,
        folder,
        directory.as_ref(),
        there,
        &list,
        pending,
        gone,
    ) {
        Ok(()) => Ok(()),
        Err(fault) => Err(fault),
    }
}

/// Asks for all directories of a host's last backup, and says which of its paths leave.
pub(crate) fn gone_paths<P: Port, F: Folder>(
    alloc: Global,
    port: &mut P,
    folder: &mut F,
    host: &HostName,
    number: u32,
) -> Result<Vec<PathName>, DumpRefusal>
    ensures ok { IfOk result (λ gone. ListsDone P.moves port.old port.new (F.tree folder.old) host.now number gone.items) }
    ensures err { IfErr result (ListsStop P.moves port.old port.new (F.tree folder.old) host.now number) }
    ensures cause { IfErr result (IsDumpCause (F.tree folder.old)) }
    ensures same { F.tree folder.new ≡ F.tree folder.old }
    ensures counted { Counted (F.fault_count folder.old) (F.fault_count folder.new) (IsErrOf result DumpRefusal.Folder) }
{
    let mut gone = Vec::new(alloc);
    let mut pending = Vec::new(alloc);
    let root = Known {
        directory: None,
        there: true,
    };
    match pending.push(root) {
        Ok(()) => {}
        Err(_) => return Err(DumpRefusal::Memory),
    }
    for _turn in 0..u64::MAX {
        let known = match pending.pop() {
            Some(known) => known,
            None => return Ok(gone),
        };
        match compare_directory(
            alloc,
            port,
            folder,
            host,
            number,
            known,
            &mut pending,
            &mut gone,
        ) {
            Ok(()) => {}
            Err(fault) => return Err(fault),
        }
    }
    Err(DumpRefusal::Memory)
}
