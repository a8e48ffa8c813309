//! Each entry of a folder is put into a dump.

ghost use Rattle.std.specs.Prelude.{◌≡◌, ◌≢◌, ◌++◌, ◌∷◌, [], ℕ, List, reverse, false, Option, Ok, Some, None, IfOk, IfErr, OnOk, IsErrOf};
ghost use Rattle.std.specs.Option.{ForSome};
ghost use Rattle.fault_counts.specs.Counts.{Counted};
ghost use Rattle.attr_records.specs.Items.{Tree};
ghost use Rattle.attr_records.specs.Trees.{node_at};
ghost use Rattle.folder_trait.specs.declared.found.FoundNode.TheVariants as N;
ghost use Rattle.folder_trait.specs.Folders.{found_of};
ghost use Rattle.office_model.specs.declared.event.Event.TheVariants as E;
ghost use Rattle.office_model.specs.declared.event.PutItem.TheVariants.{Whole};
ghost use Rattle.office_model.specs.declared.answer.Answer.TheVariants as A;
ghost use Rattle.folder_walk.specs.Rows.{rows_found, is_dir_node, is_large_node, IsLargeFile};
ghost use Rattle.folder_walk.specs.Causes.{IsNoRefusal, IsListFault, IsRowCause, IsDumpCause};
ghost use Rattle.folder_walk.specs.Puts.{IsCallFault, PutsRow, PutsEntry, PutsAll};

use crate::refusals::DumpRefusal;
use crate::rows::{Row, rows_in};
use crate::staging::put_large;
use attr_records::{BadTarget, File, Item, Link, LinkTarget, MAX_FILE_BYTES, PathName};
use folder_trait::{Count, Folder, FolderFault, FoundFile, FoundLink, FoundNode, Progress};
use office_model::{Event, Port, PutItem, SessionName};
use std::alloc::{AllocError, Global};

/// The file at a path of a folder, with the bytes that it had when it was listed; `None` if it has gone.
fn read_file<F: Folder>(
    alloc: Global,
    folder: &mut F,
    path: &PathName,
    file: FoundFile,
) -> Result<Option<Item>, DumpRefusal>
    ensures item { IfOk result (λ item. ForSome (F.tree folder.old) (λ tree. (there : Item) → node_at tree path.now ≡ Some there → N.File file ≡ found_of there → item ≡ Some there)) }
    ensures same { F.tree folder.new ≡ F.tree folder.old }
    ensures unrefused { IfErr result IsNoRefusal }
    ensures cause { IfErr result (IsRowCause (F.tree folder.old) (N.File file)) }
    ensures counted { Counted (F.fault_count folder.old) (F.fault_count folder.new) (IsErrOf result DumpRefusal.Folder) }
{
    let FoundFile { attr, group, size } = file;
    let found = match folder.read_at(alloc, path, 0, size as usize) {
        Ok(found) => found,
        Err(FolderFault::Failed) => return Err(DumpRefusal::Folder),
        Err(FolderFault::Memory) => return Err(DumpRefusal::Memory),
    };
    match found {
        Some(bytes) => Ok(Some(Item::File(File { attr, group, bytes }))),
        None => Ok(None),
    }
}

/// The link of a target that the folder lists.
fn read_link(alloc: Global, link: FoundLink) -> Result<Item, DumpRefusal>
    ensures item { IfOk result (λ item. (there : Item) → N.Link link ≡ found_of there → item ≡ there) }
    ensures unrefused { IfErr result IsNoRefusal }
    ensures cause { (told : Option Tree) → IfErr result (IsRowCause told (N.Link link)) }
    ensures unfailed { IfErr result (λ fault. fault ≢ DumpRefusal.Folder) }
{
    match LinkTarget::read(alloc, link.target.as_slice()) {
        Ok(target) => Ok(Item::Link(Link {
            attr: link.attr,
            target,
        })),
        Err(BadTarget::BadTarget) => Err(DumpRefusal::BadTarget),
        Err(BadTarget::Memory) => Err(DumpRefusal::Memory),
    }
}

/// The item at a path of a folder, with the bytes of a file; `None` if it is a file that has gone.
fn item_of<F: Folder>(
    alloc: Global,
    folder: &mut F,
    path: &PathName,
    node: FoundNode,
) -> Result<Option<Item>, DumpRefusal>
    ensures item { IfOk result (λ item. ForSome (F.tree folder.old) (λ tree. (there : Item) → node_at tree path.now ≡ Some there → node ≡ found_of there → item ≡ Some there)) }
    ensures same { F.tree folder.new ≡ F.tree folder.old }
    ensures unrefused { IfErr result IsNoRefusal }
    ensures cause { IfErr result (IsRowCause (F.tree folder.old) node) }
    ensures counted { Counted (F.fault_count folder.old) (F.fault_count folder.new) (IsErrOf result DumpRefusal.Folder) }
{
    match node {
        FoundNode::File(file) => match read_file(alloc, folder, path, file) {
            Ok(item) => Ok(item),
            Err(fault) => Err(fault),
        },
        FoundNode::Dir(dir) => Ok(Some(Item::Dir(dir))),
        FoundNode::Link(link) => match read_link(alloc, link) {
            Ok(item) => Ok(Some(item)),
            Err(fault) => Err(fault),
        },
    }
}

/// Puts an item at a path.
fn put_item<P: Port>(
    alloc: Global,
    port: &mut P,
    dump: SessionName,
    path: PathName,
    item: Item,
) -> Result<(), DumpRefusal>
    ensures ok { OnOk result (P.moves port.old ((E.Put dump path (Whole item) None, Ok A.Done) ∷ []) port.new) }
    ensures err { IfErr result (IsCallFault P.moves port.old port.new (E.Put dump path (Whole item) None)) }
    ensures unfailed { IfErr result (λ fault. fault ≢ DumpRefusal.Folder) }
{
    let item = PutItem::Whole(item);
    match port.call(
        alloc,
        &Event::Put {
            dump,
            path,
            item,
            token: None,
        },
    ) {
        Ok(_) => Ok(()),
        Err(refusal) => Err(DumpRefusal::Refused(refusal)),
    }
}

/// Puts these rows on a stack, the first on top.
fn push_rows(pending: &mut Vec<Row>, rows: Vec<Row>) -> Result<(), AllocError>
    ensures { OnOk result (pending.new.items ≡ pending.old.items ++ reverse rows.items) }
{
    let mut rows = rows;
    while let Some(row) = rows.pop() {
        pending.push(row)?;
    }
    Ok(())
}

/// The bytes of a file.
fn size_of_node(node: &FoundNode) -> u64 {
    match node {
        FoundNode::File(file) => file.size,
        FoundNode::Dir(_) | FoundNode::Link(_) => 0,
    }
}

/// Puts an entry of a folder that is no large file; says whether it was there.
fn put_small<P: Port, F: Folder>(
    alloc: Global,
    port: &mut P,
    folder: &mut F,
    dump: SessionName,
    path: &PathName,
    node: FoundNode,
) -> Result<bool, DumpRefusal>
    requires { is_large_node node ≡ false }
    ensures puts { PutsEntry P.moves port.old port.new (F.tree folder.old) dump path.now node result }
    ensures cause { IfErr result (IsRowCause (F.tree folder.old) node) }
    ensures same { F.tree folder.new ≡ F.tree folder.old }
    ensures counted { Counted (F.fault_count folder.old) (F.fault_count folder.new) (IsErrOf result DumpRefusal.Folder) }
{
    let found = match item_of(alloc, folder, path, node) {
        Ok(found) => found,
        Err(fault) => return Err(fault),
    };
    let item = match found {
        Some(item) => item,
        None => return Ok(false),
    };
    let Ok(path) = path.copy(alloc) else {
        return Err(DumpRefusal::Memory);
    };
    match put_item(alloc, port, dump, path, item) {
        Ok(()) => Ok(true),
        Err(fault) => Err(fault),
    }
}

/// The file that a node is, if it is a large one.
fn large_file(node: &FoundNode) -> Option<FoundFile>
    ensures { IsLargeFile node.now result }
{
    match node {
        FoundNode::File(file) => {
            if file.size > MAX_FILE_BYTES {
                return Some(*file);
            }
            None
        }
        FoundNode::Dir(_) | FoundNode::Link(_) => None,
    }
}

/// Puts an entry of a folder; says whether it was there.
fn put_node<P: Port, F: Folder>(
    alloc: Global,
    port: &mut P,
    folder: &mut F,
    dump: SessionName,
    path: &PathName,
    node: FoundNode,
) -> Result<bool, DumpRefusal>
    ensures puts { PutsEntry P.moves port.old port.new (F.tree folder.old) dump path.now node result }
    ensures cause { IfErr result (IsRowCause (F.tree folder.old) node) }
    ensures same { F.tree folder.new ≡ F.tree folder.old }
    ensures counted { Counted (F.fault_count folder.old) (F.fault_count folder.new) (IsErrOf result DumpRefusal.Folder) }
{
    match large_file(&node) {
        Some(file) => put_large(alloc, port, folder, dump, path, file),
        None => put_small(alloc, port, folder, dump, path, node),
    }
}

/// Puts an entry of a folder, unless it has gone.
fn put_entry<P: Port, F: Folder, G: Progress>(
    alloc: Global,
    port: &mut P,
    folder: &mut F,
    dump: SessionName,
    path: &PathName,
    node: FoundNode,
    count: &mut Count<'_, G>,
) -> Result<(), DumpRefusal>
    ensures puts { PutsEntry P.moves port.old port.new (F.tree folder.old) dump path.now node result }
    ensures cause { IfErr result (IsRowCause (F.tree folder.old) node) }
    ensures same { F.tree folder.new ≡ F.tree folder.old }
    ensures counted { Counted (F.fault_count folder.old) (F.fault_count folder.new) (IsErrOf result DumpRefusal.Folder) }
{
    let bytes = size_of_node(&node);
    match put_node(alloc, port, folder, dump, path, node) {
        Ok(true) => {
            count.add(1, bytes);
            Ok(())
        }
        Ok(false) => {
            count.pass_over(path);
            Ok(())
        }
        Err(fault) => Err(fault),
    }
}

/// Puts what lies in a directory of a folder on the stack.
fn push_children<F: Folder>(
    alloc: Global,
    folder: &mut F,
    path: &PathName,
    pending: &mut Vec<Row>,
) -> Result<(), DumpRefusal>
    ensures pushed { OnOk result (ForSome (F.tree folder.old) (λ tree. pending.new.items ≡ pending.old.items ++ reverse (rows_found tree (Some path.now)))) }
    ensures same { F.tree folder.new ≡ F.tree folder.old }
    ensures counted { Counted (F.fault_count folder.old) (F.fault_count folder.new) (IsErrOf result DumpRefusal.Folder) }
    ensures cause { IfErr result (IsListFault (F.tree folder.old)) }
{
    let rows = match rows_in(alloc, folder, Some(path)) {
        Ok(rows) => rows,
        Err(fault) => return Err(fault),
    };
    if push_rows(pending, rows).is_err() {
        return Err(DumpRefusal::Memory);
    }
    Ok(())
}

/// Whether it is a directory.
fn is_dir_node(node: &FoundNode) -> bool
    ensures { result ≡ is_dir_node node.now }
{
    matches!(node, FoundNode::Dir(_))
}

/// Puts a row of a folder, and what lies in it on the stack.
fn put_row<P: Port, F: Folder, G: Progress>(
    alloc: Global,
    port: &mut P,
    folder: &mut F,
    dump: SessionName,
    row: Row,
    pending: &mut Vec<Row>,
    count: &mut Count<'_, G>,
) -> Result<(), DumpRefusal>
    ensures puts { PutsRow P.moves port.old port.new (F.tree folder.old) dump row pending.old.items pending.new.items result }
    ensures cause { IfErr result (IsRowCause (F.tree folder.old) row.node) }
    ensures same { F.tree folder.new ≡ F.tree folder.old }
    ensures counted { Counted (F.fault_count folder.old) (F.fault_count folder.new) (IsErrOf result DumpRefusal.Folder) }
{
    let Row { path, node } = row;
    let is_dir = is_dir_node(&node);
    match put_entry(alloc, port, folder, dump, &path, node, count) {
        Ok(()) => {}
        Err(fault) => return Err(fault),
    }
    if !is_dir {
        return Ok(());
    }
    match push_children(alloc, folder, &path, pending) {
        Ok(()) => Ok(()),
        Err(fault) => Err(fault),
    }
}

/// Puts each entry of a folder, in the order of the paths.
pub(crate) fn put_all<P: Port, F: Folder, G: Progress>(
    alloc: Global,
    port: &mut P,
    folder: &mut F,
    dump: SessionName,
    progress: &mut G,
) -> Result<(), DumpRefusal>
    ensures puts { PutsAll P.moves port.old port.new (F.tree folder.old) dump result }
    ensures cause { IfErr result (IsDumpCause (F.tree folder.old)) }
    ensures same { F.tree folder.new ≡ F.tree folder.old }
    ensures counted { Counted (F.fault_count folder.old) (F.fault_count folder.new) (IsErrOf result DumpRefusal.Folder) }
{
    let mut count = Count::new(progress);
    let mut pending = Vec::new(alloc);
    let rows = match rows_in(alloc, folder, None) {
        Ok(rows) => rows,
        Err(fault) => return Err(fault),
    };
    match push_rows(&mut pending, rows) {
        Ok(()) => {}
        Err(AllocError) => return Err(DumpRefusal::Memory),
    }
    for _turn in 0..u64::MAX {
        let row = match pending.pop() {
            Some(row) => row,
            None => return Ok(()),
        };
        match put_row(alloc, port, folder, dump, row, &mut pending, &mut count) {
            Ok(()) => {}
            Err(fault) => return Err(fault),
        }
    }
    Err(DumpRefusal::Memory)
}
