//! A row of a tree is made in a folder.

ghost use Rattle.std.specs.Prelude.{◌≡◌, ◌∷◌, ◌++◌, [], ℕ, List, IfOk, OnOk, IsErrOf};
ghost use Rattle.fault_counts.specs.Counts.{Counted};
ghost use Rattle.attr_records.specs.declared.nodes.Item.{Item};
ghost use Rattle.attr_records.specs.declared.nodes.Item.TheVariants as I;
ghost use Rattle.attr_records.specs.Items.{Tree};
ghost use Rattle.folder_making.specs.declared.noted.Noted.{Noted};
ghost use Rattle.folder_making.specs.Standing.{Stands};
ghost use Rattle.folder_making.specs.Holding.{IsBegun};

use crate::dirs::{OpenDir, finish_others};
use crate::noted::{Noted, make_grouped};
use crate::open_file::{Came, OpenFile};
use attr_records::{Dir, File, Item, Link, PathName};
use disk_trait::Bytes;
use folder_trait::{Folder, FolderFault};
use std::alloc::Global;
use tree_frames::FileNode;

/// Makes a file, with the directories finished in which it doesn't lie.
pub(crate) fn add_file<F: Folder>(
    alloc: Global,
    folder: &mut F,
    dirs: &mut Vec<OpenDir>,
    noted: &mut Vec<Noted>,
    path: PathName,
    file: File,
) -> Result<(), FolderFault>
    ensures stands { OnOk result ((rows more : Tree) → Stands rows ((path, I.File file) ∷ more) (F.tree folder.old) dirs.old.items noted.old.items → Stands (rows ++ (path, I.File file) ∷ []) more (F.tree folder.new) dirs.new.items noted.new.items) }
    ensures counted { Counted (F.fault_count folder.old) (F.fault_count folder.new) (IsErrOf result FolderFault.Failed) }
{
    match finish_others(alloc, folder, dirs, &path) {
        Ok(()) => {}
        Err(fault) => return Err(fault),
    }
    if file.group != 0 {
        return make_grouped(alloc, folder, noted, path, file);
    }
    folder.make(alloc, &path, &Item::File(file))
}

/// Makes a file without its bytes, which come then, with the directories finished in which it doesn't lie.
pub(crate) fn add_begun<F: Folder>(
    alloc: Global,
    folder: &mut F,
    dirs: &mut Vec<OpenDir>,
    path: PathName,
    node: FileNode,
) -> Result<OpenFile, FolderFault>
    ensures begun { IfOk result (λ file. IsBegun path node file (F.tree folder.old) (F.tree folder.new) dirs.old.items dirs.new.items) }
    ensures counted { Counted (F.fault_count folder.old) (F.fault_count folder.new) (IsErrOf result FolderFault.Failed) }
{
    match finish_others(alloc, folder, dirs, &path) {
        Ok(()) => {}
        Err(fault) => return Err(fault),
    }
    let file = File {
        attr: node.attr,
        group: node.group,
        bytes: Bytes::new(alloc),
    };
    match folder.make(alloc, &path, &Item::File(file)) {
        Ok(()) => {}
        Err(fault) => return Err(fault),
    }
    let came = Came::InFolder;
    Ok(OpenFile { path, node, came })
}

/// Makes a directory, with the others finished in which it doesn't lie.
pub(crate) fn add_dir<F: Folder>(
    alloc: Global,
    folder: &mut F,
    dirs: &mut Vec<OpenDir>,
    path: PathName,
    dir: Dir,
) -> Result<(), FolderFault>
    ensures stands { OnOk result ((rows more : Tree) (noted : List Noted) → Stands rows ((path, I.Dir dir) ∷ more) (F.tree folder.old) dirs.old.items noted → Stands (rows ++ (path, I.Dir dir) ∷ []) more (F.tree folder.new) dirs.new.items noted) }
    ensures counted { Counted (F.fault_count folder.old) (F.fault_count folder.new) (IsErrOf result FolderFault.Failed) }
{
    match finish_others(alloc, folder, dirs, &path) {
        Ok(()) => {}
        Err(fault) => return Err(fault),
    }
    let Dir { attr } = dir;
    match folder.make(alloc, &path, &Item::Dir(Dir { attr })) {
        Ok(()) => {}
        Err(fault) => return Err(fault),
    }
    let dir = Dir { attr };
    dirs.push(OpenDir { path, dir })?;
    Ok(())
}

/// Makes a link, with the directories finished in which it doesn't lie.
pub(crate) fn add_link<F: Folder>(
    alloc: Global,
    folder: &mut F,
    dirs: &mut Vec<OpenDir>,
    path: PathName,
    link: Link,
) -> Result<(), FolderFault>
    ensures stands { OnOk result ((rows more : Tree) (noted : List Noted) → Stands rows ((path, I.Link link) ∷ more) (F.tree folder.old) dirs.old.items noted → Stands (rows ++ (path, I.Link link) ∷ []) more (F.tree folder.new) dirs.new.items noted) }
    ensures counted { Counted (F.fault_count folder.old) (F.fault_count folder.new) (IsErrOf result FolderFault.Failed) }
{
    match finish_others(alloc, folder, dirs, &path) {
        Ok(()) => {}
        Err(fault) => return Err(fault),
    }
    folder.make(alloc, &path, &Item::Link(link))
}
