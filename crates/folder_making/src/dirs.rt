//! The directories that were made, and aren't finished.

ghost use Rattle.std.specs.Prelude.{◌≡◌, ◌∷◌, [], ℕ, List, OnOk, IsErrOf, Some};
ghost use Rattle.fault_counts.specs.Counts.{Counted};
ghost use Rattle.attr_records.specs.declared.nodes.Item.{Item};
ghost use Rattle.attr_records.specs.Items.{Tree};
ghost use Rattle.attr_records.specs.Paths.{is_within};
ghost use Rattle.folder_making.specs.declared.noted.Noted.{Noted};
ghost use Rattle.folder_making.specs.Standing.{Stands};

use attr_records::{Dir, PathName, is_within};
use folder_trait::{Folder, FolderFault};
use std::alloc::Global;

/// A directory that was made, and isn't finished.
pub(crate) struct OpenDir {
    pub path: PathName,
    pub dir: Dir,
}

/// Written out: what is in it is then dropped here, for the prover too, and not in each crate above.
impl Drop for OpenDir {
    fn drop(self) {
        let OpenDir { path: _, dir: _ } = self;
    }
}

/// Whether a path lies within a directory.
fn holds(directory: &PathName, path: &PathName) -> bool
    ensures { result ≡ is_within directory.now path.now }
{
    is_within(directory.as_slice(), path.as_slice())
}

/// Finishes the directories on top of a stack in which a path doesn't lie, the innermost first.
pub(crate) fn finish_others<F: Folder>(
    alloc: Global,
    folder: &mut F,
    dirs: &mut Vec<OpenDir>,
    path: &PathName,
) -> Result<(), FolderFault>
    ensures stands { OnOk result ((rows more : Tree) (item : Item) (noted : List Noted) → Stands rows ((path.now, item) ∷ more) (F.tree folder.old) dirs.old.items noted → Stands rows ((path.now, item) ∷ more) (F.tree folder.new) dirs.new.items noted) }
    ensures counted { Counted (F.fault_count folder.old) (F.fault_count folder.new) (IsErrOf result FolderFault.Failed) }
{
    while let Some(last) = dirs.pop() {
        if holds(&last.path, path) {
            dirs.push(last)?;
            return Ok(());
        }
        match folder.finish(alloc, &last.path, &last.dir) {
            Ok(()) => {}
            Err(fault) => return Err(fault),
        }
    }
    Ok(())
}

/// Finishes all directories of a stack, the innermost first.
pub(crate) fn finish_all<F: Folder>(
    alloc: Global,
    folder: &mut F,
    dirs: &mut Vec<OpenDir>,
) -> Result<(), FolderFault>
    ensures stands { OnOk result ((rows : Tree) (noted : List Noted) → Stands rows [] (F.tree folder.old) dirs.old.items noted → F.tree folder.new ≡ Some rows) }
    ensures counted { Counted (F.fault_count folder.old) (F.fault_count folder.new) (IsErrOf result FolderFault.Failed) }
{
    while let Some(last) = dirs.pop() {
        match folder.finish(alloc, &last.path, &last.dir) {
            Ok(()) => {}
            Err(fault) => return Err(fault),
        }
    }
    Ok(())
}
