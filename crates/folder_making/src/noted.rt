//! Files of groups of hard links.

ghost use Rattle.std.specs.Prelude.{◌≡◌, ◌∷◌, ◌++◌, [], ◌<◌, ℕ, List, length, true, IfOk, IfSome, OnOk, IsErrOf, Some, slice_get};
ghost use Rattle.std.specs.Option.{ForSome};
ghost use Rattle.fault_counts.specs.Counts.{Counted};
ghost use Rattle.attr_records.specs.declared.nodes.Item.{Item};
ghost use Rattle.attr_records.specs.declared.nodes.Item.TheVariants as I;
ghost use Rattle.attr_records.specs.Items.{Tree};
ghost use Rattle.folder_trait.specs.Folders.{with_made};
ghost use Rattle.folder_making.specs.declared.dirs.OpenDir.{OpenDir};
ghost use Rattle.folder_making.specs.Standing.{Stands, IsSame, IsEarlier};

use attr_records::{Attr, File, Item, PathName};
use folder_trait::{Folder, FolderFault};
use std::alloc::Global;
use tree_frames::FileNode;

/// A file that was made, of a group of hard links.
pub(crate) struct Noted {
    pub path: PathName,
    pub node: FileNode,
}

/// Written out: what is in it is then dropped here, for the prover too, and not in each crate above.
impl Drop for Noted {
    fn drop(self) {
        let Noted { path: _, node: _ } = self;
    }
}

/// Whether attributes are equal.
fn is_same_attr(a: Attr, b: Attr) -> bool
    ensures { result ≡ true → a ≡ b }
{
    a == b
}

/// Whether a file that was made has the group, the size and the attributes of this one.
fn is_alike(noted: &Noted, file: &File) -> bool
    ensures { result ≡ true → (noted.now.node.attr ≡ file.now.attr) × (noted.now.node.group ≡ file.now.group) }
{
    if noted.node.group != file.group {
        return false;
    }
    if noted.node.size != file.bytes.len() as u64 {
        return false;
    }
    is_same_attr(noted.node.attr, file.attr)
}

/// Whether a file that was made has these attributes and these bytes.
fn is_same<F: Folder>(
    alloc: Global,
    folder: &mut F,
    noted: &Noted,
    file: &File,
) -> Result<bool, FolderFault>
    ensures same { IfOk result (λ same. same ≡ true → ForSome (F.tree folder.old) (λ all. IsSame all noted.now file.now)) }
    ensures tree { F.tree folder.new ≡ F.tree folder.old }
    ensures counted { Counted (F.fault_count folder.old) (F.fault_count folder.new) (IsErrOf result FolderFault.Failed) }
{
    if !is_alike(noted, file) {
        return Ok(false);
    }
    match folder.read(alloc, &noted.path) {
        Ok(Some(bytes)) => Ok(bytes == file.bytes),
        Ok(None) => Ok(false),
        Err(fault) => Err(fault),
    }
}

/// The index of an earlier file of this group with equal attributes and bytes, if there is one.
fn earlier_of<F: Folder>(
    alloc: Global,
    folder: &mut F,
    noted: &[Noted],
    file: &File,
) -> Result<Option<usize>, FolderFault>
    ensures found { IfOk result (λ found. IfSome found (λ index. (index < length noted.now) × ForSome (F.tree folder.old) (λ all. IsEarlier all noted.now index file.now))) }
    ensures tree { F.tree folder.new ≡ F.tree folder.old }
    ensures counted { Counted (F.fault_count folder.old) (F.fault_count folder.new) (IsErrOf result FolderFault.Failed) }
{
    for index in 0..noted.len() {
        let one = &noted[index];
        match is_same(alloc, folder, one, file) {
            Ok(true) => return Ok(Some(index)),
            Ok(false) => {}
            Err(fault) => return Err(fault),
        }
    }
    Ok(None)
}

/// Makes a file that is in a group of hard links: as a link, if an earlier path of the group has equal attributes and bytes.
pub(crate) fn make_grouped<F: Folder>(
    alloc: Global,
    folder: &mut F,
    noted: &mut Vec<Noted>,
    path: PathName,
    file: File,
) -> Result<(), FolderFault>
    ensures stands { OnOk result ((rows more : Tree) (dirs : List OpenDir) → Stands rows ((path, I.File file) ∷ more) (F.tree folder.old) dirs noted.old.items → Stands (rows ++ (path, I.File file) ∷ []) more (F.tree folder.new) dirs noted.new.items) }
    ensures counted { Counted (F.fault_count folder.old) (F.fault_count folder.new) (IsErrOf result FolderFault.Failed) }
{
    match earlier_of(alloc, folder, noted.as_slice(), &file) {
        Ok(Some(index)) => {
            let one = &noted[index];
            folder.link(alloc, &path, &one.path)
        }
        Ok(None) => make_first(alloc, folder, noted, path, file),
        Err(fault) => Err(fault),
    }
}

/// Makes a file that no earlier one of its group is equal to, and notes it.
fn make_first<F: Folder>(
    alloc: Global,
    folder: &mut F,
    noted: &mut Vec<Noted>,
    path: PathName,
    file: File,
) -> Result<(), FolderFault>
    ensures stands { OnOk result ((rows more : Tree) (dirs : List OpenDir) → Stands rows ((path, I.File file) ∷ more) (F.tree folder.old) dirs noted.old.items → Stands (rows ++ (path, I.File file) ∷ []) more (F.tree folder.new) dirs noted.new.items) }
    ensures counted { Counted (F.fault_count folder.old) (F.fault_count folder.new) (IsErrOf result FolderFault.Failed) }
{
    let node = FileNode {
        attr: file.attr,
        group: file.group,
        size: file.bytes.len() as u64,
    };
    match folder.make(alloc, &path, &Item::File(file)) {
        Ok(()) => {}
        Err(fault) => return Err(fault),
    }
    noted.push(Noted { path, node })?;
    Ok(())
}
