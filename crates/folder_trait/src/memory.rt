//! A folder in memory.

ghost use Rattle.std.specs.Prelude.{◌≡◌, ◌∷◌, ◌++◌, [], ◌+◌, true, Some, None, drop, length, is_some, bytes_eq, IfOk, IfSome, OnOk, IsTrue, IsErrOf};
ghost use Rattle.std.specs.Option.{option_copied, option_eq};
ghost use Rattle.fault_counts.specs.Counts.{Counted};
ghost use Rattle.disk_trait.specs.Files.{piece};
ghost use Rattle.attr_records.specs.Items.{is_dir, is_large};
ghost use Rattle.attr_records.specs.Paths.{parent};
ghost use Rattle.attr_records.specs.Trees.{IsTree, node_at, with_node};
ghost use Rattle.folder_trait.specs.TreePropsLaws.{IsTree-prop};
ghost use Rattle.folder_trait.specs.Folders.{IsFree, is_child, name_in, entry_of, listed, unfinished, begun, longer, touched, made, file_bytes};

use crate::folder::{Folder, FolderFault};
use crate::found::{Found, found_of};
use attr_records::{Attr, Dir, File, Item, PathName, broken_put};
use disk_trait::Bytes;
use std::alloc::{AllocError, Global};
use std::collections::BTreeMap;

/// A folder in memory, which tells its tree.
///
/// Its calls are counted from 0. Those that it was told to fail do fail, and change nothing else. So do those that ask for what
/// isn't there, and those that make what the rules of trees or a taken path forbid, or in what is no directory; the directory around
/// it may be unfinished then.
/// No clause says which other calls don't fail.
#[derive(Drop)]
pub struct MemoryFolder {
    tree: BTreeMap<PathName, Item>,
    fails: Vec<u64>,
    calls: u64,
    failed_calls: u64,
    ghost is_tree: { IsTree is_dir tree.entries } by { IsTree-prop tree.entries },
}

/// A directory without its attributes.
fn unfinished() -> Item
    ensures { result ≡ unfinished }
{
    Item::Dir(Dir {
        attr: Attr::new(0o700, 0, 0, 0, 0),
    })
}

/// An entry as it is made, or want of memory.
fn begun(alloc: Global, item: &Item) -> Result<Item, AllocError>
    ensures { IfOk result (λ made. made ≡ begun item.now) }
{
    match item {
        Item::Dir(_) => Ok(unfinished()),
        Item::File(file) => Ok(Item::File(file.copy(alloc)?)),
        Item::Link(link) => Ok(Item::Link(link.copy(alloc)?)),
    }
}

/// A file with more bytes at its end, or want of memory.
fn longer(alloc: Global, file: &File, more: &[u8]) -> Result<File, AllocError>
    ensures { IfOk result (λ made. made ≡ longer file.now more.now) }
{
    let mut bytes = Vec::from_slice(alloc, file.bytes.as_slice())?;
    bytes.extend_from_slice(more)?;
    Ok(File {
        attr: file.attr,
        group: file.group,
        bytes: Bytes::from_vec(bytes),
    })
}

/// Whether a path lies directly in a directory, or in the root if there is none.
fn is_child(path: &PathName, directory: Option<&PathName>) -> bool
    ensures { result ≡ is_child (option_copied directory.entry) path.now }
{
    match path.parent() {
        None => directory.is_none(),
        Some(found) => match directory {
            None => false,
            Some(directory) => found == directory.as_slice(),
        },
    }
}

/// The name of a path in a directory, or want of memory.
fn name_in(alloc: Global, directory: &PathName, path: &PathName) -> Result<Bytes, AllocError>
    requires { parent path.now ≡ Some directory.now }
    ensures { IfOk result (λ name. name ≡ drop (length directory.now + 1) path.now) }
{
    let directory = directory.as_slice();
    let path = path.as_slice();
    let (_, name) = path.split_at(directory.len() + 1);
    Bytes::from_slice(alloc, name)
}

/// What a listing says of a path in a directory, or want of memory.
fn entry_of(
    alloc: Global,
    directory: Option<&PathName>,
    path: &PathName,
    item: &Item,
) -> Result<Found, AllocError>
    requires { is_child (option_copied directory) path.now ≡ true }
    ensures { IfOk result (λ entry. entry ≡ entry_of (option_copied directory.entry) (path.now, item.now)) }
{
    let name = match directory {
        None => Bytes::from_slice(alloc, path.as_slice())?,
        Some(directory) => name_in(alloc, directory, path)?,
    };
    let node = found_of(alloc, item)?;
    Ok(Found { name, node })
}

/// What lies directly in a directory of a tree, or want of memory.
fn listed(
    alloc: Global,
    tree: &BTreeMap<PathName, Item>,
    directory: Option<&PathName>,
) -> Result<Vec<Found>, AllocError>
    ensures { IfOk result (λ list. list.items ≡ listed tree.now.entries (option_copied directory.entry)) }
{
    let mut list = Vec::new(alloc);
    for (path, item) in tree.iter() {
        if is_child(path, directory) {
            list.push(entry_of(alloc, directory, path, item)?)?;
        }
    }
    Ok(list)
}

/// Puts an item at a path, if the rules of trees let it; says whether they do.
fn put(
    alloc: Global,
    tree: &mut BTreeMap<PathName, Item>,
    path: &PathName,
    item: Item,
) -> Result<bool, AllocError>
    requires { IsTree is_dir tree.old.entries }
    ensures put { IfOk result (λ put. put ≡ true → tree.new.entries ≡ with_node tree.old.entries path.now item) }
    ensures is_tree { IsTree is_dir tree.new.entries }
{
    if broken_put(alloc, tree, path, &item)?.is_some() {
        return Ok(false);
    }
    let path = path.copy(alloc)?;
    tree.insert(path, item)?;
    Ok(true)
}

/// Takes the attributes of the directory that a path lies in, if it doesn't lie in the root; says whether there is such a directory
/// and the rules of trees let it.
fn touch(
    alloc: Global,
    tree: &mut BTreeMap<PathName, Item>,
    path: &PathName,
) -> Result<bool, AllocError>
    requires { IsTree is_dir tree.old.entries }
    ensures put { IfOk result (λ put. put ≡ true → tree.new.entries ≡ touched tree.old.entries (parent path.now)) }
    ensures is_tree { IsTree is_dir tree.new.entries }
{
    match path.parent_path(alloc)? {
        None => Ok(true),
        Some(directory) => match tree.get(&directory) {
            Some(Item::Dir(_)) => put(alloc, tree, &directory, unfinished()),
            Some(Item::File(_) | Item::Link(_)) | None => Ok(false),
        },
    }
}

impl MemoryFolder {
    ghost use Rattle.folder_trait.specs.Memory.{fails_next, Calls};

    /// A folder in which nothing lies, which fails these of its calls.
    pub fn new(alloc: Global, fails: Vec<u64>) -> MemoryFolder
        ensures tree { ⟦<MemoryFolder as Folder>⟧.tree result ≡ Some [] }
        ensures faults { ⟦<MemoryFolder as Folder>⟧.fault_count result ≡ 0 }
    {
        MemoryFolder {
            tree: BTreeMap::new(alloc),
            fails,
            calls: 0,
            failed_calls: 0,
        }
    }

    /// The paths with what is at each.
    pub fn tree(&self) -> &BTreeMap<PathName, Item>
        ensures { ⟦<MemoryFolder as Folder>⟧.tree self.now ≡ Some result.now.entries }
    {
        &self.tree
    }

    /// Counts a call, and says whether it fails: if it is among those that fail.
    fn has_failed(&mut self) -> bool
        ensures value { result ≡ fails_next self.old }
        ensures calls { Calls self.old self.new result }
        ensures counted { Counted self.old.failed_calls self.new.failed_calls (IsTrue result) }
        ensures tree { self.new.tree ≡ self.old.tree }
    {
        let failed = self.fails.contains(&self.calls);
        self.calls = self.calls.saturating_add(1);
        if failed {
            self.failed_calls = self.failed_calls.saturating_add(1);
        }
        failed
    }
}

impl MemoryFolder {
    ghost use Rattle.std.specs.Prelude.{◌≡◌, ⊤};
    ghost use Rattle.folder_trait.specs.declared.folder.FolderFault.TheVariants.{Failed};
    ghost use Rattle.fault_counts.specs.Counts.{Rose};
    ghost use Rattle.folder_trait.specs.Memory.{IsLonger};

    /// Counts a fault of a call that wasn't among those that fail.
    fn fault(&mut self) -> FolderFault
        ensures value { result ≡ Failed }
        ensures rose { Counted self.old.failed_calls self.new.failed_calls ⊤ }
        ensures tree { self.new.tree ≡ self.old.tree }
    {
        self.failed_calls = self.failed_calls.saturating_add(1);
        FolderFault::Failed
    }

    /// The bytes of the file at a path, where there is one; or want of memory.
    fn bytes_at(&self, alloc: Global, path: &PathName) -> Result<Option<Bytes>, AllocError>
        ensures { IfOk result (λ found. found ≡ file_bytes (node_at self.now.tree.entries path.now)) }
    {
        match self.tree.get(path) {
            Some(Item::File(file)) => Ok(Some(file.bytes.copy(alloc)?)),
            Some(Item::Dir(_) | Item::Link(_)) | None => Ok(None),
        }
    }

    /// So many of the bytes of the file at a path from a place, where there is one; or want of memory.
    fn piece_at(
        &self,
        alloc: Global,
        path: &PathName,
        from: u64,
        room: usize,
    ) -> Result<Option<Bytes>, AllocError>
        ensures { IfOk result (λ found. found ≡ piece (file_bytes (node_at self.now.tree.entries path.now)) from room) }
    {
        match self.tree.get(path) {
            Some(Item::File(file)) => Ok(Some(file.bytes.piece(alloc, from, room)?)),
            Some(Item::Dir(_) | Item::Link(_)) | None => Ok(None),
        }
    }

    /// The file at a path once more, where there is one; or want of memory.
    fn file_at(&self, alloc: Global, path: &PathName) -> Result<Option<Item>, AllocError>
        ensures { IfOk result (λ found. IfSome found (λ item. node_at self.now.tree.entries path.now ≡ Some item)) }
    {
        match self.tree.get(path) {
            Some(Item::File(file)) => Ok(Some(Item::File(file.copy(alloc)?))),
            Some(Item::Dir(_) | Item::Link(_)) | None => Ok(None),
        }
    }

    /// The file at a path with more bytes at its end, if there is one and it is in no group of hard links; or want of memory.
    fn longer_at(
        &self,
        alloc: Global,
        path: &PathName,
        more: &[u8],
    ) -> Result<Option<Item>, AllocError>
        ensures { IfOk result (λ found. IfSome found (λ item. IsLonger self.now.tree.entries path.now more.now item)) }
    {
        match self.tree.get(path) {
            Some(Item::File(file)) if file.group == 0 => {
                Ok(Some(Item::File(longer(alloc, file, more)?)))
            }
            Some(_) | None => Ok(None),
        }
    }

    /// Whether a path is a directory.
    fn has_directory(&self, path: &PathName) -> bool {
        matches!(self.tree.get(path), Some(Item::Dir(_)))
    }

    /// Whether something is at a path.
    fn is_taken(&self, path: &PathName) -> bool
        ensures { result ≡ is_some (node_at self.now.tree.entries path.now) }
    {
        self.tree.contains_key(path)
    }

    /// Makes an item at a path that isn't taken, if the rules of trees let it; says whether they do.
    fn make_item(&mut self, alloc: Global, path: &PathName, item: &Item) -> Result<bool, AllocError>
        ensures made { IfOk result (λ done. done ≡ true → self.new.tree.entries ≡ made self.old.tree.entries path.now item.now) }
        ensures free { IfOk result (λ done. done ≡ true → IsFree self.old.tree.entries path.now) }
        ensures faults { self.new.failed_calls ≡ self.old.failed_calls }
    {
        if self.is_taken(path) {
            return Ok(false);
        }
        if !touch(alloc, &mut self.tree, path)? {
            return Ok(false);
        }
        put(alloc, &mut self.tree, path, begun(alloc, item)?)
    }
}

impl Folder for MemoryFolder {
    ghost use Rattle.std.specs.Prelude.{Some};
    ghost use Rattle.folder_trait.specs.TreePropsLaws.{told_tree};

    ghost tree = { λ folder. Some folder.tree.entries };

    ghost fault_count = { λ folder. folder.failed_calls };

    fn list(
        &mut self,
        alloc: Global,
        directory: Option<&PathName>,
    ) -> Result<Vec<Found>, FolderFault> {
        if self.has_failed() {
            return Err(FolderFault::Failed);
        }
        if let Some(directory) = directory
            && !self.has_directory(directory)
        {
            return Err(self.fault());
        }
        Ok(listed(alloc, &self.tree, directory)?)
    }

    fn read(&mut self, alloc: Global, path: &PathName) -> Result<Option<Bytes>, FolderFault> {
        if self.has_failed() {
            return Err(FolderFault::Failed);
        }
        match self.bytes_at(alloc, path)? {
            Some(bytes) => Ok(Some(bytes)),
            None => Err(self.fault()),
        }
    }

    fn read_at(
        &mut self,
        alloc: Global,
        path: &PathName,
        from: u64,
        room: usize,
    ) -> Result<Option<Bytes>, FolderFault> {
        if self.has_failed() {
            return Err(FolderFault::Failed);
        }
        match self.piece_at(alloc, path, from, room)? {
            Some(bytes) => Ok(Some(bytes)),
            None => Err(self.fault()),
        }
    }

    fn make(&mut self, alloc: Global, path: &PathName, item: &Item) -> Result<(), FolderFault> {
        if self.has_failed() {
            return Err(FolderFault::Failed);
        }
        if self.make_item(alloc, path, item)? {
            return Ok(());
        }
        Err(self.fault())
    }

    fn append(&mut self, alloc: Global, path: &PathName, bytes: &[u8]) -> Result<(), FolderFault> {
        if self.has_failed() {
            return Err(FolderFault::Failed);
        }
        let Some(item) = self.longer_at(alloc, path, bytes)? else {
            return Err(self.fault());
        };
        if put(alloc, &mut self.tree, path, item)? {
            return Ok(());
        }
        Err(self.fault())
    }

    fn link(
        &mut self,
        alloc: Global,
        path: &PathName,
        earlier: &PathName,
    ) -> Result<(), FolderFault> {
        if self.has_failed() {
            return Err(FolderFault::Failed);
        }
        let Some(item) = self.file_at(alloc, earlier)? else {
            return Err(self.fault());
        };
        if self.make_item(alloc, path, &item)? {
            return Ok(());
        }
        Err(self.fault())
    }

    fn finish(&mut self, alloc: Global, path: &PathName, dir: &Dir) -> Result<(), FolderFault> {
        if self.has_failed() {
            return Err(FolderFault::Failed);
        }
        if self.has_directory(path) && put(alloc, &mut self.tree, path, Item::Dir(*dir))? {
            return Ok(());
        }
        Err(self.fault())
    }

    fn is_empty(&mut self, _alloc: Global) -> Result<bool, FolderFault> {
        if self.has_failed() {
            return Err(FolderFault::Failed);
        }
        Ok(self.tree.is_empty())
    }

    fn faults(&self) -> u64 {
        self.failed_calls
    }

    ghost is_tree = { λ folder all told. told_tree folder.tree.entries all folder.is_tree told };
}
