//! Where the making of a tree is.

ghost use Rattle.std.specs.Prelude.{◌≡◌, ◌++◌, [], Option, Some, None, OnOk, IsErrOf};
ghost use Rattle.fault_counts.specs.Counts.{Counted};
ghost use Rattle.attr_records.specs.Items.{Tree, is_dir};
ghost use Rattle.attr_records.specs.Trees.{IsTree};
ghost use Rattle.tree_frames.specs.declared.nodes.Frame.TheVariants.{Piece};
ghost use Rattle.tree_frames.specs.declared.nodes.Node.TheVariants as N;
ghost use Rattle.folder_making.specs.Made.{Made, nothing_made, ended, begun_at, taken};
ghost use Rattle.folder_making.specs.Holding.{Holds};

use crate::adding::{add_begun, add_dir, add_file, add_link};
use crate::dirs::{OpenDir, finish_all};
use crate::noted::Noted;
use crate::open_file::{Came, OpenFile};
use attr_records::{File, PathName};
use disk_trait::Bytes;
use folder_trait::{Folder, FolderFault};
use std::alloc::Global;
use tree_frames::{FileNode, Frame, Node};

/// How many bytes one piece of a file has at most.
const PIECE: u64 = 65_536;

/// Where the making of a tree is: the directories that were made and aren't finished, the innermost on top, a file whose bytes
/// aren't all there, and the files of groups of hard links that were made.
#[derive(Drop)]
pub struct Making {
    dirs: Vec<OpenDir>,
    file: Option<OpenFile>,
    noted: Vec<Noted>,
}

impl Making {
    /// Nothing was made so far.
    pub fn new(alloc: Global) -> Making
        ensures { (tree : Tree) (told : Option Tree) → IsTree is_dir tree → told ≡ Some [] → Holds nothing_made tree told result }
    {
        Making {
            dirs: Vec::new(alloc),
            file: None,
            noted: Vec::new(alloc),
        }
    }

    /// Makes the file whose bytes are all there now, if one came and isn't in the folder.
    fn end_file<F: Folder>(&mut self, alloc: Global, folder: &mut F) -> Result<(), FolderFault>
        ensures holds { OnOk result ((made : Made) (more left : Tree) → Holds made more (F.tree folder.old) self.old → made.rows ++ more ≡ ended made ++ left → Holds (record { rows = ended made; file = None }) left (F.tree folder.new) self.new) }
        ensures counted { Counted (F.fault_count folder.old) (F.fault_count folder.new) (IsErrOf result FolderFault.Failed) }
    {
        match self.file.take() {
            None => Ok(()),
            Some(file) => {
                let OpenFile { path, node, came } = file;
                match came {
                    Came::Kept(bytes) => {
                        let file = File {
                            attr: node.attr,
                            group: node.group,
                            bytes: Bytes::from_vec(bytes),
                        };
                        add_file(alloc, folder, &mut self.dirs, &mut self.noted, path, file)
                    }
                    Came::InFolder => Ok(()),
                }
            }
        }
    }

    /// Begins a file whose bytes are kept until all have come.
    fn begin_kept(&mut self, alloc: Global, path: PathName, node: FileNode)
        ensures { (rows more : Tree) (told : Option Tree) → Holds (record { rows = rows; file = None }) more told self.old → Holds (begun_at rows path (N.File node)) more told self.new }
    {
        let came = Came::Kept(Vec::new(alloc));
        self.file = Some(OpenFile { path, node, came });
    }

    /// Begins a file that is made at once, and gets its bytes in the folder as they come.
    fn begin_made<F: Folder>(
        &mut self,
        alloc: Global,
        folder: &mut F,
        path: PathName,
        node: FileNode,
    ) -> Result<(), FolderFault>
        ensures holds { OnOk result ((rows more : Tree) → Holds (record { rows = rows; file = None }) more (F.tree folder.old) self.old → Holds (begun_at rows path (N.File node)) more (F.tree folder.new) self.new) }
        ensures counted { Counted (F.fault_count folder.old) (F.fault_count folder.new) (IsErrOf result FolderFault.Failed) }
    {
        match add_begun(alloc, folder, &mut self.dirs, path, node) {
            Ok(file) => {
                self.file = Some(file);
                Ok(())
            }
            Err(fault) => Err(fault),
        }
    }

    /// Begins a file.
    fn begin_file<F: Folder>(
        &mut self,
        alloc: Global,
        folder: &mut F,
        path: PathName,
        node: FileNode,
    ) -> Result<(), FolderFault>
        ensures holds { OnOk result ((rows more : Tree) → Holds (record { rows = rows; file = None }) more (F.tree folder.old) self.old → Holds (begun_at rows path (N.File node)) more (F.tree folder.new) self.new) }
        ensures counted { Counted (F.fault_count folder.old) (F.fault_count folder.new) (IsErrOf result FolderFault.Failed) }
    {
        if node.group == 0 && node.size > PIECE {
            return self.begin_made(alloc, folder, path, node);
        }
        self.begin_kept(alloc, path, node);
        Ok(())
    }

    /// Begins what stands at the next path.
    fn begin_node<F: Folder>(
        &mut self,
        alloc: Global,
        folder: &mut F,
        path: PathName,
        node: Node,
    ) -> Result<(), FolderFault>
        ensures holds { OnOk result ((rows more left : Tree) → Holds (record { rows = rows; file = None }) more (F.tree folder.old) self.old → rows ++ more ≡ (begun_at rows path node).rows ++ left → Holds (begun_at rows path node) left (F.tree folder.new) self.new) }
        ensures counted { Counted (F.fault_count folder.old) (F.fault_count folder.new) (IsErrOf result FolderFault.Failed) }
    {
        match node {
            Node::File(node) => self.begin_file(alloc, folder, path, node),
            Node::Dir(dir) => add_dir(alloc, folder, &mut self.dirs, path, dir),
            Node::Link(link) => add_link(alloc, folder, &mut self.dirs, path, link),
        }
    }

    /// The next entry begins, and the last file ends.
    fn begin<F: Folder>(
        &mut self,
        alloc: Global,
        folder: &mut F,
        path: PathName,
        node: Node,
    ) -> Result<(), FolderFault>
        ensures holds { OnOk result ((made : Made) (more left : Tree) → Holds made more (F.tree folder.old) self.old → made.rows ++ more ≡ (begun_at (ended made) path node).rows ++ left → Holds (begun_at (ended made) path node) left (F.tree folder.new) self.new) }
        ensures counted { Counted (F.fault_count folder.old) (F.fault_count folder.new) (IsErrOf result FolderFault.Failed) }
    {
        match self.end_file(alloc, folder) {
            Ok(()) => {}
            Err(fault) => return Err(fault),
        }
        self.begin_node(alloc, folder, path, node)
    }

    /// More bytes of the last file.
    fn extend<F: Folder>(
        &mut self,
        alloc: Global,
        folder: &mut F,
        bytes: Bytes,
    ) -> Result<(), FolderFault>
        ensures holds { OnOk result ((made : Made) (more : Tree) → Holds made more (F.tree folder.old) self.old → Holds (taken made (Piece bytes)) more (F.tree folder.new) self.new) }
        ensures counted { Counted (F.fault_count folder.old) (F.fault_count folder.new) (IsErrOf result FolderFault.Failed) }
    {
        match &mut self.file {
            None => Ok(()),
            Some(file) => file.extend(alloc, folder, &bytes),
        }
    }

    /// Takes the next frame of a tree. A path that was lost, which no tree's frames have, leaves all as it is.
    pub fn take<F: Folder>(
        &mut self,
        alloc: Global,
        folder: &mut F,
        frame: Frame,
    ) -> Result<(), FolderFault>
        ensures holds { OnOk result ((made : Made) (more left : Tree) → Holds made more (F.tree folder.old) self.old → made.rows ++ more ≡ (taken made frame).rows ++ left → Holds (taken made frame) left (F.tree folder.new) self.new) }
        ensures counted { Counted (F.fault_count folder.old) (F.fault_count folder.new) (IsErrOf result FolderFault.Failed) }
    {
        match frame {
            Frame::Deleted(_) => Ok(()),
            Frame::Entry { path, node } => self.begin(alloc, folder, path, node),
            Frame::Piece(bytes) => self.extend(alloc, folder, bytes),
            Frame::End(_) => self.end_file(alloc, folder),
        }
    }

    /// Finishes all directories, behind the last frame. `Memory` also if a file was begun and no frame has ended it.
    pub fn finish<F: Folder>(&mut self, alloc: Global, folder: &mut F) -> Result<(), FolderFault>
        ensures whole { OnOk result ((made : Made) → Holds made [] (F.tree folder.old) self.old → F.tree folder.new ≡ Some made.rows) }
        ensures counted { Counted (F.fault_count folder.old) (F.fault_count folder.new) (IsErrOf result FolderFault.Failed) }
    {
        if self.file.is_some() {
            return Err(FolderFault::Memory);
        }
        finish_all(alloc, folder, &mut self.dirs)
    }
}
