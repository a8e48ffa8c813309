//! A file whose bytes come in pieces.

ghost use Rattle.std.specs.Prelude.{OnOk, IsErrOf};
ghost use Rattle.fault_counts.specs.Counts.{Counted};
ghost use Rattle.folder_making.specs.Holding.{Extends};

use attr_records::PathName;
use disk_trait::Bytes;
use folder_trait::{Folder, FolderFault};
use std::alloc::Global;
use tree_frames::FileNode;

/// Where the bytes of a file are that came so far.
#[derive(Drop)]
pub(crate) enum Came {
    /// Here: the file is made once all have come.
    Kept(Vec<u8>),
    /// In the folder: the file was made there, and each piece is put at its end.
    InFolder,
}

/// A file whose bytes aren't all there.
#[derive(Drop)]
pub(crate) struct OpenFile {
    pub path: PathName,
    pub node: FileNode,
    pub came: Came,
}

impl OpenFile {
    /// Takes more of its bytes.
    pub(crate) fn extend<F: Folder>(
        &mut self,
        alloc: Global,
        folder: &mut F,
        bytes: &Bytes,
    ) -> Result<(), FolderFault>
        ensures extends { OnOk result (Extends self.old self.new bytes.now (F.tree folder.old) (F.tree folder.new)) }
        ensures counted { Counted (F.fault_count folder.old) (F.fault_count folder.new) (IsErrOf result FolderFault.Failed) }
    {
        match &mut self.came {
            Came::Kept(kept) => Ok(kept.extend_from_slice(bytes.as_slice())?),
            Came::InFolder => folder.append(alloc, &self.path, bytes.as_slice()),
        }
    }
}
