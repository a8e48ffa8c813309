ghost use Rattle.std.specs.Prelude.{◌≡◌, IfOk};
ghost use Rattle.tree_frames.specs.Frames.{node_of};

use attr_records::{Attr, Dir, Item, Link, PathName};
use disk_trait::Bytes;
use std::alloc::{AllocError, Global};

/// A file without its bytes.
#[derive(Clone, Copy, Debug, PartialEq, Eq)]
pub struct FileNode {
    pub attr: Attr,
    /// Files of one group other than 0 are hard links of one file, as the client says.
    pub group: u32,
    /// How many bytes it has.
    pub size: u64,
}

/// What stands at a path of a tree, without the bytes of a file.
#[derive(Debug, Drop)]
pub enum Node {
    File(FileNode),
    Dir(Dir),
    Link(Link),
}

/// What a restore gives next: with a base first the paths that its tree lost, then the paths of its tree in their order,
/// with a base those alone that the base has otherwise or lacks, behind each file its bytes in pieces of at most 65,536,
/// and last the end.
#[derive(Debug, Drop)]
pub enum Frame {
    /// A path of the base that the tree lost, with all below it.
    Deleted(PathName),
    Entry { path: PathName, node: Node },
    /// Bytes of the last file that was given.
    Piece(Bytes),
    /// How many entries there were.
    End(u32),
}

/// What stands at a path, without the bytes of a file; or want of memory.
pub fn node_of(alloc: Global, item: &Item) -> Result<Node, AllocError>
    ensures { IfOk result (λ node. node ≡ node_of item.now) }
{
    match item {
        Item::File(file) => Ok(Node::File(FileNode {
            attr: file.attr,
            group: file.group,
            size: file.bytes.len() as u64,
        })),
        Item::Dir(dir) => Ok(Node::Dir(*dir)),
        Item::Link(link) => Ok(Node::Link(link.copy(alloc)?)),
    }
}
