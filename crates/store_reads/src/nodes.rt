//! The nodes that records say.

ghost use Rattle.std.specs.Prelude.{◌≡◌, IfOk};
ghost use Rattle.store_reads.specs.Shown.{node_in};

use attr_tables::Record;
use office_model::{FileNode, Node};
use std::alloc::{AllocError, Global};

/// The node that a record says, without the bytes of a file, None for a deletion mark; or want of memory.
pub fn node_of(alloc: Global, stored: &Record) -> Result<Option<Node>, AllocError>
    ensures { IfOk result (λ node. node ≡ node_in stored.now) }
{
    match stored {
        Record::File(file) => Ok(Some(Node::File(FileNode {
            attr: file.attr,
            group: file.group,
            size: file.size,
        }))),
        Record::Dir(dir) => Ok(Some(Node::Dir(*dir))),
        Record::Link(link) => Ok(Some(Node::Link(link.copy(alloc)?))),
        Record::Deleted => Ok(None),
    }
}
