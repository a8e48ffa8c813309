//! Files whose bytes are still to come.

use attr_records::PathName;
use tree_frames::FileNode;

/// A file of 1 to 65,536 bytes, whose one piece is still to come.
#[derive(Debug, Drop)]
pub struct SmallFile {
    pub path: PathName,
    pub node: FileNode,
}

/// A file of more than 65,536 bytes, of which some are still to come.
#[derive(Debug, Drop)]
pub struct LargeFile {
    pub path: PathName,
    pub node: FileNode,
    /// The number of the stage that takes its bytes.
    pub stage: u64,
    /// How many bytes are still to come.
    pub left: u64,
}
