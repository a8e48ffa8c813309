//! What look-ups, listings and restores give of a tree: nodes without the bytes of files, and frames. It knows paths, items and
//! bytes, and neither offices nor streams. The main definitions are `frames` of specs/Frames: each path in order, behind a file its
//! bytes in pieces, last the end; and `frames_since`: what leads from an older tree to a newer one, frame by frame.
//!
//! | Type | What it is |
//! |---|---|
//! | `Node`, `FileNode` | what stands at a path, without the bytes of a file |
//! | `Frame` | a path that was lost, an entry, a piece of at most 65,536 bytes, or the end |
//!
//! A call: `node_of(alloc, &item)?` is the node of an item.
#![tactic(auto)]

mod nodes;

pub use nodes::{FileNode, Frame, Node, node_of};
