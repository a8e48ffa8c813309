//! Frames and streams of a tree: what a restore gives, and its bytes. It knows paths, items, bytes and the ends of streams, and
//! neither offices nor files of a store. The main clauses: `FrameCursor` gives `frames` of a tree one by one; `write_stream` writes
//! `stream_bytes` of a tree; and `read_stream` gives the tree whose stream the source has next, and tells every other input by the
//! first thing that is wrong with it (`Reads`, `ReadsExactly` of specs/). `frame_bytes` gives the bytes of a frame by itself, and
//! `read_frame` the one frame whose bytes some are (`IsFrameOf`).
//!
//! | Type | What it is |
//! |---|---|
//! | `Node`, `FileNode` | what stands at a path, without the bytes of a file |
//! | `Frame` | a path that was lost, an entry, a piece of at most 65,536 bytes, or the end |
//! | `Made`, `MadeList` | a path with what stands at it; a tree of them, in the order of its paths |
//! | `FrameCursor` | the frames that are left of a tree |
//!
//! A stream is `RST2` and its frames, and nothing follows the end. Numbers are big-endian.
//!
//! - Entry: `E`, kind u8 (1 File, 2 Dir, 3 Link), the path behind its length u16, mode u32, uid u32, gid u32, mtime i64, nanos u32. A
//!   File then has its group u32 and its size u64, a Link its target behind its length u16.
//! - Piece: `D`, length u32, bytes. Behind a File come its pieces, each of 65,536 bytes but the last, which has the rest.
//! - End: `Z`, the number of entries u32.
//! - Deleted: `X`, the path behind its length u16. No tree has such a frame, and `read_stream` refuses it as any other first byte.
//!
//! What may stand where is said by a `Layout` (specs/Cuts.antt): which values fit, the print of each, which bytes are broken at an
//! offset and which are cut off. Layouts go together by `followed_by`, `seen_as` and `sequence`, and their laws with them: no print
//! begins another, and no bytes are two of the three.
#![tactic(auto)]

mod entries;
mod faults;
mod fields;
mod frames;
mod laws;
mod made;
mod one_frame;
mod reading;
mod unread;
mod writing;

pub use faults::ReadStreamFault;
pub use frames::{FrameCursor, MAX_PIECE_BYTES};
pub use laws::no_stream_begins_another;
pub use made::{Made, MadeList, PushFault};
pub use one_frame::read_frame;
pub use reading::read_stream;
pub use tree_frames::{FileNode, Frame, Node, node_of};
pub use writing::{WriteStreamFault, frame_bytes, write_stream};
