//! A tree is made in a folder, frame by frame, as a restore gives it. It knows folders, paths and frames, and no backup and no
//! port. The main clauses are those of [`Making`]: if the frames are those of a tree, and nothing lay in the folder, then the
//! folder tells this tree at the end.
//!
//! | Type | What it is |
//! |---|---|
//! | [`Making`] | where the making of a tree is |
//!
//! Entries are made in the order of the paths. A directory is finished, which sets its attributes, behind its last entry; a file is
//! made once all of its bytes are there; a file of a group is a hard link of an earlier file of the group with equal attributes and
//! bytes, if there is one. A file of several pieces that is in no group is made at once, and gets each piece as it comes. Memory: the
//! open directories, one piece or one file of a group, and a small record for each file of a group.
//!
//! ```text
//! let mut making = Making::new(alloc);
//! making.take(alloc, &mut folder, frame)?;
//! making.finish(alloc, &mut folder)?;
//! ```
#![tactic(auto)]

mod adding;
mod dirs;
mod making;
mod noted;
mod open_file;

pub use making::Making;
