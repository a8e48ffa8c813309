//! A real folder of the system behind the trait `Folder`, and how far a walk over it is, on a terminal. It knows the system's calls,
//! and no backup. It tells no tree, since no contract knows what a folder of the system has; the main clause is of its faults alone:
//! `Failed` is answered exactly if the count rose.
//!
//! | Type | What it is |
//! |---|---|
//! | [`RealFolder`] | a folder of the system, whose entries are listed, read and made |
//! | [`ProgressLine`] | says on standard error how far a walk is, and which files have gone |
//!
//! ```text
//! let mut folder = RealFolder::open(rt, "/home")?;
//! let list = folder.list(alloc, None)?;
//! ```
#![tactic(auto)]

mod directory;
mod fault_count;
mod folder;
mod groups;
mod handle;
mod listing;
mod progress;
mod seen;
mod told;

pub use folder::RealFolder;
pub use progress::ProgressLine;
