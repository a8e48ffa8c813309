//! Folders as a trait that a real folder and one in memory share: what lies in a directory, the bytes of a file, and how entries
//! are made. It knows paths and trees alone, and no backup. The main clause: where a folder tells its tree, a listing has exactly
//! what the tree has in that directory, by rising names, and each entry that is made stands in the tree.
//!
//! | Type | What it is |
//! |---|---|
//! | [`Folder`] | what a walk asks of a folder |
//! | [`Found`], [`FoundNode`] | a name in a directory with what it names, without the bytes of a file |
//! | [`FolderFault`] | the folder failed, or there was no memory |
//! | [`MemoryFolder`] | a folder in memory, which tells its tree and fails where it was told to |
//! | [`Progress`], [`NoProgress`], [`Count`] | who is told how far a walk is, by entries and bytes, and which files have gone |
//!
//! Whatever is made in a directory changes the time at which the directory was changed, and a directory may be one in which
//! nobody may write. So a directory that was made, or in which something was made, is `unfinished` until `finish` gives it its
//! attributes: that has to come behind its last entry.
//!
//! ```text
//! folder.make(alloc, &directory, &Item::Dir(dir))?;
//! folder.make(alloc, &path, &item)?;
//! folder.append(alloc, &path, more)?;
//! folder.finish(alloc, &directory, &dir)?;
//! ```
#![tactic(auto)]

mod folder;
mod found;
mod memory;
mod progress;

pub use folder::{Folder, FolderFault};
pub use found::{Found, FoundFile, FoundLink, FoundNode};
pub use memory::MemoryFolder;
pub use progress::{Count, NoProgress, Progress};
