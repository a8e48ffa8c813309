//! A folder becomes a host's next backup, over any `Port`. It knows events and their answers, and a folder by its trait; no store, no
//! file of a real folder. The main clause: the calls are the script of a dump of the folder's tree, whole or up to what was refused,
//! and then an open dump is aborted; so in each legal history the committed tree is the folder's (`committed_tree` of specs/ShownLaws).
//!
//! | Item | What it is |
//! |---|---|
//! | [`dump_folder`] | makes a folder the next backup, `Dumped` and `Stopped` of specs/Dumps |
//! | [`DumpRefusal`] | why it wasn't; what it means is in specs/Causes |
//!
//! It goes over one directory and one file at a time, and doesn't recurse; a `Progress` is told how far it is. A file of more than
//! 67,108,864 bytes goes by a stage, so no more of it is held than a piece.
//!
//! ```text
//! let number = dump_folder(alloc, &mut port, &mut folder, &host, Kind::Full, &mut clock, &mut NoProgress)?;
//! ```
#![tactic(auto)]

mod asking;
mod comparing;
mod dumping;
mod putting;
mod refusals;
mod rows;
mod staging;

pub use dumping::dump_folder;
pub use refusals::DumpRefusal;
