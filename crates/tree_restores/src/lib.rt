//! Open restores of an office of whole trees in memory, and the frames that they give. It knows the hosts and trees of `tree_parts`, and
//! neither dumps nor the pool. Each function judges and changes the restores alone; its clause is the event's definition over them
//! (`office_model`, `specs/events`): as judged, or as before with the first broken rule or want of memory.
//!
//! | Module | What it has |
//! |---|---|
//! | `restores` | an open restore: opened, read from, closed |
//! | `frames` | the frames of a tree, and of what leads from a base to it |
//! | `changes` | what leads from a base to a tree: the paths that it lost, and what it has otherwise |
//!
//! A call: `read_next(alloc, &mut restores, &name)?` gives the next frame.
#![tactic(auto)]

mod changes;
mod frames;
mod restores;

pub use restores::{Restore, drop_restore, push_restore, read_next};
