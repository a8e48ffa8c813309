//! The events of open readers in a store at work: a reader of a file of a backup is opened, gives the file's bytes part by
//! part, and is closed. The crate knows the parts of a store, and no other event.
//!
//! An open reader claims the content of its file, so it gives all of it, whatever is deleted and cleaned meanwhile. A part has
//! 65,536 bytes at most, so a file of any size is read in little memory. An empty file has no content, and its reader gives
//! nothing.
//!
//! | Function | What it does |
//! |---|---|
//! | [`open_file`] | opens a reader of the file at a path of a backup |
//! | [`read_part`] | gives the next part of a reader |
//! | [`close_file`] | drops a reader, and lets go its claim |
//!
//! Its main clause: each event is answered as the model says (`Runs` of `store_parts`). `specs/Opening` and `specs/Giving` say
//! which file is opened and what its reader gives, also over a disk with damaged files (`GivesPart`): the last part of a
//! content comes only if all its parts have the digest of its name.
#![tactic(auto)]

mod closing;
mod finding;
mod next_part;
mod opening;
mod reading;

pub use closing::close_file;
pub use next_part::{Asked, NextPart};
pub use opening::open_file;
pub use reading::read_part;
