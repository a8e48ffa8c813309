//! The events of restores in a store at work: a restore of a backup is opened, gives its tree frame by frame, and is closed.
//! The crate knows the parts of a store, and no other event.
//!
//! Each row of an open restore claims the content that it names, so a restore ends with the tree that it began with,
//! whatever is deleted and cleaned meanwhile. A restore with a base tells first which paths of the base are removed, and gives then the
//! entries that the base lacks or has otherwise; both are found at its opening, and the base's rows let go. Restores of one backup hold its rows in memory once, and so does the view that is
//! kept, if it is theirs. A restore stands at a place, from which the next frame is found at once: all
//! frames of a tree take a time that is linear in it, and each content is read once, when its first piece is asked for.
//!
//! | Function | What it does |
//! |---|---|
//! | [`open_read`] | opens a restore of a backup |
//! | [`read_next`] | gives the next frame of a restore |
//! | [`close_read`] | drops a restore, and lets go its claims |
//!
//! Its main clause: each event is answered as the model says (`Runs` of `store_parts`). `specs/Giving` says what a restore
//! gives from its rows, also over a disk with damaged files (`GivesNext`): the last piece of a content comes only if all its
//! pieces have the digest of its name.
#![tactic(auto)]

mod bases;
mod closing;
mod digests;
mod giving;
mod opening;
mod reading;
mod sharing;
mod since;

pub use closing::close_read;
pub use opening::open_read;
pub use reading::read_next;
