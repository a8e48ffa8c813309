//! What a pull asks of another server over HTTP, a call each: a host's backups, a restore that is opened, its next frame, its end. Each
//! call is one exchange over a wire. The crate knows events, their requests and what the bodies of their answers say; it knows neither
//! stores nor folders. Its main clauses are `Asks` and `Closes` (specs/Asks): which request was written, what of the input was taken,
//! and what the body reads as.
//!
//! | Item | What it is |
//! |---|---|
//! | `list_backups` | the backups of a host |
//! | `open_restore` | the name of a restore, whole or from a base on |
//! | `next_frame` | the next frame of an open restore |
//! | `close_restore` | closes it |
//!
//! ```text
//! let mut wire = Wire::new(alloc, link);
//! let restore = open_restore(alloc, &mut wire, &host, 7, Some(6))?;
//! let frame = next_frame(alloc, &mut wire, restore)?;
//! close_restore(alloc, &mut wire, restore)?;
//! ```
//!
//! One more call is an event that `request_of` of event_texts knows, a relation between a body and its value, and a function beside
//! these.
#![tactic(auto)]

mod asking;
mod calls;

pub use calls::{close_restore, list_backups, next_frame, open_restore};
