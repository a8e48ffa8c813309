//! What the body of a directory's listing says, for who asked another server: the names in it, each with what it names. Its main clause
//! says that what is read is `entries_of bytes`; the law, that this is what reply_bodies wrote. The crate knows bodies, and no HTTP.
//!
//! | Item | What it is |
//! |---|---|
//! | `read_entries` | the entries that bytes are |
//! | `entries_read_back` | the law |
//!
//! ```text
//! let entries = read_entries(alloc, b"{\"entries\":[]}")?;
//! ```
//!
//! One more member of a node is a line in `specs/Entries`, and one in `nodes`.
#![tactic(auto)]

mod entries;
mod laws;
mod nodes;

pub use entries::read_entries;
pub use laws::entries_read_back;
