//! What the bodies of two answers say, for who asked another server: the listing of a host's backups, and the name of a restore that
//! was opened. Its main clauses say that what is read is `listing_of bytes` and `opened_of bytes`; the laws, that this is what
//! reply_bodies wrote. The crate knows bodies, and no HTTP.
//!
//! | Item | What it is |
//! |---|---|
//! | `read_listing`, `Listing` | the listing that bytes are: lines, the next number, the open dump |
//! | `read_opened` | the session that was opened |
//! | `listings_read_back`, `opened_read_back` | the laws |
//!
//! ```text
//! let listing = read_listing(alloc, b"{\"backups\":[],\"dump\":null,\"next\":0}")?;
//! let restore = read_opened(alloc, b"{\"restore\":\"1-0\"}")?;
//! ```
//!
//! One more answer is a definition in `specs/Listings`, a law, and a function beside these; its members are read by those of
//! `members`.
#![tactic(auto)]

mod laws;
mod lines;
mod listing;
mod members;

pub use laws::{listings_read_back, opened_read_back};
pub use listing::{Listing, read_listing, read_opened};
