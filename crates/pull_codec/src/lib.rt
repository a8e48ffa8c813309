//! The codec of a pull: the requests of the four events that a pull asks of another server, and what the responses say as replies. By it
//! what a pulling client heard are its server's calls, each at its place and with its reply. The crate knows the calls of `peer_asks`, the
//! talk of both ends (`peer_talk`) and this server's responses; it has laws alone, and no code. Its main clause is `PullsAreServed`
//! (specs/Laws).
//!
//! | Law | What it says |
//! |---|---|
//! | `pulls_are_coded` | requests and responses are a codec, and each answer is what its response says |
//! | `pulls_are_served` | the calls that were heard over a connection are those that its server made |
//! | `calls_are_heard` | a call of `peer_asks` that gave a value was heard, and those of one connection are such a list |
//!
//! ```text
//! let restore = open_restore(alloc, &mut wire, &host, 7, None)?;
//! // heard: OpenRead of backup 7, replied Restore(restore); by the laws the server called it, and replied so
//! ```
//!
//! One more event is a line in `may`, `wanted` and `IsRead` (specs/Codec), the range of its answer in `IsAnswer`, and its cases in the
//! proofs.
#![tactic(auto)]

mod laws;

pub use laws::{calls_are_heard, pulls_are_coded, pulls_are_served};
