//! Bodies of requests, in pieces (RFC 9112, sections 6 and 7): of a known length, or in chunks. No more than a piece is held. What the
//! bytes are for isn't known here.
//!
//! | Item | What it is |
//! |---|---|
//! | `Body` | a body that is being read: how it comes, and where its reading stands |
//! | `next_piece` | its next 65,536 bytes, or the rest of it |
//! | `BodyStop` | why it isn't read to its end |
//!
//! ```text
//! let mut body = Body::chunked();
//! loop {
//!     let piece = next_piece(alloc, &mut wire, &mut body)?;
//!     ..
//!     if piece.len() < PIECE_SIZE { break; }
//! }
//! ```
#![tactic(auto)]

mod body;
mod items;
mod laws;
mod pieces;
mod reading;
mod stop;

pub use body::{Body, Place};
pub use laws::an_input_has_one_reading;
pub use pieces::{PIECE_SIZE, next_piece};
pub use stop::BodyStop;
