//! Texts of at most 512 bytes that take no memory but their own room: the head of a response, and a body that has to be
//! written when there may be no memory. The crate knows bytes and decimal numbers, and its main clause is that what is pushed
//! is appended: `self.new ≡ self.old ++ bytes.now`.
//!
//! ```text
//! let mut text = ShortText::new();
//! text.push(b"Content-Length: ");
//! text.push_number(14);
//! ```
#![tactic(auto)]

mod text;

pub use text::{SHORT_TEXT_LIMIT, ShortText};
