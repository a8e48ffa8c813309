//! The responses of the server, written to a wire: those to heads, bodies and requests that are refused, and those to replies of the
//! office. None takes memory; the bodies of longer answers are made before. The crate knows refusals, events and answers, and no port.
//! What is written is a definition of `specs/Messages`:
//!
//! | Function | Writes |
//! |---|---|
//! | `write_bad` | `bad_response refusal for_head` |
//! | `write_broken` | `broken_response refusal is_head` |
//! | `write_refusal` | `refused_response refusal closes is_head` |
//! | `write_reply` | `reply_response event reply closes is_head` |
//!
//! ```text
//! write_refusal(&mut wire, RequestRefusal::NoRoute, closes, is_head)?;
//! ```
#![tactic(auto)]

mod body_refusal;
mod names;
mod replies;
mod statuses;

pub use body_refusal::BodyRefusal;
pub use replies::{write_bad, write_broken, write_refusal, write_reply};
