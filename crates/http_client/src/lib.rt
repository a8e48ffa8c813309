//! The client's end of HTTP/1.1 (RFC 9112) over a link: requests are written, and their responses read, each whole in memory. What is
//! asked, and what a response means, isn't known here.
//!
//! | Item | What it is |
//! |---|---|
//! | `Request`, `write_request` | what is asked, and its bytes on the wire |
//! | `read_response`, `ResponseRead` | the next response, or why there is none |
//!
//! ```text
//! let mut wire = Wire::new(alloc, &mut link);
//! write_request(alloc, &mut wire, &request)?;
//! let read = read_response(alloc, &mut wire, 1_048_576);
//! ```
#![tactic(auto)]

mod laws;
mod plain;
mod requests;
mod responses;

pub use laws::{messages_are_responses, requests_are_heads, short_texts_make_short_heads};
pub use requests::{Request, write_request};
pub use responses::{ResponseRead, read_response};
