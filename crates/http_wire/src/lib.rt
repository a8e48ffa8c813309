//! HTTP/1.1 (RFC 9112) over a link: heads and bodies of requests are read, and responses written. What is written is sent
//! before the link is read again, and not before, so that requests that came together are answered together.
//!
//! | Type | What it is |
//! |---|---|
//! | `Wire` | a link, with what was read ahead of it |
//! | `HeadRead` | what reading a head comes to |
//! | `add_bytes` | the next bytes of a body |
//! | `Response` | what is written; without memory, too |
//! | `write_both` | two runs of bytes, in one piece if they can be put together |
//!
//! ```text
//! let mut wire = Wire::new(alloc, &mut link);
//! let read = read_head(alloc, &mut wire);
//! ```
#![tactic(auto)]

mod body;
mod head;
mod response;
mod sending;
mod wire;

pub use body::add_bytes;
pub use head::{HeadRead, read_head};
pub use http_heads::{Head, HeadRefusal, Version};
pub use response::{CONTINUE, NO_MEMORY, Response, bytes_head_text, head_text, sent_body};
pub use sending::{write_both, write_bytes_head, write_no_memory, write_response};
pub use wire::{Wire, WireFault};
