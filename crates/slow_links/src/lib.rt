//! Links for tests: in memory, in one piece or byte for byte. They know nothing of what is said over them.
//!
//! A call: `SlowLink { link: link_of(alloc, b"GET / HTTP/1.0\r\n\r\n", 512)? }` gives and takes one byte at a time.
#![tactic(auto)]

mod links;

pub use links::{SlowLink, link_of};
