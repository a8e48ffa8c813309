//! Both ends of an HTTP connection: the requests that a server (`browse_http`) read are those that its client (`http_client`) wrote, and
//! the responses that the client reads are the server's, each to the request at its place. It holds for each end of a connection, cut on
//! either side at any byte.
//!
//! | Law | What it says |
//! |---|---|
//! | `talks_are_asked` | what the server read is what the client asked |
//! | `talks_are_mirrored` | what the client reads is what the server answered |
//! | `responses_are_readable` | each response of the server is read with its status and body |
#![tactic(auto)]

mod laws;

pub use laws::{responses_are_readable, talks_are_asked, talks_are_mirrored};
