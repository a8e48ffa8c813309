//! One connection in HTTP/1.1 over any port: requests are read, their bodies in pieces, the calls of each are made, and its response is
//! written. No body is held whole but one of at most 65,536 bytes: a larger file goes by stages, and a file that is read goes out in
//! parts. The crate knows ports, events and links, and no store. Its main clause is that what was said on the connection is a talk
//! (`ServesLink`): the calls are those of the requests in the input, in order, each once; the output is their responses.
//!
//! | Module | What it does |
//! |---|---|
//! | `heads` | reads a head, and says what is said if a request isn't read whole |
//! | `bodies` | reads a body to its end, and keeps little of it |
//! | `stages` | hands a file on, piece by piece, and puts it |
//! | `files` | sends a file, part by part |
//! | `answers` | sends the response to a call, or to a request that is refused |
//! | `exchange` | one request, by these |
//! | `connection` | one request after the other |
//!
//! ```text
//! let interface = Interface::new(alloc, defaults)?;
//! let Served { end, link } = serve_connection(alloc, &mut port, link, &mut clock, &mut OpenGate, &interface);
//! ```
#![tactic(auto)]

mod answers;
mod bodies;
mod connection;
mod end;
mod exchange;
mod files;
mod heads;
mod interface;
mod laws;
mod stages;

pub use connection::{Served, serve_connection};
pub use end::End;
pub use interface::Interface;
pub use laws::requests_are_one;
