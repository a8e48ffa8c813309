//! A port to another server over HTTP, generic in the link and in a codec of events: each call is one request and its response. The crate
//! knows events as a codec puts them, one exchange over a wire, and the talk of both ends; it knows neither which events there are requests
//! for, nor what a response says. Its main clauses are the moves of `RemotePort` (`Speaks`, in specs/Speaks) and its law (specs/Laws).
//!
//! | Item | What it is |
//! |---|---|
//! | `RemotePort` | the port: `new`, `call`, `end`, `into_wire` |
//! | `PortEnd` | why it ended: no response, one that says no reply, a fault of the link, want of memory |
//! | `Codec`, `Asked` | how events are asked for, and which reply a response says |
//! | `heard_calls_are_served` | the law: the calls that were heard are the server's, each at its place and with its reply |
//!
//! ```text
//! let mut port: RemotePort<L, PushCodec> = RemotePort::new(Wire::new(alloc, link));
//! let answer = port.call(alloc, &Event::Commit { dump, now });
//! // Err(Memory), and port.end() is Some(Link): whether it was committed isn't known
//! ```
#![tactic(auto)]

mod codec;
mod end;
mod hearing;
mod laws;
mod port;

pub use codec::{Asked, Codec};
pub use end::PortEnd;
pub use laws::heard_calls_are_served;
pub use port::RemotePort;
