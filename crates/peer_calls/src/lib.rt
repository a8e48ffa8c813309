//! A client's calls over HTTP, as its server makes them: where the requests ask for their events and what is read of a response is the
//! reply, each call that a client heard is a call of the server, at its place, at the server's own moment and with that reply.
#![tactic(auto)]

mod laws;

pub use laws::{calls_are_served, codecs_are_faithful};
