//! The requests that ask for the events of a push, as a client writes them: a dump is opened, filled and committed, or aborted, and what
//! the host has is listed. The crate knows events and the routes of request_events, and no link. Its main clauses are that `push_request`
//! gives exactly the request of the definition, and that a server reads the event that was asked for.
//!
//! | Item | What it is |
//! |---|---|
//! | `push_request` | the request that asks for an event, if it is one of a push |
//! | `PushRequest` | its method, target and body |
//! | `pushes_read_back`, `pushes_are_plain` | the laws: a server reads the event; the texts may stand in a head |
//!
//! ```text
//! let event = Event::Remove { dump, path, token: None };
//! let request = push_request(alloc, &event)?;
//! // DELETE /dumps/1-0/entry?path=old%2Fa+file
//! ```
//!
//! A file of at most 65,536 bytes is read as one event, a longer one as the put of these bytes by a stage. Files of more than 67,108,864
//! bytes, events with a token, those of stages, and those of a path that holds U+FFFD, which no query may say, have no request.
#![tactic(auto)]

mod laws;
mod names;
mod queries;
mod requests;
mod targets;

pub use laws::{pushes_are_plain, pushes_read_back};
pub use requests::{PushRequest, push_request};
