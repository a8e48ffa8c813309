//! The requests that ask for events, as a client writes them: method and target, of the events of a pull. The crate knows events and
//! the routes of request_events, and no link. Its main clauses are that `request_of` gives exactly the request of the definition, and
//! that a server reads the event that was asked for, whatever else the head says.
//!
//! | Item | What it is |
//! |---|---|
//! | `request_of` | the request that asks for an event, if it is one of a pull |
//! | `EventRequest` | its method and target; it has no body |
//! | `requests_read_back`, `requests_are_plain` | the laws: a server reads the event; the texts may stand in a head |
//!
//! ```text
//! let event = Event::OpenRead { host, number: 7, base: Some(6) };
//! let request = request_of(alloc, &event)?;
//! // POST /hosts/pc1/backups/7/restores?base=6
//! ```
#![tactic(auto)]

mod laws;
mod requests;
mod targets;

pub use laws::{requests_are_plain, requests_read_back};
pub use requests::{EventRequest, request_of};
