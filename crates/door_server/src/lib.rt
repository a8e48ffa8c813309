//! A server at a door: it serves the links that come there over HTTP, one after the other, over any port, clock and gate; and servers
//! at several doors beside each other, each over a port of its own. It knows connections by `serve_connection`, and no request.
//!
//! | Item | What it is |
//! |---|---|
//! | [`serve_door`] | serves one door until it is closed or fails, `ServesDoor` of specs/Serving |
//! | [`serve_callers`] | serves several doors, each in a thread of its own where one can be made, `ServesCaller` of specs/Served |
//!
//! ```text
//! let end = serve_door(alloc, &mut port, &mut door, &mut clock, &mut OpenGate, &interface);
//! let mut callers = vec![in alloc; Caller { port, worker: Worker { door, clock, gate } }]?;
//! serve_callers(rt, alloc, callers.as_mut_slice(), &interface);
//! ```
#![tactic(auto)]

mod beside;
mod end;
mod serving;
mod worker;

pub use beside::serve_callers;
pub use end::DoorEnd;
pub use serving::serve_door;
pub use worker::{Caller, Worker};
