//! Workers at doors of their own, who serve one store beside each other.
//!
//! ```text
//! let workers = vec![in alloc; Worker { door, clock, gate }]?;
//! match serve_workers(rt, alloc, store, workers, &interface) {
//!     Ok(served) => served.store,
//!     Err(failed) => failed.value.store,
//! }
//! ```
#![tactic(auto)]

mod seating;
mod serving;

pub use door_server::Worker;
pub use serving::{StoreAndWorkers, serve_workers};
pub use turn_port::{DirectPort, OpenRefusal, Store};
