//! Doors, at which links come: one over a list of links in memory, and the trait that it shares with real ones. And a gate that
//! waits for another thread.
//!
//! ```text
//! match door.next() {
//!     Came::Link(link) => door.done(serve(link)),
//!     Came::Closed | Came::Failed => return,
//! }
//! ```
#![tactic(auto)]

mod came;
mod door;
mod flag_gate;
mod list_door;

pub use came::Came;
pub use door::Door;
pub use flag_gate::FlagGate;
pub use list_door::ListDoor;
