//! One exchange with an HTTP peer over a link: a request is written and sent, its response is read, and its body is given if the status
//! is the wanted one. What is asked, and what a body means, isn't known here.
//!
//! | Item | What it is |
//! |---|---|
//! | `exchange` | the body of the response to a request, or why there is none |
//! | `PeerFault` | a peer that refused, a foreign one, a fault of the link, want of memory |
//!
//! That exchanges go one after the other is said by `AreExchanged` (specs/Several), whose laws are in specs/SeveralLaws: a caller's loop
//! cites them.
//!
//! ```text
//! let mut wire = Wire::new(alloc, link);
//! let body = exchange(alloc, &mut wire, &request, 200, 1_048_576)?;
//! ```
#![tactic(auto)]

mod asking;
mod fault;

pub use asking::exchange;
pub use fault::PeerFault;
