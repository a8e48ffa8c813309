//! Many callers of one store: the store under a ticket lock, and each caller's port to it.
//!
//! A store is locked by [`lock_store`], which gives the first pass; further ones are split from a pass, for further callers.
//! Each caller asks through a [`TurnPort`] of its own pass. One call is one turn: between two calls a port has neither a
//! ticket nor the turn, so a caller that rests keeps nobody out. [`close_store`] ends the lock and gives the store back.
//!
//! What a caller sees is `Asks` of `specs/Asks`: its pass's own calls grew by those that it made, in their order, each with
//! its reply, and what it has seen is a legal history that begins with what it had seen. What all of them did is `ComesOfAll`
//! of `specs/Comes`: one history of all calls, by which the store that comes back came from the one that was locked, and in
//! which each caller's calls are the entries of its number. `Moves` of `office_store` holds of that history's calls, so that
//! what is proved of one caller's calls holds of many callers' calls.
//!
//! ```text
//! let (turn, mut first) = lock_store(alloc, store)?;
//! let second = turn.pass(&mut first);
//! let mut port = TurnPort::new(rt, &turn, first);
//! port.call(alloc, &Event::Hosts)?;
//! let store = close_store(rt, turn, port.into_pass(), vec![in alloc; second]?);
//! ```
#![tactic(auto)]

mod locked;
mod port;

pub use locked::{LockedStore, StorePass, StoreTurn, close_store, lock_store};
pub use office_store::{DirectPort, OpenRefusal, Store};
pub use port::TurnPort;
