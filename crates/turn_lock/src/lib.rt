//! A ticket lock round one object: its callers ask it one at a time, in the order of their tickets.
//!
//! Each caller has a `Pass`. What a call answers is what the object answers at the end of one legal history of all
//! calls; that history begins with all that the pass had seen, and has of the pass's own calls just those that it
//! made, each once, in order (`call`, clause `call`). The crate knows an object by the trait `Object` alone, and of
//! threads only that passes may go to them. Between calls a pass has neither a ticket nor the turn, by its type, so
//! a caller that rests keeps nobody out. Nothing is said of time or fairness.
//!
//! | Type | What it is |
//! |---|---|
//! | `Object` | what is locked: an act, and what it stands for: the calls that it has come through since its opening |
//! | `Turn` | the lock |
//! | `Pass` | a caller's token, which is split for a further caller and meets another at the end |
//! | `View` | what a pass knows: the history seen, and the calls of its callers. It is data of clauses alone, as `Caller` and `Entry` are |
//!
//! `TicketLock`, `RestingSeat`, `Resting`, `BetweenCalls`, `Held` and `TicketRule` are what `Turn` and `Pass` are made of.
//!
//! ```
//! let (turn, mut first) = Turn::new(alloc, object)?;
//! let mut second = turn.pass(&mut first);
//! let answer = turn.call(rt, &mut first, &ask);
//! turn.meet(&mut first, second);
//! let object = turn.close(rt, first, Vec::new(alloc));
//! ```
#![tactic(auto)]

mod asking;
mod lock;
mod object;
mod patience;
mod steps;

pub use asking::{ask_all, ask_both};
pub use lock::{BetweenCalls, Pass, Resting, RestingSeat, TicketLock, Turn};
pub use object::{Caller, Entry, Object, View};
pub use steps::{Held, TicketRule};

#[cfg(test)]
mod tests;
