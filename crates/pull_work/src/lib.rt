//! A pull: a server brings a host's backups from another one. It calls events at home, over any `Port`, and asks the other server by the
//! calls of peer_asks, over a wire. It knows events and their answers, frames, and what those calls give; no store, no folder, no
//! thread. The main clause is that of [`pull`], `Goes` of specs/Runs: what was called at home, with each reply, and what was asked
//! there, with what came of it, are steps of the script of specs/Script, in which each is due by those before it. A `Progress` is told how
//! many entries were read, with how many bytes of files.
//!
//! | Item | What it is |
//! |---|---|
//! | [`Plan`] | the host, the rules with which it is added, and the moment of its dumps |
//! | [`pull`] | brings what is new there, and says how it ended |
//! | [`PullEnd`] | how it ended; its `text` is what is said of it |
//!
//! ```text
//! let mut wire = Wire::new(alloc, link);
//! let end = pull(alloc, &mut port, &mut wire, &plan, &mut NoProgress);
//! if let Some(text) = end.text(&plan.host) {
//!     write_all(&mut out, text.as_slice())?;
//! }
//! ```
#![tactic(auto)]

mod asking;
mod backup;
mod calls;
mod comparing;
mod ends;
mod frames;
mod plan;
mod work;

pub use ends::PullEnd;
pub use plan::Plan;
pub use work::pull;
