//! What tokens and receipts say of requests to an office of whole trees in memory: which one repeats an earlier one, and what the dump
//! of a put or a removal keeps. It knows values alone. Each function is plain: it searches from the front, and a further token costs a
//! copy of those that are kept. The main definitions: `repeated_at` and `place_for` of specs/Turns, and `once_turned` of
//! specs/TurnLaws, by which these are what `office_model` says.
//!
//! | Module | What it has |
//! |---|---|
//! | `openings` | the open dump of a host, and the answer that an opening repeats |
//! | `commits` | the number that a commit repeats |
//! | `edits` | puts and removals: whether one repeats another, and the tokens that their dump keeps |
//!
//! A call: `repeated_commit(&hosts, &dumps, session)` is the number of its backup, or `None` for a first commit.
#![tactic(auto)]

mod commits;
mod edits;
mod openings;

pub use commits::repeated_commit;
pub use edits::{keep_at, kept_with, place_for};
pub use openings::{open_dump_of, repeated_opening};
