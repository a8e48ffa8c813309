//! What the calls of a pull make of the home office: definitions and laws alone. It knows frames that were laid, events and the office's
//! model; no port, no wire, no bytes. The main laws: a dump into which the frames were laid that lead from its base to a tree, and which
//! was adopted, is the host's newest backup, with that tree and with the number, the times and the kind that it has on the other server,
//! and all backups before it stay ([`a_laid_dump_is_adopted`]); no other call of a pull changes what the disk keeps
//! ([`parts_change_nothing`]).
//!
//! | In specs/ | What it says |
//! |---|---|
//! | `Adopted` | backups as they are shown, what a host gains, and the laws |
//! | `SplitLaws` | a legal history in two parts |
//! | `PartLaws`, `FillLaws`, `GainLaws`, `AdoptedLaws` | why they hold |
//!
//! ```text
//! adopted_dumps::a_laid_dump_is_adopted();
//! ```
#![tactic(auto)]

mod laws;

pub use laws::{a_laid_dump_is_adopted, parts_change_nothing};
