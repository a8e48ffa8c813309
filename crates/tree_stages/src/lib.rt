//! What is open for long files in an office of whole trees in memory: stages of dumps, with the put of one, and readers; and a
//! bucket cleaned, which all that is open protects. As in `tree_parts`, each function judges and changes what its event
//! touches; its clause is the event's definition over it (`office_model`, `specs/events`).
//!
//! | Module | What it has |
//! |---|---|
//! | `stages`, `staged` | open stages of dumps, and the put of one |
//! | `readers` | open readers of files |
//! | `cleaning` | a bucket of the pool cleaned |
//!
//! A call: `push_stage(alloc, &dumps, &mut stages, session, number)?` opens a stage of a dump.
#![tactic(auto)]

mod cleaning;
mod readers;
mod staged;
mod stages;

pub use cleaning::{cleaned, fated, in_dumps};
pub use readers::{Reader, drop_reader, in_readers, push_reader, read_part};
pub use staged::{drop_stage_of, put_staged};
pub use stages::{Stage, add_piece, drop_stage, drop_stages, push_stage, stage_content};
