//! Events of a store at work that clean its pool. Each is a function of the parts of a store, which promises `Runs` of
//! store_parts: the event was answered by a step of the model, and a crash meanwhile leaves what is durable of the office
//! before or of the one after.
//!
//! | Function | The event |
//! |---|---|
//! | [`clean`] | the contents of a bucket that nothing holds are marked, and those that were marked leave the pool |
//! | [`sweep`] | the files of the pool that nothing lists are removed, and those of stages that aren't open |
//!
//! A content that nothing holds leaves the pool at the second cleaning that finds it so, and its file at the sweep behind it.
//! What nothing holds is judged by the counts of all hosts and by the claims of open sessions, in memory: no table is read.
#![tactic(auto)]

mod cleaning;
mod stage_files;
mod sweeping;

pub use cleaning::clean;
pub use sweeping::sweep;
