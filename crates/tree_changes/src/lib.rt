//! What leads from an older tree of a host to a newer one, as edits of stored rows: first the removals, then the puts, each
//! in the order of the paths. It knows rows and trees, and neither hosts nor restores. The main clauses: both lists are
//! exactly those of `change_laws`; so the older rows, after these edits, are the newer ones, no edit breaks a rule at its
//! turn, and the trees that the rows are show the same edits.
//!
//! `removals(alloc, newer.rows(), older.rows())?` has the topmost paths that were lost, with what stood there, and
//! `changes(alloc, newer.rows(), older.rows())?` the nodes to put.
#![tactic(auto)]

mod edits;
mod laws;
mod rules;

pub use edits::{changes, removals};
pub use laws::{resolved_law, rows_law};
