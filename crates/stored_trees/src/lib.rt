//! Stored trees: rows that name contents by ids, and the trees with bytes that they are, if the contents of the ids
//! are told and different ids hold different contents. It knows rows, trees and ids, and no file. The main clauses:
//! view, reverse, put, removal, look-up and equality go along with it, and rows name an id as often as their tree
//! has its content.
//!
//! `resolve(&record, bytes)?` is the node of a record, with the bytes of its content.
#![tactic(auto)]

mod laws;
mod nodes;
mod occurrences;

pub use laws::{equality_law, kept_law, put_law, remove_law, reverse_law, rows_law, view_law};
pub use nodes::{find, resolve};
pub use occurrences::{count_occurrences, names};
