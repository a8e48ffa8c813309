//! Views of reverse deltas: what an older backup stores relative to a newer one, and the tree that the
//! tables from a filled backup downwards show. It knows paths, records and tables alone. The main clauses:
//! a newer tree, viewed through the reverse entries of an older one, is the older one, and the tables that
//! a list of trees is stored as show the last of them.
//!
//! `Merge::new(alloc, &tables)?` gives the tree that tables show row by row, in one pass which copies nothing; `whole` is
//! the table of its rows. `lookup` halves each table instead, which is fewer comparisons than a pass; a listing halves the rows of a tree.
#![tactic(auto)]

mod listing;
mod merges;
mod merging;
mod rules;
mod sources;
mod views;

pub use listing::{children, within};
pub use merges::Merge;
pub use views::{lookup, reverse, stacked, trimmed, view, whole};
