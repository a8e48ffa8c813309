//! What leads from an older tree to a newer one, as edits: first removals, then puts, each in the order of the paths. It
//! knows trees and the rules of their edits, and neither tables nor offices. The main clauses: the older tree, after
//! these edits, is the newer one, and no edit breaks a rule at its turn.
//!
//! specs/Changes has the definitions, over any type of nodes; specs/SameItems says when two nodes of a tree are one.
//! `tree_changes` computes both lists over stored rows.
#![tactic(auto)]

mod laws;

pub use laws::{same_item_law, since_law};
