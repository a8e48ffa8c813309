//! Lists of entries in the order of their keys: what it is to be in order, look-up by halving, put and removal of
//! a key, and the merge of two lists key by key. It knows no key, no value and no order of its own. The main
//! clauses: a search finds what the list has under the key, or where it would be put; and a merge has at each key
//! what its rule gives of what the two lists have there.
//!
//! `find(&tallies, |tally| tally.name.cmp(&name))` is the tally of a name, and `merge::<Summed>(alloc, &left, &right)?`
//! is both lists as one, with what the rule `Summed` makes of two tallies of one name.
#![tactic(auto)]

mod entries;
mod merges;
mod searches;

pub use entries::Entry;
pub use merges::{Rule, merge};
pub use searches::{find, prefix_length, search};
