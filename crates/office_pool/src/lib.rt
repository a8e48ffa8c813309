//! A pool and the office whose files it lists: what the pool may rely on if files stand for an office by its live names,
//! and what a commit that adds names makes of the index. It knows slots, names and offices, and has laws alone, as
//! functions of no body: `fits_stands` of `specs/FitLaws` for an opening, `listed_with_added` of `specs/AddedLaws` for a
//! commit.
#![tactic(auto)]

mod laws;

pub use laws::{added_names_are_listed, given_names_are_told, pool_fits_an_opened_office};
