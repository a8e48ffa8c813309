//! Judges bytes as a certificate of what a store holds, without memory: whether each count is the number of its id in the lists of its host,
//! each id that is named has a count and a file, and each digest that was found is the one that its file is named by.
//!
//! [`check_certificate`] is the judge. What is wrong with a certificate is said by `faults` of specs/, which knows nothing of the judge.
#![tactic(auto)]

mod counting;
mod finding;
mod judging;
mod laws;
mod noting;
mod tally;
mod verdict;

pub use judging::check_certificate;
pub use laws::{what_is_sound, what_sound_says};
pub use verdict::Verdict;
