//! Counts of faults: the word of every trait whose calls may fail.
//!
//! A count never falls, and rises where a call fails. The crate has these definitions alone.
#![tactic(auto)]
