//! Tests of what is open: dumps, restores, the files of partial dumps, and the office in memory; and of tokens, receipts and the
//! indices that have them. They use only what the crates show, and stand apart from them, so that each crate is proved once.
#![tactic(auto)]

#[cfg(test)]
mod dump_session_tests;
#[cfg(test)]
mod index_receipts;
#[cfg(test)]
mod open_sessions_tests;
#[cfg(test)]
mod partial_files_tests;
#[cfg(test)]
mod receipts_tests;
#[cfg(test)]
mod tree_changes_tests;
#[cfg(test)]
mod tree_office_tests;
