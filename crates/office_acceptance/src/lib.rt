//! Tests of deletions, of the store as a whole and of its turns. They use only what the crates show, and stand apart from them,
//! so that each crate is proved once.
#![tactic(auto)]

#[cfg(test)]
mod backup_delete_tests;
#[cfg(test)]
mod office_store_tests;
#[cfg(test)]
mod store_deletions_tests;
#[cfg(test)]
mod turn_port_tests;
