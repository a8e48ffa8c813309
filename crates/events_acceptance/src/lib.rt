//! Tests of single events of a store. They use only what the crates show, and stand apart from them, so that each crate is
//! proved once.
#![tactic(auto)]

#[cfg(test)]
mod parts;
#[cfg(test)]
mod store_cleaning_tests;
#[cfg(test)]
mod store_dumps_tests;
#[cfg(test)]
mod store_hosts_tests;
#[cfg(test)]
mod store_migrations_tests;
#[cfg(test)]
mod store_opening_tests;
#[cfg(test)]
mod store_reads_tests;
#[cfg(test)]
mod store_restores_tests;
