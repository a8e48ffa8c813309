//! Tests of tables, counts and views. They use only what the crates show, and stand apart from them, so that each crate is
//! proved once.
#![tactic(auto)]

#[cfg(test)]
mod attr_records_tests;
#[cfg(test)]
mod attr_tables_tests;
#[cfg(test)]
mod backup_views_tests;
#[cfg(test)]
mod host_counts_tests;
#[cfg(test)]
mod merge_view_tests;
#[cfg(test)]
mod nightly_clean_tests;
#[cfg(test)]
mod office_catalog_tests;
#[cfg(test)]
mod office_files_tests;
#[cfg(test)]
mod ordered_lists_tests;
#[cfg(test)]
mod pool_index_tests;
#[cfg(test)]
mod ref_counts_tests;
#[cfg(test)]
mod stored_trees_tests;
