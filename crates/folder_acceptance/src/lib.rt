//! Tests of folders that are dumped and restored, over the office in memory. They use only what the crates show, and stand apart from
//! them, so that each crate is proved once.
#![tactic(auto)]

#[cfg(test)]
mod folder_restore_tests;
#[cfg(test)]
mod folder_trait_tests;
#[cfg(test)]
mod folder_walk_tests;
#[cfg(test)]
mod folders;
#[cfg(test)]
mod hosts;
#[cfg(test)]
mod large_file_tests;
#[cfg(test)]
mod piece_tests;
#[cfg(test)]
mod real_folder_tests;
#[cfg(test)]
mod strange;
#[cfg(test)]
mod told;
