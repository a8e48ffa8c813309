//! Tests of the ground: bytes, names, disks, streams and doors. They use only what the crates show, and stand apart from them,
//! so that each crate is proved once.
#![tactic(auto)]

#[cfg(test)]
mod caller_doors_tests;
#[cfg(test)]
mod certificate_judge_tests;
#[cfg(test)]
mod disk_trait_tests;
#[cfg(test)]
mod file_names_tests;
#[cfg(test)]
mod journal_view_tests;
#[cfg(test)]
mod pool_name_tests;
#[cfg(test)]
mod short_text_tests;
#[cfg(test)]
mod stream_traits_tests;
#[cfg(test)]
mod told;
#[cfg(test)]
mod wire_bytes_tests;
