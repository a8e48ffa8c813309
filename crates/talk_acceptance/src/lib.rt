//! Tests of connections and doors, over ports in memory. They use only what the crates show, and stand apart from them, so that each
//! crate is proved once.
#![tactic(auto)]

#[cfg(test)]
mod browse_http_tests;
#[cfg(test)]
mod interfaces;
#[cfg(test)]
mod repeats_tests;
#[cfg(test)]
mod request_calls_tests;
#[cfg(test)]
mod serve_callers_tests;
#[cfg(test)]
mod serve_door_tests;
