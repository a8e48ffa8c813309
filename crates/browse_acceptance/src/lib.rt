//! Tests of requests, replies and nights. They use only what the crates show, and stand apart from them, so that each crate is
//! proved once.
#![tactic(auto)]

#[cfg(test)]
mod night_work_tests;
#[cfg(test)]
mod reply_bodies_tests;
#[cfg(test)]
mod request_events_tests;
