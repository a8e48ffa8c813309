//! Tests of large contents in the store: stages, puts of stages, readers; with stops and faults at each call. And of partial dumps, of
//! dumps that are adopted, and of the pool, which is listed and given piece by piece. They use only what the crates show, and stand apart
//! from them, so that each crate is proved once.
#![tactic(auto)]

#[cfg(test)]
mod adopted;
#[cfg(test)]
mod altered;
#[cfg(test)]
mod checked;
#[cfg(test)]
mod contents;
#[cfg(test)]
mod faults;
#[cfg(test)]
mod partials_tests;
#[cfg(test)]
mod ports;
#[cfg(test)]
mod stops;
