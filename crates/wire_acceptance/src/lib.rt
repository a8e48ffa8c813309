//! Tests of heads, bodies, queries, routes and restore streams. They use only what the crates show, and stand apart from them,
//! so that each crate is proved once.
#![tactic(auto)]

#[cfg(test)]
mod http_bodies_tests;
#[cfg(test)]
mod http_heads_tests;
#[cfg(test)]
mod http_query_tests;
#[cfg(test)]
mod http_routes_tests;
#[cfg(test)]
mod http_wire_tests;
#[cfg(test)]
mod restore_stream_tests;
