//! What HTTP/1.1 gives over the plain office in memory and over the store by the command `pipe`, shown by examples, and nothing
//! else: whole exchanges in exact bytes, bodies in chunks and in pieces, refusals of routes, queries and paths in their order, requests that repeat others by their tokens, texts in JSON, the limits of a head, a
//! length and the hosts, and inputs that end early, at every byte.
#![tactic(auto)]

#[cfg(test)]
mod bodies;
#[cfg(test)]
mod cuts;
#[cfg(test)]
mod exchanges;
#[cfg(test)]
mod limits;
#[cfg(test)]
mod ports;
#[cfg(test)]
mod refusals;
#[cfg(test)]
mod repeats;
#[cfg(test)]
mod texts;
