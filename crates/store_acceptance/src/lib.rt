//! What a store keeps, shown by examples of the whole program, and nothing else: contents of one digest, trees over several backups
//! with the exact bytes of their tables, restores with a base, the last number of a host, stops and faults around a commit's decision, requests that are tried
//! again with their tokens, nights, what goes by the clock, dumps at the edge of what is usual, and files that were altered. Each test is a talk over `pipe`: requests, line by line,
//! and the answers to them.
#![tactic(auto)]

#[cfg(test)]
mod bases;
#[cfg(test)]
mod damaged;
#[cfg(test)]
mod edges;
#[cfg(test)]
mod hours;
#[cfg(test)]
mod last_number;
#[cfg(test)]
mod nights;
#[cfg(test)]
mod retries;
#[cfg(test)]
mod stops;
#[cfg(test)]
mod trees;
#[cfg(test)]
mod twins;
