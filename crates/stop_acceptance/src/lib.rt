//! What stops and faults leave of a store, beside what the office in memory answers, shown by examples of the whole program, and nothing
//! else: the table of stops and the table of faults over one script of requests, and the stops in a night and in a migration. Each test is a talk over
//! `pipe`: requests, line by line, and the answers to them.
#![tactic(auto)]

#[cfg(test)]
mod each_fault;
#[cfg(test)]
mod each_stop;
#[cfg(test)]
mod migration_stops;
#[cfg(test)]
mod night_stops;
#[cfg(test)]
mod plain;
#[cfg(test)]
mod script;
