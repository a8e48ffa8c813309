//! What the whole server does, shown by examples: tests that cross crates, and nothing else.
//!
//! Most run the commands `pipe`, `night`, `demo` and `pull` from their words to their status, over a disk and a link in memory, and
//! compare what comes out with what was written down by hand: the responses, the store's files, the
//! status and what is said on standard error. So they show what no clause of the crates below says:
//! that calls succeed where there is memory, how things are printed, and that the definitions mean
//! the bytes that users see. Others take runs and stores into threads.
#![tactic(auto)]

#[cfg(test)]
mod crashes;
#[cfg(test)]
mod demos;
#[cfg(test)]
mod ends;
#[cfg(test)]
mod faults;
#[cfg(test)]
mod files;
#[cfg(test)]
mod nights;
#[cfg(test)]
mod pulls;
#[cfg(test)]
mod refusals;
#[cfg(test)]
mod settings;
#[cfg(test)]
mod threads;
#[cfg(test)]
mod twin_nights;
#[cfg(test)]
mod values;
