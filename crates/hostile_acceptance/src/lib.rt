//! A store over hostile bytes, shown by examples of the whole program, and nothing else: each sealed file cut by a byte, and with a
//! bit turned in each of its first and last bytes; a journal's file that was cut; a chain of the pool that files fill which the index
//! doesn't list. Each test is a run of `pipe`: the disk that it begins with, its answers or its status, and the disk that it leaves.
#![tactic(auto)]

#[cfg(test)]
mod chains;
#[cfg(test)]
mod disks;
#[cfg(test)]
mod intents;
#[cfg(test)]
mod sealed;
