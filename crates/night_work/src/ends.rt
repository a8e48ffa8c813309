//! How a night ends, and what it counts.

use office_model::{Answer, Refusal};

/// What a night did.
#[derive(Clone, Copy, Debug, PartialEq, Eq)]
pub struct Night {
    /// The number of its day on the zone's clock, of which 0 is 1970-01-01.
    pub day: i64,
    /// How many backups the keeping rules took, of all hosts.
    pub expired: u128,
    /// How many pool files gained a mark, in all buckets.
    pub marked: u128,
    /// How many lost it.
    pub unmarked: u128,
    /// How many left.
    pub removed: u128,
}

/// How a night ended.
#[derive(Debug, Drop)]
pub enum NightEnd {
    /// All was called and answered.
    Done(Night),
    /// It wasn't time, and nothing was called.
    NotNow,
    /// The last call was refused.
    Refused(Refusal),
    /// There was no memory for the names of the hosts, and nothing else was called.
    Memory,
}
