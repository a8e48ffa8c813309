//! How a demo ends, and what it tells.

use office_model::Refusal;

/// What a demo tells.
#[derive(Clone, Copy, Debug, PartialEq, Eq)]
pub struct Summary {
    /// The number that it was drawn from.
    pub number: u64,
    /// How many backups are left, of all hosts.
    pub backups: u64,
    /// How many of them are stored whole.
    pub filled: u64,
    /// How many files the pool has.
    pub files: u64,
    /// How many bytes these have.
    pub bytes: u64,
    /// How many of them are marked.
    pub marked: u64,
    /// The MD5 of the restore streams of the backups that are left, one after the other.
    pub check: [u8; 16],
}

/// How a demo ended.
#[derive(Debug, Drop)]
pub enum DemoEnd {
    /// All was called.
    Done(Summary),
    /// There was a host, and nothing else was called.
    Occupied,
    /// The last call was refused. If a dump or a restore was open, it still is.
    Refused(Refusal),
    /// There was no memory for what follows, or a value was out of its range; a dump or a restore that was open
    /// still is.
    Memory,
}
