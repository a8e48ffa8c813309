//! The counts of all hosts in memory.

ghost use Rattle.std.specs.Prelude.{◌≡◌, ◌↔◌, ◌∷◌, ◌++◌, ◌<◌, ◌≤◌, [], false, length, slice_get, slice_set, IsTrue, IfOk};
ghost use Rattle.std.specs.Option.{option_copied};

use backup_index::MAX_HOSTS;
use ref_counts::Counts;
use std::alloc::{AllocError, Global};
use std::marker::Model;

/// The counts of each host, in the order of adding.
#[derive(Drop)]
pub struct HostCounts {
    counts: Vec<Counts>,
}

impl Model for HostCounts {
    ghost use Rattle.std.specs.Prelude.{◌≤◌, List, vec_capacity};
    ghost use Rattle.ref_counts.specs.Numbers.{Items};

    ghost Value = { List Items };

    ghost view = { λ c. c.counts.items };

    ghost invariant = { λ c. 1024 ≤ vec_capacity c.counts };
}

impl HostCounts {
    /// No hosts, with room for as many as there may be.
    pub fn new(alloc: Global) -> Result<HostCounts, AllocError>
        ensures { IfOk result (λ held. held ≡ []) }
    {
        Ok(HostCounts {
            counts: Vec::with_capacity(alloc, MAX_HOSTS)?,
        })
    }

    /// The counts of each host, in the order of adding.
    pub fn as_slice(&self) -> &[Counts]
        ensures { result.now ≡ self.now }
    {
        self.counts.as_slice()
    }

    /// The counts of a host, if there is one of this number.
    pub fn of_host(&self, host: usize) -> Option<&Counts>
        ensures { option_copied result ≡ slice_get self.now host }
    {
        self.counts.as_slice().get(host)
    }

    /// Whether there are as many hosts as there may be.
    pub fn is_full(&self) -> bool
        ensures full { IsTrue result ↔ (1024 ≤ length self.now) }
        ensures room { result ≡ false → length self.now < 1024 }
    {
        self.counts.len() >= MAX_HOSTS
    }

    /// Puts the counts of a further host behind the others; takes no memory.
    pub fn push(&mut self, counts: Counts)
        requires { length self.old < 1024 }
        ensures { self.new ≡ self.old ++ counts ∷ [] }
    {
        match self.counts.push(counts) {
            Ok(()) => {}
            Err(_) => unreachable!(),
        }
    }

    /// Gives a host other counts; takes no memory.
    pub fn set(&mut self, host: usize, counts: Counts)
        requires { host < length self.old }
        ensures { self.new ≡ slice_set self.old host counts }
    {
        self.counts[host] = counts;
    }
}
