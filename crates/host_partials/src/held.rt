//! What is known of the partials of all hosts in memory.

ghost use Rattle.std.specs.Prelude.{◌≡◌, ◌↔◌, ◌∷◌, ◌++◌, ◌<◌, ◌≤◌, [], false, length, slice_get, slice_set, IsTrue, IfOk};
ghost use Rattle.host_partials.specs.Held.{head_at, head_of_file};

use backup_index::MAX_HOSTS;
use backup_rules::Kind;
use partial_files::PartialFile;
use std::alloc::{AllocError, Global};
use std::marker::Model;

/// What is known of a host's partial.
#[derive(Clone, Copy, Debug, PartialEq, Eq)]
pub struct PartialHead {
    /// How many paths it has.
    pub entries: u64,
    pub kind: Kind,
    /// When it was begun, in seconds since 1970.
    pub start: u64,
}

impl PartialHead {
    /// What is known of the partial that a file holds.
    pub fn of_file(file: &PartialFile) -> PartialHead
        ensures { result ≡ head_of_file file.now }
    {
        PartialHead {
            entries: file.rows.len() as u64,
            kind: file.kind,
            start: file.start,
        }
    }
}

/// What is known of the partial of each host, if it has one, in the order of adding.
#[derive(Drop)]
pub struct HostPartials {
    heads: Vec<Option<PartialHead>>,
}

impl Model for HostPartials {
    ghost use Rattle.std.specs.Prelude.{◌≤◌, List, Option, vec_capacity};
    ghost use Rattle.host_partials.specs.declared.held.PartialHead.{PartialHead};

    ghost Value = { List (Option PartialHead) };

    ghost view = { λ p. p.heads.items };

    ghost invariant = { λ p. 1024 ≤ vec_capacity p.heads };
}

impl HostPartials {
    /// No hosts, with room for as many as there may be.
    pub fn new(alloc: Global) -> Result<HostPartials, AllocError>
        ensures { IfOk result (λ held. held ≡ []) }
    {
        Ok(HostPartials {
            heads: Vec::with_capacity(alloc, MAX_HOSTS)?,
        })
    }

    /// What is known of the partial of a host, if there is one of this number, and it has one.
    pub fn of_host(&self, host: usize) -> Option<PartialHead>
        ensures { result ≡ head_at self.now host }
    {
        match self.heads.as_slice().get(host) {
            Some(head) => *head,
            None => None,
        }
    }

    /// How many hosts there are.
    pub fn len(&self) -> usize
        ensures { result ≡ length self.now }
    {
        self.heads.len()
    }

    /// Whether there are as many hosts as there may be.
    pub fn is_full(&self) -> bool
        ensures full { IsTrue result ↔ (1024 ≤ length self.now) }
        ensures room { result ≡ false → length self.now < 1024 }
    {
        self.heads.len() >= MAX_HOSTS
    }

    /// Puts a further host behind the others; takes no memory.
    pub fn push(&mut self, head: Option<PartialHead>)
        requires { length self.old < 1024 }
        ensures { self.new ≡ self.old ++ head ∷ [] }
    {
        match self.heads.push(head) {
            Ok(()) => {}
            Err(_) => unreachable!(),
        }
    }

    /// Gives a host another partial, or none; takes no memory.
    pub fn set(&mut self, host: usize, head: Option<PartialHead>)
        requires { host < length self.old }
        ensures { self.new ≡ slice_set self.old host head }
    {
        self.heads[host] = head;
    }
}
