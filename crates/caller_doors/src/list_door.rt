ghost use Rattle.std.specs.Prelude.{◌≡◌, ◌+◌, ◌≤◌, [], Some, IfOk, vec_len};
ghost use Rattle.std.specs.Vec.{vec_capacity};
ghost use Rattle.std.specs.VecDeque.{deque_len};

use crate::came::Came;
use crate::door::Door;
use std::alloc::{AllocError, Global};
use std::collections::VecDeque;
use stream_traits::MemoryLink;

/// A door over a list of links in memory. It gives them in their order, keeps those that are given back, and fails where it was
/// told to.
#[derive(Debug, Drop)]
pub struct ListDoor {
    links: VecDeque<MemoryLink>,
    served: Vec<MemoryLink>,
    fails: Vec<u64>,
    calls: u64,
    failed_calls: u64,
    ghost has_memory: { deque_len links + vec_len served ≤ vec_capacity served },
}

impl ListDoor {
    ghost use Rattle.caller_doors.specs.Lists.{IsFresh, links_served};

    /// A door that gives these links, for whose return it takes the memory here. Of its calls of `next`, counted from 0, those
    /// whose numbers are in `fails` fail.
    pub fn new(
        alloc: Global,
        links: VecDeque<MemoryLink>,
        fails: Vec<u64>,
    ) -> Result<ListDoor, AllocError>
        ensures coming { IfOk result (λ door. ⟦<ListDoor as Door>⟧.coming door ≡ Some links.items) }
        ensures given_back { IfOk result (λ door. ⟦<ListDoor as Door>⟧.given_back door ≡ Some []) }
        ensures most { IfOk result (λ door. ⟦<ListDoor as Door>⟧.most door ≡ deque_len links) }
        ensures faults { IfOk result (λ door. ⟦<ListDoor as Door>⟧.faults door ≡ 0) }
        ensures fresh { IfOk result (λ door. IsFresh door fails.items) }
    {
        let served = Vec::with_capacity(alloc, links.len())?;
        Ok(ListDoor {
            links,
            served,
            fails,
            calls: 0,
            failed_calls: 0,
        })
    }

    /// The links that were given back, in their order.
    pub fn served(&self) -> &[MemoryLink]
        ensures { ⟦<ListDoor as Door>⟧.given_back self.now ≡ Some result.now }
    {
        self.served.as_slice()
    }
}

impl Door for ListDoor {
    ghost use Rattle.std.specs.Prelude.{◌<◌, ◌∷◌, ◌++◌};
    ghost use Rattle.fault_counts.specs.Counts.{Counted};
    ghost use Rattle.caller_doors.specs.Answers.{IfLink, OnNoLink, OnClosed, IsFailed, is_failed};
    ghost use Rattle.caller_doors.specs.Lists.{links_left, links_served, count_left, has_room, fault_count, fails_next, Calls, IsQuiet};

    type Link = MemoryLink;

    ghost coming = { λ door. Some (links_left door) };

    ghost given_back = { λ door. Some (links_served door) };

    ghost takes_back = { has_room };

    ghost most = { count_left };

    ghost faults = { fault_count };

    // It fails exactly at the calls that it was given, and takes no link there.
    fn next(&mut self) -> Came<MemoryLink>
        ensures failed { is_failed result ≡ fails_next self.old }
        ensures calls { Calls self.old self.new (is_failed result) }
        ensures link { IfLink result (λ link. links_left self.old ≡ link ∷ links_left self.new) }
        ensures none { OnNoLink result (links_left self.new ≡ links_left self.old) }
        ensures closed { OnClosed result (links_left self.old ≡ []) }
        ensures given_back { links_served self.new ≡ links_served self.old }
        ensures takes_back { IfLink result (λ link. has_room self.new) }
        ensures fewer { IfLink result (λ link. count_left self.new < count_left self.old) }
        ensures no_more { count_left self.new ≤ count_left self.old }
        ensures counted { Counted (fault_count self.old) (fault_count self.new) (IsFailed result) }
    {
        let fails = self.fails.contains(&self.calls);
        self.calls = self.calls.saturating_add(1);
        if fails {
            self.failed_calls = self.failed_calls.saturating_add(1);
            return Came::Failed;
        }
        match self.links.pop_front() {
            Some(link) => Came::Link(link),
            None => Came::Closed,
        }
    }

    // It keeps the link.
    fn done(&mut self, link: MemoryLink)
        requires { has_room self.old }
        ensures given_back { links_served self.new ≡ links_served self.old ++ link ∷ [] }
        ensures coming { links_left self.new ≡ links_left self.old }
        ensures no_more { count_left self.new ≤ count_left self.old }
        ensures quiet { IsQuiet self.old self.new }
        ensures faults { fault_count self.new ≡ fault_count self.old }
    {
        match self.served.push(link) {
            Ok(()) => {}
            Err(_) => unreachable!(),
        }
    }

    fn faults(&self) -> u64 {
        self.failed_calls
    }
}
