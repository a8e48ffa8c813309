ghost use Rattle.std.specs.Prelude.{◌≡◌, ◌≤◌, [], ◌++◌, ◌||◌, Some, length, take, min, vec_len, IfOk, OnOk, OnErr, IsErr, IsTrue, is_err};
ghost use Rattle.std.specs.Vec.{vec_capacity};
ghost use Rattle.fault_counts.specs.Counts.{Counted};

use crate::link::{Failed, Faults, Link, Sink, Source};
use std::alloc::{AllocError, Global};

/// A link in memory: it has bytes to be read, holds what is written, and fails where it was told to.
#[derive(Debug)]
pub struct MemoryLink {
    input: Vec<u8>,
    taken: usize,
    output: Vec<u8>,
    sent: usize,
    room: usize,
    fails: Vec<u64>,
    calls: u64,
    failed_calls: u64,
    ghost in_input: { taken ≤ vec_len input },
    ghost in_room: { vec_len output ≤ room },
    ghost in_output: { sent ≤ vec_len output },
    ghost has_memory: { room ≤ vec_capacity output },
}

/// Written out: what is in it is then dropped here, for the prover too, and not in each crate above.
impl Drop for MemoryLink {
    fn drop(self) {
        let MemoryLink {
            input: _,
            taken: _,
            output: _,
            sent: _,
            room: _,
            fails: _,
            calls: _,
            failed_calls: _,
        } = self;
    }
}

impl MemoryLink {
    ghost use Rattle.stream_traits.specs.Memory.{fault_count, fails_next, Calls, IsFresh};

    /// A link that gives `input` to be read and holds at most `room` written bytes, for which it takes
    /// the memory here. Of its calls of `read`, `write` and `flush`, counted together from 0, those
    /// whose numbers are in `fails` fail.
    pub fn new(
        alloc: Global,
        input: Vec<u8>,
        room: usize,
        fails: Vec<u64>,
    ) -> Result<MemoryLink, AllocError>
        ensures left { IfOk result (λ link. ⟦<MemoryLink as Faults>⟧.left link ≡ Some input.items) }
        ensures written { IfOk result (λ link. ⟦<MemoryLink as Faults>⟧.written link ≡ Some []) }
        ensures sent { IfOk result (λ link. ⟦<MemoryLink as Faults>⟧.sent link ≡ Some []) }
        ensures faults { IfOk result (λ link. ⟦<MemoryLink as Faults>⟧.faults link ≡ 0) }
        ensures fresh { IfOk result (λ link. IsFresh link room fails.items) }
    {
        Ok(MemoryLink {
            input,
            taken: 0,
            output: Vec::with_capacity(alloc, room)?,
            sent: 0,
            room,
            fails,
            calls: 0,
            failed_calls: 0,
        })
    }

    /// What was written, in its order.
    pub fn output(&self) -> &[u8]
        ensures { ⟦<MemoryLink as Faults>⟧.written self.now ≡ Some result.now }
    {
        self.output.as_slice()
    }

    /// What was sent of it.
    pub fn sent(&self) -> &[u8]
        ensures { ⟦<MemoryLink as Faults>⟧.sent self.now ≡ Some result.now }
    {
        &self.output[..self.sent]
    }

    /// Counts a call, and says whether it fails: where it `is_refused`, or is among those that fail.
    fn has_failed(&mut self, is_refused: bool) -> bool
        ensures value { result ≡ (fails_next self.old || is_refused) }
        ensures calls { Calls self.old self.new result }
        ensures counted { Counted (fault_count self.old) (fault_count self.new) (IsTrue result) }
        ensures input { self.new.input ≡ self.old.input }
        ensures taken { self.new.taken ≡ self.old.taken }
        ensures output { self.new.output ≡ self.old.output }
        ensures sent { self.new.sent ≡ self.old.sent }
    {
        let failed = self.fails.contains(&self.calls) || is_refused;
        self.calls = self.calls.saturating_add(1);
        if failed {
            self.failed_calls = self.failed_calls.saturating_add(1);
        }
        failed
    }
}

impl Faults for MemoryLink {
    ghost use Rattle.stream_traits.specs.Memory.{bytes_left, bytes_written, bytes_sent, fault_count};

    ghost left = { λ link. Some (bytes_left link) };

    ghost written = { λ link. Some (bytes_written link) };

    ghost sent = { λ link. Some (bytes_sent link) };

    ghost faults = { fault_count };

    fn faults(&self) -> u64 {
        self.failed_calls
    }
}

impl Source for MemoryLink {
    ghost use Rattle.stream_traits.specs.Memory.{bytes_left, bytes_written, bytes_sent, fault_count, fails_next, Calls};

    // It reads as many bytes as there is room for, and fails exactly at the calls that it was given.
    fn read(&mut self, room: &mut [u8]) -> Result<usize, Failed>
        ensures failed { is_err result ≡ fails_next self.old }
        ensures calls { Calls self.old self.new (is_err result) }
        ensures counted { Counted (fault_count self.old) (fault_count self.new) (IsErr result) }
        ensures count { IfOk result (λ n. n ≡ min (length room.new) (length (bytes_left self.old))) }
        ensures told { IfOk result (λ n. bytes_left self.old ≡ take n room.new ++ bytes_left self.new) }
        ensures err { OnErr result (bytes_left self.new ≡ bytes_left self.old) }
        ensures written { bytes_written self.new ≡ bytes_written self.old }
        ensures sent { bytes_sent self.new ≡ bytes_sent self.old }
    {
        if self.has_failed(false) {
            return Err(Failed);
        }
        let count = copy_front(room, &self.input[self.taken..]);
        self.taken += count;
        Ok(count)
    }
}

impl Sink for MemoryLink {
    ghost use Rattle.stream_traits.specs.Memory.{bytes_left, bytes_written, bytes_sent, fault_count, spare_room, fails_next, fails_write, Calls};

    // It takes as many bytes as it has room for, and fails exactly at the calls that it was given and
    // where there is no room for any.
    fn write(&mut self, bytes: &[u8]) -> Result<usize, Failed>
        ensures failed { is_err result ≡ fails_write self.old bytes.now }
        ensures calls { Calls self.old self.new (is_err result) }
        ensures counted { Counted (fault_count self.old) (fault_count self.new) (IsErr result) }
        ensures count { IfOk result (λ n. n ≡ min (length bytes.now) (spare_room self.old)) }
        ensures wrote { IfOk result (λ n. bytes_written self.new ≡ bytes_written self.old ++ take n bytes.now) }
        ensures err { OnErr result (bytes_written self.new ≡ bytes_written self.old) }
        ensures sent { bytes_sent self.new ≡ bytes_sent self.old }
        ensures left { bytes_left self.new ≡ bytes_left self.old }
    {
        let count = bytes.len().min(self.room - self.output.len());
        let is_refused = count == 0 && !bytes.is_empty();
        if self.has_failed(is_refused) {
            return Err(Failed);
        }
        match self.output.extend_from_slice(&bytes[..count]) {
            Ok(()) => Ok(count),
            Err(_) => unreachable!(),
        }
    }

    // It fails exactly at the calls that it was given.
    fn flush(&mut self) -> Result<(), Failed>
        ensures failed { is_err result ≡ fails_next self.old }
        ensures calls { Calls self.old self.new (is_err result) }
        ensures counted { Counted (fault_count self.old) (fault_count self.new) (IsErr result) }
        ensures sent { OnOk result (bytes_sent self.new ≡ bytes_written self.old) }
        ensures err { OnErr result (bytes_sent self.new ≡ bytes_sent self.old) }
        ensures written { bytes_written self.new ≡ bytes_written self.old }
        ensures left { bytes_left self.new ≡ bytes_left self.old }
    {
        if self.has_failed(false) {
            return Err(Failed);
        }
        self.sent = self.output.len();
        Ok(())
    }
}

impl Link for MemoryLink {}

/// Copies the front of `from` into the front of `room`, as many bytes as both have, and says how many.
fn copy_front(room: &mut [u8], from: &[u8]) -> usize
    ensures count { result ≡ min (length room.new) (length from.now) }
    ensures front { take result room.new ≡ take result from.now }
{
    let count = room.len().min(from.len());
    room[..count].copy_from_slice(&from[..count]);
    count
}
