ghost use Rattle.std.specs.Prelude.{◌≡◌, ℕ, ◌<◌, ◌≤◌, List, Option, length, take, IfOk, OnOk, OnErr, IsErr};
ghost use Rattle.fault_counts.specs.Counts.{Counted};
ghost use Rattle.stream_traits.specs.Told.{before, behind, IsEnd};

use std::error::Error;
use std::fmt;

/// A call on a stream failed.
#[derive(Clone, Copy, Debug, PartialEq, Eq)]
pub struct Failed;

impl fmt::Display for Failed {
    fn fmt<W: fmt::Write>(&self, f: &mut fmt::Formatter<W>) -> fmt::Result {
        write!(f, "the call failed")
    }
}

impl Error for Failed {}

/// What both ends of a stream share: what is told of their bytes, and the count of their faults. A
/// link behind a reference tells what the link tells.
pub trait Faults {
    // The bytes that are left to be read, where they are told.
    ghost left: { Self → Option (List ℕ) };

    // The bytes that were written, where they are told.
    ghost written: { Self → Option (List ℕ) };

    // Those of them that were sent, where they are told: what a flush has handed on.
    ghost sent: { Self → Option (List ℕ) };

    // The count of the calls that failed.
    ghost faults: { Self → ℕ };

    /// How many calls failed. The count never falls, and stands still at the largest number.
    fn faults(&self) -> u64
        ensures { result ≡ faults self.now };
}

/// An end from which bytes are read.
pub trait Source: Faults {
    /// Reads bytes into the first part of `room` and says how many. No byte in a room that isn't empty
    /// is the end of the stream. It may wait for the peer, so whatever was written has to be sent first.
    fn read(&mut self, room: &mut [u8]) -> Result<usize, Failed>
        requires sent { Self.sent self.old ≡ Self.written self.old }
        ensures fits { IfOk result (λ n. n ≤ length room.new) }
        ensures told { IfOk result (λ n. Self.left self.old ≡ before (take n room.new) (Self.left self.new)) }
        ensures end { IfOk result (λ n. n ≡ 0 → 0 < length room.new → IsEnd (Self.left self.old)) }
        ensures err { OnErr result (Self.left self.new ≡ Self.left self.old) }
        ensures written { Self.written self.new ≡ Self.written self.old }
        ensures sent { Self.sent self.new ≡ Self.sent self.old }
        ensures counted { Counted (Self.faults self.old) (Self.faults self.new) (IsErr result) };
}

/// An end to which bytes are written.
pub trait Sink: Faults {
    /// Writes a prefix of `bytes` and says how many bytes that is: at least one if there are any. They may
    /// be held back until they are sent.
    fn write(&mut self, bytes: &[u8]) -> Result<usize, Failed>
        ensures fits { IfOk result (λ n. n ≤ length bytes.now) }
        ensures wrote { IfOk result (λ n. Self.written self.new ≡ behind (Self.written self.old) (take n bytes.now)) }
        ensures some { IfOk result (λ n. 0 < length bytes.now → 0 < n) }
        ensures err { OnErr result (Self.written self.new ≡ Self.written self.old) }
        ensures sent { Self.sent self.new ≡ Self.sent self.old }
        ensures left { Self.left self.new ≡ Self.left self.old }
        ensures counted { Counted (Self.faults self.old) (Self.faults self.new) (IsErr result) };

    /// Sends all that was written. After a failure nothing more counts as sent.
    fn flush(&mut self) -> Result<(), Failed>
        ensures sent { OnOk result (Self.sent self.new ≡ Self.written self.old) }
        ensures err { OnErr result (Self.sent self.new ≡ Self.sent self.old) }
        ensures written { Self.written self.new ≡ Self.written self.old }
        ensures left { Self.left self.new ≡ Self.left self.old }
        ensures counted { Counted (Self.faults self.old) (Self.faults self.new) (IsErr result) };
}

/// A stream with both ends. A function that takes one into a thread asks for `Link + Send`.
pub trait Link: Source + Sink {}
