ghost use Rattle.std.specs.Prelude.{◌≡◌, [], false, ◌++◌, ◌-◌, ◌+◌, ◌<◌, ◌≤◌, length, take, drop, vec_len, IfOk, OnOk, OnErr, IsErr, IsErrOf};
ghost use Rattle.fault_counts.specs.Counts.{Counted};
ghost use Rattle.stream_traits.specs.Told.{behind, IsEnd, WroteFront};
ghost use Rattle.http_heads.specs.Fronts.{head_limit};

use http_heads::HEAD_LIMIT;
use std::alloc::{AllocError, Global};
use std::error::Error;
use std::fmt;
use stream_traits::{Failed, Faults, Link, Sink, Source, write_all};

/// Why a wire was not filled.
#[derive(Clone, Copy, Debug, PartialEq, Eq)]
pub enum WireFault {
    /// The link failed; its count of faults rose.
    LinkFault,
    Memory,
}

impl fmt::Display for WireFault {
    fn fmt<W: fmt::Write>(&self, f: &mut fmt::Formatter<W>) -> fmt::Result {
        match self {
            WireFault::LinkFault => write!(f, "the link failed"),
            WireFault::Memory => write!(f, "no memory"),
        }
    }
}

impl Error for WireFault {}

impl From<Failed> for WireFault {
    ghost use Rattle.http_wire.specs.declared.wire.WireFault.TheVariants.{LinkFault};

    ghost from_gives = { λ _ fault. fault ≡ LinkFault };

    fn from(_failed: Failed) -> WireFault {
        WireFault::LinkFault
    }
}

impl From<AllocError> for WireFault {
    ghost use Rattle.http_wire.specs.declared.wire.WireFault.TheVariants.{Memory};

    ghost from_gives = { λ _ fault. fault ≡ Memory };

    fn from(_error: AllocError) -> WireFault {
        WireFault::Memory
    }
}

/// The room for what is read ahead: three heads of the most bytes.
const ROOM: usize = 49_152;

/// The most bytes of a body that are copied behind its head, so that both are given to the link in one write.
const JOINED: usize = 65_536;

/// A link, and the bytes that were read from it and not taken yet. What is written is sent before the link is
/// read again, and not before.
#[derive(Drop)]
pub struct Wire<L: Link> {
    pub(crate) link: L,
    /// A head and its body, while they are written in one piece. Its memory is kept for the next ones.
    joined: Vec<u8>,
    room: Vec<u8>,
    from: usize,
    to: usize,
    has_unsent: bool,
    ghost in_order: { from ≤ to },
    ghost in_room: { to ≤ vec_len room },
    ghost room_is: { 0 < vec_len room → vec_len room ≡ 49152 },
    ghost all_sent: { has_unsent ≡ false → L.sent link ≡ L.written link },
}

impl<L: Link> Wire<L> {
    ghost use Rattle.http_wire.specs.Wires.{ahead_of, link_left, left_of, written_of, sent_of, faults_of, ReadsAhead, TakesAhead};

    /// A wire over a link, of which nothing is read ahead. What was written to the link before isn't known to be sent.
    /// It takes no memory.
    pub fn new(alloc: Global, link: L) -> Wire<L>
        ensures left { left_of result ≡ L.left link }
        ensures written { written_of result ≡ L.written link }
        ensures sent { sent_of result ≡ L.sent link }
        ensures faults { faults_of result ≡ L.faults link }
    {
        Wire {
            link,
            joined: Vec::new(alloc),
            room: Vec::new(alloc),
            from: 0,
            to: 0,
            has_unsent: true,
        }
    }

    /// Gives the link back. What was read ahead, at most 49,152 bytes, is dropped, and nothing is sent.
    pub fn into_link(self) -> L
        ensures left { link_left self ≡ L.left result }
        ensures written { L.written result ≡ written_of self }
        ensures sent { L.sent result ≡ sent_of self }
        ensures faults { L.faults result ≡ faults_of self }
        ensures ahead { length (ahead_of self) ≤ 49152 }
    {
        self.link
    }

    /// How many calls of the link failed. The count never falls, and stands still at the largest number.
    pub fn faults(&self) -> u64
        ensures { result ≡ faults_of self.now }
    {
        self.link.faults()
    }

    /// Writes bytes, and sends nothing.
    pub fn write(&mut self, bytes: &[u8]) -> Result<(), Failed>
        ensures all { OnOk result (written_of self.new ≡ behind (written_of self.old) bytes.now) }
        ensures front { OnErr result (WroteFront (written_of self.old) (written_of self.new) bytes.now) }
        ensures sent { sent_of self.new ≡ sent_of self.old }
        ensures ahead { ahead_of self.new ≡ ahead_of self.old }
        ensures left { link_left self.new ≡ link_left self.old }
        ensures counted { Counted (faults_of self.old) (faults_of self.new) (IsErr result) }
    {
        self.has_unsent = true;
        match write_all(&mut self.link, bytes) {
            Ok(()) => Ok(()),
            Err(Failed) => Err(Failed),
        }
    }

    /// Puts two runs of bytes together, the second behind the first, to be written in one piece; or says that there is no memory,
    /// or that the second is too long to be copied for that.
    pub(crate) fn join(&mut self, first: &[u8], second: &[u8]) -> Result<(), AllocError>
        ensures joined { OnOk result (self.new.joined.items ≡ first.now ++ second.now) }
        ensures ahead { ahead_of self.new ≡ ahead_of self.old }
        ensures link { self.new.link ≡ self.old.link }
    {
        if second.len() > JOINED {
            return Err(AllocError);
        }
        self.joined.clear();
        self.joined.extend_from_slice(first)?;
        self.joined.extend_from_slice(second)?;
        Ok(())
    }

    /// Writes what was put together, and sends nothing.
    pub(crate) fn write_joined(&mut self) -> Result<(), Failed>
        ensures all { OnOk result (written_of self.new ≡ behind (written_of self.old) self.old.joined.items) }
        ensures front { OnErr result (WroteFront (written_of self.old) (written_of self.new) self.old.joined.items) }
        ensures sent { sent_of self.new ≡ sent_of self.old }
        ensures ahead { ahead_of self.new ≡ ahead_of self.old }
        ensures left { link_left self.new ≡ link_left self.old }
        ensures counted { Counted (faults_of self.old) (faults_of self.new) (IsErr result) }
    {
        self.has_unsent = true;
        match write_all(&mut self.link, self.joined.as_slice()) {
            Ok(()) => Ok(()),
            Err(Failed) => Err(Failed),
        }
    }

    /// Sends what was written, if anything was since the last time.
    pub fn send(&mut self) -> Result<(), Failed>
        ensures sent { OnOk result (sent_of self.new ≡ written_of self.old) }
        ensures err { OnErr result (sent_of self.new ≡ sent_of self.old) }
        ensures written { written_of self.new ≡ written_of self.old }
        ensures left { left_of self.new ≡ left_of self.old }
        ensures ahead { ahead_of self.new ≡ ahead_of self.old }
        ensures link_left { link_left self.new ≡ link_left self.old }
        ensures counted { Counted (faults_of self.old) (faults_of self.new) (IsErr result) }
    {
        if !self.has_unsent {
            return Ok(());
        }
        match self.link.flush() {
            Ok(()) => {
                self.has_unsent = false;
                Ok(())
            }
            Err(Failed) => Err(Failed),
        }
    }

    /// The bytes that were read and not taken.
    pub fn ahead(&self) -> &[u8]
        ensures { result.now ≡ ahead_of self.now }
    {
        &self.room[self.from..self.to]
    }

    /// Takes the first bytes of those that were read ahead.
    pub fn take(&mut self, count: usize)
        requires { count ≤ length (ahead_of self.old) }
        ensures ahead { ahead_of self.new ≡ drop count (ahead_of self.old) }
        ensures link { self.new.link ≡ self.old.link }
    {
        self.from += count;
    }

    /// Takes at most so many of the bytes that were read ahead, puts them behind those that are there, and says how many.
    pub(crate) fn take_into(
        &mut self,
        bytes: &mut Vec<u8>,
        most: usize,
    ) -> Result<usize, AllocError>
        ensures took { IfOk result (λ count. TakesAhead bytes.old.items bytes.new.items (ahead_of self.old) (ahead_of self.new) count) }
        ensures fits { IfOk result (λ count. count ≤ most) }
        ensures none { IfOk result (λ count. count < most → ahead_of self.new ≡ []) }
        ensures err { OnErr result (ahead_of self.new ≡ ahead_of self.old) }
        ensures link { self.new.link ≡ self.old.link }
    {
        let count = most.min(self.to - self.from);
        bytes.extend_from_slice(&self.ahead()[..count])?;
        self.take(count);
        Ok(count)
    }

    /// Sends what was written, reads a piece behind what was read ahead, and says how many bytes came: none at the end
    /// of the link.
    pub fn fill(&mut self, alloc: Global) -> Result<usize, WireFault>
        requires { length (ahead_of self.old) < head_limit }
        ensures came { IfOk result (ReadsAhead (ahead_of self.old) (ahead_of self.new) (link_left self.old) (link_left self.new)) }
        ensures end { IfOk result (λ count. count ≡ 0 → IsEnd (link_left self.old)) }
        ensures err { OnErr result ((ahead_of self.new ≡ ahead_of self.old) × (link_left self.new ≡ link_left self.old)) }
        ensures written { written_of self.new ≡ written_of self.old }
        ensures counted { Counted (faults_of self.old) (faults_of self.new) (IsErrOf result WireFault.LinkFault) }
    {
        self.send()?;
        self.make_room(alloc)?;
        Ok(self.read_piece()?)
    }

    /// Reads bytes into the room behind what was read ahead, and says how many.
    fn read_piece(&mut self) -> Result<usize, Failed>
        requires room { self.old.to < vec_len self.old.room }
        requires sent { sent_of self.old ≡ written_of self.old }
        ensures came { IfOk result (ReadsAhead (ahead_of self.old) (ahead_of self.new) (link_left self.old) (link_left self.new)) }
        ensures end { IfOk result (λ count. count ≡ 0 → IsEnd (link_left self.old)) }
        ensures err { OnErr result ((ahead_of self.new ≡ ahead_of self.old) × (link_left self.new ≡ link_left self.old)) }
        ensures written { written_of self.new ≡ written_of self.old }
        ensures counted { Counted (faults_of self.old) (faults_of self.new) (IsErr result) }
    {
        match self.link.read(&mut self.room[self.to..]) {
            Ok(count) => {
                self.to += count;
                Ok(count)
            }
            Err(Failed) => Err(Failed),
        }
    }

    /// Makes room for at least a head of the most bytes behind what was read ahead.
    fn make_room(&mut self, alloc: Global) -> Result<(), AllocError>
        requires { length (ahead_of self.old) < head_limit }
        ensures room { OnOk result (self.new.to + head_limit ≤ vec_len self.new.room) }
        ensures ahead { ahead_of self.new ≡ ahead_of self.old }
        ensures link { self.new.link ≡ self.old.link }
    {
        if self.room.is_empty() {
            self.room = zeros(alloc, ROOM)?;
            return Ok(());
        }
        if self.from == self.to || self.room.len() - self.to < HEAD_LIMIT {
            move_to_front(self.room.as_mut_slice(), self.from, self.to);
            self.to -= self.from;
            self.from = 0;
        }
        Ok(())
    }
}

/// So many zeros.
fn zeros(alloc: Global, count: usize) -> Result<Vec<u8>, AllocError>
    ensures { IfOk result (λ made. vec_len made ≡ count) }
{
    let made = vec![in alloc; 0u8; count]?;
    Ok(made)
}

/// Moves the bytes between two places to the front, where there is room for them before they begin.
fn move_to_front(room: &mut [u8], from: usize, to: usize)
    requires order { from ≤ to }
    requires within { to ≤ length room.old }
    requires apart { to - from ≤ from }
    ensures front { take (to - from) room.new ≡ take (to - from) (drop from room.old) }
    ensures len { length room.new ≡ length room.old }
{
    let count = to - from;
    let (front, back) = room.split_at_mut(from);
    front[..count].copy_from_slice(&back[..count]);
}
