ghost use Rattle.std.specs.Prelude.{◌≡◌, ◌<◌, ◌≤◌, [], ◌∷◌, length, IfOk, IfErr, OnOk, OnErr, IsErr, IsErrOf, None};
ghost use Rattle.std.specs.Option.{ForSome};
ghost use Rattle.fault_counts.specs.Counts.{Counted};
ghost use Rattle.stream_traits.specs.Told.{before, IsEnd, IsShort, TookFront, AddsPiece};

use crate::link::{Failed, Faults, Source};
use std::alloc::{AllocError, Global};
use std::error::Error;
use std::fmt;

/// Why a number of bytes was not read.
#[derive(Clone, Copy, Debug, PartialEq, Eq)]
pub enum ReadFault {
    /// The stream ended first.
    Ended,
    /// A read failed.
    Failed,
    /// There was no memory for what came.
    Memory,
}

impl fmt::Display for ReadFault {
    fn fmt<W: fmt::Write>(&self, f: &mut fmt::Formatter<W>) -> fmt::Result {
        match self {
            ReadFault::Ended => write!(f, "the stream ended too early"),
            ReadFault::Failed => write!(f, "a read failed"),
            ReadFault::Memory => write!(f, "out of memory"),
        }
    }
}

impl Error for ReadFault {}

impl From<Failed> for ReadFault {
    ghost use Rattle.stream_traits.specs.declared.reading.ReadFault.TheVariants.{Failed};

    ghost from_gives = { λ _ fault. fault ≡ Failed };

    fn from(_failed: Failed) -> ReadFault {
        ReadFault::Failed
    }
}

impl From<AllocError> for ReadFault {
    ghost use Rattle.stream_traits.specs.declared.reading.ReadFault.TheVariants.{Memory};

    ghost from_gives = { λ _ fault. fault ≡ Memory };

    fn from(_error: AllocError) -> ReadFault {
        ReadFault::Memory
    }
}

/// The most bytes that are read in one call.
const PIECE: usize = 65_536;

/// Reads one byte, or none at the end of the stream.
pub fn read_byte<S: Source>(source: &mut S) -> Result<Option<u8>, Failed>
    requires sent { S.sent source.old ≡ S.written source.old }
    ensures some { IfOk result (λ byte. ForSome byte (λ b. S.left source.old ≡ before (b ∷ []) (S.left source.new))) }
    ensures end { IfOk result (λ byte. byte ≡ None → IsEnd (S.left source.old)) }
    ensures none { IfOk result (λ byte. byte ≡ None → S.left source.new ≡ S.left source.old) }
    ensures err { OnErr result (S.left source.new ≡ S.left source.old) }
    ensures written { S.written source.new ≡ S.written source.old }
    ensures sent { S.sent source.new ≡ S.sent source.old }
    ensures counted { Counted (S.faults source.old) (S.faults source.new) (IsErr result) }
{
    let mut room = [0u8; 1];
    let count = source.read(&mut room)?;
    if count == 0 {
        Ok(None)
    } else {
        Ok(Some(room[0]))
    }
}

/// Reads exactly `count` bytes, in pieces. The memory that this takes grows with the bytes that come.
pub fn read_exactly<S: Source>(
    alloc: Global,
    source: &mut S,
    count: usize,
) -> Result<Vec<u8>, ReadFault>
    requires sent { S.sent source.old ≡ S.written source.old }
    ensures count_is { IfOk result (λ got. length got.items ≡ count) }
    ensures told { IfOk result (λ got. S.left source.old ≡ before got.items (S.left source.new)) }
    ensures ended { IfErr result (λ fault. fault ≡ ReadFault.Ended → IsShort (S.left source.old) count) }
    ensures end { IfErr result (λ fault. fault ≡ ReadFault.Ended → IsEnd (S.left source.new)) }
    ensures front { OnErr result (TookFront (S.left source.old) (S.left source.new) count) }
    ensures written { S.written source.new ≡ S.written source.old }
    ensures sent { S.sent source.new ≡ S.sent source.old }
    ensures counted { Counted (S.faults source.old) (S.faults source.new) (IsErrOf result ReadFault.Failed) }
{
    let mut room = vec![in alloc; 0u8; count.min(PIECE)]?;
    let mut got = Vec::new(alloc);
    while got.len() < count {
        let wanted = room.len().min(count - got.len());
        add_piece(source, &mut room[..wanted], &mut got)?;
    }
    Ok(got)
}

/// Reads one piece, of at most as many bytes as `room` has, and puts it behind what was got.
fn add_piece<S: Source>(source: &mut S, room: &mut [u8], got: &mut Vec<u8>) -> Result<(), ReadFault>
    requires room { 0 < length room.old }
    requires sent { S.sent source.old ≡ S.written source.old }
    ensures ok { OnOk result (AddsPiece got.old.items got.new.items (S.left source.old) (S.left source.new) (length room.old)) }
    ensures ended { IfErr result (λ fault. fault ≡ ReadFault.Ended → IsEnd (S.left source.old)) }
    ensures end { IfErr result (λ fault. fault ≡ ReadFault.Ended → S.left source.new ≡ S.left source.old) }
    ensures front { OnErr result (TookFront (S.left source.old) (S.left source.new) (length room.old)) }
    ensures written { S.written source.new ≡ S.written source.old }
    ensures sent { S.sent source.new ≡ S.sent source.old }
    ensures counted { Counted (S.faults source.old) (S.faults source.new) (IsErrOf result ReadFault.Failed) }
{
    let taken = source.read(room)?;
    if taken == 0 {
        return Err(ReadFault::Ended);
    }
    got.extend_from_slice(&room[..taken])?;
    Ok(())
}
