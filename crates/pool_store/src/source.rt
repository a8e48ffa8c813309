//! What a pool takes in: bytes in memory, or those of a stage's file, which are compared and copied piece by piece.

ghost use Rattle.std.specs.Prelude.{◌≡◌, ◌⊎◌, ◌↔◌, ◌+◌, ◌++◌, ◌<◌, ◌≤◌, ℕ, List, [], Option, true, false, Some, IfOk, IfErr, OnOk, IsErrOf, IsTrue, length, take, drop};
ghost use Rattle.fault_counts.specs.Counts.{Counted};
ghost use Rattle.disk_trait.specs.declared.ids.FileId.{FileId};
ghost use Rattle.disk_trait.specs.declared.ids.FileId.TheVariants.{Pool as PoolFile};
ghost use Rattle.disk_trait.specs.Names.{is_data};
ghost use Rattle.disk_trait.specs.Files.{Files, piece, changed, with_bytes};
ghost use Rattle.intent_journal.specs.Calls.{Reads};
ghost use Rattle.pool_store.specs.Rewriting.{Rewrites};
ghost use Rattle.pool_store.specs.Sources.{length_of, is_in_memory, IsStaged, IsSource, SaysLost, SaysStageLost, OfPiece};

use crate::chain::fault_of;
use crate::fault::PoolFault;
use disk_trait::{Bytes, Disk, FileId, PoolId};
use intent_journal::{Journal, JournalFault};
use std::alloc::Global;

/// The most bytes that are read at once.
const PIECE_BYTES: usize = 65_536;

/// What a pool takes in.
#[derive(Clone, Copy)]
pub(crate) enum Source<'a> {
    /// These bytes.
    Bytes(&'a [u8]),
    /// The bytes of the file of a stage.
    Stage { number: u64, size: u64 },
}

/// How many bytes it has.
pub(crate) fn size(source: &Source) -> u64
    ensures { result ≡ length_of source.now }
{
    match source {
        Source::Bytes(bytes) => bytes.len() as u64,
        Source::Stage { size, .. } => *size,
    }
}

/// How many bytes the next piece has.
fn room_at(from: u64, size: u64) -> usize
    requires { from < size }
    ensures some { 0 < result }
    ensures within { from + result ≤ size }
    ensures few { result ≤ 65536 }
{
    let left = size - from;
    if left < 65_536 {
        left as usize
    } else {
        PIECE_BYTES
    }
}

/// So many bytes of a stage's file from an offset on. A file that has them not isn't as long as the stage.
fn read_stage<D: Disk>(
    alloc: Global,
    journal: &mut Journal<D>,
    number: u64,
    size: u64,
    from: u64,
    room: usize,
) -> Result<Bytes, PoolFault>
    requires ready { journal.old.halted ≡ false }
    requires within { from + room ≤ size }
    ensures whole { IfOk result (λ found. length found ≡ room) }
    ensures found { IfOk result (λ found. (all : Files) (content : List ℕ) → D.files journal.old.disk ≡ Some all
        → IsStaged (D.files journal.old.disk) number size content → found ≡ take room (drop from content)) }
    ensures lost { IfErr result (SaysStageLost number size (D.files journal.old.disk)) }
    ensures fault { IfErr result OfPiece }
    ensures reads { Reads journal.old journal.new }
    ensures counted { Counted (D.fault_count journal.old.disk) (D.fault_count journal.new.disk) (IsErrOf result PoolFault.Disk) }
{
    let file = FileId::Stage(number);
    match journal.read_at(alloc, file, from, room) {
        Ok(None) => Err(PoolFault::Foreign { file, found: None }),
        Ok(Some(found)) => {
            if found.len() != room {
                return Err(PoolFault::Foreign {
                    file,
                    found: Some(found),
                });
            }
            Ok(found)
        }
        Err(fault) => Err(fault_of(fault)),
    }
}

/// Whether these bytes stand in the source from an offset on.
fn has_at<D: Disk>(
    alloc: Global,
    journal: &mut Journal<D>,
    source: &Source,
    from: u64,
    found: &[u8],
) -> Result<bool, PoolFault>
    requires ready { journal.old.halted ≡ false }
    requires within { from + length found.now ≤ length_of source.now }
    ensures same { IfOk result (λ same. (all : Files) (content : List ℕ) → D.files journal.old.disk ≡ Some all
        → IsSource source.now (D.files journal.old.disk) content → IsTrue same ↔ (found.now ≡ take (length found.now) (drop from content))) }
    ensures lost { IfErr result (SaysLost source.now (D.files journal.old.disk)) }
    ensures fault { IfErr result OfPiece }
    ensures reads { Reads journal.old journal.new }
    ensures counted { Counted (D.fault_count journal.old.disk) (D.fault_count journal.new.disk) (IsErrOf result PoolFault.Disk) }
{
    match source {
        Source::Bytes(bytes) => {
            let (_, rest) = bytes.split_at(from as usize);
            let (front, _) = rest.split_at(found.len());
            Ok(found == front)
        }
        Source::Stage { number, size } => {
            match read_stage(alloc, journal, *number, *size, from, found.len()) {
                Ok(front) => Ok(found == front.as_slice()),
                Err(fault) => Err(fault),
            }
        }
    }
}

/// How many bytes more than a piece are asked for, to see that a file ends behind the last.
fn more_at(end: u64, size: u64) -> usize
    ensures last { end ≡ size → result ≡ 1 }
    ensures before { end < size → result ≡ 0 }
    ensures few { result ≤ 1 }
{
    if end < size { 0 } else { 1 }
}

/// Whether a file has the source's bytes from an offset on; it is asked for some more, which it must not have.
fn agrees_at<D: Disk>(
    alloc: Global,
    journal: &mut Journal<D>,
    source: &Source,
    file: FileId,
    from: u64,
    room: usize,
    more: usize,
) -> Result<bool, PoolFault>
    requires ready { journal.old.halted ≡ false }
    requires within { from + room ≤ length_of source.now }
    requires room { room ≤ 65536 }
    requires few { more ≤ 1 }
    ensures same { IfOk result (λ same. (all : Files) (content : List ℕ) → D.files journal.old.disk ≡ Some all
        → IsSource source.now (D.files journal.old.disk) content → IsTrue same ↔ (piece (all file) from (room + more) ≡ Some (take room (drop from content)))) }
    ensures lost { IfErr result (SaysLost source.now (D.files journal.old.disk)) }
    ensures fault { IfErr result OfPiece }
    ensures reads { Reads journal.old journal.new }
    ensures counted { Counted (D.fault_count journal.old.disk) (D.fault_count journal.new.disk) (IsErrOf result PoolFault.Disk) }
{
    match journal.read_at(alloc, file, from, room + more) {
        Ok(None) => Ok(false),
        Ok(Some(found)) => {
            if found.len() != room {
                return Ok(false);
            }
            match has_at(alloc, journal, source, from, found.as_slice()) {
                Ok(same) => Ok(same),
                Err(fault) => Err(fault),
            }
        }
        Err(fault) => Err(fault_of(fault)),
    }
}

/// Whether a file holds the source's bytes, which are some, and no others. A content of one piece is read at once.
fn agrees<D: Disk>(
    alloc: Global,
    journal: &mut Journal<D>,
    source: &Source,
    file: FileId,
) -> Result<bool, PoolFault>
    requires ready { journal.old.halted ≡ false }
    requires some { 0 < length_of source.now }
    ensures same { IfOk result (λ same. (all : Files) (content : List ℕ) → D.files journal.old.disk ≡ Some all
        → IsSource source.now (D.files journal.old.disk) content → IsTrue same ↔ (all file ≡ Some content)) }
    ensures lost { IfErr result (SaysLost source.now (D.files journal.old.disk)) }
    ensures fault { IfErr result OfPiece }
    ensures reads { Reads journal.old journal.new }
    ensures counted { Counted (D.fault_count journal.old.disk) (D.fault_count journal.new.disk) (IsErrOf result PoolFault.Disk) }
{
    let size = size(source);
    let mut from: u64 = 0;
    while from < size {
        let room = room_at(from, size);
        let more = more_at(from + room as u64, size);
        match agrees_at(alloc, journal, source, file, from, room, more) {
            Ok(true) => {}
            Ok(false) => return Ok(false),
            Err(fault) => return Err(fault),
        }
        from += room as u64;
    }
    Ok(true)
}

/// Whether a file holds the source's bytes, and no others. Of both at most a piece is in memory.
pub(crate) fn is_same<D: Disk>(
    alloc: Global,
    journal: &mut Journal<D>,
    source: &Source,
    file: FileId,
) -> Result<bool, PoolFault>
    requires { journal.old.halted ≡ false }
    ensures same { IfOk result (λ same. (all : Files) (content : List ℕ) → D.files journal.old.disk ≡ Some all
        → IsSource source.now (D.files journal.old.disk) content → IsTrue same ↔ (all file ≡ Some content)) }
    ensures lost { IfErr result (SaysLost source.now (D.files journal.old.disk)) }
    ensures fault { IfErr result OfPiece }
    ensures reads { Reads journal.old journal.new }
    ensures counted { Counted (D.fault_count journal.old.disk) (D.fault_count journal.new.disk) (IsErrOf result PoolFault.Disk) }
{
    if size(source) == 0 {
        return match agrees_at(alloc, journal, source, file, 0, 0, 1) {
            Ok(same) => Ok(same),
            Err(fault) => Err(fault),
        };
    }
    match agrees(alloc, journal, source, file) {
        Ok(same) => Ok(same),
        Err(fault) => Err(fault),
    }
}

/// Puts the next piece into a content or a stage: the first one makes the file, whatever was there.
fn put_piece<D: Disk>(
    journal: &mut Journal<D>,
    file: FileId,
    from: u64,
    bytes: &[u8],
) -> Result<(), PoolFault>
    requires ready { journal.old.halted ≡ false }
    requires data { is_data file ≡ true }
    ensures told { OnOk result ((all : Files) (before : List ℕ) → D.files journal.old.disk ≡ Some all → length before ≡ from
        → (0 < from → all file ≡ Some before) → D.files journal.new.disk ≡ Some (with_bytes all file (Some (before ++ bytes.now)))) }
    ensures rewrites { Rewrites journal.old file journal.new }
    ensures fault { IfErr result (λ fault. fault ≡ PoolFault.Disk) }
    ensures counted { Counted (D.fault_count journal.old.disk) (D.fault_count journal.new.disk) (IsErrOf result PoolFault.Disk) }
{
    if from == 0 {
        return match journal.stage(file, bytes) {
            Ok(()) => Ok(()),
            Err(JournalFault::Disk) => Err(PoolFault::Disk),
            Err(JournalFault::Halted | JournalFault::Memory) => unreachable!(),
        };
    }
    match journal.append(file, bytes) {
        Ok(()) => Ok(()),
        Err(JournalFault::Disk) => Err(PoolFault::Disk),
        Err(JournalFault::Halted | JournalFault::Memory) => unreachable!(),
    }
}

/// Copies the file of a stage, piece by piece, to that of a name.
fn copy_stage<D: Disk>(
    alloc: Global,
    journal: &mut Journal<D>,
    number: u64,
    size: u64,
    id: PoolId,
) -> Result<(), PoolFault>
    requires ready { journal.old.halted ≡ false }
    requires some { 0 < size }
    ensures told { OnOk result ((all : Files) (content : List ℕ) → D.files journal.old.disk ≡ Some all
        → IsStaged (D.files journal.old.disk) number size content → D.files journal.new.disk ≡ Some (with_bytes all (PoolFile id) (Some content))) }
    ensures rewrites { Rewrites journal.old (PoolFile id) journal.new }
    ensures lost { IfErr result (SaysStageLost number size (D.files journal.old.disk)) }
    ensures fault { IfErr result OfPiece }
    ensures counted { Counted (D.fault_count journal.old.disk) (D.fault_count journal.new.disk) (IsErrOf result PoolFault.Disk) }
{
    let mut from: u64 = 0;
    while from < size {
        let room = room_at(from, size);
        let bytes = match read_stage(alloc, journal, number, size, from, room) {
            Ok(bytes) => bytes,
            Err(fault) => return Err(fault),
        };
        match put_piece(journal, FileId::Pool(id), from, bytes.as_slice()) {
            Ok(()) => {}
            Err(fault) => return Err(fault),
        }
        from += room as u64;
    }
    Ok(())
}

/// Makes the source's bytes the file of a name. Bytes in memory take no more of it.
pub(crate) fn write_to<D: Disk>(
    alloc: Global,
    journal: &mut Journal<D>,
    source: &Source,
    id: PoolId,
) -> Result<(), PoolFault>
    requires ready { journal.old.halted ≡ false }
    requires some { 0 < length_of source.now }
    ensures told { OnOk result ((content : List ℕ) → IsSource source.now (D.files journal.old.disk) content
        → D.files journal.new.disk ≡ changed (D.files journal.old.disk) (PoolFile id) (Some content)) }
    ensures rewrites { Rewrites journal.old (PoolFile id) journal.new }
    ensures lost { IfErr result (SaysLost source.now (D.files journal.old.disk)) }
    ensures fault { IfErr result OfPiece }
    ensures memory { IsErrOf result PoolFault.Memory → is_in_memory source.now ≡ false }
    ensures counted { Counted (D.fault_count journal.old.disk) (D.fault_count journal.new.disk) (IsErrOf result PoolFault.Disk) }
{
    match source {
        Source::Bytes(bytes) => match put_piece(journal, FileId::Pool(id), 0, bytes) {
            Ok(()) => Ok(()),
            Err(fault) => Err(fault),
        },
        Source::Stage { number, size } => match copy_stage(alloc, journal, *number, *size, id) {
            Ok(()) => Ok(()),
            Err(fault) => Err(fault),
        },
    }
}
