//! A reader gives its next part.

ghost use Rattle.std.specs.Prelude.{◌≡◌, ◌<◌, ◌+◌, ◌^◌, ℕ, false, Some, length, slice_get};
ghost use Rattle.office_model.specs.declared.event.Event.TheVariants.{ReadPart};
ghost use Rattle.open_sessions.specs.declared.readers.OpenReader.{OpenReader};
ghost use Rattle.store_parts.specs.FoundLaws.{reader_place};
ghost use Rattle.store_parts.specs.Runs.{Runs};
ghost use Rattle.store_readers.specs.declared.next_part.NextPart.TheVariants.{Piece as NextPiece};
ghost use Rattle.store_readers.specs.Finding.{HasReader};
ghost use Rattle.store_readers.specs.Giving.{next_of, IsDamagedOr, GivesNext, GivesPart};

use crate::finding::find_reader;
use crate::next_part::{Asked, NextPart, next_at, wrong_at};
use disk_trait::{Bytes, Disk, FileId, PoolId};
use office_model::{Answer, Refusal};
use open_sessions::pass_part;
use pool_name::Namer;
use std::alloc::Global;
use store_parts::StoreParts;
use store_reads::read_piece;

/// The refusal of a content that has another digest than its own, with that digest; or of want of memory.
fn wrong_content(alloc: Global, content: PoolId, digest: &[u8]) -> Refusal
    ensures { IsDamagedOr content digest.now result }
{
    match Bytes::from_slice(alloc, digest) {
        Ok(found) => Refusal::Damaged {
            file: FileId::Pool(content),
            found: Some(found),
        },
        Err(_) => Refusal::Memory,
    }
}

/// Gives the part that comes next of the reader at an index, which moves on behind it. If the digest of the whole content is
/// another than its own, that is `Damaged` in the place of the last part, and the reader stays there.
fn give_piece<D: Disk, N: Namer>(
    parts: &mut StoreParts<D, N>,
    alloc: Global,
    at: usize,
    asked: &Asked,
) -> Result<Answer, Refusal>
    requires journal_ready { parts.old.journal.halted ≡ false }
    requires there { at < length parts.old.sessions.readers.items.items }
    requires fits { asked.now.from + asked.now.room < 2 ^ 64 }
    requires is { (reader : OpenReader N.State) → slice_get parts.old.sessions.readers.items.items at ≡ Some reader
        → NextPiece asked.now ≡ next_of reader }
    ensures runs { (number : ℕ) → Some at ≡ reader_place parts.old number
        → Runs parts.old (ReadPart number) result parts.new }
    ensures gives { (reader : OpenReader N.State) → slice_get parts.old.sessions.readers.items.items at ≡ Some reader
        → GivesNext (NextPiece asked.now) parts.old at reader result parts.new }
{
    let part = match read_piece(parts, alloc, asked.content, asked.from, asked.room) {
        Ok(part) => part,
        Err(refusal) => return Err(refusal),
    };
    let namer = parts.pool.namer();
    pass_part(&mut parts.sessions.readers, at, &namer, part.as_slice());
    match wrong_at(&parts.sessions, at) {
        None => Ok(Answer::Part(part)),
        Some(digest) => Err(wrong_content(alloc, asked.content, &digest)),
    }
}

/// Gives the next part of a reader: 65,536 bytes, or all that are left, and none at the end. A refusal leaves the reader where
/// it is, so the same part comes again: no reader has this number, or a fault of the disk, or want of memory. A content that
/// isn't the one of its name is `Damaged`, at the latest in the place of its last part, and then each time again.
pub fn read_part<D: Disk, N: Namer>(
    parts: &mut StoreParts<D, N>,
    alloc: Global,
    number: u64,
) -> Result<Answer, Refusal>
    requires ready { parts.old.halted ≡ false }
    requires journal_ready { parts.old.journal.halted ≡ false }
    ensures runs { Runs parts.old (ReadPart number) result parts.new }
    ensures gives { (at : ℕ) (reader : OpenReader N.State) → Some at ≡ reader_place parts.old number
        → slice_get parts.old.sessions.readers.items.items at ≡ Some reader → GivesPart parts.old at reader result parts.new }
    ensures here { HasReader parts.old number result }
{
    let at = find_reader(parts, number)?;
    match next_at(&parts.sessions, at) {
        NextPart::End => Ok(Answer::Part(Bytes::new(alloc))),
        NextPart::Piece(asked) => give_piece(parts, alloc, at, &asked),
        NextPart::Wrong { content, digest } => Err(wrong_content(alloc, content, &digest)),
    }
}
