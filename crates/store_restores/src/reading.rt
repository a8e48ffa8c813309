//! A restore gives its next frame.

ghost use Rattle.std.specs.Prelude.{◌≡◌, ◌<◌, ◌-◌, ◌^◌, ℕ, false, Some, length, slice_get};
ghost use Rattle.journal_view.specs.View.{told};
ghost use Rattle.office_model.specs.declared.event.Event.TheVariants.{ReadNext};
ghost use Rattle.receipts.specs.declared.session.SessionName.{SessionName as SessionNameValue};
ghost use Rattle.open_sessions.specs.declared.sessions.Next.TheVariants.{Piece as NextPiece};
ghost use Rattle.open_sessions.specs.declared.sessions.OpenRestore.{OpenRestore};
ghost use Rattle.open_sessions.specs.Places.{next_in};
ghost use Rattle.store_parts.specs.Runs.{Runs};
ghost use Rattle.store_restores.specs.Finding.{place_of, HasRestore};
ghost use Rattle.store_restores.specs.Giving.{IsDamagedOr, GivesNext};

use crate::digests::{place_behind, room_of, wrong_at};
use crate::giving::{give_entry, give_removal};
use disk_trait::{Bytes, Disk, FileId, PoolId};
use office_model::{Answer, Frame, Refusal, SessionName};
use open_sessions::{Asked, Next, Place};
use pool_name::Namer;
use std::alloc::Global;
use store_parts::StoreParts;
use store_reads::read_piece;

/// The refusal of a content that has another digest than its own, with that digest; or of want of memory.
fn wrong_content(alloc: Global, content: PoolId, digest: &[u8]) -> Refusal
    ensures { IsDamagedOr content digest.now result }
{
    match Bytes::from_slice(alloc, digest) {
        Ok(found) => Refusal::Damaged {
            file: FileId::Pool(content),
            found: Some(found),
        },
        Err(_) => Refusal::Memory,
    }
}

/// Gives the piece that comes next in the restore at an index, which moves on behind it. If the digest of a whole content
/// is another than its own, that is `Damaged` in the place of the last piece, and the restore stays there.
fn give_piece<D: Disk, N: Namer>(
    parts: &mut StoreParts<D, N>,
    alloc: Global,
    at: usize,
    asked: &Asked,
) -> Result<Answer, Refusal>
    requires journal_ready { parts.old.journal.halted ≡ false }
    requires there { at < length parts.old.sessions.restores.items }
    requires row { asked.now.row < 2 ^ 64 - 1 }
    requires is { (restore : OpenRestore N.State) → slice_get parts.old.sessions.restores.items at ≡ Some restore
        → NextPiece asked.now ≡ next_in restore.removed restore.rows restore.place }
    ensures runs { (session : SessionNameValue) → Some at ≡ place_of parts.old.sessions.restores.items session
        → Runs parts.old (ReadNext session) result parts.new }
    ensures gives { (restore : OpenRestore N.State) → slice_get parts.old.sessions.restores.items at ≡ Some restore
        → GivesNext (NextPiece asked.now) parts.old at restore result parts.new }
    ensures quiet { told parts.new.journal ≡ told parts.old.journal }
{
    let piece = match read_piece(parts, alloc, asked.content, asked.from, room_of(asked)) {
        Ok(piece) => piece,
        Err(refusal) => return Err(refusal),
    };
    let place = parts.sessions.set_place(at, Place::Entry(0));
    let next = place_behind(&parts.pool.namer(), place, asked, piece.as_slice());
    let wrong = wrong_at(&next);
    let _ = parts.sessions.set_place(at, next);
    match wrong {
        None => Ok(Answer::Next(Frame::Piece(piece))),
        Some(digest) => Err(wrong_content(alloc, asked.content, &digest)),
    }
}

/// Gives the next frame of a restore, and behind the end the end again. A refusal leaves the restore where it is, so the
/// same frame comes again: no restore has this name, or a fault of the disk, or want of memory. A content that isn't the
/// one of its name is `Damaged`, at the latest in the place of its last piece, and then each time again.
pub fn read_next<D: Disk, N: Namer>(
    parts: &mut StoreParts<D, N>,
    alloc: Global,
    restore: SessionName,
) -> Result<Answer, Refusal>
    requires ready { parts.old.halted ≡ false }
    requires journal_ready { parts.old.journal.halted ≡ false }
    ensures runs { Runs parts.old (ReadNext restore) result parts.new }
    ensures gives { (at : ℕ) (session : OpenRestore N.State) → Some at ≡ place_of parts.old.sessions.restores.items restore
        → slice_get parts.old.sessions.restores.items at ≡ Some session
        → GivesNext (next_in session.removed session.rows session.place) parts.old at session result parts.new }
    ensures here { HasRestore parts.old restore result }
    ensures quiet { told parts.new.journal ≡ told parts.old.journal }
{
    let at = parts.restore(restore)?;
    match parts.sessions.next(at) {
        Next::Removal(row) => match give_removal(&mut parts.sessions, alloc, at, row) {
            Ok(frame) => Ok(Answer::Next(frame)),
            Err(_) => Err(Refusal::Memory),
        },
        Next::Entry(row) => match give_entry(&mut parts.sessions, alloc, at, row) {
            Ok(frame) => Ok(Answer::Next(frame)),
            Err(_) => Err(Refusal::Memory),
        },
        Next::Piece(asked) => give_piece(parts, alloc, at, &asked),
        Next::Wrong { content, digest } => Err(wrong_content(alloc, content, &digest)),
    }
}
