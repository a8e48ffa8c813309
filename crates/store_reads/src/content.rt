//! The bytes of a content of the pool, whole or piece by piece.

ghost use Rattle.std.specs.Prelude.{◌≡◌, Some, false, IfOk, IfErr, Err, length};
ghost use Rattle.fault_counts.specs.Counts.{Counted};
ghost use Rattle.disk_trait.specs.declared.ids.FileId.TheVariants.{Pool as PoolFile};
ghost use Rattle.disk_trait.specs.Files.{Files, piece as piece_in};
ghost use Rattle.journal_view.specs.View.{told};
ghost use Rattle.store_reads.specs.Shown.{IsContentFault, Looks};
ghost use Rattle.store_reads.specs.Pieces.{refusal_of_journal, IsPieceFault};
ghost use Rattle.store_reads.specs.Told.{IsContentOf};

use disk_trait::{Bytes, Disk, FileId, PoolId};
use intent_journal::JournalFault;
use office_model::Refusal;
use pool_name::Namer;
use std::alloc::Global;
use store_parts::{StoreParts, refusal_of_pool};

/// The bytes of a content, none if there is no id: then nothing is read. If its file is absent, or has bytes of another digest
/// than its name says, that is `Damaged`, with what was found.
pub fn read_content<D: Disk, N: Namer>(
    parts: &mut StoreParts<D, N>,
    alloc: Global,
    content: Option<PoolId>,
) -> Result<Bytes, Refusal>
    requires ready { parts.old.journal.halted ≡ false }
    ensures looks { Looks parts.old parts.new }
    ensures content { IsContentOf N.digest_of (told parts.old.journal) content result }
    ensures fault { IfErr result (IsContentFault parts.old content) }
    ensures counted { Counted (D.fault_count parts.old.journal.disk) (D.fault_count parts.new.journal.disk)
        (result ≡ Err Refusal.DiskFault) }
{
    let id = match content {
        Some(id) => id,
        None => return Ok(Bytes::new(alloc)),
    };
    match parts.pool.read(alloc, &mut parts.journal, id) {
        Ok(bytes) => Ok(bytes),
        Err(fault) => Err(refusal_of_pool(fault)),
    }
}

/// What a fault of the journal is to a caller of the store.
fn refusal_of_journal(fault: JournalFault) -> Refusal
    ensures { result ≡ refusal_of_journal fault }
{
    match fault {
        JournalFault::Disk => Refusal::DiskFault,
        JournalFault::Memory => Refusal::Memory,
        JournalFault::Halted => Refusal::Halted,
    }
}

/// `room` bytes of a content from an offset on. If its file is absent or ends before, that is `Damaged`, with what was found.
pub fn read_piece<D: Disk, N: Namer>(
    parts: &mut StoreParts<D, N>,
    alloc: Global,
    content: PoolId,
    offset: u64,
    room: usize,
) -> Result<Bytes, Refusal>
    requires ready { parts.old.journal.halted ≡ false }
    ensures looks { Looks parts.old parts.new }
    ensures piece { IfOk result (λ found. (all : Files) → told parts.old.journal ≡ Some all
        → piece_in (all (PoolFile content)) offset room ≡ Some found) }
    ensures whole { IfOk result (λ found. length found ≡ room) }
    ensures fault { IfErr result (IsPieceFault parts.old content offset room) }
    ensures counted { Counted (D.fault_count parts.old.journal.disk) (D.fault_count parts.new.journal.disk)
        (result ≡ Err Refusal.DiskFault) }
{
    let file = FileId::Pool(content);
    let found = match journal_view::read_at(&mut parts.journal, alloc, file, offset, room) {
        Ok(found) => found,
        Err(fault) => return Err(refusal_of_journal(fault)),
    };
    match found {
        Some(piece) if piece.len() == room => Ok(piece),
        found => Err(Refusal::Damaged { file, found }),
    }
}
