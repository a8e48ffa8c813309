//! A piece is put into a stage.

ghost use Rattle.std.specs.Prelude.{◌≡◌, ◌+◌, ◌++◌, ◌<◌, ◌^◌, ℕ, nat_lt, List, Some, false, OnOk, IsErrOf, length};
ghost use Rattle.fault_counts.specs.Counts.{Counted};
ghost use Rattle.disk_trait.specs.Files.{Files, with_bytes};
ghost use Rattle.disk_trait.specs.declared.ids.FileId.TheVariants.{Stage as StageFile};
ghost use Rattle.journal_view.specs.View.{told, Staged};
ghost use Rattle.office_model.specs.declared.event.Event.TheVariants.{StagePiece};
ghost use Rattle.office_model.specs.Office.{content_limit};
ghost use Rattle.office_model.specs.events.StagePiece.{is_bad_piece};
ghost use Rattle.office_model.specs.History.{IsUndamaged};
ghost use Rattle.store_parts.specs.Runs.{Runs};

use attr_records::PutRule;
use disk_trait::{Disk, FileId};
use intent_journal::{Journal, JournalFault};
use office_model::{Answer, BrokenRule, CONTENT_LIMIT, PIECE_LIMIT, Refusal};
use open_sessions::extend_stage;
use pool_name::Namer;
use store_parts::StoreParts;

/// Puts the next bytes into the file of a stage that has so many: the first ones make the file, whatever was there.
fn write_piece<D: Disk>(
    journal: &mut Journal<D>,
    number: u64,
    size: u64,
    bytes: &[u8],
) -> Result<(), JournalFault>
    requires { journal.old.halted ≡ false }
    ensures ready { journal.new.halted ≡ journal.old.halted }
    ensures running { IsErrOf result JournalFault.Halted → ⊥ }
    ensures no_memory_asked { IsErrOf result JournalFault.Memory → ⊥ }
    ensures staged { (all : Files) → told journal.old ≡ Some all → Staged journal.old (StageFile number) all journal.new }
    ensures bytes { OnOk result ((all : Files) (before : List ℕ) → told journal.old ≡ Some all → length before ≡ size
        → (0 < size → all (StageFile number) ≡ Some before)
        → told journal.new ≡ Some (with_bytes all (StageFile number) (Some (before ++ bytes.now)))) }
    ensures counted { Counted (D.fault_count journal.old.disk) (D.fault_count journal.new.disk) (IsErrOf result JournalFault.Disk) }
{
    let file = FileId::Stage(number);
    if size == 0 {
        return match journal_view::stage(journal, file, bytes) {
            Ok(()) => Ok(()),
            Err(fault) => Err(fault),
        };
    }
    match journal_view::append(journal, file, bytes) {
        Ok(()) => Ok(()),
        Err(fault) => Err(fault),
    }
}

/// Whether a piece has no byte, or too many.
#[tactic(auto, unfolding(office_model::specs::Office::piece_limit))]
fn is_bad_piece(bytes: &[u8]) -> bool
    ensures { result ≡ is_bad_piece bytes.now }
{
    bytes.is_empty() || bytes.len() > PIECE_LIMIT
}

/// Whether so many bytes more are too many for a stage that has this size.
fn is_too_large(size: u64, more: usize) -> bool
    ensures is { result ≡ nat_lt content_limit (size + more) }
    ensures room { result ≡ false → size + more < 2 ^ 64 }
{
    match size.checked_add(more as u64) {
        Some(sum) => sum > CONTENT_LIMIT,
        None => true,
    }
}

/// Puts the next bytes into a stage. A fault of the disk drops the stage, and leaves its file with any bytes, or absent. After
/// any other refusal nothing has changed.
pub fn stage_piece<D: Disk, N: Namer>(
    parts: &mut StoreParts<D, N>,
    number: u64,
    bytes: &[u8],
) -> Result<Answer, Refusal>
    requires ready { parts.old.halted ≡ false }
    requires journal_ready { parts.old.journal.halted ≡ false }
    ensures runs { Runs parts.old (StagePiece number bytes.now) result parts.new }
    ensures undamaged { IsUndamaged result }
{
    let at = match parts.sessions.stages.at(number) {
        Some(at) => at,
        None => return Err(Refusal::Broken(BrokenRule::NoSession)),
    };
    let size = parts.sessions.stages.items[at].size;
    if is_bad_piece(bytes) {
        return Err(Refusal::Broken(BrokenRule::BadPiece));
    }
    if is_too_large(size, bytes.len()) {
        return Err(Refusal::Broken(BrokenRule::Put(PutRule::FileTooLarge)));
    }
    match write_piece(&mut parts.journal, number, size, bytes) {
        Ok(()) => {
            let namer = parts.pool.namer();
            extend_stage(&mut parts.sessions.stages, at, &namer, bytes);
            Ok(Answer::Done)
        }
        Err(JournalFault::Disk) => {
            let _stage = parts.sessions.stages.take(at);
            Err(Refusal::DiskFault)
        }
        Err(JournalFault::Halted | JournalFault::Memory) => unreachable!(),
    }
}
