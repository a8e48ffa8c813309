//! The files of stages that aren't open.

ghost use Rattle.std.specs.Prelude.{◌≡◌, ◌⊎◌, ◌↔◌, ◌∷◌, [], false, Some, option_map, IfErr, OnOk, IsErrOf};
ghost use Rattle.fault_counts.specs.Counts.{Counted};
ghost use Rattle.disk_trait.specs.Files.{Files};
ghost use Rattle.journal_view.specs.View.{told};
ghost use Rattle.store_cleaning.specs.StageFiles.{is_left, without, OnlyOpen, Drops};

use disk_trait::{Disk, FileId};
use intent_journal::{Journal, JournalFault};
use office_model::Refusal;
use open_sessions::Sessions;
use pool_name::Namer;
use std::alloc::Global;
use store_parts::StoreParts;

/// Whether it is the file of a stage that isn't open.
fn is_left<S: Drop>(sessions: &Sessions<S>, file: FileId) -> bool
    ensures { result ≡ is_left sessions.now.stages.items.items file }
{
    match file {
        FileId::Stage(number) => sessions.stages.at(number).is_none(),
        _ => false,
    }
}

/// Takes a file away, if it is that of a stage that isn't open.
fn drop_if_left<D: Disk, S: Drop>(
    journal: &mut Journal<D>,
    sessions: &Sessions<S>,
    file: FileId,
) -> Result<(), JournalFault>
    requires { journal.old.halted ≡ false }
    ensures drops { (all : Files) → told journal.old ≡ Some all
        → Drops journal.old (is_left sessions.now.stages.items.items) all journal.new }
    ensures done { OnOk result (told journal.new
        ≡ option_map (without (is_left sessions.now.stages.items.items) (file ∷ [])) (told journal.old)) }
    ensures kind { IfErr result (λ fault. fault ≡ JournalFault.Disk) }
    ensures halted { journal.new.halted ≡ journal.old.halted }
    ensures counted { Counted (D.fault_count journal.old.disk) (D.fault_count journal.new.disk) (IsErrOf result JournalFault.Disk) }
{
    if !is_left(sessions, file) {
        return Ok(());
    }
    match journal_view::drop_data(journal, file) {
        Ok(()) => Ok(()),
        Err(JournalFault::Disk) => Err(JournalFault::Disk),
        Err(_) => unreachable!(),
    }
}

/// Takes away those of the files that are of stages that aren't open.
fn drop_left<D: Disk, S: Drop>(
    journal: &mut Journal<D>,
    sessions: &Sessions<S>,
    files: &[FileId],
) -> Result<(), JournalFault>
    requires { journal.old.halted ≡ false }
    ensures drops { (all : Files) → told journal.old ≡ Some all
        → Drops journal.old (is_left sessions.now.stages.items.items) all journal.new }
    ensures done { OnOk result (told journal.new
        ≡ option_map (without (is_left sessions.now.stages.items.items) files.now) (told journal.old)) }
    ensures kind { IfErr result (λ fault. fault ≡ JournalFault.Disk) }
    ensures halted { journal.new.halted ≡ journal.old.halted }
    ensures counted { Counted (D.fault_count journal.old.disk) (D.fault_count journal.new.disk) (IsErrOf result JournalFault.Disk) }
{
    for file in files {
        match drop_if_left(journal, sessions, *file) {
            Ok(()) => {}
            Err(fault) => return Err(fault),
        }
    }
    Ok(())
}

/// What a fault of a journal that isn't halted is to a caller of the store.
fn refusal_of(fault: JournalFault) -> Refusal
    requires { fault ≡ JournalFault.Halted → ⊥ }
    ensures kind { (result ≡ Refusal.DiskFault) ⊎ (result ≡ Refusal.Memory) }
    ensures disk { (result ≡ Refusal.DiskFault) ↔ (fault ≡ JournalFault.Disk) }
{
    match fault {
        JournalFault::Disk => Refusal::DiskFault,
        JournalFault::Memory => Refusal::Memory,
        JournalFault::Halted => unreachable!(),
    }
}

/// Removes the files of stages that aren't open, one by one. For want of memory nothing is done; after `DiskFault` some may be left.
pub(crate) fn sweep_stages<D: Disk, N: Namer>(
    parts: &mut StoreParts<D, N>,
    alloc: Global,
) -> Result<(), Refusal>
    requires { parts.old.journal.halted ≡ false }
    ensures others { parts.new ≡ record parts.old { journal = parts.new.journal } }
    ensures drops { (all : Files) → told parts.old.journal ≡ Some all
        → Drops parts.old.journal (is_left parts.old.sessions.stages.items.items) all parts.new.journal }
    ensures done { OnOk result ((all : Files) → told parts.old.journal ≡ Some all
        → OnlyOpen parts.old.sessions.stages.items.items all (told parts.new.journal)) }
    ensures halted { parts.new.journal.halted ≡ parts.old.journal.halted }
    ensures kind { IfErr result (λ refusal. (refusal ≡ Refusal.DiskFault) ⊎ (refusal ≡ Refusal.Memory)) }
    ensures counted { Counted (D.fault_count parts.old.journal.disk) (D.fault_count parts.new.journal.disk)
        (IsErrOf result Refusal.DiskFault) }
{
    let files = match journal_view::list(&mut parts.journal, alloc) {
        Ok(files) => files,
        Err(fault) => return Err(refusal_of(fault)),
    };
    match drop_left(&mut parts.journal, &parts.sessions, files.as_slice()) {
        Ok(()) => Ok(()),
        Err(fault) => Err(refusal_of(fault)),
    }
}
