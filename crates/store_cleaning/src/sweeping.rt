//! The removal of contents that nothing lists, and of the files of stages that aren't open.

ghost use Rattle.std.specs.Prelude.{◌≡◌, false, Some, OnOk};
ghost use Rattle.disk_trait.specs.Files.{Files};
ghost use Rattle.journal_view.specs.View.{told};
ghost use Rattle.office_model.specs.declared.event.Event.TheVariants.{Sweep};
ghost use Rattle.office_model.specs.History.{IsUndamaged};
ghost use Rattle.store_parts.specs.Runs.{Runs};
ghost use Rattle.store_cleaning.specs.StageFiles.{OnlyOpen, StagesStay};

use crate::stage_files::sweep_stages;
use disk_trait::Disk;
use office_model::{Answer, Refusal};
use pool_name::Namer;
use std::alloc::Global;
use store_parts::StoreParts;

/// Removes the files of the pool that neither its index lists nor an open dump has staged, one by one.
fn sweep_pool<D: Disk, N: Namer>(parts: &mut StoreParts<D, N>) -> Result<Answer, Refusal>
    requires { parts.old.journal.halted ≡ false }
    ensures runs { Runs parts.old Sweep result parts.new }
    ensures undamaged { IsUndamaged result }
    ensures stages { (all : Files) → told parts.old.journal ≡ Some all → StagesStay all (told parts.new.journal) }
{
    match parts.pool.sweep(&mut parts.journal) {
        Ok(()) => {}
        Err(_) => return Err(Refusal::DiskFault),
    }
    Ok(Answer::Done)
}

/// Removes the files of stages that aren't open, and the files of the pool that neither its index lists nor an open dump has
/// staged, one by one. After Ok there is no other file of either kind; after `DiskFault` some may be left, and for want of memory
/// nothing was done. The office stays, and so does the store at work.
pub fn sweep<D: Disk, N: Namer>(
    parts: &mut StoreParts<D, N>,
    alloc: Global,
) -> Result<Answer, Refusal>
    requires { parts.old.journal.halted ≡ false }
    ensures runs { Runs parts.old Sweep result parts.new }
    ensures undamaged { IsUndamaged result }
    ensures stages { OnOk result ((all : Files) → told parts.old.journal ≡ Some all
        → OnlyOpen parts.old.sessions.stages.items.items all (told parts.new.journal)) }
{
    match sweep_stages(parts, alloc) {
        Ok(()) => {}
        Err(refusal) => return Err(refusal),
    }
    sweep_pool(parts)
}
