//! A stage is opened.

ghost use Rattle.std.specs.Prelude.{◌≡◌, false};
ghost use Rattle.office_model.specs.declared.event.Event.TheVariants.{StageOpen};
ghost use Rattle.office_model.specs.History.{IsUndamaged};
ghost use Rattle.store_parts.specs.Runs.{Runs};

use disk_trait::Disk;
use office_model::{Answer, BrokenRule, Refusal, SessionName};
use pool_name::Namer;
use store_parts::StoreParts;

/// Opens a stage of an open dump, with no bytes. Nothing is written. After a refusal nothing has changed.
pub fn stage_open<D: Disk, N: Namer>(
    parts: &mut StoreParts<D, N>,
    session: SessionName,
) -> Result<Answer, Refusal>
    requires ready { parts.old.halted ≡ false }
    requires journal_ready { parts.old.journal.halted ≡ false }
    ensures runs { Runs parts.old (StageOpen session) result parts.new }
    ensures undamaged { IsUndamaged result }
{
    let _at = parts.dump(session)?;
    if parts.sessions.stages.next >= u64::MAX {
        return Err(Refusal::Broken(BrokenRule::NumbersSpent));
    }
    let namer = parts.pool.namer();
    let digest = namer.start();
    match parts.sessions.stages.open(session, digest) {
        Ok(number) => Ok(Answer::Stage(number)),
        Err(_) => Err(Refusal::Memory),
    }
}
