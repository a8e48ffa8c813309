//! A stage is dropped.

ghost use Rattle.std.specs.Prelude.{◌≡◌, false};
ghost use Rattle.office_model.specs.declared.event.Event.TheVariants.{StageDrop};
ghost use Rattle.office_model.specs.History.{IsUndamaged};
ghost use Rattle.store_parts.specs.Runs.{Runs};

use disk_trait::Disk;
use office_model::{Answer, BrokenRule, Refusal};
use pool_name::Namer;
use store_parts::StoreParts;

/// Drops a stage. Its file stays until a sweep. After a refusal nothing has changed.
pub fn stage_drop<D: Disk, N: Namer>(
    parts: &mut StoreParts<D, N>,
    number: u64,
) -> Result<Answer, Refusal>
    requires ready { parts.old.halted ≡ false }
    requires journal_ready { parts.old.journal.halted ≡ false }
    ensures runs { Runs parts.old (StageDrop number) result parts.new }
    ensures undamaged { IsUndamaged result }
{
    let at = match parts.sessions.stages.at(number) {
        Some(at) => at,
        None => return Err(Refusal::Broken(BrokenRule::NoSession)),
    };
    let _stage = parts.sessions.stages.take(at);
    Ok(Answer::Done)
}
