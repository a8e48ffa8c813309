//! An open dump is dropped.

ghost use Rattle.std.specs.Prelude.{◌≡◌, false};
ghost use Rattle.journal_view.specs.View.{told};
ghost use Rattle.office_model.specs.declared.event.Event.TheVariants.{Abort};
ghost use Rattle.office_model.specs.History.{IsUndamaged};
ghost use Rattle.store_parts.specs.Runs.{Runs};

use crate::claims::release_dump;
use disk_trait::Disk;
use office_model::{Answer, Refusal, SessionName};
use pool_name::Namer;
use std::alloc::Global;
use store_parts::StoreParts;

/// Drops an open dump with its stages, and lets go what its rows and those of its base claim: a content that was staged for it
/// and that nothing else claims is to be swept. After a refusal nothing has changed.
pub fn abort<D: Disk, N: Namer>(
    parts: &mut StoreParts<D, N>,
    alloc: Global,
    session: SessionName,
) -> Result<Answer, Refusal>
    requires ready { parts.old.halted ≡ false }
    ensures runs { Runs parts.old (Abort session) result parts.new }
    ensures undamaged { IsUndamaged result }
    ensures quiet { told parts.new.journal ≡ told parts.old.journal }
{
    let at = parts.dump(session)?;
    match release_dump(&mut parts.pool, alloc, parts.sessions.dump(at)) {
        Ok(()) => {}
        Err(_) => return Err(Refusal::Memory),
    }
    let _dump = parts.sessions.take_dump(at);
    parts.sessions.stages.end_those_of(session);
    Ok(Answer::Done)
}
