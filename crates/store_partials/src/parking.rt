//! An open dump is parked, as an event of a store at work.

ghost use Rattle.std.specs.Prelude.{◌≡◌, false};
ghost use Rattle.office_model.specs.declared.event.Event.TheVariants.{Park};
ghost use Rattle.store_parts.specs.Runs.{Runs};
ghost use Rattle.store_partials.specs.Heeding.{HeedsPartial, IsKnownFor};

use crate::finish::accept_park;
use crate::planning::plan_park;
use disk_trait::Disk;
use office_model::{Answer, Refusal, SessionName};
use pool_name::Namer;
use std::alloc::Global;
use store_parts::StoreParts;

/// Makes what an open dump has so far its host's partial, in the place of an earlier one; the dump stays open. After Ok this is durable.
/// If there is no such dump or no memory, or a read fails, nothing was done; after a `DiskFault` of the write the store is halted. The
/// file of an earlier partial has to be there: after Ok it was; if it isn't, `Damaged` names it, with what was found of it, and nothing
/// was done.
pub fn park<D: Disk, N: Namer>(
    parts: &mut StoreParts<D, N>,
    alloc: Global,
    session: SessionName,
) -> Result<Answer, Refusal>
    requires ready { parts.old.journal.halted ≡ false }
    ensures runs { Runs parts.old (Park session) result parts.new }
    ensures heeds { HeedsPartial parts.old (IsKnownFor parts.old session) result parts.new }
{
    let at = parts.dump(session)?;
    let plan = match plan_park(parts, alloc, at) {
        Ok(plan) => plan,
        Err(refusal) => return Err(refusal),
    };
    match parts.write(alloc, &plan.changes) {
        Ok(()) => {}
        Err(refusal) => return Err(refusal),
    }
    accept_park(parts, plan);
    Ok(Answer::Done)
}
