//! A host's partial is dropped, as an event of a store at work.

ghost use Rattle.std.specs.Prelude.{◌≡◌, false};
ghost use Rattle.office_model.specs.declared.event.Event.TheVariants.{DropPartial};
ghost use Rattle.store_parts.specs.Runs.{Runs};
ghost use Rattle.store_partials.specs.Heeding.{HeedsPartial, IsKnownNamed};

use crate::planning::plan_drop;
use attr_records::HostName;
use disk_trait::Disk;
use office_model::{Answer, BrokenRule, Refusal};
use pool_name::Namer;
use std::alloc::Global;
use store_commits::unpark;
use store_parts::StoreParts;

/// Drops a host's partial. Its contents stay in the pool until a cleaning. After Ok this is durable. If there is no such host, no partial
/// of it or no memory, or a read fails, nothing was done; after a `DiskFault` of the write the store is halted. The partial's file has
/// to be there: after Ok it was; if it isn't, `Damaged` names it, with what was found of it, and nothing was done.
pub fn drop_partial<D: Disk, N: Namer>(
    parts: &mut StoreParts<D, N>,
    alloc: Global,
    host: &HostName,
) -> Result<Answer, Refusal>
    requires ready { parts.old.journal.halted ≡ false }
    ensures runs { Runs parts.old (DropPartial host.now) result parts.new }
    ensures heeds { HeedsPartial parts.old (IsKnownNamed parts.old host.now) result parts.new }
{
    let place = parts.host(host)?;
    if parts.partials.of_host(place).is_none() {
        return Err(Refusal::Broken(BrokenRule::NoPartial));
    }
    let plan = match plan_drop(parts, alloc, place) {
        Ok(plan) => plan,
        Err(refusal) => return Err(refusal),
    };
    match parts.write(alloc, &plan.changes) {
        Ok(()) => {}
        Err(refusal) => return Err(refusal),
    }
    parts.counts.set(place, plan.counts);
    unpark(&mut parts.partials, place);
    Ok(Answer::Done)
}
