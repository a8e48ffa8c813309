//! Takes backups out of a host of a store at work: planned, written, and then made in memory.

ghost use Rattle.std.specs.Prelude.{◌≡◌, ◌<◌, false, None, length, slice_set};
ghost use Rattle.office_catalog.specs.Changed.{IsFor, after};
ghost use Rattle.office_model.specs.declared.answer.Answer.{Answer as AnswerValue};
ghost use Rattle.office_model.specs.declared.event.Event.{Event};
ghost use Rattle.store_parts.specs.Runs.{Runs};
ghost use Rattle.store_deletions.specs.Called.{SaysOfTables};
ghost use Rattle.store_deletions.specs.Shortens.{Shortening, answered};

use crate::plan::DeletionPlan;
use crate::planning::plan_deletion;
use disk_trait::Disk;
use office_model::Refusal;
use pool_name::Namer;
use std::alloc::Global;
use store_parts::StoreParts;

/// Makes in memory what was committed. Takes no memory.
fn accept<D: Disk, N: Namer>(parts: &mut StoreParts<D, N>, host: usize, plan: DeletionPlan)
    requires fits { IsFor parts.old.catalog plan.catalog }
    requires within { host < length parts.old.counts }
    ensures catalog { parts.new.catalog ≡ after plan.catalog parts.old.catalog }
    ensures counts { parts.new.counts ≡ slice_set parts.old.counts host plan.counts }
    ensures partials { parts.new.partials ≡ parts.old.partials }
    ensures views { parts.new.views.kept ≡ None }
    ensures journal { parts.new.journal ≡ parts.old.journal }
    ensures pool { parts.new.pool ≡ parts.old.pool }
    ensures sessions { parts.new.sessions ≡ parts.old.sessions }
    ensures halted { parts.new.halted ≡ parts.old.halted }
{
    let DeletionPlan {
        catalog,
        counts,
        changes: _changes,
    } = plan;
    parts.catalog.accept(catalog);
    parts.counts.set(host, counts);
    parts.views.forget();
}

/// Takes the backups of these numbers out of a host, for an event that does so: after Ok that is durable.
pub(crate) fn shorten<D: Disk, N: Namer>(
    parts: &mut StoreParts<D, N>,
    alloc: Global,
    host: usize,
    numbers: &[u32],
) -> Result<(), Refusal>
    requires ready { parts.old.journal.halted ≡ false }
    requires within { host < length parts.old.catalog.hosts }
    ensures runs { (event : Event) (answer : AnswerValue) → Shortening parts.old.catalog event answer host numbers.now
        → Runs parts.old event (answered answer result) parts.new }
    ensures tables { SaysOfTables parts.old parts.new host numbers.now result }
{
    let plan = match plan_deletion(parts, alloc, host, numbers) {
        Ok(plan) => plan,
        Err(refusal) => return Err(refusal),
    };
    match parts.write(alloc, &plan.changes) {
        Ok(()) => {}
        Err(refusal) => return Err(refusal),
    }
    accept(parts, host, plan);
    Ok(())
}
