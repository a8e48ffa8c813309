//! A park and a drop of a partial, planned whole before anything changes.

ghost use Rattle.std.specs.Prelude.{◌≡◌, ◌<◌, true, false, Some, is_some, length, IfOk, IfErr, IsErrOf, slice_get};
ghost use Rattle.fault_counts.specs.Counts.{Counted};
ghost use Rattle.host_partials.specs.Held.{head_at};
ghost use Rattle.journal_view.specs.View.{told, Quiet};
ghost use Rattle.open_sessions.specs.declared.sessions.OpenDump.{OpenDump};
ghost use Rattle.store_partials.specs.Heeding.{Heeds, IsKnown, IsKnownOf};
ghost use Rattle.store_partials.specs.Parked.{IsPlanned, IsPlanFault, IsDropPlanned, IsDropFault};

use crate::build::{build_drop, build_park};
use crate::files::partial_bytes;
use crate::gather::{gather_drop, gather_park};
use crate::plan::{DropPlan, ParkPlan};
use crate::rows::{file_number, partial_of};
use disk_trait::Disk;
use office_model::{BrokenRule, Refusal};
use pool_name::Namer;
use std::alloc::Global;
use store_parts::StoreParts;

/// Plans the park of the open dump at a place. The host's partial is read if one is known; nothing changes. A dump of a host that isn't
/// there is refused: a store at work has none. After Ok the file of the partial that was known was there in its grammar, whatever else the
/// disk has; `Damaged` names it if it wasn't, with what was found of it.
pub fn plan_park<D: Disk, N: Namer>(
    parts: &mut StoreParts<D, N>,
    alloc: Global,
    at: usize,
) -> Result<ParkPlan, Refusal>
    requires ready { parts.old.journal.halted ≡ false }
    requires within { at < length parts.old.sessions.dumps.items }
    ensures planned { IfOk result (λ plan. (session : OpenDump) → slice_get parts.old.sessions.dumps.items at ≡ Some session
        → IsPlanned parts.old session plan) }
    ensures refused { IfErr result (λ refusal. (session : OpenDump) → slice_get parts.old.sessions.dumps.items at ≡ Some session
        → IsPlanFault parts.old session refusal) }
    ensures partial { (session : OpenDump) → slice_get parts.old.sessions.dumps.items at ≡ Some session
        → Heeds (told parts.old.journal) (IsKnownOf parts.old session) result }
    ensures quiet { Quiet parts.old.journal parts.new.journal }
    ensures others { parts.new ≡ record parts.old { journal = parts.new.journal } }
    ensures counted { Counted (D.fault_count parts.old.journal.disk) (D.fault_count parts.new.journal.disk) (IsErrOf result Refusal.DiskFault) }
{
    let dump = &parts.sessions.dumps[at];
    let host = dump.host;
    let Some(file) = file_number(parts, host) else {
        return Err(Refusal::Broken(BrokenRule::NoHost));
    };
    let partial = match partial_of(alloc, dump) {
        Ok(partial) => partial,
        Err(_) => return Err(Refusal::Memory),
    };
    let head = parts.partials.of_host(host);
    let counts = match gather_park(
        alloc,
        &mut parts.journal,
        &parts.counts,
        head,
        host,
        file,
        &partial.rows,
    ) {
        Ok(counts) => counts,
        Err(refusal) => return Err(refusal),
    };
    let bytes = match partial_bytes(alloc, file, &partial) {
        Ok(bytes) => bytes,
        Err(refusal) => return Err(refusal),
    };
    match build_park(parts, alloc, host, file, partial, bytes, counts) {
        Ok(plan) => Ok(plan),
        Err(_) => Err(Refusal::Memory),
    }
}

/// Plans that the partial of a host, of which one is known, is dropped: it is read, and nothing changes. After Ok its file was there in
/// its grammar, whatever else the disk has; `Damaged` names it if it wasn't, with what was found of it.
pub fn plan_drop<D: Disk, N: Namer>(
    parts: &mut StoreParts<D, N>,
    alloc: Global,
    host: usize,
) -> Result<DropPlan, Refusal>
    requires ready { parts.old.journal.halted ≡ false }
    requires within { host < length parts.old.catalog.hosts }
    requires known { is_some (head_at parts.old.partials host) ≡ true }
    ensures planned { IfOk result (IsDropPlanned parts.old host) }
    ensures refused { IfErr result (IsDropFault parts.old host) }
    ensures partial { Heeds (told parts.old.journal) (IsKnown (head_at parts.old.partials host) host) result }
    ensures quiet { Quiet parts.old.journal parts.new.journal }
    ensures others { parts.new ≡ record parts.old { journal = parts.new.journal } }
    ensures counted { Counted (D.fault_count parts.old.journal.disk) (D.fault_count parts.new.journal.disk) (IsErrOf result Refusal.DiskFault) }
{
    let Some(file) = file_number(parts, host) else {
        unreachable!()
    };
    let head = parts.partials.of_host(host);
    let counts = match gather_drop(alloc, &mut parts.journal, &parts.counts, head, host, file) {
        Ok(counts) => counts,
        Err(refusal) => return Err(refusal),
    };
    match build_drop(alloc, file, counts) {
        Ok(plan) => Ok(plan),
        Err(_) => Err(Refusal::Memory),
    }
}
