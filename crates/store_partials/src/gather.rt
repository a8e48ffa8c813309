//! What a park or a drop of a partial reads and counts.

ghost use Rattle.std.specs.Prelude.{◌≡◌, ◌<◌, true, false, length, Some, None, is_some, IfOk, IfErr, OnOk, IsErrOf};
ghost use Rattle.fault_counts.specs.Counts.{Counted};
ghost use Rattle.disk_trait.specs.declared.ids.PoolId.{PoolId};
ghost use Rattle.journal_view.specs.View.{told, Quiet};
ghost use Rattle.ref_counts.specs.Numbers.{number};
ghost use Rattle.store_partials.specs.Heeding.{Heeds, IsKnown};
ghost use Rattle.store_partials.specs.Parked.{number_then, IsRecounted, IsGatherFault};

use attr_tables::Table;
use disk_trait::Disk;
use host_counts::HostCounts;
use host_partials::PartialHead;
use intent_journal::Journal;
use office_model::{BrokenRule, Refusal};
use partial_files::PartialFile;
use ref_counts::{Counts, add_table, take_table};
use std::alloc::{AllocError, Global};
use store_parts::read_parked;

/// The counts with rows in the place of those of a partial, or beside all others if there is none.
fn counts_parked(
    alloc: Global,
    old: &Counts,
    parked: &Option<PartialFile>,
    rows: &Table,
) -> Result<Counts, AllocError>
    ensures { IfOk result (λ counts. (id : PoolId) → number counts id ≡ number_then (number old.now id) parked.now (Some rows.now) id) }
{
    match parked {
        None => add_table(alloc, old, rows),
        Some(partial) => {
            let kept = take_table(alloc, old, &partial.rows)?;
            add_table(alloc, &kept, rows)
        }
    }
}

/// Reads the partial of a host, if one is known, and makes of the host's counts what they are with these rows parked in its place.
/// Without counts of the host it is refused: a store at work has them. A refusal changes nothing.
pub(crate) fn gather_park<D: Disk>(
    alloc: Global,
    journal: &mut Journal<D>,
    held: &HostCounts,
    head: Option<PartialHead>,
    place: usize,
    host: u32,
    rows: &Table,
) -> Result<Counts, Refusal>
    requires { journal.old.halted ≡ false }
    ensures counts { IfOk result (IsRecounted (told journal.old) head host held.now place (Some rows.now)) }
    ensures within { OnOk result (place < length held.now) }
    ensures kind { IfErr result (IsGatherFault (told journal.old) head host held.now place) }
    ensures partial { Heeds (told journal.old) (IsKnown head host) result }
    ensures quiet { Quiet journal.old journal.new }
    ensures counted { Counted (D.fault_count journal.old.disk) (D.fault_count journal.new.disk) (IsErrOf result Refusal.DiskFault) }
{
    let parked = match read_parked(alloc, journal, head, host) {
        Ok(parked) => parked,
        Err(refusal) => return Err(refusal),
    };
    let Some(old) = held.of_host(place) else {
        return Err(Refusal::Broken(BrokenRule::NoHost));
    };
    match counts_parked(alloc, old, &parked, rows) {
        Ok(counts) => Ok(counts),
        Err(_) => Err(Refusal::Memory),
    }
}

/// Reads the partial of a host of which one is known, and takes its rows out of the host's counts. Without counts of the host it is
/// refused: a store at work has them. A refusal changes nothing.
pub(crate) fn gather_drop<D: Disk>(
    alloc: Global,
    journal: &mut Journal<D>,
    held: &HostCounts,
    head: Option<PartialHead>,
    place: usize,
    host: u32,
) -> Result<Counts, Refusal>
    requires ready { journal.old.halted ≡ false }
    requires known { is_some head ≡ true }
    ensures counts { IfOk result (IsRecounted (told journal.old) head host held.now place None) }
    ensures within { OnOk result (place < length held.now) }
    ensures kind { IfErr result (IsGatherFault (told journal.old) head host held.now place) }
    ensures partial { Heeds (told journal.old) (IsKnown head host) result }
    ensures quiet { Quiet journal.old journal.new }
    ensures counted { Counted (D.fault_count journal.old.disk) (D.fault_count journal.new.disk) (IsErrOf result Refusal.DiskFault) }
{
    let parked = match read_parked(alloc, journal, head, host) {
        Ok(parked) => parked,
        Err(refusal) => return Err(refusal),
    };
    let Some(partial) = parked else {
        unreachable!()
    };
    let Some(old) = held.of_host(place) else {
        return Err(Refusal::Broken(BrokenRule::NoHost));
    };
    match take_table(alloc, old, &partial.rows) {
        Ok(counts) => Ok(counts),
        Err(_) => Err(Refusal::Memory),
    }
}
