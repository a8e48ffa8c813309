//! What a commit reads and counts.

ghost use Rattle.std.specs.Prelude.{◌≡◌, ◌<◌, false, length, IfOk, IfErr, OnOk, IsErrOf};
ghost use Rattle.fault_counts.specs.Counts.{Counted};
ghost use Rattle.journal_view.specs.View.{told, Quiet};
ghost use Rattle.store_commits.specs.Former.{IsFolded};
ghost use Rattle.store_commits.specs.Parked.{AreParked};
ghost use Rattle.store_commits.specs.Tables.{IsTableOf, IsKnownOf, Heeds};
ghost use Rattle.store_commits.specs.Planned.{AreCounted, IsReadFault, IsGatherFault};

use crate::counts::counts_after;
use crate::former::{Folding, fold_former};
use crate::judge::Lines;
use crate::parked::parked_rows;
use attr_tables::Table;
use disk_trait::Disk;
use host_counts::HostCounts;
use host_partials::PartialHead;
use intent_journal::Journal;
use office_model::{BrokenRule, Refusal};
use ref_counts::Counts;
use std::alloc::Global;

/// What is read of a host.
#[derive(Debug, Drop)]
pub struct HostRows {
    /// What becomes of the former newest backup, if it doesn't stay filled.
    pub folding: Option<Folding>,
    /// The rows of the partial, if there is one.
    pub parked: Option<Table>,
}

/// What was read of the host, and its counts after the commit.
#[derive(Drop)]
pub struct Gathered {
    pub read: HostRows,
    pub counts: Counts,
}

/// Reads the former newest's table, if it doesn't stay filled, and the host's partial, if one is known. After Ok they were there in
/// their grammar, whatever else the disk has; `Damaged` names one that wasn't, with what was found of it. A refusal changes nothing.
fn read_host<D: Disk>(
    alloc: Global,
    journal: &mut Journal<D>,
    head: Option<PartialHead>,
    lines: Lines,
    rows: &Table,
) -> Result<HostRows, Refusal>
    requires { journal.old.halted ≡ false }
    ensures folded { IfOk result (λ read. IsFolded (told journal.old) lines.file lines.dropped rows.now read.folding) }
    ensures parked { IfOk result (λ read. AreParked (told journal.old) head lines.file read.parked) }
    ensures kind { IfErr result (IsReadFault (told journal.old) lines.file head lines.dropped) }
    ensures called { Heeds (told journal.old) (IsTableOf lines.file lines.dropped) (IsKnownOf lines.file head) result }
    ensures quiet { Quiet journal.old journal.new }
    ensures counted { Counted (D.fault_count journal.old.disk) (D.fault_count journal.new.disk) (IsErrOf result Refusal.DiskFault) }
{
    let folding = match fold_former(alloc, journal, lines.file, lines.dropped, rows) {
        Ok(folding) => folding,
        Err(refusal) => return Err(refusal),
    };
    match parked_rows(alloc, journal, head, lines.file) {
        Ok(parked) => Ok(HostRows { folding, parked }),
        Err(refusal) => Err(refusal),
    }
}

/// Reads of a host what a commit of a new tree replaces, and makes the host's counts what they are after it. Without counts of the
/// host it is refused: a store at work has them. A refusal changes nothing.
pub(crate) fn gather<D: Disk>(
    alloc: Global,
    journal: &mut Journal<D>,
    held: &HostCounts,
    place: usize,
    head: Option<PartialHead>,
    lines: Lines,
    rows: &Table,
) -> Result<Gathered, Refusal>
    requires { journal.old.halted ≡ false }
    ensures folded { IfOk result (λ gathered. IsFolded (told journal.old) lines.file lines.dropped rows.now gathered.read.folding) }
    ensures parked { IfOk result (λ gathered. AreParked (told journal.old) head lines.file gathered.read.parked) }
    ensures counts { IfOk result (λ gathered.
        AreCounted held.now place gathered.read.parked gathered.read.folding rows.now gathered.counts) }
    ensures within { OnOk result (place < length held.now) }
    ensures kind { IfErr result (IsGatherFault (told journal.old) held.now place lines.file head lines.dropped) }
    ensures called { Heeds (told journal.old) (IsTableOf lines.file lines.dropped) (IsKnownOf lines.file head) result }
    ensures quiet { Quiet journal.old journal.new }
    ensures counted { Counted (D.fault_count journal.old.disk) (D.fault_count journal.new.disk) (IsErrOf result Refusal.DiskFault) }
{
    let read = match read_host(alloc, journal, head, lines, rows) {
        Ok(read) => read,
        Err(refusal) => return Err(refusal),
    };
    let Some(old) = held.of_host(place) else {
        return Err(Refusal::Broken(BrokenRule::NoHost));
    };
    match counts_after(alloc, old, &read.parked, &read.folding, rows) {
        Ok(counts) => Ok(Gathered { read, counts }),
        Err(_) => Err(Refusal::Memory),
    }
}
