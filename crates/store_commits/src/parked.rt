//! The partial of a host, which a commit drops.

ghost use Rattle.std.specs.Prelude.{◌≡◌, false, None, IfOk, IfErr, IsErrOf, slice_set};
ghost use Rattle.std.specs.Option.{option_map};
ghost use Rattle.fault_counts.specs.Counts.{Counted};
ghost use Rattle.journal_view.specs.View.{told, Quiet};
ghost use Rattle.store_parts.specs.Parked.{IsParkedFault};
ghost use Rattle.store_commits.specs.Parked.{AreParked};

use attr_tables::Table;
use disk_trait::Disk;
use host_partials::{HostPartials, PartialHead};
use intent_journal::Journal;
use office_model::Refusal;
use partial_files::PartialFile;
use std::alloc::Global;
use store_parts::read_parked;

/// The rows of a partial.
fn rows_of(parked: Option<PartialFile>) -> Option<Table>
    ensures { result ≡ option_map (λ file. file.rows) parked }
{
    match parked {
        Some(file) => Some(file.rows),
        None => None,
    }
}

/// The rows of the partial of a host of which this is known: none, if none is known, and then no file is read. After Ok its file was
/// there in its grammar, whatever else the disk has; `Damaged` names it if it wasn't, with what was found of it. A refusal changes
/// nothing.
pub fn parked_rows<D: Disk>(
    alloc: Global,
    journal: &mut Journal<D>,
    head: Option<PartialHead>,
    host: u32,
) -> Result<Option<Table>, Refusal>
    requires { journal.old.halted ≡ false }
    ensures parked { IfOk result (AreParked (told journal.old) head host) }
    ensures kind { IfErr result (IsParkedFault (told journal.old) head host) }
    ensures quiet { Quiet journal.old journal.new }
    ensures counted { Counted (D.fault_count journal.old.disk) (D.fault_count journal.new.disk) (IsErrOf result Refusal.DiskFault) }
{
    match read_parked(alloc, journal, head, host) {
        Ok(parked) => Ok(rows_of(parked)),
        Err(refusal) => Err(refusal),
    }
}

/// The host has no partial any more. Takes no memory.
pub fn unpark(partials: &mut HostPartials, host: usize)
    ensures { partials.new ≡ slice_set partials.old host None }
{
    if partials.of_host(host).is_some() {
        partials.set(host, None);
    }
}
