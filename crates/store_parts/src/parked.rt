//! The partial of a host, as its file holds it.

ghost use Rattle.std.specs.Prelude.{◌≡◌, false, Some, is_some, IfOk, IfErr, IsErrOf};
ghost use Rattle.fault_counts.specs.Counts.{Counted};
ghost use Rattle.disk_trait.specs.Files.{Files};
ghost use Rattle.disk_trait.specs.declared.ids.FileId.TheVariants.{Partial as PartialOf};
ghost use Rattle.journal_view.specs.View.{told, Quiet};
ghost use Rattle.store_parts.specs.Parked.{IsParkedAs, IsParkedFault};

use disk_trait::{Disk, FileId};
use host_partials::{HostPartialsFault, PartialHead, read_partial_of};
use intent_journal::Journal;
use office_model::Refusal;
use partial_files::PartialFile;
use std::alloc::Global;

/// Reads the partial of a host of which this is known: none, if none is known, and then no file is read. A refusal changes nothing;
/// `Damaged` names the host's file if one is known and the file is absent or holds no partial of the host, with what was found of it.
pub fn read_parked<D: Disk>(
    alloc: Global,
    journal: &mut Journal<D>,
    head: Option<PartialHead>,
    host: u32,
) -> Result<Option<PartialFile>, Refusal>
    requires { journal.old.halted ≡ false }
    ensures parked { IfOk result (λ parked. (all : Files) → told journal.old ≡ Some all → IsParkedAs head host parked (all (PartialOf host))) }
    ensures known { IfOk result (λ parked. is_some parked ≡ is_some head) }
    ensures kind { IfErr result (IsParkedFault (told journal.old) head host) }
    ensures quiet { Quiet journal.old journal.new }
    ensures counted { Counted (D.fault_count journal.old.disk) (D.fault_count journal.new.disk) (IsErrOf result Refusal.DiskFault) }
{
    let Some(_head) = head else {
        return Ok(None);
    };
    match read_partial_of(alloc, journal, host) {
        Ok(Some(file)) => Ok(Some(file)),
        Ok(None) => Err(Refusal::Damaged {
            file: FileId::Partial(host),
            found: None,
        }),
        Err(HostPartialsFault::Disk) => Err(Refusal::DiskFault),
        Err(HostPartialsFault::Memory) => Err(Refusal::Memory),
        Err(HostPartialsFault::Foreign { file, found }) => Err(Refusal::Damaged {
            file,
            found: Some(found),
        }),
    }
}
