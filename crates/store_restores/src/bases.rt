//! The rows of the base of a restore.

ghost use Rattle.std.specs.Prelude.{◌≡◌, false, Err, IfOk, IfErr};
ghost use Rattle.fault_counts.specs.Counts.{Counted};
ghost use Rattle.office_model.specs.events.OpenRead.{base_of};
ghost use Rattle.store_reads.specs.Shown.{IsRefusal, Looks};
ghost use Rattle.store_restores.specs.Since.{IsBaseFault, IsBaseLoaded, TellsBase};

use attr_records::HostName;
use attr_tables::Table;
use disk_trait::Disk;
use office_model::Refusal;
use pool_name::Namer;
use std::alloc::Global;
use store_parts::StoreParts;
use store_reads::read_backup;

/// The rows of the base, if one is named: a backup of the host of this name. It refuses as a read of that backup does, and
/// changes nothing.
pub(crate) fn read_base<D: Disk, N: Namer>(
    parts: &mut StoreParts<D, N>,
    alloc: Global,
    host: &HostName,
    base: Option<u32>,
) -> Result<Option<Table>, Refusal>
    requires ready { parts.old.journal.halted ≡ false }
    ensures looks { Looks parts.old parts.new }
    ensures loaded { IfOk result (λ older. IsBaseLoaded parts.old host.now base older) }
    ensures tells { IfOk result (λ older. TellsBase parts.old host.now base older) }
    ensures damaged { IfErr result (IsBaseFault parts.old host.now base) }
    ensures refusal { IfErr result (IsRefusal parts.old (λ office. base_of office.hosts host.now base)) }
    ensures counted { Counted (D.fault_count parts.old.journal.disk) (D.fault_count parts.new.journal.disk)
        (result ≡ Err Refusal.DiskFault) }
{
    let number = match base {
        Some(number) => number,
        None => return Ok(None),
    };
    match read_backup(parts, alloc, host, number) {
        Ok(rows) => Ok(Some(rows)),
        Err(refusal) => Err(refusal),
    }
}
