//! The event Migrate.

ghost use Rattle.std.specs.Prelude.{◌≡◌, false};
ghost use Rattle.office_model.specs.declared.event.Event.TheVariants.{Migrate};
ghost use Rattle.store_parts.specs.Runs.{Runs};
ghost use Rattle.store_migrations.specs.Called.{SaysOfMigration};

use crate::gather::plan_migration;
use attr_records::HostName;
use disk_trait::Disk;
use office_model::{Answer, Refusal};
use pool_name::Namer;
use std::alloc::Global;
use store_parts::StoreParts;

/// Writes those of a host's tables that are of the first layout anew in the second, with the rows that they have. After Ok this is
/// durable, each table of the host was there, and each is of the second layout; if none was of the first, nothing was written. If there
/// is no such host, or no memory, or a read fails, or a table is `Damaged`, nothing was done; after a `DiskFault` of the write the store
/// is halted. Memory: each table that is read is held while it is written anew, and the bytes of all that are written are held at once.
pub fn migrate<D: Disk, N: Namer>(
    parts: &mut StoreParts<D, N>,
    alloc: Global,
    host: &HostName,
) -> Result<Answer, Refusal>
    requires { parts.old.journal.halted ≡ false }
    ensures runs { Runs parts.old (Migrate host.now) result parts.new }
    ensures tables { SaysOfMigration parts.old host.now result parts.new }
{
    let at = parts.host(host)?;
    let changes = match plan_migration(alloc, &mut parts.journal, &parts.catalog, at) {
        Ok(changes) => changes,
        Err(refusal) => return Err(refusal),
    };
    if changes.as_slice().is_empty() {
        return Ok(Answer::Done);
    }
    match parts.write(alloc, &changes) {
        Ok(()) => Ok(Answer::Done),
        Err(refusal) => Err(refusal),
    }
}
