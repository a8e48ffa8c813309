//! The event Delete.

ghost use Rattle.std.specs.Prelude.{◌≡◌, ℕ, [], ◌∷◌, Some, false};
ghost use Rattle.office_catalog.specs.Known.{host_named, names_of};
ghost use Rattle.office_model.specs.declared.event.Event.TheVariants.{Delete};
ghost use Rattle.store_parts.specs.Runs.{Runs};
ghost use Rattle.store_deletions.specs.Called.{SaysOfTables, HasHost};

use crate::judge::deletable;
use crate::shorten::shorten;
use attr_records::HostName;
use disk_trait::Disk;
use office_model::{Answer, Refusal};
use pool_name::Namer;
use std::alloc::Global;
use store_parts::StoreParts;

/// Takes a backup out of its host. After Ok this is durable, and each table that it called for was there. If there is no such host
/// or backup, or it is kept, or no memory, or a read fails, or a table is `Damaged`, nothing was done; after a `DiskFault` of the
/// write the store is halted.
pub fn delete<D: Disk, N: Namer>(
    parts: &mut StoreParts<D, N>,
    alloc: Global,
    host: &HostName,
    number: u32,
) -> Result<Answer, Refusal>
    requires { parts.old.journal.halted ≡ false }
    ensures runs { Runs parts.old (Delete host.now number) result parts.new }
    ensures tables { (place : ℕ) → Some place ≡ host_named (names_of parts.old.catalog.hosts) host.now
        → SaysOfTables parts.old parts.new place (number ∷ []) result }
    ensures host { HasHost parts.old host.now result }
{
    let at = parts.host(host)?;
    deletable(parts, at, number)?;
    match shorten(parts, alloc, at, &[number]) {
        Ok(()) => Ok(Answer::Done),
        Err(refusal) => Err(refusal),
    }
}
