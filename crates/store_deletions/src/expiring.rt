//! The event Expire.

ghost use Rattle.std.specs.Prelude.{◌≡◌, ℕ, Some, Ok, slice_get, false};
ghost use Rattle.backup_index.specs.Index.{Index};
ghost use Rattle.office_catalog.specs.Known.{host_named, names_of};
ghost use Rattle.office_model.specs.declared.answer.Answer.TheVariants.{Expired};
ghost use Rattle.office_model.specs.declared.event.Event.TheVariants.{Expire};
ghost use Rattle.store_parts.specs.Runs.{Runs};
ghost use Rattle.store_deletions.specs.Called.{SaysOfTables, HasHost};
ghost use Rattle.store_deletions.specs.Shortens.{named_numbers};

use crate::judge::named_numbers;
use crate::shorten::shorten;
use attr_records::HostName;
use disk_trait::Disk;
use office_model::{Answer, Refusal};
use pool_name::Namer;
use std::alloc::Global;
use store_parts::StoreParts;
use stream_traits::Moment;

/// Takes the backups out of a host that its keeping rules name at a moment, and answers how many. After Ok this is durable; if
/// none is named, no file is read or written. After Ok each table that it called for was there, too. If there is no such host, or
/// no memory, or a read fails, or a table is `Damaged`, nothing was done; after a `DiskFault` of the write the store is halted.
pub fn expire<D: Disk, N: Namer>(
    parts: &mut StoreParts<D, N>,
    alloc: Global,
    host: &HostName,
    now: Moment,
) -> Result<Answer, Refusal>
    requires { parts.old.journal.halted ≡ false }
    ensures runs { Runs parts.old (Expire host.now now) result parts.new }
    ensures tables { (place : ℕ) (index : Index) → Some place ≡ host_named (names_of parts.old.catalog.hosts) host.now
        → slice_get parts.old.catalog.hosts place ≡ Some index
        → SaysOfTables parts.old parts.new place (named_numbers index.rules now index.lines) result }
    ensures host { HasHost parts.old host.now result }
    ensures still { result ≡ Ok (Expired 0) → parts.new ≡ parts.old }
{
    let at = parts.host(host)?;
    let numbers = named_numbers(alloc, &parts.catalog.hosts()[at], now)?;
    let named = numbers.as_slice();
    if named.is_empty() {
        return Ok(Answer::Expired(0));
    }
    match shorten(parts, alloc, at, named) {
        Ok(()) => Ok(Answer::Expired(named.len() as u32)),
        Err(refusal) => Err(refusal),
    }
}
