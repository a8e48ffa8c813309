//! Contents that the counts of hosts have and the index of the pool lacks.

ghost use Rattle.std.specs.Prelude.{◌≡◌, false, length, List, ℕ, Option, Some, is_some, IfErr, OnOk, IsErrOf};
ghost use Rattle.fault_counts.specs.Counts.{Counted};
ghost use Rattle.disk_trait.specs.declared.ids.FileId.{FileId as File};
ghost use Rattle.disk_trait.specs.declared.ids.FileId.TheVariants.{PoolIndex};
ghost use Rattle.disk_trait.specs.Files.{Files, lists};
ghost use Rattle.journal_view.specs.Found.{ListsSeen};
ghost use Rattle.journal_view.specs.View.{told, Quiet};
ghost use Rattle.pool_changes.specs.Kept.{slots_of};
ghost use Rattle.pool_changes.specs.Listed.{index_of};
ghost use Rattle.pool_store.specs.Opened.{Opens};
ghost use Rattle.host_counts.specs.Held.{AreTold};
ghost use Rattle.office_catalog.specs.Held.{HoldsCatalog};
ghost use Rattle.store_opening.specs.Unlisted.{first_unlisted, first_of_all, AreAllListed, index_file_of, IsUnlisting};

use crate::fault::OpenRefusal;
use crate::found::Found;
use crate::stray::refusal_with;
use disk_trait::{Disk, FileId, FileList, PoolId};
use intent_journal::Journal;
use pool_changes::Slot;
use pool_name::Namer;
use pool_store::Pool;
use ref_counts::{CountItem, Counts};
use std::alloc::Global;

/// Whether the index lists a content.
fn is_listed<N: Namer>(pool: &Pool<N>, id: PoolId) -> bool
    ensures { result ≡ is_some (index_of (slots_of pool.now.names) id) }
{
    match pool.slot(id) {
        Some(Slot::Live { .. }) => true,
        _ => false,
    }
}

/// Whether the index lists the content of an item.
fn lists_item<N: Namer>(pool: &Pool<N>, item: &CountItem) -> bool
    ensures { result ≡ is_some (index_of (slots_of pool.now.names) item.now.0) }
{
    is_listed(pool, item.id())
}

/// The first content of a host's counts that the index lacks, by one look-up for each.
fn first_unlisted<N: Namer>(pool: &Pool<N>, items: &[CountItem]) -> Option<PoolId>
    ensures { result ≡ first_unlisted (index_of (slots_of pool.now.names)) items.now }
{
    for item in items {
        if !lists_item(pool, item) {
            return Some(item.id());
        }
    }
    None
}

/// The first content of all hosts' counts that the index lacks.
fn first_of_all<N: Namer>(pool: &Pool<N>, counts: &[Counts]) -> Option<PoolId>
    ensures { result ≡ first_of_all (index_of (slots_of pool.now.names)) counts.now }
{
    for of_host in counts {
        let unlisted = first_unlisted(pool, of_host.items());
        if unlisted.is_some() {
            return unlisted;
        }
    }
    None
}

/// The file of the index in which a content is to be listed.
fn index_file_of(in_one_file: bool, id: PoolId) -> FileId
    ensures { result ≡ index_file_of in_one_file id }
{
    match in_one_file {
        true => FileId::PoolIndex,
        false => FileId::PoolBucket(id.digest[0]),
    }
}

/// Refuses a file of the index which doesn't list a content that a host's counts have, with what was found of it: absent or
/// not, a sweep behind it would take away what backups hold. Nothing is written.
pub(crate) fn refuse_unlisted<D: Disk, N: Namer>(
    alloc: Global,
    journal: &mut Journal<D>,
    files: &FileList,
    found: &Found<N>,
) -> Result<(), OpenRefusal>
    requires { journal.old.halted ≡ false }
    ensures listed { OnOk result (AreAllListed (index_of (slots_of found.now.pool.names)) found.now.counts) }
    ensures unlisting { IfErr result (λ refusal. (file : File) (bytes : Option (List ℕ)) → refusal ≡ OpenRefusal.Foreign file bytes
        → (all : Files) → told journal.old ≡ Some all → ListsSeen files.now all → Opens found.now.pool.in_one_file (slots_of found.now.pool.names) all
        → HoldsCatalog all found.now.catalog → AreTold all (length found.now.catalog.hosts) found.now.counts → IsUnlisting all file bytes) }
    ensures kind { IfErr result (λ refusal. refusal ≡ OpenRefusal.EpochsSpent → ⊥) }
    ensures quiet { Quiet journal.old journal.new }
    ensures counted { Counted (D.fault_count journal.old.disk) (D.fault_count journal.new.disk) (IsErrOf result OpenRefusal.DiskFault) }
{
    match first_of_all(&found.pool, found.counts.as_slice()) {
        None => Ok(()),
        Some(id) => {
            let file = index_file_of(files.has(FileId::PoolIndex), id);
            Err(refusal_with(alloc, journal, file))
        }
    }
}
