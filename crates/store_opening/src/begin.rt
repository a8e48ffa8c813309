//! Making the office that was found durable in its next epoch.

ghost use Rattle.std.specs.Prelude.{◌≡◌, ◌<◌, false, List, ℕ, Option, Some, IfOk, IfErr, OnOk, Err, IsErrOf};
ghost use Rattle.fault_counts.specs.Counts.{Counted};
ghost use Rattle.disk_trait.specs.Files.{Files};
ghost use Rattle.journal_view.specs.View.{told, Quiet, FindsNow, FindsOnly};
ghost use Rattle.pool_changes.specs.Kept.{slots_of, IsSame};
ghost use Rattle.pool_store.specs.Opening.{AreThePoolFiles};
ghost use Rattle.office_model.specs.Office.{Durable, Names, raised};
ghost use Rattle.store_parts.specs.Held.{IsStored};
ghost use Rattle.store_opening.specs.KeptTables.{HasTablesOf};
ghost use Rattle.store_opening.specs.Recovers.{Holds, IsHeld, Looks, SaysForeign};
ghost use Rattle.store_opening.specs.Begins.{MayLeave, Begins};
ghost use Rattle.store_opening.specs.Settles.{Ends};
ghost use Rattle.store_opening.specs.Whole.{IsAllOf, HasBucketsOf, SaysSpent};

use crate::fault::{OpenRefusal, refusal_of};
use crate::found::Found;
use crate::next::{accept, propose};
use crate::recover::recover;
use disk_trait::Disk;
use intent_journal::{Journal, JournalFault};
use pool_name::Namer;
use std::alloc::{AllocError, Global};

/// Makes durable that the office is in its next epoch, and the index of its pool in buckets, by one commit.
///
/// After Ok what was found is of that epoch, and its index in buckets. After `Memory` nothing was written; after `Disk` the disk has the office as it
/// was, or in its next epoch.
fn raise<D: Disk, N: Namer>(
    alloc: Global,
    journal: &mut Journal<D>,
    found: &mut Found<N>,
) -> Result<(), JournalFault>
    requires ready { journal.old.halted ≡ false }
    requires room { found.old.catalog.epoch < 18446744073709551615 }
    ensures ok { OnOk result ((office : Durable) (names : Names)
        → IsHeld journal.old found.old.pool found.old.catalog found.old.counts found.old.partials office names
        → IsHeld journal.new found.new.pool found.new.catalog found.new.counts found.new.partials (raised office) names) }
    ensures ready { OnOk result (journal.new.halted ≡ false) }
    ensures whole { OnOk result (IsAllOf (told journal.old) found.old → IsAllOf (told journal.new) found.new) }
    ensures names { IsSame (slots_of found.old.pool.names) (slots_of found.new.pool.names) }
    ensures buckets { OnOk result (found.new.pool.in_one_file ≡ false) }
    ensures looks { (office : Durable) (names : Names) → IsStored journal.old found.old.pool found.old.catalog office names
        → Looks N.digest_of journal.old journal.new office (raised office) }
    ensures tables { (all : Files) → told journal.old ≡ Some all → FindsNow journal.new (HasTablesOf all) }
    ensures memory { result ≡ Err JournalFault.Memory → Quiet journal.old journal.new }
    ensures running { result ≡ Err JournalFault.Halted → ⊥ }
    ensures counted { Counted (D.fault_count journal.old.disk) (D.fault_count journal.new.disk) (result ≡ Err JournalFault.Disk) }
{
    let next = match propose(alloc, found) {
        Ok(next) => next,
        Err(AllocError) => return Err(JournalFault::Memory),
    };
    match journal_view::commit(journal, alloc, &next.changes) {
        Ok(()) => {
            accept(found, next);
            Ok(())
        }
        Err(fault) => Err(fault),
    }
}

/// Makes the office that the files of a journal stand for durable in its next epoch.
///
/// After `Foreign`, `EpochsSpent` and `Memory` nothing was written; after `DiskFault` the disk has the office as it was, or
/// in its next epoch. Over any disk that tells its files, Ok and `EpochsSpent` say that they are those of a store.
pub(crate) fn begin<D: Disk, N: Namer>(
    alloc: Global,
    journal: &mut Journal<D>,
    namer: N,
) -> Result<Found<N>, OpenRefusal>
    requires { journal.old.halted ≡ false }
    ensures begins { (a b : Durable) → Holds N.digest_of journal.old a b → Begins a b result journal.new }
    ensures crash { (a b : Durable) → Holds N.digest_of journal.old a b → FindsOnly journal.old journal.new (MayLeave N.digest_of a b) }
    ensures ends { (a b : Durable) → Holds N.digest_of journal.old a b → Ends a b result journal.old.disk journal.new }
    ensures tables { (all : Files) → told journal.old ≡ Some all → FindsNow journal.new (HasTablesOf all) }
    ensures quiet { IfErr result (λ refusal. (refusal ≡ OpenRefusal.DiskFault → ⊥) → Quiet journal.old journal.new) }
    ensures ready { IfOk result (λ found. journal.new.halted ≡ false) }
    ensures foreign { IfErr result (SaysForeign (told journal.old)) }
    ensures whole { IfOk result (IsAllOf (told journal.new)) }
    ensures buckets { IfOk result (HasBucketsOf (told journal.new)) }
    ensures listed { IfOk result (λ found. AreThePoolFiles (D.files journal.old.disk) (slots_of found.pool.names)) }
    ensures spent { IfErr result (SaysSpent (told journal.new)) }
    ensures counted { Counted (D.fault_count journal.old.disk) (D.fault_count journal.new.disk) (IsErrOf result OpenRefusal.DiskFault) }
{
    let mut found = match recover(alloc, journal, namer) {
        Ok(found) => found,
        Err(refusal) => return Err(refusal),
    };
    if found.catalog.epoch() >= u64::MAX {
        return Err(OpenRefusal::EpochsSpent);
    }
    match raise(alloc, journal, &mut found) {
        Ok(()) => Ok(found),
        Err(fault) => Err(refusal_of(fault)),
    }
}
