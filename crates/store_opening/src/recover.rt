//! Finding the office that the files of a journal stand for.

ghost use Rattle.std.specs.Prelude.{◌≡◌, ◌⊎◌, true, false, length, List, ℕ, Option, Some, IfOk, IfErr, OnOk, Err, IsErrOf};
ghost use Rattle.fault_counts.specs.Counts.{Counted};
ghost use Rattle.disk_trait.specs.declared.ids.FileId.{FileId as File};
ghost use Rattle.disk_trait.specs.Files.{Files};
ghost use Rattle.journal_view.specs.View.{told, Quiet};
ghost use Rattle.pool_index.specs.Index.{Index, TellsIndex};
ghost use Rattle.pool_changes.specs.Kept.{slots_of};
ghost use Rattle.pool_store.specs.Opened.{Opens, IsForeign as IsForeignToPool};
ghost use Rattle.pool_store.specs.Opening.{AreFresh, AreThePoolFiles};
ghost use Rattle.pool_store.specs.Complete.{HaveFiles};
ghost use Rattle.office_catalog.specs.Held.{HoldsCatalog, IsForeign as IsForeignToCatalog};
ghost use Rattle.office_catalog.specs.Known.{Known};
ghost use Rattle.office_model.specs.Office.{Durable};
ghost use Rattle.office_files.specs.Stands.{StandsFor};
ghost use Rattle.host_counts.specs.Held.{AreTold};
ghost use Rattle.host_partials.specs.Held.{AreTold as ArePartialsTold};
ghost use Rattle.store_opening.specs.Recovers.{Holds, Recovers, IsWithoutCounts, IsWithoutPartial, IsForeignToHosts, SaysForeign};
ghost use Rattle.store_opening.specs.Whole.{IsAllOf};

use crate::fault::{OpenRefusal, catalog_refusal, counts_refusal, partials_refusal, pool_refusal};
use crate::found::Found;
use crate::stray::refuse_strays;
use crate::tables::refuse_gaps;
use crate::unlisted::refuse_unlisted;
use disk_trait::{Disk, FileId};
use host_counts::HostCounts;
use host_partials::HostPartials;
use intent_journal::Journal;
use office_catalog::{Catalog, held_files_are_not_foreign};
use pool_name::Namer;
use pool_store::Pool;
use std::alloc::Global;

/// The pool of a store's files.
fn read_pool<D: Disk, N: Namer>(
    alloc: Global,
    journal: &mut Journal<D>,
    namer: N,
) -> Result<Pool<N>, OpenRefusal>
    requires { journal.old.halted ≡ false }
    ensures opened { IfOk result (λ pool. (all : Files) → D.files journal.old.disk ≡ Some all → Opens pool.in_one_file (slots_of pool.names) all) }
    ensures fresh { IfOk result (λ pool. AreFresh (slots_of pool.names)) }
    ensures foreign { IfErr result (λ refusal. (file : File) (found : Option (List ℕ)) → refusal ≡ OpenRefusal.Foreign file found → IsForeignToPool (told journal.old) file found) }
    ensures complete { IfErr result (λ refusal. (all : Files) (index : Index) → D.files journal.old.disk ≡ Some all → TellsIndex index all → HaveFiles index all
        → (file : File) (found : Option (List ℕ)) → refusal ≡ OpenRefusal.Foreign file found → ⊥) }
    ensures kind { IfErr result (λ refusal. refusal ≡ OpenRefusal.EpochsSpent → ⊥) }
    ensures quiet { Quiet journal.old journal.new }
    ensures counted { Counted (D.fault_count journal.old.disk) (D.fault_count journal.new.disk) (IsErrOf result OpenRefusal.DiskFault) }
{
    match Pool::open(alloc, journal, namer) {
        Ok(pool) => Ok(pool),
        Err(fault) => Err(pool_refusal(fault)),
    }
}

/// The catalog of a store's files.
fn read_catalog<D: Disk>(alloc: Global, journal: &mut Journal<D>) -> Result<Catalog, OpenRefusal>
    requires { journal.old.halted ≡ false }
    ensures opened { IfOk result (λ catalog. (all : Files) → told journal.old ≡ Some all → HoldsCatalog all catalog) }
    ensures foreign { IfErr result (λ refusal. (file : File) (found : Option (List ℕ)) → refusal ≡ OpenRefusal.Foreign file found → IsForeignToCatalog (told journal.old) file found) }
    ensures complete { IfErr result (λ refusal. (all : Files) (known : Known) → told journal.old ≡ Some all → HoldsCatalog all known
        → (file : File) (found : Option (List ℕ)) → refusal ≡ OpenRefusal.Foreign file found → ⊥) }
    ensures kind { IfErr result (λ refusal. refusal ≡ OpenRefusal.EpochsSpent → ⊥) }
    ensures quiet { Quiet journal.old journal.new }
    ensures counted { Counted (D.fault_count journal.old.disk) (D.fault_count journal.new.disk) (IsErrOf result OpenRefusal.DiskFault) }
{
    held_files_are_not_foreign();
    match office_catalog::open(alloc, journal) {
        Ok(catalog) => Ok(catalog),
        Err(fault) => Err(catalog_refusal(fault)),
    }
}

/// The counts of the hosts of a catalog.
fn read_counts<D: Disk>(
    alloc: Global,
    journal: &mut Journal<D>,
    catalog: &Catalog,
) -> Result<HostCounts, OpenRefusal>
    requires { journal.old.halted ≡ false }
    ensures told { IfOk result (λ counts. (all : Files) → told journal.old ≡ Some all → AreTold all (length catalog.now.hosts) counts) }
    ensures foreign { IfErr result (λ refusal. (file : File) (found : Option (List ℕ)) → refusal ≡ OpenRefusal.Foreign file found
        → (all : Files) → told journal.old ≡ Some all → HoldsCatalog all catalog.now → IsWithoutCounts all file found) }
    ensures kind { IfErr result (λ refusal. refusal ≡ OpenRefusal.EpochsSpent → ⊥) }
    ensures quiet { Quiet journal.old journal.new }
    ensures counted { Counted (D.fault_count journal.old.disk) (D.fault_count journal.new.disk) (IsErrOf result OpenRefusal.DiskFault) }
{
    match host_counts::read_all(alloc, journal, catalog.hosts().len()) {
        Ok(counts) => Ok(counts),
        Err(fault) => Err(counts_refusal(fault)),
    }
}

/// What is known of the partials of the hosts of a catalog.
fn read_partials<D: Disk>(
    alloc: Global,
    journal: &mut Journal<D>,
    catalog: &Catalog,
) -> Result<HostPartials, OpenRefusal>
    requires { journal.old.halted ≡ false }
    ensures told { IfOk result (λ partials. (all : Files) → told journal.old ≡ Some all → ArePartialsTold all (length catalog.now.hosts) partials) }
    ensures foreign { IfErr result (λ refusal. (file : File) (found : Option (List ℕ)) → refusal ≡ OpenRefusal.Foreign file found
        → (all : Files) → told journal.old ≡ Some all → HoldsCatalog all catalog.now → IsWithoutPartial all file found) }
    ensures kind { IfErr result (λ refusal. refusal ≡ OpenRefusal.EpochsSpent → ⊥) }
    ensures quiet { Quiet journal.old journal.new }
    ensures counted { Counted (D.fault_count journal.old.disk) (D.fault_count journal.new.disk) (IsErrOf result OpenRefusal.DiskFault) }
{
    match host_partials::read_all(alloc, journal, catalog.hosts().len()) {
        Ok(partials) => Ok(partials),
        Err(fault) => Err(partials_refusal(fault)),
    }
}

/// What the files of hosts hold beside their indices.
#[derive(Drop)]
struct HeldTotals {
    counts: HostCounts,
    partials: HostPartials,
}

/// The counts, and what is known of the partials, of the hosts of a catalog.
fn read_totals<D: Disk>(
    alloc: Global,
    journal: &mut Journal<D>,
    catalog: &Catalog,
) -> Result<HeldTotals, OpenRefusal>
    requires { journal.old.halted ≡ false }
    ensures counts { IfOk result (λ totals. (all : Files) → told journal.old ≡ Some all → AreTold all (length catalog.now.hosts) totals.counts) }
    ensures partials { IfOk result (λ totals. (all : Files) → told journal.old ≡ Some all → ArePartialsTold all (length catalog.now.hosts) totals.partials) }
    ensures foreign { IfErr result (λ refusal. (file : File) (found : Option (List ℕ)) → refusal ≡ OpenRefusal.Foreign file found
        → (all : Files) → told journal.old ≡ Some all → HoldsCatalog all catalog.now → IsForeignToHosts all file found) }
    ensures kind { IfErr result (λ refusal. refusal ≡ OpenRefusal.EpochsSpent → ⊥) }
    ensures quiet { Quiet journal.old journal.new }
    ensures counted { Counted (D.fault_count journal.old.disk) (D.fault_count journal.new.disk) (IsErrOf result OpenRefusal.DiskFault) }
{
    let counts = match read_counts(alloc, journal, catalog) {
        Ok(counts) => counts,
        Err(refusal) => return Err(refusal),
    };
    match read_partials(alloc, journal, catalog) {
        Ok(partials) => Ok(HeldTotals { counts, partials }),
        Err(refusal) => Err(refusal),
    }
}

/// What a store's files hold of its hosts.
#[derive(Drop)]
struct HeldHosts {
    catalog: Catalog,
    counts: HostCounts,
    partials: HostPartials,
}

/// The catalog, the counts, and what is known of the partials of a store's files.
fn read_hosts<D: Disk>(alloc: Global, journal: &mut Journal<D>) -> Result<HeldHosts, OpenRefusal>
    requires { journal.old.halted ≡ false }
    ensures catalog { IfOk result (λ hosts. (all : Files) → told journal.old ≡ Some all → HoldsCatalog all hosts.catalog) }
    ensures counts { IfOk result (λ hosts. (all : Files) → told journal.old ≡ Some all → AreTold all (length hosts.catalog.hosts) hosts.counts) }
    ensures partials { IfOk result (λ hosts. (all : Files) → told journal.old ≡ Some all → ArePartialsTold all (length hosts.catalog.hosts) hosts.partials) }
    ensures foreign { IfErr result (λ refusal. (file : File) (found : Option (List ℕ)) → refusal ≡ OpenRefusal.Foreign file found
        → IsForeignToCatalog (told journal.old) file found ⊎ ((all : Files) → told journal.old ≡ Some all → IsForeignToHosts all file found)) }
    ensures complete { IfErr result (λ refusal. (digest_of : List ℕ → List ℕ) (all : Files) (office : Durable) → told journal.old ≡ Some all
        → StandsFor digest_of all office → (file : File) (found : Option (List ℕ)) → refusal ≡ OpenRefusal.Foreign file found → ⊥) }
    ensures kind { IfErr result (λ refusal. refusal ≡ OpenRefusal.EpochsSpent → ⊥) }
    ensures quiet { Quiet journal.old journal.new }
    ensures counted { Counted (D.fault_count journal.old.disk) (D.fault_count journal.new.disk) (IsErrOf result OpenRefusal.DiskFault) }
{
    let catalog = match read_catalog(alloc, journal) {
        Ok(catalog) => catalog,
        Err(refusal) => return Err(refusal),
    };
    match read_totals(alloc, journal, &catalog) {
        Ok(totals) => Ok(HeldHosts {
            catalog,
            counts: totals.counts,
            partials: totals.partials,
        }),
        Err(refusal) => Err(refusal),
    }
}

/// The pool, the catalog, the counts, and what is known of the partials of a store's files.
fn read_parts<D: Disk, N: Namer>(
    alloc: Global,
    journal: &mut Journal<D>,
    namer: N,
) -> Result<Found<N>, OpenRefusal>
    requires { journal.old.halted ≡ false }
    ensures opened { IfOk result (λ found. (all : Files) → D.files journal.old.disk ≡ Some all → Opens found.pool.in_one_file (slots_of found.pool.names) all) }
    ensures fresh { IfOk result (λ found. AreFresh (slots_of found.pool.names)) }
    ensures catalog { IfOk result (λ found. (all : Files) → told journal.old ≡ Some all → HoldsCatalog all found.catalog) }
    ensures counts { IfOk result (λ found. (all : Files) → told journal.old ≡ Some all → AreTold all (length found.catalog.hosts) found.counts) }
    ensures partials { IfOk result (λ found. (all : Files) → told journal.old ≡ Some all → ArePartialsTold all (length found.catalog.hosts) found.partials) }
    ensures foreign { IfErr result (SaysForeign (told journal.old)) }
    ensures known { IfErr result (λ refusal. (a b : Durable) → Holds N.digest_of journal.old a b
        → (file : File) (found : Option (List ℕ)) → refusal ≡ OpenRefusal.Foreign file found → ⊥) }
    ensures kind { IfErr result (λ refusal. refusal ≡ OpenRefusal.EpochsSpent → ⊥) }
    ensures quiet { Quiet journal.old journal.new }
    ensures counted { Counted (D.fault_count journal.old.disk) (D.fault_count journal.new.disk) (IsErrOf result OpenRefusal.DiskFault) }
{
    let pool = match read_pool(alloc, journal, namer) {
        Ok(pool) => pool,
        Err(refusal) => return Err(refusal),
    };
    match read_hosts(alloc, journal) {
        Ok(hosts) => Ok(Found {
            pool,
            catalog: hosts.catalog,
            counts: hosts.counts,
            partials: hosts.partials,
        }),
        Err(refusal) => Err(refusal),
    }
}

/// Finds the office that the files of a journal stand for. Nothing is written.
///
/// `Foreign` comes if a file is outside its layout, is called for and absent, or isn't called for, and if a file of the index
/// doesn't list a content that counts have; never if the files stand for an office.
pub(crate) fn recover<D: Disk, N: Namer>(
    alloc: Global,
    journal: &mut Journal<D>,
    namer: N,
) -> Result<Found<N>, OpenRefusal>
    requires { journal.old.halted ≡ false }
    ensures recovers { IfOk result (λ found. (a b : Durable) → Holds N.digest_of journal.old a b → Recovers journal.new found a b) }
    ensures whole { IfOk result (IsAllOf (told journal.old)) }
    ensures listed { IfOk result (λ found. AreThePoolFiles (D.files journal.old.disk) (slots_of found.pool.names)) }
    ensures foreign { IfErr result (SaysForeign (told journal.old)) }
    ensures known { IfErr result (λ refusal. (a b : Durable) → Holds N.digest_of journal.old a b
        → (file : File) (found : Option (List ℕ)) → refusal ≡ OpenRefusal.Foreign file found → ⊥) }
    ensures kind { IfErr result (λ refusal. refusal ≡ OpenRefusal.EpochsSpent → ⊥) }
    ensures quiet { Quiet journal.old journal.new }
    ensures counted { Counted (D.fault_count journal.old.disk) (D.fault_count journal.new.disk) (IsErrOf result OpenRefusal.DiskFault) }
{
    let found = match read_parts(alloc, journal, namer) {
        Ok(found) => found,
        Err(refusal) => return Err(refusal),
    };
    let files = match refuse_strays(alloc, journal, &found.catalog) {
        Ok(files) => files,
        Err(refusal) => return Err(refusal),
    };
    match refuse_gaps(alloc, &files, &found.catalog) {
        Ok(()) => {}
        Err(refusal) => return Err(refusal),
    }
    match refuse_unlisted(alloc, journal, &files, &found) {
        Ok(()) => Ok(found),
        Err(refusal) => Err(refusal),
    }
}
