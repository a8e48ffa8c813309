//! A store is opened, and given up.

ghost use Rattle.std.specs.Prelude.{◌≡◌, false};

use crate::store::Store;
use disk_trait::Disk;
use pool_name::Namer;
use std::alloc::Global;
use store_opening::OpenRefusal;

impl<D: Disk, N: Namer> Store<D, N> {
    ghost use Rattle.std.specs.Prelude.{IfOk, IfErr, option_map};
    ghost use Rattle.fault_counts.specs.Counts.{Counted};
    ghost use Rattle.journal_view.specs.Found.{seen};
    ghost use Rattle.journal_view.specs.View.{FindsNow};
    ghost use Rattle.pool_changes.specs.Kept.{slots_of};
    ghost use Rattle.pool_store.specs.Opening.{AreThePoolFiles};
    ghost use Rattle.office_model.specs.Office.{Durable};
    ghost use Rattle.store_opening.specs.Recovers.{SaysWhy};
    ghost use Rattle.office_store.specs.Serves.{is_stopped};
    ghost use Rattle.store_opening.specs.KeptTables.{HasTablesFound};
    ghost use Rattle.store_opening.specs.Opens.{IsOf, Opened, Left};
    ghost use Rattle.store_opening.specs.Settles.{ComesToOne, IsStopped};
    ghost use Rattle.store_opening.specs.Whole.{HasAllOf, HasBuckets, SaysSpent};

    /// Opens the store of a disk. A disk without files is that of a store without hosts.
    ///
    /// After Ok the office that the disk had is at work in its next epoch, and durable so. The disk comes back with each
    /// refusal, and can be opened again: after `EpochsSpent` and `Memory` it has the office as it was, after `DiskFault` as
    /// it was or in its next epoch. `Foreign` says what was found of the file; it never comes on a disk that a store left.
    ///
    /// Over any disk, after Ok the store isn't halted. Over any disk that tells its files: after Ok they are those of a store, of which memory has what they hold, and the names in
    /// use are those of the Pool files; no table was written; the index of the pool is in buckets there; `EpochsSpent` comes only over those of a store in its last epoch.
    pub fn open(alloc: Global, disk: D, namer: N) -> Result<Store<D, N>, (D, OpenRefusal)>
        ensures opened { IfOk result (λ store. (a b : Durable) → IsOf N.digest_of (D.files disk) (D.uncertain disk) a b
            → (o : Opened a b store.parts) × ComesToOne ⟦<D as Disk>⟧ N.digest_of disk store.parts.journal.disk a b o.office) }
        ensures tables { IfOk result (λ store. (a b : Durable) → IsOf N.digest_of (D.files disk) (D.uncertain disk) a b
            → FindsNow store.parts.journal (HasTablesFound (D.files disk) (D.uncertain disk))) }
        ensures left { IfErr result (λ refused. (a b : Durable) → IsOf N.digest_of (D.files disk) (D.uncertain disk) a b
            → Left N.digest_of (D.files refused.0) (D.uncertain refused.0) a b refused.1) }
        ensures stops { IfErr result (λ refused. (a b : Durable) → IsOf N.digest_of (D.files disk) (D.uncertain disk) a b
            → IsStopped ⟦<D as Disk>⟧ N.digest_of disk refused.0 a b) }
        ensures whole { IfOk result (λ store. HasAllOf store.parts) }
        ensures buckets { IfOk result (λ store. HasBuckets store.parts) }
        ensures listed { IfOk result (λ store. AreThePoolFiles (D.files disk) (slots_of store.parts.pool.names)) }
        ensures spent { IfErr result (λ refused. SaysSpent (option_map seen (D.files refused.0)) refused.1) }
        ensures ready { IfOk result (λ store. is_stopped store.parts ≡ false) }
        ensures foreign { IfErr result (λ refused. SaysWhy (D.files disk) (D.files refused.0) refused.1) }
        ensures counted { IfOk result (λ store. D.fault_count store.parts.journal.disk ≡ D.fault_count disk) }
        ensures left_counted { IfErr result (λ refused. Counted (D.fault_count disk) (D.fault_count refused.0) (refused.1 ≡ OpenRefusal.DiskFault)) }
    {
        match store_opening::open(alloc, disk, namer) {
            Ok(parts) => Ok(Store { parts, namer }),
            Err(refused) => Err(refused),
        }
    }

    /// How many of the disk's calls failed.
    pub fn faults(&self) -> u64
        ensures { result ≡ D.fault_count self.now.parts.journal.disk }
    {
        self.parts.journal.faults()
    }

    /// The disk, as it stands, halted or not. What is open is given up.
    pub fn close(self) -> D
        ensures { result ≡ self.parts.journal.disk }
    {
        self.into_parts().journal.close()
    }
}
