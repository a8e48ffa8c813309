//! What faults of a store's parts are to its callers.

ghost use Rattle.std.specs.Prelude.{◌≡◌};
ghost use Rattle.store_parts.specs.Refusals.{refusal_of_view, refusal_of_pool};

use backup_views::ViewFault;
use disk_trait::FileId;
use office_model::{BrokenRule, Refusal};
use pool_store::PoolFault;

/// What a fault of reading the tables of backups is to a caller of the store.
pub fn refusal_of_view(fault: ViewFault) -> Refusal
    ensures value { result ≡ refusal_of_view fault }
    ensures disk { fault ≡ ViewFault.Disk → result ≡ Refusal.DiskFault }
    ensures no_other { result ≡ Refusal.DiskFault → fault ≡ ViewFault.Disk }
{
    match fault {
        ViewFault::Disk => Refusal::DiskFault,
        ViewFault::Memory => Refusal::Memory,
        ViewFault::Damaged { file, found } => Refusal::Damaged { file, found },
    }
}

/// What a fault of the pool is to a caller of the store.
pub fn refusal_of_pool(fault: PoolFault) -> Refusal
    ensures value { result ≡ refusal_of_pool fault }
    ensures disk { fault ≡ PoolFault.Disk → result ≡ Refusal.DiskFault }
    ensures no_other { result ≡ Refusal.DiskFault → fault ≡ PoolFault.Disk }
{
    match fault {
        PoolFault::Foreign { file, found } => Refusal::Damaged { file, found },
        PoolFault::Disk => Refusal::DiskFault,
        PoolFault::Memory => Refusal::Memory,
        PoolFault::Damaged { id, found } => Refusal::Damaged {
            file: FileId::Pool(id),
            found,
        },
        PoolFault::ChainFull => Refusal::Broken(BrokenRule::ChainFull),
    }
}
