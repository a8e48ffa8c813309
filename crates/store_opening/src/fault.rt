//! Why a store wasn't opened.

ghost use Rattle.std.specs.Prelude.{◌≡◌, ◌⊎◌, ◌↔◌, List, ℕ, Option, Some};
ghost use Rattle.disk_trait.specs.declared.ids.FileId.{FileId as File};
ghost use Rattle.pool_store.specs.Opening.{OfOpening};

use disk_trait::{Bytes, FileId};
use host_counts::HostCountsFault;
use host_partials::HostPartialsFault;
use intent_journal::{JournalFault, OpenJournalFault};
use office_catalog::CatalogFault;
use pool_store::PoolFault;
use std::alloc::AllocError;
use std::error::Error;
use std::fmt;

/// Why a store wasn't opened.
#[derive(Debug, Drop)]
pub enum OpenRefusal {
    /// A file is outside its layout, is called for and absent, or isn't called for: the file, and what was found of it.
    /// Nothing was written.
    Foreign { file: FileId, found: Option<Bytes> },
    /// The epoch is the last one. Nothing was written.
    EpochsSpent,
    /// The disk failed; its count of faults rose. It has the office as it was, or in its next epoch.
    DiskFault,
    /// There was no memory; nothing was written.
    Memory,
}

impl From<AllocError> for OpenRefusal {
    ghost use Rattle.store_opening.specs.declared.fault.OpenRefusal.TheVariants.{Memory};

    ghost from_gives = { λ _ refusal. refusal ≡ Memory };

    fn from(_refused: AllocError) -> OpenRefusal {
        OpenRefusal::Memory
    }
}

impl fmt::Display for OpenRefusal {
    fn fmt<W: fmt::Write>(&self, f: &mut fmt::Formatter<W>) -> fmt::Result {
        match self {
            OpenRefusal::Foreign { .. } => write!(f, "a file doesn't belong to the store"),
            OpenRefusal::EpochsSpent => write!(f, "the epochs are spent"),
            OpenRefusal::DiskFault => write!(f, "the disk failed"),
            OpenRefusal::Memory => write!(f, "no memory"),
        }
    }
}

impl Error for OpenRefusal {}

/// What a fault of a journal that isn't halted is to an opening.
pub(crate) fn refusal_of(fault: JournalFault) -> OpenRefusal
    requires { fault ≡ JournalFault.Halted → ⊥ }
    ensures kind { (result ≡ OpenRefusal.DiskFault) ⊎ (result ≡ OpenRefusal.Memory) }
    ensures disk { (result ≡ OpenRefusal.DiskFault) ↔ (fault ≡ JournalFault.Disk) }
    ensures memory { (result ≡ OpenRefusal.Memory) ↔ (fault ≡ JournalFault.Memory) }
{
    match fault {
        JournalFault::Disk => OpenRefusal::DiskFault,
        JournalFault::Memory => OpenRefusal::Memory,
        JournalFault::Halted => unreachable!(),
    }
}

/// What a fault of an opening of a pool is to that of its store.
pub(crate) fn pool_refusal(fault: PoolFault) -> OpenRefusal
    requires { OfOpening fault }
    ensures foreign { (file : File) (found : Option (List ℕ)) → result ≡ OpenRefusal.Foreign file found → fault ≡ PoolFault.Foreign file found }
    ensures disk { (result ≡ OpenRefusal.DiskFault) ↔ (fault ≡ PoolFault.Disk) }
    ensures kind { result ≡ OpenRefusal.EpochsSpent → ⊥ }
{
    match fault {
        PoolFault::Foreign { file, found } => OpenRefusal::Foreign { file, found },
        PoolFault::Disk => OpenRefusal::DiskFault,
        PoolFault::Memory => OpenRefusal::Memory,
        PoolFault::Damaged { .. } => unreachable!(),
        PoolFault::ChainFull => unreachable!(),
    }
}

/// What a fault of an opening of a catalog is to that of its store.
pub(crate) fn catalog_refusal(fault: CatalogFault) -> OpenRefusal
    ensures foreign { (file : File) (found : Option (List ℕ)) → result ≡ OpenRefusal.Foreign file found → fault ≡ CatalogFault.Foreign file found }
    ensures disk { (result ≡ OpenRefusal.DiskFault) ↔ (fault ≡ CatalogFault.Disk) }
    ensures kind { result ≡ OpenRefusal.EpochsSpent → ⊥ }
{
    match fault {
        CatalogFault::Foreign { file, found } => OpenRefusal::Foreign { file, found },
        CatalogFault::Disk => OpenRefusal::DiskFault,
        CatalogFault::Memory => OpenRefusal::Memory,
    }
}

/// What a fault of reading counts is to the opening of their store.
pub(crate) fn counts_refusal(fault: HostCountsFault) -> OpenRefusal
    ensures foreign { (file : File) (found : Option (List ℕ)) → result ≡ OpenRefusal.Foreign file found → fault ≡ HostCountsFault.Foreign file found }
    ensures disk { (result ≡ OpenRefusal.DiskFault) ↔ (fault ≡ HostCountsFault.Disk) }
    ensures kind { result ≡ OpenRefusal.EpochsSpent → ⊥ }
{
    match fault {
        HostCountsFault::Foreign { file, found } => OpenRefusal::Foreign { file, found },
        HostCountsFault::Disk => OpenRefusal::DiskFault,
        HostCountsFault::Memory => OpenRefusal::Memory,
    }
}

/// What a fault of reading partials is to the opening of their store.
pub(crate) fn partials_refusal(fault: HostPartialsFault) -> OpenRefusal
    ensures foreign { (file : File) (found : Option (List ℕ)) → result ≡ OpenRefusal.Foreign file found
        → (bytes : List ℕ) × (found ≡ Some bytes) × (fault ≡ HostPartialsFault.Foreign file bytes) }
    ensures disk { (result ≡ OpenRefusal.DiskFault) ↔ (fault ≡ HostPartialsFault.Disk) }
    ensures kind { result ≡ OpenRefusal.EpochsSpent → ⊥ }
{
    match fault {
        HostPartialsFault::Foreign { file, found } => OpenRefusal::Foreign {
            file,
            found: Some(found),
        },
        HostPartialsFault::Disk => OpenRefusal::DiskFault,
        HostPartialsFault::Memory => OpenRefusal::Memory,
    }
}

/// What a fault of an opening of a journal is to that of its store.
pub(crate) fn open_refusal(fault: OpenJournalFault) -> OpenRefusal
    ensures foreign { (file : File) (found : Option (List ℕ)) → result ≡ OpenRefusal.Foreign file found → fault ≡ OpenJournalFault.Foreign file found }
    ensures disk { (result ≡ OpenRefusal.DiskFault) ↔ (fault ≡ OpenJournalFault.Disk) }
    ensures memory { (result ≡ OpenRefusal.Memory) ↔ (fault ≡ OpenJournalFault.Memory) }
    ensures kind { result ≡ OpenRefusal.EpochsSpent → ⊥ }
{
    match fault {
        OpenJournalFault::Foreign { file, found } => OpenRefusal::Foreign { file, found },
        OpenJournalFault::Disk => OpenRefusal::DiskFault,
        OpenJournalFault::Memory => OpenRefusal::Memory,
    }
}
