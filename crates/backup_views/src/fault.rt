//! Why the tree of a backup wasn't read.

ghost use Rattle.std.specs.Prelude.{◌≡◌, ◌⊎◌, ◌↔◌};

use disk_trait::{Bytes, FileId};
use intent_journal::JournalFault;
use std::alloc::{AllocError, AllocFailed};
use std::error::Error;
use std::fmt;

/// Why the tree of a backup wasn't read.
#[derive(Debug, Drop)]
pub enum ViewFault {
    /// The disk failed; its count of faults rose.
    Disk,
    /// There was no memory.
    Memory,
    /// The file of a table that a backup calls for is absent, or no table's: what was found of it.
    Damaged { file: FileId, found: Option<Bytes> },
}

impl From<AllocError> for ViewFault {
    ghost use Rattle.backup_views.specs.declared.fault.ViewFault.TheVariants.{Memory};

    ghost from_gives = { λ _ fault. fault ≡ Memory };

    fn from(_: AllocError) -> ViewFault {
        ViewFault::Memory
    }
}

impl<T: Drop> From<AllocFailed<T>> for ViewFault {
    ghost use Rattle.backup_views.specs.declared.fault.ViewFault.TheVariants.{Memory};

    ghost from_gives = { λ _ fault. fault ≡ Memory };

    fn from(_: AllocFailed<T>) -> ViewFault {
        ViewFault::Memory
    }
}

impl fmt::Display for ViewFault {
    fn fmt<W: fmt::Write>(&self, f: &mut fmt::Formatter<W>) -> fmt::Result {
        match self {
            ViewFault::Disk => write!(f, "the disk failed"),
            ViewFault::Memory => write!(f, "no memory"),
            ViewFault::Damaged { .. } => write!(f, "the table of a backup is damaged"),
        }
    }
}

impl Error for ViewFault {}

/// What a fault of a journal that isn't halted is to a reader.
pub(crate) fn fault_of(fault: JournalFault) -> ViewFault
    requires { fault ≡ JournalFault.Halted → ⊥ }
    ensures kind { (result ≡ ViewFault.Disk) ⊎ (result ≡ ViewFault.Memory) }
    ensures disk { (result ≡ ViewFault.Disk) ↔ (fault ≡ JournalFault.Disk) }
{
    match fault {
        JournalFault::Disk => ViewFault::Disk,
        JournalFault::Memory => ViewFault::Memory,
        JournalFault::Halted => unreachable!(),
    }
}
