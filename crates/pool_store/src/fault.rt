//! Why a call of a pool gives no answer.

ghost use Rattle.std.specs.Prelude.{◌≡◌};

use disk_trait::{Bytes, FileId, PoolId};
use std::alloc::AllocError;
use std::error::Error;
use std::fmt;

/// Why a call of a pool gave no answer.
#[derive(Debug, Drop)]
pub enum PoolFault {
    /// A file of the index is outside its layout, the one file of older stores stands beside that of a byte, or a
    /// content that the index lists has no file: the file, and what was found of it. At an opening alone. So is the file
    /// of a stage that isn't as long as what was put into it.
    Foreign { file: FileId, found: Option<Bytes> },
    /// The disk failed; its count of faults rose.
    Disk,
    /// There was no memory.
    Memory,
    /// The file of a name is absent, or has another digest than the name: what was found of it. At a read alone.
    Damaged { id: PoolId, found: Option<Bytes> },
    /// No live or staged file holds the content, and each of the 65,536 names of its digest is used.
    ChainFull,
}

impl From<AllocError> for PoolFault {
    ghost use Rattle.pool_store.specs.declared.fault.PoolFault.TheVariants.{Memory};

    ghost from_gives = { λ _ fault. fault ≡ Memory };

    fn from(_: AllocError) -> PoolFault {
        PoolFault::Memory
    }
}

impl fmt::Display for PoolFault {
    fn fmt<W: fmt::Write>(&self, f: &mut fmt::Formatter<W>) -> fmt::Result {
        match self {
            PoolFault::Foreign { .. } => write!(f, "a file doesn't belong to the pool"),
            PoolFault::Disk => write!(f, "the disk failed"),
            PoolFault::Memory => write!(f, "no memory"),
            PoolFault::Damaged { .. } => write!(f, "the file of a content is damaged"),
            PoolFault::ChainFull => write!(f, "each name of the digest is used"),
        }
    }
}

impl Error for PoolFault {}
