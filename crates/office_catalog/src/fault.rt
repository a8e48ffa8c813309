//! Why no catalog was opened.

use disk_trait::{Bytes, FileId};
use std::alloc::AllocError;
use std::error::Error;
use std::fmt;

/// Why no catalog was opened.
#[derive(Debug, Drop)]
pub enum CatalogFault {
    /// Head is outside its layout; or the file of a host that it names is absent, outside its layout, or has another
    /// number or name: the file, and what was found of it.
    Foreign { file: FileId, found: Option<Bytes> },
    /// The disk failed; its count of faults rose.
    Disk,
    /// There was no memory.
    Memory,
}

impl From<AllocError> for CatalogFault {
    ghost use Rattle.std.specs.Prelude.{◌≡◌};
    ghost use Rattle.office_catalog.specs.declared.fault.CatalogFault.TheVariants.{Memory};

    ghost from_gives = { λ _ fault. fault ≡ Memory };

    fn from(_refused: AllocError) -> CatalogFault {
        CatalogFault::Memory
    }
}

impl fmt::Display for CatalogFault {
    fn fmt<W: fmt::Write>(&self, f: &mut fmt::Formatter<W>) -> fmt::Result {
        match self {
            CatalogFault::Foreign { .. } => write!(f, "a file doesn't belong to the catalog"),
            CatalogFault::Disk => write!(f, "the disk failed"),
            CatalogFault::Memory => write!(f, "no memory"),
        }
    }
}

impl Error for CatalogFault {}
