//! Why no counts were read.

use disk_trait::{Bytes, FileId};
use std::alloc::AllocError;
use std::error::Error;
use std::fmt;

/// Why no counts were read.
#[derive(Debug, Drop)]
pub enum HostCountsFault {
    /// The file of a host's counts is absent, or outside the layout of this host's counts: the file, and what was found of
    /// it.
    Foreign { file: FileId, found: Option<Bytes> },
    /// The disk failed; its count of faults rose.
    Disk,
    /// There was no memory.
    Memory,
}

impl From<AllocError> for HostCountsFault {
    ghost use Rattle.std.specs.Prelude.{◌≡◌};
    ghost use Rattle.host_counts.specs.declared.fault.HostCountsFault.TheVariants.{Memory};

    ghost from_gives = { λ _ fault. fault ≡ Memory };

    fn from(_refused: AllocError) -> HostCountsFault {
        HostCountsFault::Memory
    }
}

impl fmt::Display for HostCountsFault {
    fn fmt<W: fmt::Write>(&self, f: &mut fmt::Formatter<W>) -> fmt::Result {
        match self {
            HostCountsFault::Foreign { .. } => write!(f, "a file holds no counts of its host"),
            HostCountsFault::Disk => write!(f, "the disk failed"),
            HostCountsFault::Memory => write!(f, "no memory"),
        }
    }
}

impl Error for HostCountsFault {}
