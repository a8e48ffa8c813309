//! Why no partial was read.

use disk_trait::{Bytes, FileId};
use std::alloc::AllocError;
use std::error::Error;
use std::fmt;

/// Why no partial was read.
#[derive(Debug, Drop)]
pub enum HostPartialsFault {
    /// The file of a host's partial is outside the layout of this host's partial: the file, and what was found of it.
    Foreign { file: FileId, found: Bytes },
    /// The disk failed; its count of faults rose.
    Disk,
    /// There was no memory.
    Memory,
}

impl From<AllocError> for HostPartialsFault {
    ghost use Rattle.std.specs.Prelude.{◌≡◌};
    ghost use Rattle.host_partials.specs.declared.fault.HostPartialsFault.TheVariants.{Memory};

    ghost from_gives = { λ _ fault. fault ≡ Memory };

    fn from(_refused: AllocError) -> HostPartialsFault {
        HostPartialsFault::Memory
    }
}

impl fmt::Display for HostPartialsFault {
    fn fmt<W: fmt::Write>(&self, f: &mut fmt::Formatter<W>) -> fmt::Result {
        match self {
            HostPartialsFault::Foreign { .. } => write!(f, "a file holds no partial of its host"),
            HostPartialsFault::Disk => write!(f, "the disk failed"),
            HostPartialsFault::Memory => write!(f, "no memory"),
        }
    }
}

impl Error for HostPartialsFault {}
