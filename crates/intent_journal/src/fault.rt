//! Why a call of a journal gave no answer.

use disk_trait::{Bytes, FileId};
use std::alloc::AllocError;
use std::error::Error;
use std::fmt;

/// Why a call of a journal gave no answer.
#[derive(Clone, Copy, Debug, PartialEq, Eq)]
pub enum JournalFault {
    /// The disk failed; its count of faults rose.
    Disk,
    /// An earlier commit or reopening failed: the journal is to be reopened. Nothing was done.
    Halted,
    /// There was no memory; nothing was written.
    Memory,
}

impl fmt::Display for JournalFault {
    fn fmt<W: fmt::Write>(&self, f: &mut fmt::Formatter<W>) -> fmt::Result {
        match self {
            JournalFault::Disk => write!(f, "the disk failed"),
            JournalFault::Halted => write!(f, "the journal is halted"),
            JournalFault::Memory => write!(f, "no memory"),
        }
    }
}

impl Error for JournalFault {}

impl From<AllocError> for JournalFault {
    ghost use Rattle.std.specs.Prelude.{◌≡◌};
    ghost use Rattle.intent_journal.specs.declared.fault.JournalFault.TheVariants.{Memory};

    ghost from_gives = { λ _ fault. fault ≡ Memory };

    fn from(_refused: AllocError) -> JournalFault {
        JournalFault::Memory
    }
}

/// Why a journal wasn't opened.
#[derive(Debug, Drop)]
pub enum OpenJournalFault {
    /// A file, with the bytes that were found in it, is outside its layout. Nothing was written.
    Foreign { file: FileId, found: Option<Bytes> },
    /// The disk failed; its count of faults rose.
    Disk,
    /// There was no memory; nothing was written.
    Memory,
}

impl fmt::Display for OpenJournalFault {
    fn fmt<W: fmt::Write>(&self, f: &mut fmt::Formatter<W>) -> fmt::Result {
        match self {
            OpenJournalFault::Foreign { .. } => write!(f, "a file is outside its layout"),
            OpenJournalFault::Disk => write!(f, "the disk failed"),
            OpenJournalFault::Memory => write!(f, "no memory"),
        }
    }
}

impl Error for OpenJournalFault {}

impl From<AllocError> for OpenJournalFault {
    ghost use Rattle.std.specs.Prelude.{◌≡◌};
    ghost use Rattle.intent_journal.specs.declared.fault.OpenJournalFault.TheVariants.{Memory};

    ghost from_gives = { λ _ fault. fault ≡ Memory };

    fn from(_refused: AllocError) -> OpenJournalFault {
        OpenJournalFault::Memory
    }
}
