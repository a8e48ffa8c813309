use disk_trait::Failed;
use intent_journal::JournalFault;
use std::alloc::AllocError;
use std::io;

/// Why nothing more is measured.
#[derive(Debug, Drop)]
pub enum Fault {
    /// The words are none of `FILES BYTES`, `judge ITEMS TABLES`, and these with `time`.
    Words,
    /// A file would be changed twice by one commit.
    Twice,
    /// There was no memory.
    Memory,
    /// The disk in memory failed.
    Disk,
    /// The journal made no commit.
    Journal(JournalFault),
    /// The clock or standard output failed.
    Io(io::Error),
}

impl From<AllocError> for Fault {
    fn from(_error: AllocError) -> Fault {
        Fault::Memory
    }
}

impl From<Failed> for Fault {
    fn from(_failed: Failed) -> Fault {
        Fault::Disk
    }
}

impl From<JournalFault> for Fault {
    fn from(fault: JournalFault) -> Fault {
        Fault::Journal(fault)
    }
}

impl From<io::Error> for Fault {
    fn from(error: io::Error) -> Fault {
        Fault::Io(error)
    }
}
