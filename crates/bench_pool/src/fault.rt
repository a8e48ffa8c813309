use disk_trait::Failed;
use intent_journal::JournalFault;
use pool_store::PoolFault;
use std::alloc::{AllocError, AllocFailed};
use std::io;

/// Why nothing more is measured.
#[derive(Debug, Drop)]
pub enum Fault {
    /// The words are not `CONTENTS LOOKUPS` or these and `time`, `files` or `names`.
    Words,
    /// There was no memory.
    Memory,
    /// The disk in memory failed.
    Disk,
    /// The journal made no commit.
    Journal(JournalFault),
    /// The pool gave no answer.
    Pool(PoolFault),
    /// A name isn't that of a content.
    Name,
    /// The clock or standard output failed.
    Io(io::Error),
}

impl From<AllocError> for Fault {
    fn from(_error: AllocError) -> Fault {
        Fault::Memory
    }
}

impl<T: Drop> From<AllocFailed<T>> for Fault {
    fn from(_error: AllocFailed<T>) -> Fault {
        Fault::Memory
    }
}

impl From<Failed> for Fault {
    fn from(_failed: Failed) -> Fault {
        Fault::Disk
    }
}

impl From<JournalFault> for Fault {
    fn from(fault: JournalFault) -> Fault {
        Fault::Journal(fault)
    }
}

impl From<PoolFault> for Fault {
    fn from(fault: PoolFault) -> Fault {
        Fault::Pool(fault)
    }
}

impl From<io::Error> for Fault {
    fn from(error: io::Error) -> Fault {
        Fault::Io(error)
    }
}
