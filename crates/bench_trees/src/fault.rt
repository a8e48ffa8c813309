use attr_records::BadPath;
use attr_tables::{PushFault, TableFault};
use dump_session::PutFault;
use std::alloc::{AllocError, AllocFailed};
use std::io;

/// Why nothing more is measured.
#[derive(Debug, Drop)]
pub enum Fault {
    /// The words are not `FOLDERS PUTS` or `fold BACKUPS FOLDERS`, and `time` or nothing behind them.
    Words,
    /// There was no memory.
    Memory,
    Path(BadPath),
    Push(PushFault),
    Table(TableFault),
    Put(PutFault),
    /// The clock or standard output failed.
    Io(io::Error),
}

impl From<AllocError> for Fault {
    fn from(_error: AllocError) -> Fault {
        Fault::Memory
    }
}

impl<T: Drop> From<AllocFailed<T>> for Fault {
    fn from(_error: AllocFailed<T>) -> Fault {
        Fault::Memory
    }
}

impl From<BadPath> for Fault {
    fn from(fault: BadPath) -> Fault {
        Fault::Path(fault)
    }
}

impl From<PushFault> for Fault {
    fn from(fault: PushFault) -> Fault {
        Fault::Push(fault)
    }
}

impl From<TableFault> for Fault {
    fn from(fault: TableFault) -> Fault {
        Fault::Table(fault)
    }
}

impl From<PutFault> for Fault {
    fn from(fault: PutFault) -> Fault {
        Fault::Put(fault)
    }
}

impl From<io::Error> for Fault {
    fn from(error: io::Error) -> Fault {
        Fault::Io(error)
    }
}
