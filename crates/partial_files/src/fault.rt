//! What is wrong with the file of a partial dump.

ghost use Rattle.std.specs.Prelude.{◌≡◌, Some, None};
ghost use Rattle.wire_bytes.specs.GrammarReading.{fault_offset};
ghost use Rattle.attr_tables.specs.Tables.{offset_of as table_offset};
ghost use Rattle.partial_files.specs.Faults.{offset_of};

use attr_tables::TableFault;
use std::alloc::AllocError;
use std::error::Error;
use std::fmt;
use wire_bytes::{BadSeal, FieldFault, TrailingBytes};

/// Why bytes are no file of a host's partial dump, or want of memory.
#[derive(Clone, Copy, Debug, PartialEq, Eq)]
pub enum PartialFault {
    /// The file breaks the layout. The offset is that of the first byte of the header's field or of the row that breaks
    /// it, a deletion mark too, of the byte at which a missing row should begin, of the first byte that is too much, or of
    /// the seal, which is judged first: the length less 16, or 0 in a shorter file.
    BadPartial(usize),
    /// There was no memory for the rows.
    Memory,
}

impl From<FieldFault> for PartialFault {
    ghost from_gives = { λ fault e. offset_of e ≡ fault_offset fault };

    fn from(fault: FieldFault) -> PartialFault {
        match fault {
            FieldFault::Ended(offset) | FieldFault::Foreign(offset) => {
                PartialFault::BadPartial(offset)
            }
        }
    }
}

impl From<TableFault> for PartialFault {
    ghost from_gives = { λ fault e. offset_of e ≡ table_offset fault };

    fn from(fault: TableFault) -> PartialFault {
        match fault {
            TableFault::BadTable(offset) => PartialFault::BadPartial(offset),
            TableFault::Memory => PartialFault::Memory,
        }
    }
}

impl From<BadSeal> for PartialFault {
    ghost from_gives = { λ fault e. offset_of e ≡ Some fault.0 };

    fn from(fault: BadSeal) -> PartialFault {
        PartialFault::BadPartial(fault.0)
    }
}

impl From<TrailingBytes> for PartialFault {
    ghost from_gives = { λ fault e. offset_of e ≡ Some fault.0 };

    fn from(fault: TrailingBytes) -> PartialFault {
        PartialFault::BadPartial(fault.0)
    }
}

impl From<AllocError> for PartialFault {
    ghost from_gives = { λ _ e. offset_of e ≡ None };

    fn from(_fault: AllocError) -> PartialFault {
        PartialFault::Memory
    }
}

impl fmt::Display for PartialFault {
    fn fmt<W: fmt::Write>(&self, f: &mut fmt::Formatter<W>) -> fmt::Result {
        match self {
            PartialFault::BadPartial(offset) => {
                write!(f, "the partial dump breaks its layout at {offset}")
            }
            PartialFault::Memory => write!(f, "no memory for the partial dump"),
        }
    }
}

impl Error for PartialFault {}
