//! What is wrong with a file of counts.

ghost use Rattle.std.specs.Prelude.{◌≡◌, Some, None};
ghost use Rattle.wire_bytes.specs.GrammarReading.{fault_offset};
ghost use Rattle.ref_counts.specs.Faults.{offset_of};

use std::alloc::{AllocError, AllocFailed};
use std::error::Error;
use std::fmt;
use wire_bytes::{BadSeal, FieldFault, TrailingBytes};

/// Why bytes are no file of a host's counts, or want of memory.
#[derive(Clone, Copy, Debug, PartialEq, Eq)]
pub enum CountsFault {
    /// The file breaks the layout. The offset is that of the first byte of the header's field or of the item that
    /// breaks it, of the byte at which a missing item should begin, of the first byte that is too much, or of the
    /// seal, which is judged first: the length less 16, or 0 in a shorter file.
    BadIndex(usize),
    /// There was no memory for the items.
    Memory,
}

impl From<FieldFault> for CountsFault {
    ghost from_gives = { λ fault e. offset_of e ≡ fault_offset fault };

    fn from(fault: FieldFault) -> CountsFault {
        match fault {
            FieldFault::Ended(offset) | FieldFault::Foreign(offset) => {
                CountsFault::BadIndex(offset)
            }
        }
    }
}

impl From<BadSeal> for CountsFault {
    ghost from_gives = { λ fault e. offset_of e ≡ Some fault.0 };

    fn from(fault: BadSeal) -> CountsFault {
        CountsFault::BadIndex(fault.0)
    }
}

impl From<TrailingBytes> for CountsFault {
    ghost from_gives = { λ fault e. offset_of e ≡ Some fault.0 };

    fn from(fault: TrailingBytes) -> CountsFault {
        CountsFault::BadIndex(fault.0)
    }
}

impl From<AllocError> for CountsFault {
    ghost from_gives = { λ _ e. offset_of e ≡ None };

    fn from(_fault: AllocError) -> CountsFault {
        CountsFault::Memory
    }
}

impl<T: Drop> From<AllocFailed<T>> for CountsFault {
    ghost from_gives = { λ _ e. offset_of e ≡ None };

    fn from(_fault: AllocFailed<T>) -> CountsFault {
        CountsFault::Memory
    }
}

impl fmt::Display for CountsFault {
    fn fmt<W: fmt::Write>(&self, f: &mut fmt::Formatter<W>) -> fmt::Result {
        match self {
            CountsFault::BadIndex(offset) => {
                write!(f, "the counts break their layout at {offset}")
            }
            CountsFault::Memory => write!(f, "no memory for the counts"),
        }
    }
}

impl Error for CountsFault {}
