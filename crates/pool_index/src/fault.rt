//! What is wrong with a file of the index.

ghost use Rattle.std.specs.Prelude.{◌≡◌};
ghost use Rattle.pool_index.specs.declared.fault.IndexFault.TheVariants.{Memory};

use std::alloc::{AllocError, AllocFailed};
use std::error::Error;
use std::fmt;

/// Why bytes are no file of the index, or want of memory.
#[derive(Clone, Copy, Debug, PartialEq, Eq)]
pub enum IndexFault {
    /// The file breaks the layout. The offset is that of the first byte of the header's field or of the item that
    /// breaks it, of the byte at which a missing item should begin, of the first byte that is too much, or of the
    /// seal, which is judged first: the length less 16, or 0 in a shorter file.
    BadIndex(usize),
    /// There was no memory for the items.
    Memory,
}

impl From<AllocError> for IndexFault {
    ghost from_gives = { λ _ fault. fault ≡ Memory };

    fn from(_: AllocError) -> IndexFault {
        IndexFault::Memory
    }
}

impl<T: Drop> From<AllocFailed<T>> for IndexFault {
    ghost from_gives = { λ _ fault. fault ≡ Memory };

    fn from(_: AllocFailed<T>) -> IndexFault {
        IndexFault::Memory
    }
}

impl fmt::Display for IndexFault {
    fn fmt<W: fmt::Write>(&self, f: &mut fmt::Formatter<W>) -> fmt::Result {
        match self {
            IndexFault::BadIndex(offset) => write!(f, "the index breaks its layout at {offset}"),
            IndexFault::Memory => write!(f, "no memory for the items of the index"),
        }
    }
}

impl Error for IndexFault {}
