ghost use Rattle.std.specs.Prelude.{◌≡◌};

use std::alloc::AllocError;
use std::error::Error;
use std::fmt;
use stream_traits::ReadFault;

/// Why a stream was not read.
#[derive(Clone, Copy, Debug, PartialEq, Eq)]
pub enum ReadStreamFault {
    /// A field that came whole breaks the layout; the offset is that of the first byte of its frame.
    BadStream(usize),
    /// The source ended in or before a field, and all before it holds.
    Ended,
    /// A read failed.
    ReadFault,
    /// There was no memory for what came.
    Memory,
}

impl fmt::Display for ReadStreamFault {
    fn fmt<W: fmt::Write>(&self, f: &mut fmt::Formatter<W>) -> fmt::Result {
        match self {
            ReadStreamFault::BadStream(offset) => {
                write!(f, "the frame at {offset} breaks the layout")
            }
            ReadStreamFault::Ended => write!(f, "the stream ended too early"),
            ReadStreamFault::ReadFault => write!(f, "a read failed"),
            ReadStreamFault::Memory => write!(f, "out of memory"),
        }
    }
}

impl Error for ReadStreamFault {}

impl From<AllocError> for ReadStreamFault {
    ghost use Rattle.restore_stream.specs.declared.faults.ReadStreamFault.TheVariants.{Memory};

    ghost from_gives = { λ _ fault. fault ≡ Memory };

    fn from(_error: AllocError) -> ReadStreamFault {
        ReadStreamFault::Memory
    }
}

impl From<ReadFault> for ReadStreamFault {
    ghost use Rattle.restore_stream.specs.Reading.{same_fault};

    ghost from_gives = { λ read fault. fault ≡ same_fault read };

    fn from(read: ReadFault) -> ReadStreamFault {
        match read {
            ReadFault::Ended => ReadStreamFault::Ended,
            ReadFault::Failed => ReadStreamFault::ReadFault,
            ReadFault::Memory => ReadStreamFault::Memory,
        }
    }
}
