//! What is wrong with a file.

use backup_rules::RulesFault;
use std::alloc::AllocError;
use std::error::Error;
use std::fmt;
use wire_bytes::{BadSeal, FieldFault, TrailingBytes};

/// Why a file is no head file and no host index, or want of memory.
#[derive(Clone, Copy, Debug, PartialEq, Eq)]
pub enum IndexFault {
    /// The file breaks the layout; the offset is that of the first byte of the header's field or of the
    /// list's item that breaks it, of the byte where a missing one should begin, of the first byte that is
    /// too much, or of the seal, which is judged first: the length less 16, or 0 in a shorter file.
    BadIndex(usize),
    /// There was no memory for what the file holds.
    Memory,
}

impl fmt::Display for IndexFault {
    fn fmt<W: fmt::Write>(&self, f: &mut fmt::Formatter<W>) -> fmt::Result {
        match self {
            IndexFault::BadIndex(offset) => write!(f, "the file breaks its layout at {offset}"),
            IndexFault::Memory => write!(f, "no memory for what the file holds"),
        }
    }
}

impl Error for IndexFault {}

impl From<FieldFault> for IndexFault {
    ghost use Rattle.std.specs.Prelude.{◌≡◌};
    ghost use Rattle.wire_bytes.specs.GrammarReading.{fault_offset};
    ghost use Rattle.backup_index.specs.Faults.{offset_of};

    ghost from_gives = { λ fault e. offset_of e ≡ fault_offset fault };

    fn from(fault: FieldFault) -> IndexFault {
        match fault {
            FieldFault::Ended(offset) => IndexFault::BadIndex(offset),
            FieldFault::Foreign(offset) => IndexFault::BadIndex(offset),
        }
    }
}

impl From<RulesFault> for IndexFault {
    ghost use Rattle.std.specs.Prelude.{◌≡◌};
    ghost use Rattle.backup_rules.specs.Layout.{offset_of as rules_offset};
    ghost use Rattle.backup_index.specs.Faults.{offset_of};

    ghost from_gives = { λ fault e. offset_of e ≡ rules_offset fault };

    fn from(fault: RulesFault) -> IndexFault {
        match fault {
            RulesFault::BadRules(offset) => IndexFault::BadIndex(offset),
            RulesFault::Memory => IndexFault::Memory,
        }
    }
}

impl From<BadSeal> for IndexFault {
    ghost use Rattle.std.specs.Prelude.{◌≡◌, Some};
    ghost use Rattle.backup_index.specs.Faults.{offset_of};

    ghost from_gives = { λ fault e. offset_of e ≡ Some fault.0 };

    fn from(fault: BadSeal) -> IndexFault {
        IndexFault::BadIndex(fault.0)
    }
}

impl From<TrailingBytes> for IndexFault {
    ghost use Rattle.std.specs.Prelude.{◌≡◌, Some};
    ghost use Rattle.backup_index.specs.Faults.{offset_of};

    ghost from_gives = { λ fault e. offset_of e ≡ Some fault.0 };

    fn from(fault: TrailingBytes) -> IndexFault {
        IndexFault::BadIndex(fault.0)
    }
}

impl From<AllocError> for IndexFault {
    ghost use Rattle.std.specs.Prelude.{◌≡◌, None};
    ghost use Rattle.backup_index.specs.Faults.{offset_of};

    ghost from_gives = { λ _ e. offset_of e ≡ None };

    fn from(_fault: AllocError) -> IndexFault {
        IndexFault::Memory
    }
}
