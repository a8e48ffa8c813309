//! What is wrong with settings, and with bytes that were to be rules.

use crate::settings::Setting;
use std::alloc::{AllocError, AllocFailed};
use std::error::Error;
use std::fmt;

/// A setting that was to get a number out of its range.
#[derive(Clone, Copy, Debug, PartialEq, Eq)]
pub struct OutOfRange(pub Setting);

impl fmt::Display for OutOfRange {
    fn fmt<W: fmt::Write>(&self, f: &mut fmt::Formatter<W>) -> fmt::Result {
        let name = self.0.name();
        write!(f, "{name} is out of its range")
    }
}

impl Error for OutOfRange {}

/// Why no rules were read.
#[derive(Clone, Copy, Debug, PartialEq, Eq)]
pub enum RulesFault {
    /// The bytes break the layout. The offset, from the front of all that is read, is that of the first byte of the
    /// setting, of the number of a list's items or of the item that breaks it, or that where a missing one should
    /// begin.
    BadRules(usize),
    /// There was no memory for them.
    Memory,
}

impl fmt::Display for RulesFault {
    fn fmt<W: fmt::Write>(&self, f: &mut fmt::Formatter<W>) -> fmt::Result {
        match self {
            RulesFault::BadRules(offset) => write!(f, "the rules break at {offset}"),
            RulesFault::Memory => f.write_str("no memory"),
        }
    }
}

impl Error for RulesFault {}

impl<T: Drop> From<AllocFailed<T>> for RulesFault {
    ghost use Rattle.std.specs.Prelude.{◌≡◌};
    ghost use Rattle.backup_rules.specs.declared.faults.RulesFault.TheVariants.{Memory};

    ghost from_gives = { λ _ fault. fault ≡ Memory };

    fn from(_fault: AllocFailed<T>) -> RulesFault {
        RulesFault::Memory
    }
}

impl From<AllocError> for RulesFault {
    ghost use Rattle.std.specs.Prelude.{◌≡◌};
    ghost use Rattle.backup_rules.specs.declared.faults.RulesFault.TheVariants.{Memory};

    ghost from_gives = { λ _ fault. fault ≡ Memory };

    fn from(_fault: AllocError) -> RulesFault {
        RulesFault::Memory
    }
}
