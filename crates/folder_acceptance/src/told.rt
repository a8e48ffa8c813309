//! Who is told how far a walk is.

use crate::folders::expect;
use crate::strange::ODD;
use attr_records::PathName;
use folder_trait::Progress;
use std::test::Fail;

/// The last numbers that were told, and how many files had gone: those of the odd name, and others.
#[derive(Clone, Copy)]
pub(crate) struct Told {
    pub entries: u64,
    pub bytes: u64,
    odd: u64,
    others: u64,
}

impl Progress for Told {
    fn went_on(&mut self, entries: u64, bytes: u64) {
        self.entries = entries;
        self.bytes = bytes;
    }

    fn passed_over(&mut self, path: &PathName) {
        if path.as_slice() == ODD {
            self.odd = self.odd.saturating_add(1);
        } else {
            self.others = self.others.saturating_add(1);
        }
    }
}

pub(crate) fn told_nothing() -> Told {
    Told {
        entries: 0,
        bytes: 0,
        odd: 0,
        others: 0,
    }
}

/// It fails unless all mixed entries were told, and so many files of the odd name, and no others, had gone.
pub(crate) fn expect_mixed(told: Told, odd: u64) -> Result<(), Fail> {
    expect(told.entries == 6, "other entries")?;
    expect(told.bytes == 10, "other bytes")?;
    expect(told.odd == odd, "others had gone")?;
    expect(told.others == 0, "more was told")
}
