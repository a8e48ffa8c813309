//! What the calls of a disk tell of the store that makes them.

use disk_trait::FileId;

/// A commit failed.
const HALTED: &str = "halted: reopen or restart";

/// The store goes on with what an opening found.
const REOPENED: &str = "reopened";

/// Where a store is, by the calls that its disk had; at first it isn't open. An opening begins as `gate` is read. A commit begins as
/// `intent` gets bytes and ends as it is emptied; an opening ends with a commit of its own.
#[derive(Default, Drop)]
pub struct StoreState {
    is_open: bool,
    is_opening: bool,
    is_committing: bool,
}

impl StoreState {
    /// A file is read.
    pub fn reads(&mut self, file: FileId) {
        if let FileId::Gate = file {
            self.is_opening = true;
        }
    }

    /// A file is written.
    pub fn writes(&mut self, file: FileId, bytes: &[u8]) {
        if let FileId::Intent = file {
            self.is_committing = self.is_committing || !bytes.is_empty();
        }
    }

    /// A file was written. What is to be told then, if anything is.
    pub fn wrote(&mut self, file: FileId, bytes: &[u8]) -> Option<&'static str> {
        match file {
            FileId::Intent if bytes.is_empty() && self.is_committing => {
                let is_again = self.is_open && self.is_opening;
                self.is_committing = false;
                self.is_opening = false;
                self.is_open = true;
                if is_again { Some(REOPENED) } else { None }
            }
            _ => None,
        }
    }

    /// A call failed. What is to be told then, if anything is.
    pub fn failed(&mut self) -> Option<&'static str> {
        let was_committing = self.is_committing;
        self.is_committing = false;
        if self.is_open && was_committing {
            Some(HALTED)
        } else {
            None
        }
    }
}
