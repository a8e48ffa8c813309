//! How far a walk is.

use attr_records::PathName;

/// Who is told how far a walk is. Nothing is said of it: it sees numbers and paths, and changes nothing but itself.
pub trait Progress {
    /// This many entries, with this many bytes of files, were handed on since the walk began.
    fn went_on(&mut self, entries: u64, bytes: u64);

    /// The file at this path has gone since it was listed: it isn't handed on.
    fn passed_over(&mut self, path: &PathName);
}

/// Nobody is told.
#[derive(Clone, Copy, Debug)]
pub struct NoProgress;

impl Progress for NoProgress {
    fn went_on(&mut self, _entries: u64, _bytes: u64) {}

    fn passed_over(&mut self, _path: &PathName) {}
}

/// Entries and bytes since a walk began, and who is told of them. Both numbers stand still at `u64::MAX`.
#[derive(Drop)]
pub struct Count<'a, G: Progress> {
    entries: u64,
    bytes: u64,
    told: &'a mut G,
}

impl<'a, G: Progress> Count<'a, G> {
    /// Nothing was handed on so far.
    pub fn new(told: &'a mut G) -> Count<'a, G> {
        Count {
            entries: 0,
            bytes: 0,
            told,
        }
    }

    /// More entries and more bytes were handed on. It is told.
    pub fn add(&mut self, entries: u64, bytes: u64) {
        self.entries = self.entries.saturating_add(entries);
        self.bytes = self.bytes.saturating_add(bytes);
        self.told.went_on(self.entries, self.bytes);
    }

    /// The file at this path has gone. It is told.
    pub fn pass_over(&mut self, path: &PathName) {
        self.told.passed_over(path);
    }
}
