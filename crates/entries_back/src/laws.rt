//! The law as a clause of a function that does nothing.

ghost use Rattle.entries_back.specs.Laws.{EntriesReadBack};

/// What is read of the body of a directory's listing is that listing.
pub fn entries_read_back()
    ensures { EntriesReadBack }
{}
