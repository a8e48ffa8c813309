//! A journal over a disk: the changes of a commit come to stand all at once, and a crash at any moment leaves the files
//! before it or after it. It may know files by their names and disks by the trait `Disk`; what files mean it doesn't
//! know. Its main clause is `Commits` of `specs/Calls`: each image since a commit's start comes to the metadata before
//! or to that after, and after Ok to that after; contents of the pool and stages, which are written beside commits,
//! stay as they are unless they were touched since the last sync.
//!
//! A commit writes its changes to the file Intent, syncs, opens Gate, syncs, makes the changes, syncs, and closes Gate,
//! which the last sync makes durable; then it empties Intent, with no sync, since nothing reads it while Gate is closed. An
//! opening syncs, and where Gate is open makes the changes of Intent once more, closes Gate and empties Intent; where Gate
//! is closed it writes nothing. An image **comes to** files: they are its own where Gate is closed, and where it is open
//! its own with the changes of Intent laid over them (`ComesTo` of `specs/Overlay`).
//!
//! | Type | What it is |
//! |---|---|
//! | [`Journal`] | a disk at work, or halted after a failed commit or reopening |
//! | [`Changes`] | a list of [`Change`]s, each a file and its new bytes, or its removal |
//! | [`JournalFault`] | why a call gave no answer: the disk, a halted journal, memory |
//! | [`OpenJournalFault`] | why a journal wasn't opened: a foreign Intent, the disk, memory |
//!
//! ```text
//! let mut journal = Journal::open(alloc, disk)?;
//! journal.stage(FileId::Pool(id), content)?;
//! let mut changes = Changes::new(alloc);
//! changes.push(Change { file: FileId::Head, bytes: Some(head) })?;
//! journal.commit(alloc, &changes)?;   // the content and the head are durable
//! ```
#![tactic(auto)]

mod changes;
mod fault;
mod intent;
mod journal;
mod recovery;
mod steps;

pub use changes::{Change, Changes};
pub use fault::{JournalFault, OpenJournalFault};
pub use journal::Journal;
