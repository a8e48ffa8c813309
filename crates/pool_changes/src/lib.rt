//! The used names of a pool in memory, and the files of its index behind a change of it. The crate knows names, what is
//! known of each, and the items that an index has of them; it reads and writes no files.
//!
//! Its main clause: a commit of an [`IndexChange`] leads from files that tell the index of the names to files that tell
//! the index of the names behind the change, and writes no file whose items stay (`LeadsIndex` of `specs/`).
//!
//! | Type | What it is |
//! |---|---|
//! | [`Names`] | the used names in order, with a [`Slot`] each |
//! | [`IndexChange`] | what a commit is to change in the index, and the changes of its files |
//! | [`BucketItem`], [`BucketItemList`] | the contents that a cleaning looks at |
//! | [`PoolStats`] | how many contents there are, and their bytes |
//!
//! ```text
//! let change = IndexChange::new(alloc, &names, false, &[id], &[], &[], &[])?;
//! journal.commit(alloc, change.changes())?;
//! change.make(&mut names);
//! ```
#![tactic(auto)]

mod index;
mod key;
mod listing;
mod names;
mod slot;
mod small;
mod turning;
mod writing;

pub use index::IndexChange;
pub use listing::{BucketItem, BucketItemList, PoolStats, bucket_items, stats};
pub use names::{Names, least_of};
pub use slot::Slot;
