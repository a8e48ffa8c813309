//! The files of the pool's index: which contents a pool holds, with size and mark. The crate knows items, their order
//! and the bytes of files, and nothing of disks or of a pool's names.
//!
//! A store has a file for each first byte with which the digest of a listed content begins, and none for a byte
//! without contents. An older store has all items in one file, which is read and never written. Which of them is meant
//! is an option: the byte, or `None`. Both are sealed. [`read_index`] reads exactly the files of the layout, and tells
//! the first offset at which other bytes break it; what files tell of an index is `TellsIndex` of `specs/`.
//!
//! ```text
//! let items = read_index(alloc, Some(0x5d), bytes)?;
//! let bytes = write_bucket(alloc, 0x5d, items.as_slice())?;
//! ```
#![tactic(auto)]

mod fault;
mod file;
mod item;
mod reading;
mod writing;

pub use fault::IndexFault;
pub use file::read_index;
pub use item::{IndexItem, is_behind};
pub use writing::write_bucket;
