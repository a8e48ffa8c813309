//! The disk that a store is kept on: whole files of bytes under names of the store's own.
//!
//! A layer above knows a disk by the trait `Disk` alone. Its main clauses say what a read finds, that
//! a write changes one file and no other, and that a call fails only where the disk's count of faults
//! rose. `MemoryDisk` is the disk that tells its files and fails where it is asked to.
#![tactic(auto)]

mod disk;
mod ids;
mod image;
mod list;
mod log;
mod map;
mod memory;
mod script_images;

pub use disk::{Disk, DiskError, Failed};
pub use ids::{FileId, PoolId};
pub use image::Choice;
pub use list::FileList;
pub use memory::{DiskRoom, MemoryDisk};
pub use owned_bytes::Bytes;
pub use script_images::{ScriptImage, ScriptImages};
