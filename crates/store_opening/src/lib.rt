//! Opening a store, and opening it again: the office that the files of a disk stand for is found, and made durable in its
//! next epoch.
//!
//! Nothing is written before the whole of the files was looked at: the pool, the catalog, and the counts and partials of hosts are
//! read, and no file is there that neither calls for, nor a content that counts have and the index lacks. Then one commit raises
//! the epoch. `Begins` of `specs/Begins` says what an opening comes to, of files that stand for one of two offices, and `Reopens` of
//! `specs/Reopens` what a reopening of a store does, whatever state it is in.
#![tactic(auto)]

mod again;
mod begin;
mod fault;
mod found;
mod laws;
mod next;
mod recover;
mod start;
mod stray;
mod tables;
mod unlisted;

pub use again::reopen;
pub use fault::OpenRefusal;
pub use laws::disk_without_files_is_blank;
pub use start::open;
