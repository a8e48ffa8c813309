//! Deletion of backups: what becomes of the lines and tables of a host whose backups are stored as reverse deltas. It
//! knows lines, tables and counts, and no file. The main clause: if the tables are what a list of backups is stored as,
//! the tables after [`fold`] are what the list without those numbers is stored as: the newest that is left becomes
//! filled, an unfilled backup whose next newer one is deleted becomes relative to the next newer one that is left, and
//! an entry that is the same there is dropped.
//!
//! Each run of deleted neighbours is folded once, and by tables alone: the entries of the run are laid over each other in
//! halves, and each is compared with the first newer table that has its path, no further than to the next filled one. The
//! newer tables are laid over each other in blocks for this. For a single run these are as large as those before them, and
//! are made as far as they are needed. For several runs they are made once for all, as far as runs need them whose next newer
//! table lacks a path, two become one while the farther isn't twice as large, and each entry is looked up in them by halving.
//! So a fold is linear in the entries of the tables that it touches, times how often these can be halved, and a deletion of
//! many runs is so, too. Only a run with a filled backup in it takes the two trees beside it, each in one pass over a filled
//! table.
//!
//! A caller that has the tables on a disk reads only those that a deletion touches: [`window_of`] names them, and
//! [`fold_within`] makes of them alone what [`fold`] makes of all.
//!
//! ```text
//! let folded = fold(alloc, index.lines(), tables.as_slice(), &[2])?;
//! let counts = take(alloc, &add(alloc, &counts, &folded.added)?, &folded.taken)?;
//! ```
#![tactic(auto)]

mod changes;
mod deletion;
mod entries;
mod lines;
mod lookups;
mod numbers;
mod runs;
mod tower;
mod trees;
mod walk;
mod windows;

pub use changes::TableChange;
pub use deletion::{Folded, fold};
pub use windows::{Window, fold_within, window_of};
