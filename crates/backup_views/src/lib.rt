//! The reading room of the store: the tree of a backup, out of the tables that show it. A filled backup's table is its
//! whole tree; an unfilled one's has the entries that differ from the next newer backup's tree, so its tree is viewed from
//! the nearest newer filled backup downwards.
//!
//! It knows the journal's files as a store sees them, and the tables; no offices and no contents. The main clause is
//! `tree` of `read_tree`: what is read is the tree that the files tell. `Views` keeps the view that was asked for last, so
//! that many reads of one backup decode its tables once, and shares its rows with those who hold them for longer.
//!
//! ```text
//! let mut views = Views::new();
//! views.load(alloc, &mut journal, host, &lines[index..])?;
//! let record = views.find(&path);
//! ```
#![tactic(auto)]

mod fault;
mod kept;
mod tables;

pub use fault::ViewFault;
pub use kept::{KeptView, Views};
pub use tables::{read_entries, read_tables, read_tree};
