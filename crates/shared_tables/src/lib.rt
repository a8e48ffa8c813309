//! A table that several hold: its rows are in memory once, for as long as one of them holds it.
//!
//! To a clause a [`SharedTable`] is its rows, as a `Table` is, so what is said of rows is said of both, and who holds
//! them with whom is a matter of memory alone. It knows tables, and nothing of whose they are.
//!
//! ```text
//! let view = SharedTable::new(alloc, table)?;
//! let same = view.share()?;
//! let record = same.find(&path);
//! ```
#![tactic(auto)]

mod shared;

pub use shared::SharedTable;
