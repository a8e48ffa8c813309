//! Counts: how often a host's stored backups name each content of the pool, and the rule by which a content leaves the
//! pool. It knows ids, tables and bytes, and neither pools nor disks. The main clauses: [`recount`] of what backups are
//! stored as has a number above 0 exactly for the ids that some backup's tree names, so a content without a number is in
//! none of them; [`add`] and [`take`] change each number by that of the other counts; and [`read_counts`] gives the
//! counts whose file the bytes are, and refuses all other bytes with the first offset at which they break the layout.
//!
//! A number that would pass the greatest one, 2^64 - 1, stays at it, and one that would fall below 0 is 0. So each call
//! has a result for every input, which is the exact sum or difference if that is a number.
//!
//! ```text
//! let counts = recount(alloc, tables)?;
//! let bytes = write_counts(alloc, host, &add(alloc, &counts, &count_tables(alloc, &[table])?)?)?;
//! ```
#![tactic(auto)]

mod cleaning;
mod counts;
mod fault;
mod item;
mod laws;
mod reading;
mod tally;
mod writing;

pub use cleaning::next_mark;
pub use counts::{Counts, add, number, take};
pub use fault::CountsFault;
pub use item::CountItem;
pub use laws::{bridge_law, commit_law, same_counts_law};
pub use reading::read_counts;
pub use tally::{Tally, add_table, count_tables, recount, take_table};
pub use writing::write_counts;
