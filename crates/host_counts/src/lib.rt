//! The counts of all hosts of a store, in memory, and how they are read from the files of a journal. It knows the Counts
//! files alone, and neither offices nor when a count changes.
//!
//! Its main clauses: what [`read_all`] gives are the counts that the files hold, one for each host (`AreTold` of
//! `specs/Held`), and files hold no others; a file is refused as foreign only if it holds no counts, and then with what was
//! found of it.
//!
//! Room for all hosts is taken when they are made, so putting and changing counts takes no memory.
//!
//! ```text
//! let mut counts = host_counts::read_all(alloc, &mut journal, catalog.hosts().len())?;
//! counts.push(Counts::new(alloc));
//! counts.set(host, next);
//! ```
#![tactic(auto)]

mod fault;
mod held;
mod reading;

pub use fault::HostCountsFault;
pub use held::HostCounts;
pub use reading::{read_all, read_counts_of};
