//! The nightly cleaning of a bucket of the pool, in two passes: a content that nothing calls for is marked, and leaves the
//! pool at a later cleaning that finds it marked and still not called for. It knows the pool by its calls and the counts
//! of hosts, and no disk.
//!
//! The main clause: the names behind the change of [`clean`] are `cleaned` of specs/, name by name. The store commits the
//! change's files by its journal and lets the pool accept it.
//!
//! ```text
//! let cleaning = clean(alloc, &pool, &counts, bucket)?;
//! journal.commit(alloc, cleaning.change.changes())?;
//! pool.accept(cleaning.change);
//! ```
#![tactic(auto)]

mod cleaning;

pub use cleaning::{Cleaning, clean};
