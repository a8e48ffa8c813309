//! What is known of the partial dumps of all hosts of a store, in memory, and how partials are read from the files of a journal. It
//! knows the Partial files alone, and neither offices nor when a partial changes.
//!
//! Its main clauses: what [`read_all`] gives are the heads of the partials that the files hold, one place for each host (`AreTold` of
//! `specs/Held`); a file is refused as foreign only if it is there and holds no partial of its host, and then with what was found of it.
//!
//! Room for all hosts is taken when they are made, so putting and changing heads takes no memory.
//!
//! ```text
//! let mut partials = host_partials::read_all(alloc, &mut journal, catalog.hosts().len())?;
//! partials.push(None);
//! partials.set(host, Some(head));
//! ```
#![tactic(auto)]

mod fault;
mod held;
mod reading;

pub use fault::HostPartialsFault;
pub use held::{HostPartials, PartialHead};
pub use reading::{read_all, read_partial_of};
