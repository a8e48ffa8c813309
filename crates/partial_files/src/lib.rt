//! Partial dumps: what is kept of a dump that is not done, the rows that it has so far, and the file of it. It knows paths,
//! records, kinds and bytes, and neither contents nor disks. The main clause: `read_partial` gives the partial dump of a host
//! whose file the bytes are and refuses all other bytes with the first offset at which they break the layout, a deletion mark at
//! its first byte; and `write_partial` writes the file of each partial dump, by one grammar (`partial_grammar` of specs/).
//!
//! ```text
//! let bytes = write_partial(alloc, host, kind, start, &rows)?;
//! let PartialFile { kind, start, rows } = read_partial(alloc, bytes.as_slice(), host)?;
//! ```
#![tactic(auto)]

mod fault;
mod partial;
mod reading;
mod writing;

pub use fault::PartialFault;
pub use partial::PartialFile;
pub use reading::read_partial;
pub use writing::write_partial;
