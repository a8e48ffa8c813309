//! The head of a store and the indices of its hosts, in memory: look-ups by name and number, and for each change what is
//! known after it and the files that change. It knows the files Head and Host, and nothing of offices, trees, contents or
//! of when a change is allowed.
//!
//! Its main clause: a catalog is the one that the files hold (`HoldsCatalog` of `specs/Held`), and the changes that it
//! proposes, laid over any files that hold it, give files that hold what is known after them (`Proposes` of
//! `specs/Changed`). Files hold one catalog at most, and an opening refuses none that they hold.
//!
//! | Type | What it is |
//! |---|---|
//! | [`Catalog`] | the epoch, and the index of each host in the order of adding |
//! | [`CatalogChange`] | a change that isn't made yet, with the changes of its files |
//! | [`CatalogFault`] | why no catalog was opened |
//!
//! A change is proposed, which changes nothing, then committed by the journal, then accepted, which takes no memory.
//!
//! ```text
//! let mut catalog = office_catalog::open(alloc, &mut journal)?;
//! let change = catalog.propose_host(alloc, name, rules)?;
//! journal_view::commit(&mut journal, alloc, change.changes())?;
//! catalog.accept(change);
//! ```
#![tactic(auto)]

mod catalog;
mod edits;
mod fault;
mod laws;
mod named;
mod opening;
mod proposals;
mod reading;

pub use catalog::Catalog;
pub use edits::CatalogChange;
pub use fault::CatalogFault;
pub use laws::{files_hold_one_catalog, held_files_are_not_foreign, no_other_file_counts};
pub use opening::open;
