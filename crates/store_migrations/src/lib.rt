//! Tables of the first layout written anew: the event Migrate of a store at work.
//!
//! A host's tables are read one by one, each in the layout that it has. Those of the first are written in the second, all in one
//! commit of the journal; if there are none, nothing is written. No backup looks any different, so the view that is kept stays.
//! `specs/Migrated` says what is written, and what has become of the files; `specs/Called` what the event says of the tables that
//! it read, whatever the files stand for.
//!
//! ```text
//! migrate(&mut parts, alloc, &host)?;
//! ```
#![tactic(auto)]

mod gather;
mod migrating;
mod reading;

pub use migrating::migrate;
