//! The store: the office of backups on a disk, from events to durable files. It is the parts of `store_parts`, kept to
//! itself, and [`Store::apply`] carries out any event: a halted store answers `Halted`, and one at work hands the parts to the
//! function of the store crate that carries the event out. [`Store::open`] opens a disk, and `close` gives it back.
//! [`DirectPort`] is a store as the port of one caller.
//!
//! The main definition is `Serves` of `specs/Serves`: from each state that the store was in the event was answered by a step
//! of `office_model` to a state that it is in, and whatever a crash meanwhile leaves, an opening finds an office of that step.
//! `Moves` of `specs/Moves` says it of a list of calls: a legal history.
//!
//! Over any disk that tells its files, a damaged one too, `TellsDamage` of `specs/Damage` holds of each answer: after Ok each
//! table, partial, content and index that the event called for was there, in its grammar or with its digest, and `Damaged` names
//! one that wasn't, with what was found of it. An event that calls for no file never answers `Damaged`.
//!
//! ```text
//! let mut store = Store::open(alloc, disk, Md5Namer)?;
//! store.apply(alloc, &Event::AddHost { host, rules })?;
//! let disk = store.close();
//! ```
#![tactic(auto)]

mod apply;
mod laws;
mod opening;
mod port;
mod store;

pub use laws::{a_crash_leaves_what_one_of_the_events_may, a_crash_leaves_what_the_event_may};
pub use port::DirectPort;
pub use store::Store;
pub use store_opening::OpenRefusal;
