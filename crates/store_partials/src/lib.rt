//! The events of partials in a store at work: an open dump is parked, a partial is dropped, and told of. The crate knows the parts of a
//! store, and of a commit what it lists in the pool's index.
//!
//! | Function | The event |
//! |---|---|
//! | [`park`] | an open dump's kind, start and tree become its host's partial, and the dump stays open |
//! | [`drop_partial`] | a host's partial is dropped; its contents stay in the pool until a cleaning |
//! | [`partial_info`] | how many paths a host's partial has, of which kind it is, and when it was begun |
//!
//! A change is planned whole before anything changes, as a commit is: the host's partial is read if one is known, and its rows are taken
//! out of the host's counts; then one commit of the journal writes the host's counts and its partial, and, for a park, the files of the
//! pool's index that change. So want of memory leaves everything as it was. Each event promises `Runs` of store_parts; the first two
//! also say, over whatever the disk tells, that the old partial was there after Ok if one was known, and one that isn't there is named
//! (`HeedsPartial` of `specs/Heeding`). `specs/Parked` says what is planned, `specs/AfterLaws` what then stands in the files of the
//! host, `specs/ParkLaws` and `specs/DropLaws` that the parts hold the office after it.
#![tactic(auto)]

mod build;
mod dropping;
mod files;
mod finish;
mod gather;
mod informing;
mod parking;
mod plan;
mod planning;
mod rows;

pub use dropping::drop_partial;
pub use finish::accept_park;
pub use informing::partial_info;
pub use parking::park;
pub use plan::{DropPlan, ParkPlan};
pub use planning::{plan_drop, plan_park};
