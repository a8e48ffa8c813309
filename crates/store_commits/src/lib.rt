//! What a commit of an open dump is to do: the dump becomes its host's next backup.
//!
//! One commit of the journal writes the new table, the former newest's table if it doesn't stay filled, the host's index, the host's
//! counts, and the files of the pool's index that change, and takes away the file of the host's partial, if it has one. If the dump was
//! opened with a token, the commit's receipt stands in the host's index. [`plan_commit`] reads what it must and builds all of it, and
//! changes nothing: so want of memory leaves everything as it was. [`accept_commit`] makes in memory what was committed.
//!
//! Which line the backup has is judged first: [`commit_dump`] gives it the host's next number and this time, [`adopt_dump`] the number,
//! the times and the kind that it has on another server, if that number isn't below the host's next one. All behind that is one path.
//!
//! Either is the event that plans, writes and finishes: it promises `Runs` of store_parts, and, over whatever the disk tells,
//! `HeedsTables` or `HeedsAdopted` of `specs/Tables`: after Ok the former newest's table and the host's partial were there if they were called for, and
//! one that isn't there is named. A dump that isn't open has the answer of its receipt, or is refused if it has none; either does
//! nothing, and reads nothing.
//!
//! Its laws are those of what stands in the files afterwards (`specs/OfficeLaws`, `specs/HostLaws`, `specs/LineLaws`), of the layout of
//! the tables that are written (`specs/LayoutLaws`), of what is open without the dump and its stages (`specs/Ending`), of the parts that
//! then hold the office (`specs/RunningLaws`), of the steps to that (`specs/EventLaws`, `specs/HoldLaws`), and of the two lines
//! (`specs/NumberLaws`).
//!
//! What a commit has in common with other events that store rows is [`settle_rows`], [`ids_of`] and [`unpark`], and [`parked_rows`]
//! for those that take a partial's rows from the counts.
//!
//! | Type | What it is |
//! |---|---|
//! | [`Plan`] | the changes of all files, and of catalog and pool behind them |
//! | [`Lines`] | the line of the new backup, the former newest's, if it doesn't stay filled, and the receipt, if there is one |
//! | [`Gathered`], [`HostRows`], [`Folding`] | what was read of the host, and its counts then |
//! | [`HostFiles`], [`Former`] | the bytes of the host's files |
#![tactic(auto)]

mod build;
mod commit;
mod counts;
mod event;
mod files;
mod finish;
mod former;
mod gather;
mod ids;
mod judge;
mod numbering;
mod parked;
mod plan;
mod settling;

pub use commit::plan_commit;
pub use event::{adopt_dump, commit_dump};
pub use files::{Former, HostFiles};
pub use finish::accept_commit;
pub use former::Folding;
pub use gather::{Gathered, HostRows};
pub use ids::ids_of;
pub use judge::Lines;
pub use parked::{parked_rows, unpark};
pub use plan::Plan;
pub use settling::settle_rows;
