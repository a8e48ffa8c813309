//! Deletions of backups: the events Delete and Expire of a store at work.
//!
//! One commit of the journal writes the host's index and counts, and each table of it that changes, and takes away the tables of
//! the backups that go, whatever their number; the receipts of their commits stay. [`plan_deletion`] reads the host's tables that
//! the deletion touches, a window of its backups (`IsWindow` of backup_delete), and builds all of it: so want of memory leaves
//! everything as it was. `specs/Planned` says what a plan leads to: if the files stand for a host, they have the deletion
//! (`IsDeletion` of office_deletion) after the changes.
//!
//! | Function | The event |
//! |---|---|
//! | [`delete`] | a backup leaves its host |
//! | [`expire`] | the backups leave a host that its keeping rules name |
//!
//! Each promises `Runs` of store_parts, and says which tables were there, whatever the files stand for (`specs/Called`). They judge
//! by what is in memory, then plan, write, and make in memory what was written. `specs/MeaningLaws` says what they are to the model,
//! `specs/AfterLaws` what then stands in the files, `specs/RunLaws` that the parts hold the office after it.
#![tactic(auto)]

mod build;
mod counts;
mod deleting;
mod expiring;
mod files;
mod judge;
mod plan;
mod planning;
mod shorten;

pub use deleting::delete;
pub use expiring::expire;
pub use plan::DeletionPlan;
pub use planning::plan_deletion;
