//! What files stand for after a deletion of backups: the host whose index, tables and counts are those of a deletion has the
//! backups that are left, the last of them filled, each with the tree that it had. It knows files and offices, and has
//! laws alone, as functions of no body. A layer above cites `deletion_stands` of `specs/OfficeLaws`, by which files stand for the
//! office with that host in its place, and `deleted_left` and `expired_left`, by which the model leaves these backups.
#![tactic(auto)]

mod laws;

pub use laws::{
    flagged_backups_are_deleted, host_after_a_deletion, office_after_a_deletion,
    one_backup_is_deleted,
};
