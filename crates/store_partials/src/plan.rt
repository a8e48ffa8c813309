//! What is to be done, built before anything changes.

use host_partials::PartialHead;
use intent_journal::Changes;
use pool_changes::IndexChange;
use ref_counts::Counts;

/// What a park is to do, with all that takes memory.
#[derive(Drop)]
pub struct ParkPlan {
    /// The place of the host.
    pub host: usize,
    pub index: IndexChange,
    /// What is known of the partial then.
    pub head: PartialHead,
    /// The counts of the host then.
    pub counts: Counts,
    /// The changes of all files.
    pub changes: Changes,
}

/// What is to be done for a partial to be dropped.
#[derive(Drop)]
pub struct DropPlan {
    /// The counts of the host then.
    pub counts: Counts,
    /// The changes of all files.
    pub changes: Changes,
}
