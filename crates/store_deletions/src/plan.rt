//! What a deletion is to do, built before anything changes.

use intent_journal::Changes;
use office_catalog::CatalogChange;
use ref_counts::Counts;

/// What a deletion writes, and what memory has afterwards.
#[derive(Drop)]
pub struct DeletionPlan {
    /// The change of the host's lines, whose file is among the changes.
    pub catalog: CatalogChange,
    /// The host's counts.
    pub counts: Counts,
    /// The changes of all files.
    pub changes: Changes,
}
