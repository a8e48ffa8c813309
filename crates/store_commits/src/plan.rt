//! What a commit is to do, built before anything changes.

use attr_tables::Table;
use intent_journal::Changes;
use office_catalog::CatalogChange;
use pool_changes::IndexChange;
use ref_counts::Counts;

/// What a commit is to do, with all that takes memory.
#[derive(Drop)]
pub struct Plan {
    /// The number of the new backup.
    pub number: u32,
    /// The place of its host.
    pub host: usize,
    pub catalog: CatalogChange,
    pub index: IndexChange,
    /// The rows of the new backup.
    pub rows: Table,
    /// The counts of the host after it.
    pub counts: Counts,
    /// The changes of all files.
    pub changes: Changes,
}
