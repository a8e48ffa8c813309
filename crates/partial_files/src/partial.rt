use attr_tables::Table;
use backup_rules::Kind;

/// A dump that is not done. No row of one that was read is a deletion mark.
#[derive(Debug, Drop)]
pub struct PartialFile {
    /// What it was begun as.
    pub kind: Kind,
    /// When it was begun, in seconds since 1970.
    pub start: u64,
    /// What it has so far.
    pub rows: Table,
}
