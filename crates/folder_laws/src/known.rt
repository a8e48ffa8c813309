//! A directory of a last backup that is still to be compared.

use attr_records::PathName;

/// A directory of the last backup, its root if it is None, and whether the folder has it as a directory.
#[derive(Debug, Drop)]
pub struct Known {
    pub directory: Option<PathName>,
    pub there: bool,
}
