//! Why a folder wasn't dumped.

use attr_records::BadPath;
use office_model::Refusal;

/// Why a folder wasn't dumped. What came first is told, whatever the abort answered.
#[derive(Debug, Drop)]
pub enum DumpRefusal {
    /// A call was refused so.
    Refused(Refusal),
    /// The folder lists a path that breaks this rule of paths.
    BadPath(BadPath),
    /// The folder lists a link whose target is none.
    BadTarget,
    /// The folder lists a file of more than 1,099,511,627,775 bytes.
    FileTooLarge,
    /// The folder failed; its count of faults rose.
    Folder,
    /// There was no memory.
    Memory,
}
