//! Why a backup wasn't restored.

ghost use Rattle.std.specs.Prelude.{◌≡◌};
ghost use Rattle.folder_restore.specs.Faults.{of_fault};

use folder_trait::FolderFault;
use office_model::Refusal;

/// Why a backup wasn't restored.
#[derive(Debug, Drop)]
pub enum RestoreRefusal {
    /// A call was refused so.
    Refused(Refusal),
    /// Something lies in the folder; nothing was called.
    NotEmpty,
    /// The folder failed; its count of faults rose.
    Folder,
    /// There was no memory.
    Memory,
}

/// What a fault of the folder is for a restore.
pub(crate) fn of_fault(fault: FolderFault) -> RestoreRefusal
    ensures { result ≡ of_fault fault }
{
    match fault {
        FolderFault::Failed => RestoreRefusal::Folder,
        FolderFault::Memory => RestoreRefusal::Memory,
    }
}
