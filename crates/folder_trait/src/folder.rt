//! What a walk asks of a folder.

ghost use Rattle.std.specs.Prelude.{◌≡◌, ℕ, List, Option, Some, IfOk, OnOk, IsErrOf};
ghost use Rattle.std.specs.Option.{ForSome, option_copied};
ghost use Rattle.fault_counts.specs.Counts.{Counted};
ghost use Rattle.attr_records.specs.Items.{Tree, is_dir};
ghost use Rattle.attr_records.specs.Trees.{IsTree};
ghost use Rattle.folder_trait.specs.Folders.{IsListing, IsReading, IsPieceRead, IsEmptiness, IsFree, IsLone, with_made, with_appended, with_linked, with_finished};

use crate::found::Found;
use attr_records::{Dir, Item, PathName};
use disk_trait::Bytes;
use std::alloc::{AllocError, AllocFailed, Global};
use std::error::Error;
use std::fmt;

/// Why a folder didn't do what it was asked.
#[derive(Clone, Copy, Debug, PartialEq, Eq)]
pub enum FolderFault {
    /// The folder failed; its count of faults rose.
    Failed,
    /// There was no memory.
    Memory,
}

impl From<AllocError> for FolderFault {
    ghost use Rattle.folder_trait.specs.declared.folder.FolderFault.TheVariants.{Memory};

    ghost from_gives = { λ _ fault. fault ≡ Memory };

    fn from(_error: AllocError) -> FolderFault {
        FolderFault::Memory
    }
}

impl<T: Drop> From<AllocFailed<T>> for FolderFault {
    ghost use Rattle.folder_trait.specs.declared.folder.FolderFault.TheVariants.{Memory};

    ghost from_gives = { λ _ fault. fault ≡ Memory };

    fn from(_failed: AllocFailed<T>) -> FolderFault {
        FolderFault::Memory
    }
}

impl fmt::Display for FolderFault {
    fn fmt<W: fmt::Write>(&self, f: &mut fmt::Formatter<W>) -> fmt::Result {
        match self {
            FolderFault::Failed => write!(f, "the folder failed"),
            FolderFault::Memory => write!(f, "no memory"),
        }
    }
}

impl Error for FolderFault {}

/// A folder whose entries are read, or made.
///
/// Contracts know what lies in a folder if it tells it (`tree`, `None` if it doesn't), and how many of its calls failed
/// (`fault_count`, which never falls and stands still at `u64::MAX`). What a folder tells is a tree: each path's parent is one of
/// its directories, or the folder itself. Its names and the targets of its links may break the rules of paths and of targets.
///
/// A call that looks leaves the tree as it was, whatever it answers. After a refusal of a call that makes, nothing is said of what
/// lies there: some of it may have been made. `Failed` is answered if the count rose in this call, and only then; `Memory` leaves
/// the count as it was.
pub trait Folder {
    /// The paths with what is at each, in the order of the paths.
    ghost tree: { Self → Option Tree };

    ghost fault_count: { Self → ℕ };

    /// What lies directly in a directory, or in the folder itself, by rising names. `Failed` also if there is no such directory.
    fn list(
        &mut self,
        alloc: Global,
        directory: Option<&PathName>,
    ) -> Result<Vec<Found>, FolderFault>
        ensures found { IfOk result (λ list. ForSome (tree self.old) (λ all. IsListing all (option_copied directory.entry) list.items)) }
        ensures same { tree self.new ≡ tree self.old }
        ensures counted { Counted (fault_count self.old) (fault_count self.new) (IsErrOf result FolderFault.Failed) };

    /// The bytes of a file; `None` if it has gone since it was listed. `Failed` also if something else is there.
    fn read(&mut self, alloc: Global, path: &PathName) -> Result<Option<Bytes>, FolderFault>
        ensures found { IfOk result (λ found. ForSome (tree self.old) (λ all. IsReading all path.now found)) }
        ensures same { tree self.new ≡ tree self.old }
        ensures counted { Counted (fault_count self.old) (fault_count self.new) (IsErrOf result FolderFault.Failed) };

    /// So many bytes of a file from a place, or all that are left; `None` if it has gone since it was listed. `Failed` also if something
    /// else is there. What is asked for piece by piece, from 0 on, is one file's, whatever comes into its place meanwhile.
    fn read_at(
        &mut self,
        alloc: Global,
        path: &PathName,
        from: u64,
        room: usize,
    ) -> Result<Option<Bytes>, FolderFault>
        ensures found { IfOk result (λ found. ForSome (tree self.old) (λ all. IsPieceRead all path.now from room found)) }
        ensures same { tree self.new ≡ tree self.old }
        ensures counted { Counted (fault_count self.old) (fault_count self.new) (IsErrOf result FolderFault.Failed) };

    /// Makes an entry: a file with its bytes, a link with its target, or a directory, without its attributes and with nothing in it.
    /// `Ok` says that nothing was at the path, and leaves it in the tree, and the directory that it lies in unfinished. `Failed` also
    /// if the path is taken, or what it lies in is no directory.
    fn make(&mut self, alloc: Global, path: &PathName, item: &Item) -> Result<(), FolderFault>
        ensures free { OnOk result (ForSome (tree self.old) (λ all. IsFree all path.now)) }
        ensures made { OnOk result (tree self.new ≡ with_made (tree self.old) path.now item.now) }
        ensures counted { Counted (fault_count self.old) (fault_count self.new) (IsErrOf result FolderFault.Failed) };

    /// Puts bytes at the end of a file that was made, whose attributes stay as they are. `Failed` also if no file is at the path, or
    /// it is in a group of hard links; and a folder may fail if anything else was made since.
    fn append(&mut self, alloc: Global, path: &PathName, bytes: &[u8]) -> Result<(), FolderFault>
        ensures there { OnOk result (ForSome (tree self.old) (λ all. IsLone all path.now)) }
        ensures extended { OnOk result (tree self.new ≡ with_appended (tree self.old) path.now bytes.now) }
        ensures counted { Counted (fault_count self.old) (fault_count self.new) (IsErrOf result FolderFault.Failed) };

    /// Makes a hard link of a file. `Ok` says that nothing was at the path, and leaves the item of `earlier` there, too, and the
    /// directory that it lies in unfinished.
    /// `Failed` also if there is no file at `earlier`, the path is taken, or what it lies in is no directory.
    fn link(
        &mut self,
        alloc: Global,
        path: &PathName,
        earlier: &PathName,
    ) -> Result<(), FolderFault>
        ensures free { OnOk result (ForSome (tree self.old) (λ all. IsFree all path.now)) }
        ensures made { OnOk result (tree self.new ≡ with_linked (tree self.old) path.now earlier.now) }
        ensures counted { Counted (fault_count self.old) (fault_count self.new) (IsErrOf result FolderFault.Failed) };

    /// Gives a directory its attributes, which is to be done behind its last entry: whatever is made in it leaves it unfinished.
    /// `Failed` also if there is no such directory.
    fn finish(&mut self, alloc: Global, path: &PathName, dir: &Dir) -> Result<(), FolderFault>
        ensures finished { OnOk result (tree self.new ≡ with_finished (tree self.old) path.now dir.now) }
        ensures counted { Counted (fault_count self.old) (fault_count self.new) (IsErrOf result FolderFault.Failed) };

    /// Whether nothing lies in the folder.
    fn is_empty(&mut self, alloc: Global) -> Result<bool, FolderFault>
        ensures found { IfOk result (λ empty. ForSome (tree self.old) (λ all. IsEmptiness all empty)) }
        ensures same { tree self.new ≡ tree self.old }
        ensures counted { Counted (fault_count self.old) (fault_count self.new) (IsErrOf result FolderFault.Failed) };

    /// How many of its calls failed.
    fn faults(&self) -> u64
        ensures { result ≡ fault_count self.now };

    /// What is told is a tree.
    ghost is_tree: { (folder : Self) (all : Tree) → tree folder ≡ Some all → IsTree is_dir all };
}
