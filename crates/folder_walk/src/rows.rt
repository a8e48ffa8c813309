//! What a folder lists, by whole paths.

ghost use Rattle.std.specs.Prelude.{◌≡◌, ℕ, List, Option, map, IfOk, IfErr, IsErrOf};
ghost use Rattle.std.specs.Option.{ForSome, option_copied, option_map};
ghost use Rattle.fault_counts.specs.Counts.{Counted};
ghost use Rattle.attr_records.specs.Items.{Tree, is_dir};
ghost use Rattle.attr_records.specs.Trees.{IsTree, node_at};
ghost use Rattle.folder_trait.specs.Folders.{found_of, path_in};
ghost use Rattle.folder_laws.specs.Walks.{children};
ghost use Rattle.folder_walk.specs.Rows.{row_in, rows_found};
ghost use Rattle.folder_walk.specs.Causes.{IsRowFault, IsRowsFault, IsListFault};

use crate::refusals::DumpRefusal;
use attr_records::{BadPath, PathName, compare};
use folder_trait::{Folder, FolderFault, Found, FoundNode};
use std::alloc::{AllocError, Global};

/// A path of a folder, with what is at it.
#[derive(Debug, Drop)]
pub(crate) struct Row {
    pub path: PathName,
    pub node: FoundNode,
}

/// The bytes of the path of a name in a directory, or want of memory.
pub(crate) fn joined(
    alloc: Global,
    directory: Option<&PathName>,
    name: &[u8],
) -> Result<Vec<u8>, AllocError>
    ensures { IfOk result (λ bytes. bytes.items ≡ path_in (option_copied directory.entry) name.now) }
{
    let mut bytes = Vec::new(alloc);
    if let Some(directory) = directory {
        bytes.extend_from_slice(directory.as_slice())?;
        bytes.push(b'/')?;
    }
    bytes.extend_from_slice(name)?;
    Ok(bytes)
}

/// The row of a name in a directory.
fn row_of(alloc: Global, directory: Option<&PathName>, found: Found) -> Result<Row, DumpRefusal>
    ensures row { IfOk result (λ row. row ≡ row_in (option_copied directory.entry) found) }
    ensures cause { IfErr result (IsRowFault (path_in (option_copied directory.entry) found.name)) }
{
    let (name, node) = found.into_parts();
    let Ok(bytes) = joined(alloc, directory, name.as_slice()) else {
        return Err(DumpRefusal::Memory);
    };
    match PathName::read(alloc, bytes.as_slice()) {
        Ok(path) => Ok(Row { path, node }),
        Err(BadPath::Memory) => Err(DumpRefusal::Memory),
        Err(rule) => Err(DumpRefusal::BadPath(rule)),
    }
}

/// The rows of the names in a directory.
fn rows_of(
    alloc: Global,
    directory: Option<&PathName>,
    list: Vec<Found>,
) -> Result<Vec<Row>, DumpRefusal>
    ensures rows { IfOk result (λ rows. rows.items ≡ map (row_in (option_copied directory.entry)) list.items) }
    ensures cause { IfErr result (IsRowsFault (map (row_in (option_copied directory.entry)) list.items)) }
{
    let mut rows = Vec::new(alloc);
    for found in list {
        match row_of(alloc, directory, found) {
            Ok(row) => match rows.push(row) {
                Ok(()) => {}
                Err(_) => return Err(DumpRefusal::Memory),
            },
            Err(fault) => return Err(fault),
        }
    }
    Ok(rows)
}

/// What lies directly in a directory of a folder, or in the folder itself, by rising names.
pub(crate) fn rows_in<F: Folder>(
    alloc: Global,
    folder: &mut F,
    directory: Option<&PathName>,
) -> Result<Vec<Row>, DumpRefusal>
    ensures rows { IfOk result (λ rows. ForSome (F.tree folder.old) (λ tree. rows.items ≡ rows_found tree (option_copied directory.entry))) }
    ensures cause { IfErr result (IsListFault (F.tree folder.old)) }
    ensures same { F.tree folder.new ≡ F.tree folder.old }
    ensures counted { Counted (F.fault_count folder.old) (F.fault_count folder.new) (IsErrOf result DumpRefusal.Folder) }
{
    let list = match folder.list(alloc, directory) {
        Ok(list) => list,
        Err(FolderFault::Failed) => return Err(DumpRefusal::Folder),
        Err(FolderFault::Memory) => return Err(DumpRefusal::Memory),
    };
    match rows_of(alloc, directory, list) {
        Ok(rows) => Ok(rows),
        Err(fault) => Err(fault),
    }
}

/// The row of a path in a directory's rows, if there is one: by halving.
pub(crate) fn find_row<'a>(rows: &'a [Row], path: &[u8]) -> Option<&'a Row>
    ensures { (tree : Tree) (directory : Option (List ℕ)) → IsTree is_dir tree → rows.now ≡ rows_found tree directory
        → option_map (λ row. row.node) (option_copied result) ≡ option_map found_of (node_at (children tree directory) path.now) }
{
    match rows.binary_search_by(|row: &Row| compare(row.path.as_slice(), path)) {
        Ok(index) => Some(&rows[index]),
        Err(_) => None,
    }
}
