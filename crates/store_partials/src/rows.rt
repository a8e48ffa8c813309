//! The rows of an open dump, as they are parked.

ghost use Rattle.std.specs.Prelude.{◌≡◌, ◌<◌, length, None, IfOk, IfSome, OnSome};
ghost use Rattle.std.specs.List.{list_any};
ghost use Rattle.merge_view.specs.Views.{is_mark};
ghost use Rattle.store_partials.specs.Parked.{dump_file};

use attr_tables::{Record, Row};
use disk_trait::Disk;
use open_sessions::OpenDump;
use partial_files::PartialFile;
use pool_name::Namer;
use std::alloc::{AllocError, Global};
use store_parts::StoreParts;

/// Whether a row is a deletion mark.
fn is_marked(row: &Row) -> bool
    ensures { result ≡ is_mark row.now.1 }
{
    match row.node() {
        Record::Deleted => true,
        Record::File(_) => false,
        Record::Dir(_) => false,
        Record::Link(_) => false,
    }
}

/// Whether some row is a deletion mark.
pub(crate) fn has_mark(rows: &[Row]) -> bool
    ensures { result ≡ list_any (λ row. is_mark row.1) rows.now }
{
    rows.iter().any(|row| is_marked(row))
}

/// What an open dump has so far; or want of memory.
pub(crate) fn partial_of(alloc: Global, dump: &OpenDump) -> Result<PartialFile, AllocError>
    ensures { IfOk result (λ partial. partial ≡ dump_file dump.now) }
{
    let rows = dump.tree.tree(alloc)?;
    Ok(PartialFile {
        kind: dump.kind,
        start: dump.start,
        rows,
    })
}

/// The number of the host at a place, in the names of files. None if there is no such host, or nothing is known of its partial: of a
/// store at work, of each host it is known whether it has one.
pub(crate) fn file_number<D: Disk, N: Namer>(parts: &StoreParts<D, N>, host: usize) -> Option<u32>
    ensures number { IfSome result (λ file. file ≡ host) }
    ensures within { OnSome result (host < length parts.now.catalog.hosts) }
    ensures held { OnSome result (host < length parts.now.partials) }
    ensures none { result ≡ None → host < length parts.now.catalog.hosts → host < length parts.now.partials → ⊥ }
{
    if host >= parts.partials.len() {
        return None;
    }
    match parts.catalog.hosts().get(host) {
        Some(index) => Some(index.parts().host),
        None => None,
    }
}
