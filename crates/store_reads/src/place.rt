//! Where a backup stands in the catalog.

ghost use Rattle.std.specs.Prelude.{◌≡◌, ◌<◌, Some, length, IfOk, IfErr, slice_get};
ghost use Rattle.backup_index.specs.Index.{Index};
ghost use Rattle.office_catalog.specs.Known.{host_named, names_of};
ghost use Rattle.store_reads.specs.CatalogLaws.{IsLineFound};
ghost use Rattle.store_reads.specs.Shown.{IsNoBackup};

use attr_records::HostName;
use disk_trait::Disk;
use office_model::BrokenRule;
use pool_name::Namer;
use store_parts::StoreParts;

/// The number of the host of a name, and the place of the backup's line among its lines. It refuses a host or a backup that
/// isn't there.
pub(crate) fn find_backup<D: Disk, N: Namer>(
    parts: &StoreParts<D, N>,
    name: &HostName,
    number: u32,
) -> Result<(usize, usize), BrokenRule>
    ensures host { IfOk result (λ at. Some at.0 ≡ host_named (names_of parts.now.catalog.hosts) name.now) }
    ensures within { IfOk result (λ at. at.0 < length parts.now.catalog.hosts) }
    ensures line { IfOk result (λ at. IsLineFound parts.now.catalog at.0 number (Some at.1)) }
    ensures line_within { IfOk result (λ at. (index : Index) → slice_get parts.now.catalog.hosts at.0 ≡ Some index
        → at.1 < length index.lines) }
    ensures rule { IfErr result (IsNoBackup parts.now name.now number) }
{
    let host = parts.host(name)?;
    let line = parts.line(host, number)?;
    Ok((host, line))
}
