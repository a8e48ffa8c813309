//! What the bytes of Head and of a host's file say.

ghost use Rattle.std.specs.Prelude.{◌≡◌, ◌⊎◌, ◌↔◌, Some, IsTrue, IfOk, IfErr};
ghost use Rattle.office_catalog.specs.Held.{HoldsHead, HoldsIndex};
ghost use Rattle.office_catalog.specs.Opening.{SaysNoHead, IsCalled, SaysUncalled};
ghost use Rattle.disk_trait.specs.declared.ids.FileId.TheVariants.{Host};

use crate::fault::CatalogFault;
use attr_records::HostName;
use backup_index::{HeadFile, HostIndex, IndexFault, read_head_file, read_host_index};
use disk_trait::{Bytes, FileId};
use std::alloc::Global;

/// The head that these bytes are; refused where they are none, or for want of memory.
pub(crate) fn head_in(alloc: Global, bytes: Bytes) -> Result<HeadFile, CatalogFault>
    ensures ok { IfOk result (λ head. HoldsHead head (Some bytes)) }
    ensures err { IfErr result (SaysNoHead bytes) }
{
    match read_head_file(alloc, bytes.as_slice()) {
        Ok(head) => Ok(head),
        Err(IndexFault::BadIndex(_)) => Err(CatalogFault::Foreign {
            file: FileId::Head,
            found: Some(bytes),
        }),
        Err(IndexFault::Memory) => Err(CatalogFault::Memory),
    }
}

/// Whether an index is that of a host of this number and name.
fn is_called(index: &HostIndex, host: u32, name: &HostName) -> bool
    ensures { IsTrue result ↔ IsCalled host name.now index.now }
{
    index.host() == host && index.name() == name
}

/// The index, if it is that of a host of this number and name; refused with the bytes that it was read from.
fn if_called(
    host: u32,
    name: &HostName,
    index: HostIndex,
    bytes: Bytes,
) -> Result<HostIndex, CatalogFault>
    ensures ok { IfOk result (λ called. (called ≡ index) × IsCalled host name.now index) }
    ensures err { IfErr result (λ fault. (fault ≡ CatalogFault.Foreign (Host host) (Some bytes)) × (IsCalled host name.now index → ⊥)) }
{
    if is_called(&index, host, name) {
        Ok(index)
    } else {
        Err(CatalogFault::Foreign {
            file: FileId::Host(host),
            found: Some(bytes),
        })
    }
}

/// The index of a host of this number and name that these bytes are.
fn index_of(
    alloc: Global,
    host: u32,
    name: &HostName,
    bytes: Bytes,
) -> Result<HostIndex, CatalogFault>
    ensures ok { IfOk result (λ index. HoldsIndex index (Some bytes) × IsCalled host name.now index) }
    ensures err { IfErr result (SaysUncalled host name.now (Some bytes)) }
{
    match read_host_index(alloc, bytes.as_slice()) {
        Ok(stored) => if_called(host, name, stored.1, bytes),
        Err(IndexFault::BadIndex(_)) => Err(CatalogFault::Foreign {
            file: FileId::Host(host),
            found: Some(bytes),
        }),
        Err(IndexFault::Memory) => Err(CatalogFault::Memory),
    }
}

/// The index of a host of this number and name, of what was found of its file; refused where this isn't that, or for
/// want of memory.
pub(crate) fn index_in(
    alloc: Global,
    host: u32,
    name: &HostName,
    found: Option<Bytes>,
) -> Result<HostIndex, CatalogFault>
    ensures ok { IfOk result (λ index. HoldsIndex index found × IsCalled host name.now index) }
    ensures err { IfErr result (SaysUncalled host name.now found) }
{
    match found {
        Some(bytes) => index_of(alloc, host, name, bytes),
        None => Err(CatalogFault::Foreign {
            file: FileId::Host(host),
            found: None,
        }),
    }
}
