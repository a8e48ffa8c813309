//! Values that are made where there is memory, and that the other tests have no need of.

use attr_records::{HostName, LinkTarget, PathName};
use disk_trait::Bytes;
use std::alloc::Global;
use std::test::Fail;

/// Whether the names that these texts are have equal copies.
fn are_copied(alloc: Global, host: &[u8], target: &[u8]) -> Option<bool> {
    let host_copy = HostName::read(alloc, host).ok()?.copy(alloc).ok()?;
    let target_copy = LinkTarget::read(alloc, target).ok()?.copy(alloc).ok()?;
    Some(host_copy.as_slice() == host && target_copy.as_slice() == target)
}

/// Whether these bytes and this path have equal copies, and the path has this parent.
fn has_parent(alloc: Global, path: &[u8], parent: &[u8]) -> Option<bool> {
    let bytes = Bytes::from_slice(alloc, path).ok()?.copy(alloc).ok()?;
    let path_copy = PathName::read(alloc, path).ok()?.copy(alloc).ok()?;
    let path_parent = path_copy.parent_path(alloc).ok()??;
    Some(bytes.as_slice() == path_copy.as_slice() && path_parent.as_slice() == parent)
}

#[test]
fn names_are_made_where_there_is_memory(rt: HostRuntime) -> Result<(), Fail> {
    let alloc = rt.alloc();
    if are_copied(alloc, b"pc1", b"../motd") == Some(true)
        && has_parent(alloc, b"etc/motd", b"etc") == Some(true)
    {
        return Ok(());
    }
    Err(Fail::new("a name wasn't made"))
}
