//! What lies in an open directory.

use crate::directory::{Directory, is_gone};
use crate::groups::Groups;
use crate::seen::{Kind, Seen};
use crate::told::{Place, Trouble};
use attr_records::{Attr, Dir};
use disk_trait::Bytes;
use folder_trait::{Found, FoundFile, FoundLink, FoundNode};
use std::alloc::AllocError;
use std::io;
use std::io::ErrorKind;

/// What these names of the directory at a place name. Those are left out that have gone, that name no file, directory or link, and
/// that name a link whose target can't be read, which is told.
pub(crate) fn found_in(
    rt: &HostRuntime,
    groups: &mut Groups,
    place: Place<'_>,
    directory: &Directory,
    names: Vec<Vec<u8>>,
) -> Result<Vec<Found>, Trouble> {
    let mut list = Vec::new(rt.alloc());
    for name in names {
        let node = match node_of(rt, groups, place, directory, name.as_slice()) {
            Ok(Some(node)) => node,
            Ok(None) => continue,
            Err(error) => return Err(Trouble::at(name, error)),
        };
        let name = Bytes::from_vec(name);
        if list.push(Found { name, node }).is_err() {
            return Err(Trouble::memory());
        }
    }
    Ok(list)
}

/// What a name names; `None` if it is left out.
fn node_of(
    rt: &HostRuntime,
    groups: &mut Groups,
    place: Place<'_>,
    directory: &Directory,
    name: &[u8],
) -> io::Result<Option<FoundNode>> {
    let seen = match directory.look_at(rt, name) {
        Ok(seen) => seen,
        Err(error) if is_gone(&error) => return Ok(None),
        Err(error) => return Err(error),
    };
    match seen.kind {
        Kind::File => Ok(Some(FoundNode::File(file_of(groups, &seen)?))),
        Kind::Directory => Ok(Some(FoundNode::Dir(Dir { attr: seen.attr }))),
        Kind::Link => link_of(rt, place, directory, name, seen.attr),
        Kind::Other => Ok(None),
    }
}

fn file_of(groups: &mut Groups, seen: &Seen) -> Result<FoundFile, AllocError> {
    Ok(FoundFile {
        attr: seen.attr,
        group: groups.number_of(seen)?,
        size: seen.size,
    })
}

/// The link of this name; `None` if its target can't be read, which is told.
fn link_of(
    rt: &HostRuntime,
    place: Place<'_>,
    directory: &Directory,
    name: &[u8],
    attr: Attr,
) -> io::Result<Option<FoundNode>> {
    let alloc = rt.alloc();
    match directory.read_link(alloc, name) {
        Ok(target) => {
            let target = Bytes::from_vec(target);
            Ok(Some(FoundNode::Link(FoundLink { attr, target })))
        }
        Err(error) if is_gone(&error) => Ok(None),
        Err(error) if error.kind() == ErrorKind::OutOfMemory => Err(error),
        Err(error) => {
            let name = Vec::from_slice(alloc, name)?;
            Trouble::at(name, error).tell(rt, place);
            Ok(None)
        }
    }
}
