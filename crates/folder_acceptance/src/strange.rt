//! A folder that tells no tree.

ghost use Rattle.std.specs.Prelude.{None};
ghost use Rattle.std.proofs.lemmas.Option.{none-some};

use attr_records::{Attr, Dir, Item, PathName};
use disk_trait::Bytes;
use folder_trait::{Folder, FolderFault, Found, FoundFile, FoundLink, FoundNode, MemoryFolder};
use std::alloc::{AllocError, Global};

/// What a folder lists beside what lies in it.
#[derive(Clone, Copy)]
pub(crate) enum Odd {
    Nothing,
    /// A directory of this name.
    Name(&'static [u8]),
    /// A link without a target.
    Link,
    /// A file of so many bytes that has gone.
    Large(u64),
    /// A file of so many bytes, which is there.
    There(u64),
    /// A file of one byte that has gone.
    Gone,
}

/// One in memory that lists something odd, too, and counts its hard links and the pieces that are put to files.
#[derive(Drop)]
pub(crate) struct Strange {
    pub inside: MemoryFolder,
    pub odd: Odd,
    pub links: u64,
    pub pieces: u64,
}

/// A strange folder in which no hard link was made, and no piece put to a file.
pub(crate) fn new_strange(inside: MemoryFolder, odd: Odd) -> Strange {
    Strange {
        inside,
        odd,
        links: 0,
        pieces: 0,
    }
}

/// The path of what is odd and has a good one.
pub(crate) const ODD: &[u8] = b"odd";

fn sized(size: u64) -> FoundNode {
    FoundNode::File(FoundFile {
        attr: Attr::file_default(),
        group: 0,
        size,
    })
}

/// The name and the node of what is odd.
fn found(alloc: Global, odd: Odd) -> Option<(&'static [u8], FoundNode)> {
    match odd {
        Odd::Nothing => None,
        Odd::Name(name) => Some((
            name,
            FoundNode::Dir(Dir {
                attr: Attr::dir_default(),
            }),
        )),
        Odd::Link => Some((
            ODD,
            FoundNode::Link(FoundLink {
                attr: Attr::link_default(),
                target: Bytes::from_vec(Vec::new(alloc)),
            }),
        )),
        Odd::Large(size) | Odd::There(size) => Some((ODD, sized(size))),
        Odd::Gone => Some((ODD, sized(1))),
    }
}

/// A piece of what is odd, if it is there.
fn piece(alloc: Global, odd: Odd, from: u64, room: usize) -> Result<Option<Bytes>, AllocError> {
    match odd {
        Odd::There(size) => {
            let left = size.saturating_sub(from).min(room as u64);
            let mut bytes = Vec::new(alloc);
            bytes.resize(left as usize, b'x')?;
            Ok(Some(Bytes::from_vec(bytes)))
        }
        _ => Ok(None),
    }
}

/// Adds what is odd to a listing.
fn add(alloc: Global, list: &mut Vec<Found>, odd: Odd) -> Result<(), AllocError> {
    if let Some((name, node)) = found(alloc, odd) {
        let name = Bytes::from_slice(alloc, name)?;
        list.push(Found { name, node })?;
    }
    Ok(())
}

impl Folder for Strange {
    ghost tree = { λ folder. None };

    ghost fault_count = { λ folder. ⟦<MemoryFolder as Folder>⟧.fault_count folder.inside };

    fn list(
        &mut self,
        alloc: Global,
        directory: Option<&PathName>,
    ) -> Result<Vec<Found>, FolderFault> {
        let mut list = self.inside.list(alloc, directory)?;
        if directory.is_none() {
            add(alloc, &mut list, self.odd)?;
        }
        Ok(list)
    }

    fn read(&mut self, alloc: Global, path: &PathName) -> Result<Option<Bytes>, FolderFault> {
        if path.as_slice() == ODD {
            return Ok(None);
        }
        self.inside.read(alloc, path)
    }

    fn read_at(
        &mut self,
        alloc: Global,
        path: &PathName,
        from: u64,
        room: usize,
    ) -> Result<Option<Bytes>, FolderFault> {
        if path.as_slice() == ODD {
            return Ok(piece(alloc, self.odd, from, room)?);
        }
        self.inside.read_at(alloc, path, from, room)
    }

    fn make(&mut self, alloc: Global, path: &PathName, item: &Item) -> Result<(), FolderFault> {
        self.inside.make(alloc, path, item)
    }

    fn append(&mut self, alloc: Global, path: &PathName, bytes: &[u8]) -> Result<(), FolderFault> {
        self.pieces = self.pieces.saturating_add(1);
        self.inside.append(alloc, path, bytes)
    }

    fn link(
        &mut self,
        alloc: Global,
        path: &PathName,
        earlier: &PathName,
    ) -> Result<(), FolderFault> {
        self.links = self.links.saturating_add(1);
        self.inside.link(alloc, path, earlier)
    }

    fn finish(&mut self, alloc: Global, path: &PathName, dir: &Dir) -> Result<(), FolderFault> {
        self.inside.finish(alloc, path, dir)
    }

    fn is_empty(&mut self, alloc: Global) -> Result<bool, FolderFault> {
        self.inside.is_empty(alloc)
    }

    fn faults(&self) -> u64 {
        self.inside.faults()
    }

    ghost is_tree = { λ folder all told. absurd (none-some all told) };
}
