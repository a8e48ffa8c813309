//! What the system says of an entry.

use attr_records::{Attr, MAX_MODE, MAX_NANOS};
use std::fs::Metadata;
use std::os::unix::fs::MetadataExt;

/// The bits of a mode that let others than the owner write.
const WRITTEN_BY_OTHERS: u16 = 0o022;

/// What kind of entry it is.
#[derive(Clone, Copy, Debug, PartialEq, Eq)]
pub(crate) enum Kind {
    File,
    Directory,
    Link,
    /// A pipe, a socket or a device.
    Other,
}

/// A device, and the number of a file on it: two names of one file have the same.
#[derive(Clone, Copy, Debug, PartialEq, Eq, PartialOrd, Ord)]
pub(crate) struct Inode {
    device: u64,
    number: u64,
}

/// What the system says of an entry.
#[derive(Clone, Copy, Debug)]
pub(crate) struct Seen {
    pub(crate) kind: Kind,
    pub(crate) inode: Inode,
    /// How many names it has.
    pub(crate) names: u64,
    pub(crate) size: u64,
    /// What isn't said is the default.
    pub(crate) attr: Attr,
}

impl Seen {
    /// What a call said.
    pub(crate) fn of(said: &Metadata) -> Seen {
        Seen {
            kind: kind_of(said),
            inode: Inode {
                device: said.dev(),
                number: said.ino(),
            },
            names: said.nlink(),
            size: said.size(),
            attr: attr_of(said),
        }
    }

    /// A link of which no more is said.
    pub(crate) fn only_link() -> Seen {
        Seen::only(Kind::Link, Attr::link_default())
    }

    /// What is neither a link nor a directory, and of which no more is said.
    pub(crate) fn only_file() -> Seen {
        Seen::only(Kind::File, Attr::file_default())
    }

    fn only(kind: Kind, attr: Attr) -> Seen {
        Seen {
            kind,
            inode: Inode {
                device: 0,
                number: 0,
            },
            names: 1,
            size: 0,
            attr,
        }
    }

    /// Whether it is this user's and this group's.
    pub(crate) fn is_owned_by(&self, uid: u32, gid: u32) -> bool {
        self.attr.uid() == uid && self.attr.gid() == gid
    }

    /// Whether it is this user's, and nobody else may write to it.
    pub(crate) fn is_written_by(&self, uid: u32) -> bool {
        self.attr.uid() == uid && self.attr.mode() & WRITTEN_BY_OTHERS == 0
    }
}

fn kind_of(said: &Metadata) -> Kind {
    if said.is_file() {
        Kind::File
    } else if said.is_dir() {
        Kind::Directory
    } else if said.is_symlink() {
        Kind::Link
    } else {
        Kind::Other
    }
}

fn attr_of(said: &Metadata) -> Attr {
    let mode = said.mode() & u32::from(MAX_MODE);
    let mode = u16::try_from(mode).unwrap_or(0).min(MAX_MODE);
    let nanos = u32::try_from(said.mtime_nsec()).unwrap_or(0).min(MAX_NANOS);
    Attr::new(mode, said.uid(), said.gid(), said.mtime(), nanos)
}
