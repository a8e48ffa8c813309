ghost use Rattle.std.specs.Prelude.{◌≡◌, ◌≤◌, IfOk, pos, ℕ, ℤ};

use crate::limits::MAX_FILE_BYTES;
use crate::names::LinkTarget;
use owned_bytes::Bytes;
use std::alloc::{AllocError, Global};
use std::marker::Model;

/// The attributes of a file, a directory or a link.
#[derive(Clone, Copy, Debug, PartialEq, Eq)]
pub struct Attr {
    mode: u16,
    uid: u32,
    gid: u32,
    mtime: i64,
    nanos: u32,
}

impl Model for Attr {
    ghost use Rattle.std.specs.Prelude.{◌≤◌};
    ghost use Rattle.attr_records.specs.Attributes.{Attributes};

    ghost Value = { Attributes };

    ghost view = { λ a. record { mode = a.mode; uid = a.uid; gid = a.gid; mtime = a.mtime; nanos = a.nanos } };

    ghost invariant = { λ a. (a.mode ≤ 4095) × (a.nanos ≤ 999999999) };

    ghost inverse = { λ a. record { mode = a.mode; uid = a.uid; gid = a.gid; mtime = a.mtime; nanos = a.nanos } };
}

impl Attr {
    /// Attributes of a mode of at most 4,095 (07777) and at most 999,999,999 nanoseconds.
    pub fn new(mode: u16, uid: u32, gid: u32, mtime: i64, nanos: u32) -> Attr
        requires bits { mode ≤ 4095 }
        requires second { nanos ≤ 999999999 }
        ensures { result ≡ record { mode = mode; uid = uid; gid = gid; mtime = mtime; nanos = nanos } }
    {
        Attr {
            mode,
            uid,
            gid,
            mtime,
            nanos,
        }
    }

    /// What a file has if nothing else is said: mode 0644, all else 0.
    pub fn file_default() -> Attr
        ensures { result ≡ record { mode = 420; uid = 0; gid = 0; mtime = pos 0; nanos = 0 } }
    {
        Attr::new(0o644, 0, 0, 0, 0)
    }

    /// What a directory has if nothing else is said: mode 0755, all else 0.
    pub fn dir_default() -> Attr
        ensures { result ≡ record { mode = 493; uid = 0; gid = 0; mtime = pos 0; nanos = 0 } }
    {
        Attr::new(0o755, 0, 0, 0, 0)
    }

    /// What a link has if nothing else is said: mode 0777, all else 0.
    pub fn link_default() -> Attr
        ensures { result ≡ record { mode = 511; uid = 0; gid = 0; mtime = pos 0; nanos = 0 } }
    {
        Attr::new(0o777, 0, 0, 0, 0)
    }

    /// The twelve mode bits.
    pub fn mode(&self) -> u16
        ensures value { result ≡ self.now.mode }
        ensures range { result ≤ 4095 }
    {
        self.mode
    }

    pub fn uid(&self) -> u32
        ensures { result ≡ self.now.uid }
    {
        self.uid
    }

    pub fn gid(&self) -> u32
        ensures { result ≡ self.now.gid }
    {
        self.gid
    }

    /// When it was changed last, in seconds since 1970.
    pub fn mtime(&self) -> i64
        ensures { result ≡ self.now.mtime }
    {
        self.mtime
    }

    /// The nanoseconds behind the seconds of `mtime`.
    pub fn nanos(&self) -> u32
        ensures value { result ≡ self.now.nanos }
        ensures range { result ≤ 999999999 }
    {
        self.nanos
    }
}

/// A file with its bytes. Files of one group other than 0 are hard links of one file, as the client
/// says; the group is a number that the client gives, like an inode's.
#[derive(Debug, PartialEq)]
pub struct File {
    pub attr: Attr,
    pub group: u32,
    pub bytes: Bytes,
}

/// Written out: what is in it is then dropped here, for the prover too, and not in each crate above.
impl Drop for File {
    fn drop(self) {
        let File {
            attr: _,
            group: _,
            bytes: _,
        } = self;
    }
}

impl File {
    /// An equal file, or want of memory.
    pub fn copy(&self, alloc: Global) -> Result<File, AllocError>
        ensures { IfOk result (λ copy. copy ≡ self.now) }
    {
        Ok(File {
            attr: self.attr,
            group: self.group,
            bytes: self.bytes.copy(alloc)?,
        })
    }
}

/// A directory.
#[derive(Clone, Copy, Debug, PartialEq)]
pub struct Dir {
    pub attr: Attr,
}

/// A symbolic link.
#[derive(Debug, PartialEq)]
pub struct Link {
    pub attr: Attr,
    pub target: LinkTarget,
}

/// Written out: what is in it is then dropped here, for the prover too, and not in each crate above.
impl Drop for Link {
    fn drop(self) {
        let Link { attr: _, target: _ } = self;
    }
}

impl Link {
    /// An equal link, or want of memory.
    pub fn copy(&self, alloc: Global) -> Result<Link, AllocError>
        ensures { IfOk result (λ copy. copy ≡ self.now) }
    {
        Ok(Link {
            attr: self.attr,
            target: self.target.copy(alloc)?,
        })
    }
}

/// What stands at a path of a tree, with the bytes of a file.
#[derive(Debug, PartialEq)]
pub enum Item {
    File(File),
    Dir(Dir),
    Link(Link),
}

/// Written out: what is in it is then dropped here, for the prover too, and not in each crate above.
impl Drop for Item {
    fn drop(self) {
        match self {
            Item::File(_) => {}
            Item::Dir(_) => {}
            Item::Link(_) => {}
        }
    }
}

impl Item {
    ghost use Rattle.attr_records.specs.Items.{is_dir, is_large};

    pub fn is_dir(&self) -> bool
        ensures { result ≡ is_dir self.now }
    {
        matches!(self, Item::Dir(_))
    }

    /// Whether it is a File of more bytes than a tree takes.
    pub fn is_large(&self) -> bool
        ensures { result ≡ is_large self.now }
    {
        match self {
            Item::File(file) => file.bytes.len() as u64 > MAX_FILE_BYTES,
            _ => false,
        }
    }

    /// An equal item, or want of memory.
    pub fn copy(&self, alloc: Global) -> Result<Item, AllocError>
        ensures { IfOk result (λ copy. copy ≡ self.now) }
    {
        match self {
            Item::File(file) => Ok(Item::File(file.copy(alloc)?)),
            Item::Dir(dir) => Ok(Item::Dir(*dir)),
            Item::Link(link) => Ok(Item::Link(link.copy(alloc)?)),
        }
    }
}
