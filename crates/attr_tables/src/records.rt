ghost use Rattle.std.specs.Prelude.{◌≡◌, ◌↔◌, IfOk, IsTrue};

use attr_records::{Attr, Dir, Link, MAX_FILE_BYTES};
use disk_trait::PoolId;
use std::alloc::{AllocError, Global};

/// A file whose bytes are kept under a content id; none where it has no bytes. Files of one group other than 0 are hard
/// links of one file, as the client says.
#[derive(Clone, Copy, Debug, PartialEq)]
pub struct StoredFile {
    pub attr: Attr,
    pub group: u32,
    pub size: u64,
    pub content: Option<PoolId>,
}

/// What a table says of a path. A File has a content exactly where its size isn't 0; a row sees to it.
#[derive(Debug)]
pub enum Record {
    File(StoredFile),
    Dir(Dir),
    Link(Link),
    /// Nothing is at the path.
    Deleted,
}

/// Written out: what is in it is then dropped here, for the prover too, and not in each crate above.
impl Drop for Record {
    fn drop(self) {
        match self {
            Record::File(_) => {}
            Record::Dir(_) => {}
            Record::Link(_) => {}
            Record::Deleted => {}
        }
    }
}

impl Record {
    ghost use Rattle.attr_tables.specs.Records.{is_same_record, is_dir, is_large};

    /// Whether both are one record.
    pub fn is_same(&self, other: &Record) -> bool
        ensures { result ≡ is_same_record self.now other.now }
    {
        match (self, other) {
            (Record::File(file), Record::File(other)) => *file == *other,
            (Record::Dir(dir), Record::Dir(other)) => *dir == *other,
            (Record::Link(link), Record::Link(other)) => *link == *other,
            (Record::Deleted, Record::Deleted) => true,
            _ => false,
        }
    }

    /// Whether it says that nothing is at the path.
    pub fn is_mark(&self) -> bool
        ensures { IsTrue result ↔ (self.now ≡ Record.Deleted) }
    {
        matches!(self, Record::Deleted)
    }

    pub fn is_dir(&self) -> bool
        ensures { result ≡ is_dir self.now }
    {
        matches!(self, Record::Dir(_))
    }

    /// Whether it is a File of more bytes than a tree takes.
    pub fn is_large(&self) -> bool
        ensures { result ≡ is_large self.now }
    {
        match self {
            Record::File(file) => file.size > MAX_FILE_BYTES,
            _ => false,
        }
    }

    /// An equal record, or want of memory.
    pub fn copy(&self, alloc: Global) -> Result<Record, AllocError>
        ensures { IfOk result (λ copy. copy ≡ self.now) }
    {
        match self {
            Record::File(file) => Ok(Record::File(*file)),
            Record::Dir(dir) => Ok(Record::Dir(*dir)),
            Record::Link(link) => Ok(Record::Link(link.copy(alloc)?)),
            Record::Deleted => Ok(Record::Deleted),
        }
    }
}
