//! Files by their names, in memory.

ghost use Rattle.std.specs.Prelude.{◌≡◌, Some, None, IfOk, OnOk};
ghost use Rattle.std.specs.Option.{option_copied};
ghost use Rattle.disk_trait.specs.Files.{bytes_of, no_files, with_bytes, with_more, piece, IsListing};
ghost use Rattle.std.specs.BTreeMap.{keys, IsOrdered};
ghost use Rattle.disk_trait.specs.Order.{file_cmp};
ghost use Rattle.disk_trait.specs.Maps.{files_of};

use crate::ids::FileId;
use crate::list::FileList;
use owned_bytes::Bytes;
use std::alloc::{AllocError, Global};
use std::collections::BTreeMap;

/// Files, each by its name: what it holds.
#[derive(Debug, Drop)]
pub(crate) struct FileMap {
    inner: BTreeMap<FileId, Bytes>,
}

impl FileMap {
    /// No files; takes no memory.
    pub(crate) fn new(alloc: Global) -> FileMap
        ensures { files_of result ≡ no_files }
    {
        FileMap {
            inner: BTreeMap::new(alloc),
        }
    }

    /// What a file holds.
    fn find(&self, file: FileId) -> Option<&Bytes>
        ensures { option_copied result ≡ files_of self.now file }
    {
        self.inner.get(&file)
    }

    /// Makes these bytes the file. Want of memory may leave it absent.
    pub(crate) fn put(&mut self, file: FileId, bytes: Bytes) -> Result<(), AllocError>
        ensures { OnOk result (files_of self.new ≡ with_bytes (files_of self.old) file (Some bytes)) }
    {
        match self.inner.insert(file, bytes) {
            Ok(_) => Ok(()),
            Err(_) => Err(AllocError),
        }
    }

    /// Takes a file away, if it is there.
    pub(crate) fn remove(&mut self, file: FileId)
        ensures { files_of self.new ≡ with_bytes (files_of self.old) file None }
    {
        let _ = self.inner.remove(&file);
    }

    /// Takes a file away, and gives what it held, nothing if it was absent.
    fn take(&mut self, alloc: Global, file: FileId) -> Vec<u8>
        ensures held { result.items ≡ bytes_of (files_of self.old file) }
        ensures gone { files_of self.new ≡ with_bytes (files_of self.old) file None }
    {
        match self.inner.remove(&file) {
            Some(bytes) => bytes.into_vec(),
            None => Vec::new(alloc),
        }
    }

    /// Puts bytes at the end of a file. Want of memory may leave it absent.
    pub(crate) fn extend(
        &mut self,
        alloc: Global,
        file: FileId,
        more: &[u8],
    ) -> Result<(), AllocError>
        ensures { OnOk result (files_of self.new ≡ with_more (files_of self.old) file more.now) }
    {
        let mut bytes = self.take(alloc, file);
        bytes.extend_from_slice(more)?;
        match self.put(file, Bytes::from_vec(bytes)) {
            Ok(()) => Ok(()),
            Err(fault) => Err(fault),
        }
    }

    /// A copy of what a file holds.
    pub(crate) fn read(&self, alloc: Global, file: FileId) -> Result<Option<Bytes>, AllocError>
        ensures { IfOk result (λ found. found ≡ files_of self.now file) }
    {
        match self.find(file) {
            None => Ok(None),
            Some(bytes) => match bytes.copy(alloc) {
                Ok(copy) => Ok(Some(copy)),
                Err(fault) => Err(fault),
            },
        }
    }

    /// The same of `room` bytes from an offset on, or of all that are left.
    pub(crate) fn read_at(
        &self,
        alloc: Global,
        file: FileId,
        from: u64,
        room: usize,
    ) -> Result<Option<Bytes>, AllocError>
        ensures { IfOk result (λ found. found ≡ piece (files_of self.now file) from room) }
    {
        match self.find(file) {
            None => Ok(None),
            Some(bytes) => match bytes.piece(alloc, from, room) {
                Ok(copy) => Ok(Some(copy)),
                Err(fault) => Err(fault),
            },
        }
    }

    /// The names of the files that are there, in their order.
    fn names(&self, alloc: Global) -> Result<Vec<FileId>, AllocError>
        ensures names { IfOk result (λ names. names.items ≡ keys self.now.inner) }
        ensures ordered { IsOrdered file_cmp self.now.inner }
    {
        self.inner.keys().copied().collect(alloc)
    }

    /// The files that are there, in the order of their names.
    pub(crate) fn list(&self, alloc: Global) -> Result<FileList, AllocError>
        ensures { IfOk result (λ list. IsListing list (files_of self.now)) }
    {
        match self.names(alloc) {
            Ok(names) => Ok(FileList::from_vec(names)),
            Err(fault) => Err(fault),
        }
    }
}
