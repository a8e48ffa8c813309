//! The disk over a folder of the system.

ghost use Rattle.std.specs.Prelude.{◌≡◌, None};
ghost use Rattle.backup_server.specs.Untold.{untold};

use crate::disk_fault::DiskFault;
use crate::fault_count::FaultCount;
use crate::open_files::most_handles;
use crate::pending::Pending;
use crate::reading::{Reader, Readers, room_for};
use crate::store_folder::{Access, Opened, make_folder, open_file};
use crate::store_state::StoreState;
use crate::told::Told;
use disk_trait::{Bytes, Disk, DiskError, Failed, FileId, FileList};
use file_names::file_named;
use std::alloc::{AllocError, Global};
use std::fs::File;
use std::io::{ErrorKind, Read, Seek, Write};
use std::thread::Threads;
use std::{fs, io};

/// The disk that keeps its files in a folder of the system, each under its real name; other names in the folder are
/// passed over. It tells nothing of its files.
///
/// A file that was written keeps the handle that wrote it until a sync makes it durable by that handle; where as many are kept
/// as may be, they are made durable early. A sync then makes durable which files the folder has: so a crash of
/// the machine after a sync keeps each file as it was. After a sync that failed each later one fails, since the
/// system may then take for durable what it has lost. Many files are made durable side by side.
///
/// A file that is read in pieces stays open for its next piece, until this disk writes it or takes it away.
#[derive(Drop)]
pub struct FolderDisk<H: Threads + Drop> {
    rt: HostRuntime,
    threads: H,
    path: String,
    folder: File,
    pending: Pending,
    readers: Readers,
    is_doubtful: bool,
    state: StoreState,
    told: Told,
    faults: FaultCount,
}

impl<H: Threads + Drop> FolderDisk<H> {
    /// The disk over the folder at this path, which is made where it isn't there.
    pub fn open(rt: HostRuntime, threads: H, path: &str) -> io::Result<FolderDisk<H>> {
        let alloc = rt.alloc();
        make_folder(&rt, alloc, path)?;
        let folder = fs::open(&rt, path)?;
        Ok(FolderDisk {
            rt,
            threads,
            path: String::from_str(alloc, path)?,
            folder,
            pending: Pending::new(alloc, most_handles()),
            readers: Readers::new(alloc),
            is_doubtful: false,
            state: StoreState::default(),
            told: Told::new(alloc),
            faults: FaultCount::new(),
        })
    }

    /// The path of a file.
    fn path_of(&self, file: FileId) -> Result<String, AllocError> {
        let folder = self.path.as_str();
        format!(in self.rt.alloc(); "{folder}/{file}")
    }

    /// Opens a file.
    fn open_file(&self, file: FileId, access: Access) -> io::Result<Opened<File>> {
        let path = self.path_of(file)?;
        open_file(&self.rt, path.as_str(), access)
    }

    /// The bytes of a file.
    fn bytes_of(&self, alloc: Global, file: FileId) -> io::Result<Vec<u8>> {
        let Opened { mut handle, len } = self.open_file(file, Access::Read)?;
        let mut bytes = room_for(alloc, len)?;
        handle.read_to_end(&mut bytes)?;
        Ok(bytes)
    }

    /// `room` bytes of a file from an offset on, or all that are left. The file stays open for what follows them.
    fn piece_of(
        &mut self,
        alloc: Global,
        file: FileId,
        from: u64,
        room: usize,
    ) -> io::Result<Vec<u8>>
        ensures { self.new.faults ≡ self.old.faults }
    {
        let mut reader = match self.readers.take(file, from) {
            Some(reader) => reader,
            None => Reader::new(file, self.open_file(file, Access::Read)?, from)?,
        };
        let bytes = reader.next(alloc, room)?;
        if reader.has_more() {
            self.readers.keep(reader);
        }
        Ok(bytes)
    }

    /// The files of the folder.
    fn names(&self, alloc: Global) -> io::Result<FileList> {
        let mut list = FileList::new(alloc);
        for entry in fs::read_dir(&self.rt, self.path.as_str())? {
            match entry {
                Ok(entry) => {
                    if let Some(file) = file_named(entry.file_name().as_bytes()) {
                        list.push(file)?;
                    }
                }
                Err(error) => {
                    if error.kind() != ErrorKind::InvalidFilename {
                        return Err(error);
                    }
                }
            }
        }
        Ok(list)
    }

    /// Makes these bytes the file. The handle is kept after a failure too, since the next sync speaks of what it left.
    fn put(&mut self, file: FileId, bytes: &[u8]) -> io::Result<()>
        ensures { self.new.faults ≡ self.old.faults }
    {
        self.readers.forget(file);
        let mut handle = self.open_file(file, Access::Replace)?.handle;
        let written = write_or_empty(&mut handle, bytes);
        self.keep(file, handle);
        written
    }

    /// Puts bytes at the end of a file.
    fn extend(&mut self, file: FileId, bytes: &[u8]) -> io::Result<()>
        ensures { self.new.faults ≡ self.old.faults }
    {
        self.readers.forget(file);
        let mut handle = match self.pending.take(file) {
            Some(handle) => handle,
            None => self.open_file(file, Access::Append)?.handle,
        };
        let written = write_or_empty(&mut handle, bytes);
        self.keep(file, handle);
        written
    }

    /// Keeps the handle that wrote a file. What was to be made durable early and isn't fails the next sync.
    fn keep(&mut self, file: FileId, handle: File)
        ensures { self.new.faults ≡ self.old.faults }
    {
        match self.pending.keep(&self.threads, file, handle) {
            Ok(()) => {}
            Err(fault) => {
                self.is_doubtful = true;
                self.note(fault);
            }
        }
    }

    /// Takes a file away, if it is there.
    fn take_away(&mut self, file: FileId) -> io::Result<()>
        ensures { self.new.faults ≡ self.old.faults }
    {
        self.readers.forget(file);
        let path = self.path_of(file)?;
        match fs::remove_file(&self.rt, path) {
            Ok(()) => {
                let _ = self.pending.take(file);
                Ok(())
            }
            Err(error) => match error.kind() {
                ErrorKind::NotFound => Ok(()),
                _ => Err(error),
            },
        }
    }

    /// Makes all durable.
    fn settle(&mut self) -> Result<(), DiskFault>
        ensures { self.new.faults ≡ self.old.faults }
    {
        self.pending.settle(&self.threads)?;
        match self.folder.sync_all() {
            Ok(()) => Ok(()),
            Err(error) => Err(DiskFault::of_folder(error)),
        }
    }

    /// Says on standard error what failed, and why: a cause at most once a minute. Then, if it halts the store, that.
    fn note(&mut self, fault: DiskFault)
        ensures { self.new.faults ≡ self.old.faults }
    {
        if self.told.is_due(&self.rt, fault.cause()) {
            let rt = &self.rt;
            let folder = self.path.as_str();
            let _ = eprintln!(rt; "{folder}{fault}");
        }
        let change = self.state.failed();
        self.tell(change);
    }

    /// Says on standard error what becomes of the store, if anything does.
    fn tell(&self, change: Option<&str>) {
        if let Some(change) = change {
            let rt = &self.rt;
            let folder = self.path.as_str();
            let _ = eprintln!(rt; "{folder}: {change}");
        }
    }
}

/// Writes these bytes. A file that doesn't take them is emptied, so that what it took doesn't hold a disk's last room.
fn write_or_empty(handle: &mut File, bytes: &[u8]) -> io::Result<()> {
    let written = handle.write_all(bytes);
    if written.is_err() && handle.set_len(0).is_ok() {
        let _ = handle.rewind();
    }
    written
}

/// The answer to a read.
enum Found<T> {
    Some(T),
    Absent,
    Memory,
    Failed(io::Error),
}

/// A read's answer by its cause.
fn answer_of<T>(answer: io::Result<T>) -> Found<T> {
    match answer {
        Ok(found) => Found::Some(found),
        Err(error) => match error.kind() {
            ErrorKind::NotFound => Found::Absent,
            ErrorKind::OutOfMemory => Found::Memory,
            _ => Found::Failed(error),
        },
    }
}

impl<H: Threads + Drop> Disk for FolderDisk<H> {
    ghost use Rattle.disk_trait.specs.Images.{nothing};

    ghost files = { λ _. None };

    ghost uncertain = { λ _. nothing };

    ghost moment = { λ _. 0 };

    ghost left_since = { λ _ _ _. ⊥ };

    ghost fault_count = { λ disk. disk.faults };

    ghost counts_now = { λ disk t image le may. untold may.is };

    ghost only_now = { λ disk image left. absurd left };

    ghost tells = { λ disk other told. told };

    fn read(&mut self, alloc: Global, file: FileId) -> Result<Option<Bytes>, DiskError> {
        self.state.reads(file);
        match answer_of(self.bytes_of(alloc, file)) {
            Found::Some(bytes) => Ok(Some(Bytes::from_vec(bytes))),
            Found::Absent => Ok(None),
            Found::Memory => Err(DiskError::Memory),
            Found::Failed(error) => {
                self.faults.raise();
                self.note(DiskFault::of_file(file, error));
                Err(DiskError::Failed)
            }
        }
    }

    fn read_at(
        &mut self,
        alloc: Global,
        file: FileId,
        from: u64,
        room: usize,
    ) -> Result<Option<Bytes>, DiskError> {
        match answer_of(self.piece_of(alloc, file, from, room)) {
            Found::Some(bytes) => Ok(Some(Bytes::from_vec(bytes))),
            Found::Absent => Ok(None),
            Found::Memory => Err(DiskError::Memory),
            Found::Failed(error) => {
                self.faults.raise();
                self.note(DiskFault::of_file(file, error));
                Err(DiskError::Failed)
            }
        }
    }

    fn list(&mut self, alloc: Global) -> Result<FileList, DiskError> {
        match self.names(alloc) {
            Ok(list) => Ok(list),
            Err(error) => match error.kind() {
                ErrorKind::OutOfMemory => Err(DiskError::Memory),
                _ => {
                    self.faults.raise();
                    self.note(DiskFault::of_folder(error));
                    Err(DiskError::Failed)
                }
            },
        }
    }

    fn write(&mut self, file: FileId, bytes: &[u8]) -> Result<(), Failed> {
        self.state.writes(file, bytes);
        match self.put(file, bytes) {
            Ok(()) => {
                let change = self.state.wrote(file, bytes);
                self.tell(change);
                Ok(())
            }
            Err(error) => {
                self.faults.raise();
                self.note(DiskFault::of_file(file, error));
                Err(Failed)
            }
        }
    }

    fn append(&mut self, file: FileId, bytes: &[u8]) -> Result<(), Failed> {
        match self.extend(file, bytes) {
            Ok(()) => Ok(()),
            Err(error) => {
                self.faults.raise();
                self.note(DiskFault::of_file(file, error));
                Err(Failed)
            }
        }
    }

    fn remove(&mut self, file: FileId) -> Result<(), Failed> {
        match self.take_away(file) {
            Ok(()) => Ok(()),
            Err(error) => {
                self.faults.raise();
                self.note(DiskFault::of_file(file, error));
                Err(Failed)
            }
        }
    }

    /// After a failure each later sync fails too.
    fn sync(&mut self) -> Result<(), Failed> {
        if self.is_doubtful {
            let change = self.state.failed();
            self.tell(change);
            self.faults.raise();
            return Err(Failed);
        }
        match self.settle() {
            Ok(()) => Ok(()),
            Err(fault) => {
                self.is_doubtful = true;
                self.faults.raise();
                self.note(fault);
                Err(Failed)
            }
        }
    }

    fn faults(&self) -> u64 {
        self.faults.value()
    }
}
