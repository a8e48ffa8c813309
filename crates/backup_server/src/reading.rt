//! Files that are read piece by piece.

use crate::store_folder::Opened;
use disk_trait::FileId;
use std::alloc::Global;
use std::fs::File;
use std::io;
use std::io::{ErrorKind, Read, Seek, SeekFrom};

/// How many files are kept open for their next pieces: a comparison reads two, and each worker may be sending one.
const MOST_READERS: usize = 8;

/// A file that is open for its next piece.
#[derive(Drop)]
pub struct Reader {
    file: FileId,
    handle: File,
    /// Where the next piece begins.
    place: u64,
    /// How many bytes the file had when it was opened.
    len: u64,
}

impl Reader {
    /// The reader of a file that was opened, from a place on.
    pub fn new(file: FileId, opened: Opened<File>, place: u64) -> io::Result<Reader> {
        let Opened { mut handle, len } = opened;
        if place > 0 {
            handle.seek(SeekFrom::Start(place))?;
        }
        Ok(Reader {
            file,
            handle,
            place,
            len,
        })
    }

    /// The next `room` bytes, or all that are left.
    pub fn next(&mut self, alloc: Global, room: usize) -> io::Result<Vec<u8>> {
        let count = self.len.saturating_sub(self.place).min(room as u64);
        let mut bytes = room_for(alloc, count)?;
        (&self.handle).take(count).read_to_end(&mut bytes)?;
        self.place = self.place.saturating_add(bytes.len() as u64);
        Ok(bytes)
    }

    /// Whether bytes of the file are left.
    pub fn has_more(&self) -> bool {
        self.place < self.len
    }
}

/// Room for this number of bytes, and for the one more with which a reader sees that none follows.
pub fn room_for(alloc: Global, count: u64) -> io::Result<Vec<u8>> {
    match usize::try_from(count.saturating_add(1)) {
        Ok(room) => Ok(Vec::with_capacity(alloc, room)?),
        Err(_) => Err(io::Error::from(ErrorKind::OutOfMemory)),
    }
}

/// The files that are open for their next pieces; the one that was read last is the last.
#[derive(Drop)]
pub struct Readers {
    kept: Vec<Reader>,
}

impl Readers {
    /// No file.
    pub fn new(alloc: Global) -> Readers {
        Readers {
            kept: Vec::new(alloc),
        }
    }

    /// The reader of a file whose next piece begins at this place, which is kept no longer. There is none for a file's beginning.
    pub fn take(&mut self, file: FileId, place: u64) -> Option<Reader> {
        for i in 0..self.kept.len() {
            let reader = &self.kept[i];
            if place > 0 && reader.place == place && reader.file == file {
                return Some(self.kept.remove(i));
            }
        }
        None
    }

    /// Keeps a reader. If as many are kept as may be, the one that was read longest ago is closed; without memory, this one.
    pub fn keep(&mut self, reader: Reader) {
        if self.kept.len() >= MOST_READERS {
            let _ = self.kept.remove(0);
        }
        let _ = self.kept.push(reader);
    }

    /// Closes the readers of a file.
    pub fn forget(&mut self, file: FileId) {
        self.kept.retain(|reader| reader.file != file);
    }
}
