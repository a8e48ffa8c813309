use crate::disk_fault::DiskFault;
use disk_trait::FileId;
use std::alloc::Global;
use std::fs::File;
use std::thread::{Threads, join};

/// How many threads make files durable side by side.
const MOST_THREADS: usize = 16;

/// Fewer files than these are made durable by one thread.
const MANY_FILES: usize = 8;

/// A file, and the handle that wrote it.
#[derive(Drop)]
struct Written {
    file: FileId,
    handle: File,
}

impl Written {
    /// Makes the file durable.
    fn settle(&self) -> Result<(), DiskFault> {
        match self.handle.sync_all() {
            Ok(()) => Ok(()),
            Err(error) => Err(DiskFault::of_file(self.file, error)),
        }
    }
}

/// Makes files durable, up to the first that can't be.
fn settle_each(files: &[Written]) -> Result<(), DiskFault> {
    for written in files {
        written.settle()?;
    }
    Ok(())
}

/// Makes files durable in this number of parts side by side, each in a thread of its own; where none can be started the part is
/// done here. A part ends with its first file that can't be; what is handed back is why the first of these can't.
#[cycle(parts)]
fn settle_in_parts<H: Threads>(
    threads: &H,
    parts: usize,
    files: &[Written],
) -> Result<(), DiskFault> {
    if parts < 2 {
        return settle_each(files);
    }
    let left = parts - 1;
    let (part, rest) = files.split_at(files.len() / parts);
    let others = || settle_in_parts(threads, left, rest);
    let (settled, others) = join(threads, || settle_each(part), others);
    settled.and(others)
}

/// The files that were written since the last sync, the oldest first, each once.
#[derive(Drop)]
pub struct Pending {
    most: usize,
    written: Vec<Written>,
}

impl Pending {
    /// For at most this number of handles, and for one if that is none.
    pub fn new(alloc: Global, most: usize) -> Pending {
        Pending {
            most,
            written: Vec::new(alloc),
        }
    }

    /// The handle that wrote a file, which is kept no longer.
    pub fn take(&mut self, file: FileId) -> Option<File> {
        for i in 0..self.written.len() {
            if self.written[i].file == file {
                let Written { file: _, handle } = self.written.remove(i);
                return Some(handle);
            }
        }
        None
    }

    /// Keeps the handle that wrote a file. If as many are kept as may be, these files are made durable first; if there is no memory
    /// for it, this file is at once. What is handed back is why that failed.
    pub fn keep<H: Threads>(
        &mut self,
        threads: &H,
        file: FileId,
        handle: File,
    ) -> Result<(), DiskFault> {
        let _ = self.take(file);
        let early = if self.written.len() < self.most {
            Ok(())
        } else {
            self.settle(threads)
        };
        match self.written.push(Written { file, handle }) {
            Ok(()) => early,
            Err(refused) => early.and(refused.value.settle()),
        }
    }

    /// Makes all files durable, side by side if there are many, and keeps none. What is handed back is why one failed.
    pub fn settle<H: Threads>(&mut self, threads: &H) -> Result<(), DiskFault> {
        let count = self.written.len();
        let parts = if count < MANY_FILES {
            1
        } else {
            count.min(MOST_THREADS)
        };
        let settled = settle_in_parts(threads, parts, self.written.as_slice());
        self.written.clear();
        settled
    }
}
