//! A store's folder and the files in it: both are made for their owner alone, since a backup holds everybody's files.

use std::alloc::Global;
use std::fs::{DirBuilder, File, Files, Metadata, OpenFile, OpenOptions, TryLockError};
use std::io::ErrorKind;
use std::os::unix::fs::{DirBuilderExt, MetadataExt, OpenOptionsExt};
use std::path::Path;
use std::{fs, io};

/// The mode of a store's files.
const FILE_MODE: u32 = 0o600;

/// The mode of its folder.
const FOLDER_MODE: u32 = 0o700;

/// The system's number for a folder in the place of a file (EISDIR).
const FOLDER: i32 = 21;

/// The system's number for a symbolic link in a place where none may be (ELOOP).
const SYMBOLIC_LINK: i32 = 40;

/// What a file is opened for.
#[derive(Clone, Copy, PartialEq, Eq)]
pub enum Access {
    Read,
    /// To write it from the start, empty.
    Replace,
    /// To write at its end.
    Append,
}

/// A file that was opened.
#[derive(Drop)]
pub struct Opened<F> {
    pub handle: F,
    /// How many bytes it had.
    pub len: u64,
}

/// Opens a regular file, which is made if it is to be written and isn't there. What else stands in its place is refused before it is
/// opened, since that may wait, or be felt elsewhere.
pub fn open_file<R: Files>(rt: &R, path: &str, access: Access) -> io::Result<Opened<R::File>> {
    let mut options = OpenOptions::new();
    match access {
        Access::Read => options.read(true),
        Access::Replace => options.write(true),
        Access::Append => options.append(true),
    };
    match regular_file(rt, path)? {
        Some(found) => open_found(rt, path, access, &options, &found),
        None => match access {
            Access::Read => Err(io::Error::from(ErrorKind::NotFound)),
            _ => {
                let handle = rt.open_file(options.mode(FILE_MODE).create_new(true), path)?;
                Ok(Opened { handle, len: 0 })
            }
        },
    }
}

/// What the system says of the regular file there, if something is there.
fn regular_file<R: Files>(rt: &R, path: &str) -> io::Result<Option<Metadata>> {
    match rt.symlink_metadata(path) {
        Ok(found) if found.is_file() => Ok(Some(found)),
        Ok(found) => Err(irregular(&found)),
        Err(error) => match error.kind() {
            ErrorKind::NotFound => Ok(None),
            _ => Err(error),
        },
    }
}

/// Why this is refused in the place of a file.
fn irregular(found: &Metadata) -> io::Error {
    if found.is_symlink() {
        return io::Error::from_raw_os_error(SYMBOLIC_LINK);
    }
    if found.is_dir() {
        return io::Error::from_raw_os_error(FOLDER);
    }
    io::Error::new(ErrorKind::InvalidInput, "not a regular file")
}

/// Opens the file that was found there, and empties it if it is to be replaced. One that came into its place meanwhile is refused as
/// it is.
fn open_found<R: Files>(
    rt: &R,
    path: &str,
    access: Access,
    options: &OpenOptions,
    found: &Metadata,
) -> io::Result<Opened<R::File>> {
    let handle = rt.open_file(options, path)?;
    let opened = handle.metadata()?;
    if opened.dev() != found.dev() || opened.ino() != found.ino() {
        return Err(io::Error::new(ErrorKind::Other, "another file came into its place"));
    }
    if access == Access::Replace {
        handle.set_len(0)?;
    }
    Ok(Opened {
        handle,
        len: opened.len(),
    })
}

/// Makes the folder, and those above it, where they aren't there, so that a crash keeps them.
pub fn make_folder<R: Files>(rt: &R, alloc: Global, path: &str) -> io::Result<()> {
    let mut above = Vec::new(alloc);
    for folder in Path::new(path).ancestors() {
        if folder.is_dir(rt) {
            break;
        }
        if let Some(parent) = folder.parent() {
            above.push(parent)?;
        }
    }
    let mut builder = DirBuilder::new();
    builder.recursive(true).mode(FOLDER_MODE);
    builder.create(rt, path)?;
    for parent in above {
        let name = match parent.as_str() {
            "" => ".",
            name => name,
        };
        fs::open(rt, name)?.sync_all()?;
    }
    Ok(())
}

/// The lock on a store's folder: no other process has it until the file is dropped. None if another has it.
pub fn lock_folder(rt: &HostRuntime, folder: &str) -> io::Result<Option<File>> {
    let path = format!(in rt.alloc(); "{folder}/lock")?;
    let opened = match open_file(rt, path.as_str(), Access::Append) {
        // another process made it meanwhile
        Err(error) if error.kind() == ErrorKind::AlreadyExists => {
            open_file(rt, path.as_str(), Access::Append)?
        }
        opened => opened?,
    };
    let file = opened.handle;
    match file.try_lock() {
        Ok(()) => Ok(Some(file)),
        Err(TryLockError::WouldBlock) => Ok(None),
        Err(TryLockError::Error(error)) => Err(error),
    }
}
