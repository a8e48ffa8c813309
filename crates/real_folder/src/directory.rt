//! A directory that is open, and what is done by the names in it.

use crate::handle::{Handle, done, moved};
use crate::seen::{Inode, Kind, Seen};
use std::alloc::{AllocError, Global};
use std::io::ErrorKind;
use std::{fs, io};

/// For how many bytes of names there is room in one call.
const NAMES: usize = 16_384;

/// The most bytes of a link's target that the system gives.
const TARGET: usize = 4_096;

/// How often a file is looked at again whose name another file has taken meanwhile.
const MOST_TRIES: u32 = 16;

/// The mode of a file until it gets its own.
const FILE_MODE: u32 = 0o600;

/// The mode of a directory until it gets its own.
const DIRECTORY_MODE: u32 = 0o700;

/// A directory that is open. What is done by a name in it is done there, wherever the directory has gone and whatever has come
/// into its place: a name is reached through the system's own name of the descriptor, `/proc/self/fd/N`.
#[derive(Debug, Drop)]
pub(crate) struct Directory {
    handle: Handle,
}

/// Whether it says that an entry isn't there, or that what was to be a directory is none.
pub(crate) fn is_gone(error: &io::Error) -> bool {
    matches!(
        error.kind(),
        ErrorKind::NotFound | ErrorKind::NotADirectory | ErrorKind::FilesystemLoop
    )
}

impl Directory {
    /// The directory at a path, which may lead through links. It is refused where names in it can't be reached.
    pub(crate) fn at(rt: &HostRuntime, path: &str) -> io::Result<Directory> {
        if path.is_empty() {
            return Err(io::Error::from(ErrorKind::NotFound));
        }
        let inside = format!(in rt.alloc(); "{path}/.")?;
        let handle = Handle::opened(os::open_dir_at(libc::AT_FDCWD, inside.as_bytes()))?;
        let directory = Directory { handle };
        let there = Seen::of(&fs::metadata(rt, inside.as_str())?);
        match directory.look_at(rt, b".") {
            Ok(seen) if seen.inode == there.inode => Ok(directory),
            _ => Err(io::Error::new(
                ErrorKind::Unsupported,
                "/proc/self/fd doesn't lead to what is open",
            )),
        }
    }

    /// The directory of a name in it, or itself, by the name `.`. A link is refused.
    pub(crate) fn step(&self, name: &[u8]) -> io::Result<Directory> {
        let handle = Handle::opened(os::open_dir_at(self.handle.number(), name))?;
        Ok(Directory { handle })
    }

    /// The open directory itself.
    pub(crate) fn handle(&self) -> &Handle {
        &self.handle
    }

    /// A path that leads to a name in it and nowhere else.
    fn path_to(&self, alloc: Global, name: &[u8]) -> Result<Vec<u8>, AllocError> {
        let fd = self.handle.number();
        let front = format!(in alloc; "/proc/self/fd/{fd}/")?;
        let mut path = Vec::from_slice(alloc, front.as_bytes())?;
        path.extend_from_slice(name)?;
        Ok(path)
    }

    /// What the system says of a name in it, without following a link.
    pub(crate) fn look_at(&self, rt: &HostRuntime, name: &[u8]) -> io::Result<Seen> {
        let Ok(name) = str::from_utf8(name) else {
            return self.look_at_bytes(rt, name);
        };
        let fd = self.handle.number();
        let path = format!(in rt.alloc(); "/proc/self/fd/{fd}/{name}")?;
        Ok(Seen::of(&fs::symlink_metadata(rt, path.as_str())?))
    }

    /// What can be known of a name that is no UTF-8, which no call of std takes: whether it is a link or a directory, without
    /// opening what else it is.
    fn look_at_bytes(&self, rt: &HostRuntime, name: &[u8]) -> io::Result<Seen> {
        match self.read_link(rt.alloc(), name) {
            Ok(_) => Ok(Seen::only_link()),
            Err(error) if error.raw_os_error() != Some(libc::EINVAL) => Err(error),
            Err(_) => match self.step(name) {
                Ok(directory) => directory.handle.look(rt),
                Err(_) => Ok(Seen::only_file()),
            },
        }
    }

    /// The names in it, rising. It is to be read once.
    pub(crate) fn names(&self, alloc: Global) -> io::Result<Vec<Vec<u8>>> {
        let mut names = Vec::new(alloc);
        let mut room = vec![in alloc; 0; NAMES]?;
        for _ in 0..u64::MAX {
            let count = os::read_dir(self.handle.number(), &mut room);
            if count == 0 {
                break;
            }
            push_names(alloc, &mut names, &room[..count])?;
        }
        match os::errno() {
            0 => {
                names.sort_unstable();
                names.dedup();
                Ok(names)
            }
            error => Err(io::Error::from_raw_os_error(error)),
        }
    }

    /// The file of a name in it, to be read, with what is said of it; `None` if it has gone. What else is there is refused before it
    /// is opened.
    pub(crate) fn open_file(
        &self,
        rt: &HostRuntime,
        name: &[u8],
    ) -> io::Result<Option<(Handle, Seen)>> {
        for _ in 0..MOST_TRIES {
            let seen = match self.look_at(rt, name) {
                Ok(seen) => seen,
                Err(error) if is_gone(&error) => return Ok(None),
                Err(error) => return Err(error),
            };
            if seen.kind != Kind::File {
                return Err(not_a_file());
            }
            if let Some(handle) = self.open_inode(rt, name, seen.inode)? {
                return Ok(Some((handle, seen)));
            }
        }
        Err(io::Error::new(ErrorKind::Other, "other files come into its place"))
    }

    /// The file of a name in it, to be read, if it is this one still.
    fn open_inode(
        &self,
        rt: &HostRuntime,
        name: &[u8],
        inode: Inode,
    ) -> io::Result<Option<Handle>> {
        let path = self.path_to(rt.alloc(), name)?;
        match Handle::opened(os::open_with(path.as_slice(), libc::O_RDONLY, 0)) {
            Ok(handle) if handle.look(rt)?.inode == inode => Ok(Some(handle)),
            Ok(_) => Ok(None),
            Err(error) if is_gone(&error) => Ok(None),
            Err(error) => Err(error),
        }
    }

    /// The target of a link in it.
    pub(crate) fn read_link(&self, alloc: Global, name: &[u8]) -> io::Result<Vec<u8>> {
        let path = self.path_to(alloc, name)?;
        let mut target = vec![in alloc; 0; TARGET]?;
        let count = moved(os::readlink(path.as_slice(), &mut target), TARGET)?;
        target.truncate(count);
        Ok(target)
    }
}

/// What is made in it.
impl Directory {
    /// Makes a file for its owner alone, to be written. A name that is taken is refused, also by a link.
    pub(crate) fn make_file(&self, alloc: Global, name: &[u8]) -> io::Result<Handle> {
        let path = self.path_to(alloc, name)?;
        let flags = libc::O_WRONLY | libc::O_CREAT | libc::O_EXCL;
        Handle::opened(os::open_with(path.as_slice(), flags, FILE_MODE))
    }

    /// Makes a directory for its owner alone. A name that is taken is refused.
    pub(crate) fn make_directory(&self, alloc: Global, name: &[u8]) -> io::Result<()> {
        let path = self.path_to(alloc, name)?;
        done(os::mkdir_with(path.as_slice(), DIRECTORY_MODE))
    }

    /// Makes a symbolic link. A name that is taken is refused.
    pub(crate) fn make_link(&self, alloc: Global, name: &[u8], target: &[u8]) -> io::Result<()> {
        let path = self.path_to(alloc, name)?;
        done(os::symlink(target, path.as_slice()))
    }

    /// Gives a symbolic link in it its owner and its group of users. Not permitted where others may write to the directory, since
    /// the link is given them by its name, in whose place they may put something else.
    pub(crate) fn set_link_owner(
        &self,
        rt: &HostRuntime,
        name: &[u8],
        uid: u32,
        gid: u32,
    ) -> io::Result<()> {
        let there = self.look_at(rt, name)?;
        if there.is_owned_by(uid, gid) {
            return Ok(());
        }
        let around = self.handle.look(rt)?;
        if !around.is_written_by(libc::geteuid()) {
            return Err(io::Error::from_raw_os_error(libc::EPERM));
        }
        let path = self.path_to(rt.alloc(), name)?;
        done(os::lchown(path.as_slice(), uid, gid))
    }

    /// Gives the regular file of this name a further name in another directory. A name that is taken is refused; no link is
    /// followed.
    pub(crate) fn add_name(
        &self,
        rt: &HostRuntime,
        name: &[u8],
        other: &Directory,
        further: &[u8],
    ) -> io::Result<()> {
        if self.look_at(rt, name)?.kind != Kind::File {
            return Err(not_a_file());
        }
        let from = self.path_to(rt.alloc(), name)?;
        let to = other.path_to(rt.alloc(), further)?;
        done(os::link(from.as_slice(), to.as_slice()))
    }
}

/// Something else is where a file was to be.
fn not_a_file() -> io::Error {
    io::Error::new(ErrorKind::InvalidInput, "not a regular file")
}

/// Adds names that each end with a 0, but for `.` and `..`.
fn push_names(alloc: Global, names: &mut Vec<Vec<u8>>, ended: &[u8]) -> Result<(), AllocError> {
    for name in ended.split(|byte| *byte == 0) {
        if !matches!(name, b"" | b"." | b"..") {
            names.push(Vec::from_slice(alloc, name)?)?;
        }
    }
    Ok(())
}
