//! A real folder of the system.

ghost use Rattle.std.specs.Prelude.{◌≡◌, None};
ghost use Rattle.fault_counts.specs.Counts.{Counted};
ghost use Rattle.folder_trait.specs.declared.folder.FolderFault.TheVariants.{Failed};
ghost use Rattle.real_folder.specs.Untold.{untold};

use crate::directory::{Directory, is_gone};
use crate::fault_count::FaultCount;
use crate::groups::Groups;
use crate::handle::{Handle, done};
use crate::listing::found_in;
use crate::seen::Seen;
use crate::told::{Place, Shown, Trouble, tell};
use attr_records::{Attr, Dir, File, Item, Link, PathName};
use disk_trait::Bytes;
use folder_trait::{Folder, FolderFault, Found};
use std::alloc::Global;
use std::io;
use std::io::{ErrorKind, Read, Write};

/// The mode of a folder that is made.
const FOLDER_MODE: u32 = 0o700;

/// The bits of a mode by which a program works as its owner, or as its group of users.
const SET_IDS: u16 = 0o6000;

/// A folder of the system. It tells nothing of what lies in it, and says on standard error at once which of its calls failed, where
/// and why.
///
/// **What is listed.** Names and the targets of links are any bytes. Pipes, sockets and devices are passed over, and never opened; so
/// is a link whose target can't be read, which is told. A directory that has gone since it was listed is told as `gone: PATH`, and
/// nothing lies in it. A file has the group 0 if it has one name, else a number from 1 up, the same in each listing of this value. Of
/// a name that is no UTF-8, which no path has, the kit's calls say only whether it is a directory, with its attributes, or a link, with
/// its target: what else it may be is listed as a file without bytes, and attributes that aren't said are the defaults.
///
/// **What is read.** A file as it is now, not as it was listed: it may have changed since, and may change while it is read. A whole one
/// is read up to the bytes that it had as it was opened. One that is read piece by piece stays open from its first piece up to its end,
/// so that no piece is of another file that has come into its place.
///
/// **What is made** is for its owner alone until it has its attributes: owner and group of users, then the mode, then the time. An owner
/// that the system doesn't let us give (EPERM) is told once, and passed over from then on; the mode is given all the same, with the bits
/// that the system takes. No call of the kit sets the mode and the time of a symbolic link, attributes beyond these, or access lists:
/// they stay as the system made them. What a call made before it failed stays there, as a file cut short. The entry that was made last
/// stays open if it is a file in no group of hard links, so that bytes can be put at its end whatever its mode is; a hard link made
/// since, or another entry, closes it.
///
/// **Links.** No path leads through a symbolic link, whoever makes links in the folder meanwhile: each directory of a path is opened by
/// its name in the one that holds it, which refuses a link, and what is done there is done through what is open. A name that is taken
/// is never written to. A file to be read is looked at, opened, and looked at again, since no call of the kit opens a file without
/// following a link. A link gets no other owner where others may write to the directory around it, since it is named for
/// that. It needs the system's `/proc`, through which names in an open directory are reached.
#[derive(Drop)]
pub struct RealFolder {
    rt: HostRuntime,
    /// As it was named.
    name: String,
    /// `None` of one that isn't used.
    root: Option<Directory>,
    groups: Groups,
    reading: Option<Reading>,
    /// The entry that was made last, if it is a file that more may be put to.
    made: Option<MadeFile>,
    is_owner_told: bool,
    faults: FaultCount,
}

/// A file that is read piece by piece.
#[derive(Debug, Drop)]
struct Reading {
    path: PathName,
    handle: Handle,
}

/// A file that was made, open to be written at its end.
#[derive(Debug, Drop)]
struct MadeFile {
    path: PathName,
    handle: Handle,
    attr: Attr,
}

impl RealFolder {
    /// The folder at a path, which may lead through links. Refused if no folder is there, or the system has no `/proc`.
    pub fn open(rt: HostRuntime, path: &str) -> io::Result<RealFolder> {
        let alloc = rt.alloc();
        Ok(RealFolder {
            rt,
            name: String::from_str(alloc, path)?,
            root: Some(Directory::at(&rt, path)?),
            groups: Groups::new(alloc),
            reading: None,
            made: None,
            is_owner_told: false,
            faults: FaultCount::new(),
        })
    }

    /// A folder for a run that uses none: nothing is opened, and each call that looks into it or makes something fails.
    pub fn unused(rt: HostRuntime) -> RealFolder {
        let alloc = rt.alloc();
        RealFolder {
            rt,
            name: String::new(alloc),
            root: None,
            groups: Groups::new(alloc),
            reading: None,
            made: None,
            is_owner_told: false,
            faults: FaultCount::new(),
        }
    }

    /// The folder at a path, which is made for its owner alone if nothing is there. What it lies in has to be there.
    pub fn open_or_make(rt: HostRuntime, path: &str) -> io::Result<RealFolder> {
        match done(os::mkdir_with(path.as_bytes(), FOLDER_MODE)) {
            Err(error) if error.kind() != ErrorKind::AlreadyExists => Err(error),
            _ => RealFolder::open(rt, path),
        }
    }

    /// The directory at a path, or the folder itself.
    fn directory_at(&self, path: Option<&[u8]>) -> io::Result<Directory> {
        let Some(root) = &self.root else {
            return Err(io::Error::from(ErrorKind::NotFound));
        };
        let mut reached = root.step(b".")?;
        if let Some(path) = path {
            for name in path.split(|byte| *byte == b'/') {
                reached = reached.step(name)?;
            }
        }
        Ok(reached)
    }

    /// The directory that a path lies in, and the last name of the path.
    fn split<'a>(&self, path: &'a PathName) -> io::Result<(Directory, &'a [u8])> {
        let directory = self.directory_at(path.parent())?;
        let name = path.as_slice().rsplit(|byte| *byte == b'/').next();
        Ok((directory, name.unwrap_or(b"")))
    }

    /// Counts and tells a call that failed, unless it is for want of memory; and what it answers.
    fn fault(&mut self, path: Option<&PathName>, trouble: Trouble) -> FolderFault
        ensures { Counted self.old.faults self.new.faults (result ≡ Failed) }
    {
        if trouble.error.kind() == ErrorKind::OutOfMemory {
            return FolderFault::Memory;
        }
        self.faults.raise();
        let place = Place::of(self.name.as_str(), path);
        trouble.tell(&self.rt, place);
        FolderFault::Failed
    }
}

/// What is listed, and what is read.
impl RealFolder {
    /// The open directory at a path, or the folder itself, with the names in it.
    fn names_at(
        &self,
        alloc: Global,
        path: Option<&PathName>,
    ) -> io::Result<(Directory, Vec<Vec<u8>>)> {
        let directory = self.directory_at(path.map(PathName::as_slice))?;
        let names = directory.names(alloc)?;
        Ok((directory, names))
    }

    /// What lies in the directory at a path, or in the folder itself, by rising names.
    fn found_at(&mut self, alloc: Global, path: Option<&PathName>) -> Result<Vec<Found>, Trouble>
        ensures { self.new.faults ≡ self.old.faults }
    {
        let (directory, names) = match self.names_at(alloc, path) {
            Ok(found) => found,
            Err(error) => match path {
                Some(path) if is_gone(&error) => {
                    tell(&self.rt, format_args!("gone: {}", Shown::of(path)));
                    return Ok(Vec::new(alloc));
                }
                _ => return Err(Trouble::from(error)),
            },
        };
        let place = Place::of(self.name.as_str(), path);
        found_in(&self.rt, &mut self.groups, place, &directory, names)
    }

    /// The file at a path, to be read, with what is said of it; `None` if it has gone.
    fn open_at(&self, path: &PathName) -> io::Result<Option<(Handle, Seen)>> {
        let (directory, name) = match self.split(path) {
            Ok(found) => found,
            Err(error) if is_gone(&error) => return Ok(None),
            Err(error) => return Err(error),
        };
        directory.open_file(&self.rt, name)
    }

    /// The bytes of the file at a path; `None` if it has gone.
    fn bytes_at(&self, alloc: Global, path: &PathName) -> io::Result<Option<Vec<u8>>> {
        let Some((handle, seen)) = self.open_at(path)? else {
            return Ok(None);
        };
        let mut bytes = Vec::with_capacity(alloc, room_for(seen.size))?;
        handle.take(seen.size).read_to_end(&mut bytes)?;
        Ok(Some(bytes))
    }

    /// Whether the file at a path is the one that is read piece by piece. One that is read from its beginning never is.
    fn is_reading(&self, path: &PathName, from: u64) -> bool {
        match &self.reading {
            Some(reading) => from > 0 && reading.path.as_slice() == path.as_slice(),
            None => false,
        }
    }

    /// Makes the file at a path the one that is read piece by piece, unless it is; says whether it is there.
    fn turn_to(&mut self, alloc: Global, path: &PathName, from: u64) -> io::Result<bool>
        ensures { self.new.faults ≡ self.old.faults }
    {
        if self.is_reading(path, from) {
            return Ok(true);
        }
        self.reading = None;
        let Some((handle, _)) = self.open_at(path)? else {
            return Ok(false);
        };
        let path = path.copy(alloc)?;
        self.reading = Some(Reading { path, handle });
        Ok(true)
    }

    /// A piece of the file at a path; `None` if it has gone. Behind the last one the file is closed.
    fn piece_at(
        &mut self,
        alloc: Global,
        path: &PathName,
        from: u64,
        room: usize,
    ) -> io::Result<Option<Vec<u8>>>
        ensures { self.new.faults ≡ self.old.faults }
    {
        if !self.turn_to(alloc, path, from)? {
            return Ok(None);
        }
        let bytes = match &self.reading {
            Some(reading) => reading.handle.read_at(alloc, from, room)?,
            None => return Ok(None),
        };
        if bytes.len() < room {
            self.reading = None;
        }
        Ok(Some(bytes))
    }

    /// Whether nothing lies in the folder.
    fn has_nothing(&self, alloc: Global) -> io::Result<bool> {
        let (_, names) = self.names_at(alloc, None)?;
        Ok(names.is_empty())
    }
}

/// Room for the bytes of a file, and for the one more with which a reader sees that none follows.
fn room_for(size: u64) -> usize {
    usize::try_from(size.saturating_add(1)).unwrap_or(0)
}

/// What is made.
impl RealFolder {
    /// Whether an owner was given. One that the system doesn't let us give is told the first time, and is no fault.
    fn settle_owner(&mut self, given: io::Result<()>) -> io::Result<bool>
        ensures { self.new.faults ≡ self.old.faults }
    {
        match given {
            Err(error) if error.raw_os_error() == Some(libc::EPERM) => {
                if !self.is_owner_told {
                    self.is_owner_told = true;
                    tell(
                        &self.rt,
                        "an owner can't be given here: such entries stay ours",
                    );
                }
                Ok(false)
            }
            Ok(()) => Ok(true),
            Err(error) => Err(error),
        }
    }

    /// Gives what is open its attributes. What stays ours gets no set-id bits of another owner's.
    fn settle(&mut self, handle: &Handle, attr: &Attr) -> io::Result<()>
        ensures { self.new.faults ≡ self.old.faults }
    {
        let is_theirs = self.settle_owner(handle.set_owner(attr))?;
        let mode = if is_theirs {
            attr.mode()
        } else {
            attr.mode() & !SET_IDS
        };
        handle.set_mode(mode)?;
        handle.set_time(attr)
    }

    /// Makes a file. One that is in no group of hard links stays open, so that more can be put to it.
    fn make_file(&mut self, alloc: Global, path: &PathName, file: &File) -> io::Result<()>
        ensures { self.new.faults ≡ self.old.faults }
    {
        let (directory, name) = self.split(path)?;
        let path = path.copy(alloc)?;
        let mut handle = directory.make_file(alloc, name)?;
        handle.write_all(file.bytes.as_slice())?;
        let attr = file.attr;
        self.settle(&handle, &attr)?;
        if file.group == 0 {
            self.made = Some(MadeFile { path, handle, attr });
        }
        Ok(())
    }

    /// Puts bytes at the end of the file that was made last, if this is its path, and gives it its attributes anew: to write takes the
    /// set-id bits and the time. Behind a failure the file is closed.
    fn write_more(&mut self, path: &PathName, bytes: &[u8]) -> io::Result<()>
        ensures { self.new.faults ≡ self.old.faults }
    {
        let MadeFile {
            path,
            mut handle,
            attr,
        } = match self.made.take() {
            Some(made) if made.path.as_slice() == path.as_slice() => made,
            _ => {
                return Err(io::Error::new(
                    ErrorKind::InvalidInput,
                    "not the file that was made last",
                ));
            }
        };
        handle.write_all(bytes)?;
        self.settle(&handle, &attr)?;
        self.made = Some(MadeFile { path, handle, attr });
        Ok(())
    }

    /// Makes a symbolic link.
    fn make_link(&mut self, alloc: Global, path: &PathName, link: &Link) -> io::Result<()>
        ensures { self.new.faults ≡ self.old.faults }
    {
        let (directory, name) = self.split(path)?;
        directory.make_link(alloc, name, link.target.as_slice())?;
        let (uid, gid) = (link.attr.uid(), link.attr.gid());
        let given = directory.set_link_owner(&self.rt, name, uid, gid);
        self.settle_owner(given)?;
        Ok(())
    }

    /// Makes an entry.
    fn make_item(&mut self, alloc: Global, path: &PathName, item: &Item) -> io::Result<()>
        ensures { self.new.faults ≡ self.old.faults }
    {
        self.made = None;
        match item {
            Item::File(file) => self.make_file(alloc, path, file),
            Item::Link(link) => self.make_link(alloc, path, link),
            Item::Dir(_) => {
                let (directory, name) = self.split(path)?;
                directory.make_directory(alloc, name)
            }
        }
    }

    /// Makes a hard link of an earlier file.
    fn make_name(&mut self, path: &PathName, earlier: &PathName) -> io::Result<()>
        ensures { self.new.faults ≡ self.old.faults }
    {
        self.made = None;
        let (from, name) = self.split(earlier)?;
        let (to, further) = self.split(path)?;
        from.add_name(&self.rt, name, &to, further)
    }

    /// Gives a directory its attributes.
    fn settle_directory(&mut self, path: &PathName, dir: &Dir) -> io::Result<()>
        ensures { self.new.faults ≡ self.old.faults }
    {
        let directory = self.directory_at(Some(path.as_slice()))?;
        self.settle(directory.handle(), &dir.attr)
    }
}

impl Folder for RealFolder {
    ghost tree = { λ _. None };

    ghost fault_count = { λ folder. folder.faults };

    ghost is_tree = { λ folder all told. untold told };

    /// A directory that has gone has nothing.
    fn list(
        &mut self,
        alloc: Global,
        directory: Option<&PathName>,
    ) -> Result<Vec<Found>, FolderFault> {
        match self.found_at(alloc, directory) {
            Ok(list) => Ok(list),
            Err(trouble) => Err(self.fault(directory, trouble)),
        }
    }

    fn read(&mut self, alloc: Global, path: &PathName) -> Result<Option<Bytes>, FolderFault> {
        match self.bytes_at(alloc, path) {
            Ok(Some(bytes)) => Ok(Some(Bytes::from_vec(bytes))),
            Ok(None) => Ok(None),
            Err(error) => Err(self.fault(Some(path), Trouble::from(error))),
        }
    }

    fn read_at(
        &mut self,
        alloc: Global,
        path: &PathName,
        from: u64,
        room: usize,
    ) -> Result<Option<Bytes>, FolderFault> {
        match self.piece_at(alloc, path, from, room) {
            Ok(Some(bytes)) => Ok(Some(Bytes::from_vec(bytes))),
            Ok(None) => Ok(None),
            Err(error) => Err(self.fault(Some(path), Trouble::from(error))),
        }
    }

    fn make(&mut self, alloc: Global, path: &PathName, item: &Item) -> Result<(), FolderFault> {
        match self.make_item(alloc, path, item) {
            Ok(()) => Ok(()),
            Err(error) => Err(self.fault(Some(path), Trouble::from(error))),
        }
    }

    fn append(&mut self, _alloc: Global, path: &PathName, bytes: &[u8]) -> Result<(), FolderFault> {
        match self.write_more(path, bytes) {
            Ok(()) => Ok(()),
            Err(error) => Err(self.fault(Some(path), Trouble::from(error))),
        }
    }

    fn link(
        &mut self,
        _alloc: Global,
        path: &PathName,
        earlier: &PathName,
    ) -> Result<(), FolderFault> {
        match self.make_name(path, earlier) {
            Ok(()) => Ok(()),
            Err(error) => Err(self.fault(Some(path), Trouble::from(error))),
        }
    }

    fn finish(&mut self, _alloc: Global, path: &PathName, dir: &Dir) -> Result<(), FolderFault> {
        match self.settle_directory(path, dir) {
            Ok(()) => Ok(()),
            Err(error) => Err(self.fault(Some(path), Trouble::from(error))),
        }
    }

    fn is_empty(&mut self, alloc: Global) -> Result<bool, FolderFault> {
        match self.has_nothing(alloc) {
            Ok(empty) => Ok(empty),
            Err(error) => Err(self.fault(None, Trouble::from(error))),
        }
    }

    fn faults(&self) -> u64 {
        self.faults.value()
    }
}
