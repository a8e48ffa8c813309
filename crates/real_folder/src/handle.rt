//! What the system opened, and the calls that go by its descriptor.

ghost use Rattle.std.specs.Prelude.{◌≤◌, IfOk};

use crate::seen::Seen;
use attr_records::Attr;
use libc::types::timespec;
use std::alloc::Global;
use std::io::{ErrorKind, Read, Write};
use std::{fs, io};

/// An open file or directory, which is closed where it is dropped.
#[derive(Debug)]
pub(crate) struct Handle {
    fd: i32,
}

/// Why the system's last call failed.
fn last_error() -> io::Error {
    io::Error::from_raw_os_error(os::errno())
}

/// What a call did that answers 0, or -1 where it failed. To be asked before any other call.
pub(crate) fn done(answer: i32) -> io::Result<()> {
    if answer < 0 {
        return Err(last_error());
    }
    Ok(())
}

/// How many bytes a call moved that answers -1 where it failed. To be asked before any other call.
pub(crate) fn moved(answer: isize, most: usize) -> io::Result<usize>
    ensures { IfOk result (λ count. count ≤ most) }
{
    match usize::try_from(answer) {
        Ok(count) if count <= most => Ok(count),
        Ok(_) => Err(io::Error::from(ErrorKind::InvalidData)),
        Err(_) => Err(last_error()),
    }
}

impl Handle {
    /// What a call opened that answers a descriptor, or -1 where it failed. To be asked before any other call.
    pub(crate) fn opened(answer: i32) -> io::Result<Handle> {
        done(answer)?;
        Ok(Handle { fd: answer })
    }

    /// Its number, which is its own until it is dropped.
    pub(crate) fn number(&self) -> i32 {
        self.fd
    }

    /// What the system says of it.
    pub(crate) fn look(&self, rt: &HostRuntime) -> io::Result<Seen> {
        let fd = self.fd;
        let path = format!(in rt.alloc(); "/proc/self/fd/{fd}")?;
        Ok(Seen::of(&fs::metadata(rt, path.as_str())?))
    }

    /// So many bytes from a place, or all that are left.
    pub(crate) fn read_at(&self, alloc: Global, from: u64, room: usize) -> io::Result<Vec<u8>> {
        let mut bytes = Vec::with_capacity(alloc, room.saturating_add(1))?;
        let reader = PlacedReader {
            handle: self,
            place: from,
        };
        reader.take(room as u64).read_to_end(&mut bytes)?;
        Ok(bytes)
    }

    /// Gives it its owner and its group of users; the system may take the set-user-ID bit of its mode away.
    pub(crate) fn set_owner(&self, attr: &Attr) -> io::Result<()> {
        done(libc::fchown(self.fd, attr.uid(), attr.gid()))
    }

    /// Gives it the twelve bits of its mode.
    pub(crate) fn set_mode(&self, mode: u16) -> io::Result<()> {
        done(libc::fchmod(self.fd, u32::from(mode)))
    }

    /// Gives it the time of its last change, to the nanosecond, before 1970 too; that of its last reading stays.
    pub(crate) fn set_time(&self, attr: &Attr) -> io::Result<()> {
        let read = timespec {
            tv_sec: 0,
            tv_nsec: libc::UTIME_OMIT,
        };
        let changed = timespec {
            tv_sec: attr.mtime(),
            tv_nsec: i64::from(attr.nanos()),
        };
        done(libc::futimens(self.fd, &[read, changed]))
    }
}

impl Drop for Handle {
    fn drop(self) {
        let Handle { fd } = self;
        libc::close(fd);
    }
}

impl Read for Handle {
    fn read(&mut self, buf: &mut [u8]) -> io::Result<usize> {
        let answer = libc::read(self.fd, buf);
        moved(answer, buf.len())
    }
}

/// Reads what is open from a place on.
#[derive(Clone, Copy)]
struct PlacedReader<'a> {
    handle: &'a Handle,
    place: u64,
}

impl Read for PlacedReader<'_> {
    fn read(&mut self, buf: &mut [u8]) -> io::Result<usize> {
        let Ok(place) = i64::try_from(self.place) else {
            return Err(io::Error::from(ErrorKind::InvalidInput));
        };
        let room = buf.len();
        let count = moved(libc::pread(self.handle.fd, buf, place), room)?;
        self.place = self.place.saturating_add(count as u64);
        Ok(count)
    }
}

impl Write for Handle {
    fn write(&mut self, buf: &[u8]) -> io::Result<usize> {
        moved(libc::write(self.fd, buf), buf.len())
    }

    fn flush(&mut self) -> io::Result<()> {
        Ok(())
    }
}
