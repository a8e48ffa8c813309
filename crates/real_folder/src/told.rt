//! What is said on standard error at once.

use attr_records::PathName;
use std::io::{ErrorKind, IsTerminal};
use std::{fmt, io};

/// Goes to the front of a terminal's line, and takes away what stands in it.
const FRONT: &str = "\r\u{1b}[K";

/// Says a line on standard error; on a terminal in the place of a line that isn't ended.
pub(crate) fn tell(rt: &HostRuntime, line: impl fmt::Display + Drop) {
    let front = if rt.stderr().is_terminal() { FRONT } else { "" };
    let _ = eprintln!(rt; "{front}{line}");
}

/// Says a line on a terminal that the next one takes the place of.
pub(crate) fn tell_for_now(rt: &HostRuntime, line: impl fmt::Display + Drop) {
    let _ = eprint!(rt; "{FRONT}{line}");
}

/// Bytes of a name or a path as a person reads them: without control characters, and those that are no UTF-8 as escapes.
#[derive(Clone, Copy)]
pub(crate) struct Shown<'a> {
    bytes: &'a [u8],
}

impl<'a> Shown<'a> {
    pub(crate) fn new(bytes: &'a [u8]) -> Shown<'a> {
        Shown { bytes }
    }

    pub(crate) fn of(path: &'a PathName) -> Shown<'a> {
        Shown::new(path.as_slice())
    }
}

impl fmt::Display for Shown<'_> {
    fn fmt<W: fmt::Write>(&self, f: &mut fmt::Formatter<W>) -> fmt::Result {
        let Ok(text) = str::from_utf8(self.bytes) else {
            let escaped = self.bytes.escape_ascii();
            return write!(f, "{escaped}");
        };
        for letter in text.chars() {
            if letter.is_control() {
                let escaped = letter.escape_default();
                write!(f, "{escaped}")?;
            } else {
                write!(f, "{letter}")?;
            }
        }
        Ok(())
    }
}

/// A folder by its own name, or a path in it.
#[derive(Clone, Copy)]
pub(crate) struct Place<'a> {
    folder: &'a str,
    path: Option<&'a PathName>,
}

impl<'a> Place<'a> {
    pub(crate) fn of(folder: &'a str, path: Option<&'a PathName>) -> Place<'a> {
        Place { folder, path }
    }
}

impl fmt::Display for Place<'_> {
    fn fmt<W: fmt::Write>(&self, f: &mut fmt::Formatter<W>) -> fmt::Result {
        let folder = Shown::new(self.folder.as_bytes());
        match self.path {
            None => write!(f, "{folder}"),
            Some(path) => {
                let path = Shown::of(path);
                write!(f, "{folder}/{path}")
            }
        }
    }
}

/// What failed in a folder, and the system's reason.
#[derive(Debug, Drop)]
pub(crate) struct Trouble {
    /// The name of the entry at which it failed, if it wasn't at what was asked for.
    entry: Option<Vec<u8>>,
    pub(crate) error: io::Error,
}

impl Trouble {
    /// An entry of this name failed.
    pub(crate) fn at(name: Vec<u8>, error: io::Error) -> Trouble {
        Trouble {
            entry: Some(name),
            error,
        }
    }

    /// Says what failed at a place, and why.
    pub(crate) fn tell(&self, rt: &HostRuntime, place: Place<'_>) {
        let error = self.error;
        match &self.entry {
            None => tell(rt, format_args!("{place}: {error}")),
            Some(name) => {
                let name = Shown::new(name.as_slice());
                tell(rt, format_args!("{place}/{name}: {error}"));
            }
        }
    }

    /// There is no memory.
    pub(crate) fn memory() -> Trouble {
        Trouble::from(io::Error::from(ErrorKind::OutOfMemory))
    }
}

impl From<io::Error> for Trouble {
    fn from(error: io::Error) -> Trouble {
        Trouble { entry: None, error }
    }
}
