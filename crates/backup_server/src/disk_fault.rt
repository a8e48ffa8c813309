use disk_trait::FileId;
use std::{fmt, io};

/// What failed on a disk over a folder, and the system's reason.
#[derive(Debug, Drop)]
pub struct DiskFault {
    file: Option<FileId>,
    error: io::Error,
}

impl DiskFault {
    /// A call on this file failed.
    pub fn of_file(file: FileId, error: io::Error) -> DiskFault {
        DiskFault {
            file: Some(file),
            error,
        }
    }

    /// A call on the folder failed.
    pub fn of_folder(error: io::Error) -> DiskFault {
        DiskFault { file: None, error }
    }

    /// The system's number of the reason. What isn't the system's has none.
    pub fn cause(&self) -> Option<i32> {
        self.error.raw_os_error()
    }
}

/// `/FILE: REASON`, or `: REASON` of the folder: what follows the folder's name.
impl fmt::Display for DiskFault {
    fn fmt<W: fmt::Write>(&self, f: &mut fmt::Formatter<W>) -> fmt::Result {
        let error = &self.error;
        match self.file {
            Some(file) => write!(f, "/{file}: {error}"),
            None => write!(f, ": {error}"),
        }
    }
}
