use browse_http::End;
use http_bodies::BodyStop;
use http_wire::HeadRefusal;
use std::alloc::AllocError;
use std::io;
use stream_traits::Failed;

/// Why nothing more is measured.
#[derive(Debug, Drop)]
pub enum Fault {
    /// The words are not `COUNT BODY` or `COUNT BODY time`.
    Words,
    /// There was no memory.
    Memory,
    /// A head was refused.
    Head(HeadRefusal),
    /// A body was not read to its end.
    Body(BodyStop),
    /// The input ended inside a request.
    Truncated,
    /// The link failed.
    Link,
    /// A connection ended otherwise than at the end of its input.
    Connection(End),
    /// The clock or standard output failed.
    Io(io::Error),
}

impl From<AllocError> for Fault {
    fn from(_error: AllocError) -> Fault {
        Fault::Memory
    }
}

impl From<Failed> for Fault {
    fn from(_fault: Failed) -> Fault {
        Fault::Link
    }
}

impl From<BodyStop> for Fault {
    fn from(stop: BodyStop) -> Fault {
        Fault::Body(stop)
    }
}

impl From<io::Error> for Fault {
    fn from(error: io::Error) -> Fault {
        Fault::Io(error)
    }
}
