//! Why an exchange gave no body.

use std::error::Error;
use std::fmt;

/// Why an exchange gave no body.
#[derive(Clone, Copy, Debug, PartialEq, Eq)]
pub enum PeerFault {
    /// The response had this status, which isn't the wanted one.
    Refused(u16),
    /// There was no response: what came is none, or the input ended before one or inside it.
    Foreign,
    /// The link failed; its count of faults rose.
    Link,
    /// There was no memory, or the body has more bytes than are taken.
    Memory,
}

impl fmt::Display for PeerFault {
    fn fmt<W: fmt::Write>(&self, f: &mut fmt::Formatter<W>) -> fmt::Result {
        match self {
            PeerFault::Refused(status) => write!(f, "the peer refused with {status}"),
            PeerFault::Foreign => write!(f, "the peer gave no response"),
            PeerFault::Link => write!(f, "the link failed"),
            PeerFault::Memory => write!(f, "no memory"),
        }
    }
}

impl Error for PeerFault {}
