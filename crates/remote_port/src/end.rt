//! Why a port ended.

use std::error::Error;
use std::fmt;

/// Why a port ended: the last exchange gave no reply.
#[derive(Clone, Copy, Debug, PartialEq, Eq)]
pub enum PortEnd {
    /// What came is no response, or the input ended before one or inside it.
    Foreign,
    /// A whole response with this status came, and says no reply to the event.
    Silent(u16),
    /// The link failed; its count of faults rose.
    Link,
    /// There was no memory for the exchange or for its reply, or the response has a longer body than is taken.
    Memory,
}

impl fmt::Display for PortEnd {
    fn fmt<W: fmt::Write>(&self, f: &mut fmt::Formatter<W>) -> fmt::Result {
        match self {
            PortEnd::Foreign => write!(f, "the peer gave no response"),
            PortEnd::Silent(status) => write!(f, "the peer answered {status}, which says no reply"),
            PortEnd::Link => write!(f, "the link failed"),
            PortEnd::Memory => write!(f, "no memory"),
        }
    }
}

impl Error for PortEnd {}
