//! How a push ends, and what is said of it.

ghost use Rattle.std.specs.Prelude.{◌≡◌};
ghost use Rattle.push_work.specs.Ends.{ended_by, end_by_refusal, end_of};

use attr_records::{BadPath, HostName};
use folder_walk::DumpRefusal;
use office_model::Refusal;
use remote_port::PortEnd;
use std::{fmt, str};

/// How a push ended. If it isn't `Pushed`, no commit was answered, and an abort of the dump that it opened was asked for, unless the
/// connection was at its end. If that ended while the commit was asked for, the server may have the backup nevertheless.
#[derive(Debug, Drop)]
pub enum PushEnd {
    /// The folder is the host's backup of this number.
    Pushed { host: HostName, number: u32 },
    /// The server refused a call so; or there is no request for it: a file has more than 67,108,864 bytes (`FileTooLarge`), or a path
    /// holds U+FFFD (`NoPath`).
    Refused(Refusal),
    /// The server answered with this status, which says no reply.
    PeerRefused(u16),
    /// The server gave no response to what it was asked.
    PeerForeign,
    /// The folder lists a path that breaks this rule of paths.
    BadPath(BadPath),
    /// The folder lists a link whose target is none.
    BadTarget,
    /// The folder lists a file of more than 1,099,511,627,775 bytes.
    FileTooLarge,
    /// The link failed; its count of faults rose.
    LinkFault,
    /// The folder failed; its count of faults rose.
    Folder,
    /// There was no memory, or a response has more bytes than are taken.
    Memory,
}

/// The end by that of the port.
fn ended_by(port: PortEnd) -> PushEnd
    ensures { result ≡ ended_by port }
{
    match port {
        PortEnd::Foreign => PushEnd::PeerForeign,
        PortEnd::Silent(status) => PushEnd::PeerRefused(status),
        PortEnd::Link => PushEnd::LinkFault,
        PortEnd::Memory => PushEnd::Memory,
    }
}

/// The end by a call's refusal: want of memory is what the port answers from its own end on.
fn end_by_refusal(refusal: Refusal, port: Option<PortEnd>) -> PushEnd
    ensures { result ≡ end_by_refusal refusal port }
{
    match refusal {
        Refusal::Memory => match port {
            Some(end) => ended_by(end),
            None => PushEnd::Memory,
        },
        Refusal::Broken(rule) => PushEnd::Refused(Refusal::Broken(rule)),
        Refusal::Halted => PushEnd::Refused(Refusal::Halted),
        Refusal::DiskFault => PushEnd::Refused(Refusal::DiskFault),
        Refusal::Damaged { file, found } => PushEnd::Refused(Refusal::Damaged { file, found }),
    }
}

/// The end of a dump over a port.
pub(crate) fn end_of(
    host: HostName,
    dumped: Result<u32, DumpRefusal>,
    port: Option<PortEnd>,
) -> PushEnd
    ensures { result ≡ end_of host dumped port }
{
    match dumped {
        Ok(number) => PushEnd::Pushed { host, number },
        Err(DumpRefusal::Refused(refusal)) => end_by_refusal(refusal, port),
        Err(DumpRefusal::BadPath(rule)) => PushEnd::BadPath(rule),
        Err(DumpRefusal::BadTarget) => PushEnd::BadTarget,
        Err(DumpRefusal::FileTooLarge) => PushEnd::FileTooLarge,
        Err(DumpRefusal::Folder) => PushEnd::Folder,
        Err(DumpRefusal::Memory) => PushEnd::Memory,
    }
}

impl PushEnd {
    ghost use Rattle.std.specs.Prelude.{◌≡◌};
    ghost use Rattle.push_work.specs.Ends.{status_of};

    /// The program's exit status.
    pub fn status(&self) -> u8
        ensures { result ≡ status_of self.now }
    {
        match self {
            PushEnd::Pushed { host: _, number: _ } => 0,
            PushEnd::Refused(_) | PushEnd::PeerRefused(_) | PushEnd::PeerForeign => 1,
            PushEnd::BadPath(_) | PushEnd::BadTarget | PushEnd::FileTooLarge => 1,
            PushEnd::LinkFault | PushEnd::Folder => 3,
            PushEnd::Memory => 6,
        }
    }
}

/// The name of a host, which is ASCII.
fn text_of_host(host: &HostName) -> &str
    ensures { result.now ≡ host.now }
{
    match str::from_utf8(host.as_slice()) {
        Ok(text) => text,
        Err(_) => unreachable!(),
    }
}

/// The line that standard error gets.
impl fmt::Display for PushEnd {
    ghost use Rattle.std.specs.Prelude.{Some};
    ghost use Rattle.push_work.specs.Ends.{text_of};

    ghost output = { λ end. Some (text_of end) };

    fn fmt<W: fmt::Write>(&self, f: &mut fmt::Formatter<W>) -> fmt::Result {
        match self {
            PushEnd::Pushed { host, number } => {
                let host = text_of_host(host);
                write!(f, "pushed {host} {number}")
            }
            PushEnd::Refused(refusal) => write!(f, "refused {refusal}"),
            PushEnd::PeerRefused(status) => write!(f, "peer refused {status}"),
            PushEnd::PeerForeign => write!(f, "peer foreign"),
            PushEnd::BadPath(_) => write!(f, "refused BadPath"),
            PushEnd::BadTarget => write!(f, "refused BadTarget"),
            PushEnd::FileTooLarge => write!(f, "refused FileTooLarge"),
            PushEnd::LinkFault => write!(f, "link failed"),
            PushEnd::Folder => write!(f, "folder failed"),
            PushEnd::Memory => write!(f, "no memory"),
        }
    }
}
