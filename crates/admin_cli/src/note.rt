ghost use Rattle.std.specs.Prelude.{◌≡◌};

use attr_records::HostName;
use command_line::USAGE;
use disk_trait::FileId;
use office_model::BrokenRule;
use settings_file::SettingsFault;
use std::{fmt, str};

/// What the program says on standard error as it ends; each has its exit status.
#[derive(Debug, Drop, PartialEq, Eq)]
pub enum Note {
    /// The connection ended between two requests.
    Nothing,
    /// So many backups of this host were brought from another server: all that are new there.
    Pulled { host: HostName, count: u64 },
    /// The input ended inside a request.
    InputEnded,
    /// The head of a request was refused.
    NotUnderstood,
    /// The store couldn't give the rest of a file, whose response was cut.
    ResponseCut,
    /// A call of a folder command, of a demo or of a pull was refused, since it breaks this rule.
    Refused(BrokenRule),
    /// A path of the folder breaks a rule of paths.
    BadPath,
    /// A link of the folder has a target that is none.
    BadTarget,
    /// A file of the folder has more than 1,099,511,627,775 bytes.
    FileTooLarge,
    /// Something lies in the folder that is to be filled.
    FolderNotEmpty,
    /// There is a host in the store that is to be without.
    StoreNotEmpty,
    /// The other server answered with this status in place of the wanted one.
    PeerRefused(u16),
    /// The other server gave no answer to what it was asked, or a frame that doesn't fit those before it.
    PeerForeign,
    /// The words are no command line.
    Usage,
    /// The link failed; its count of faults rose.
    LinkFailed,
    /// A door failed; its count of faults rose.
    DoorFailed,
    /// The folder failed; its count of faults rose.
    FolderFailed,
    /// The disk failed; its count of faults rose.
    DiskFailed,
    /// This file isn't one of the store's.
    Foreign(FileId),
    /// The store was opened as often as it can be.
    EpochsSpent,
    /// There was no memory.
    NoMemory,
    /// The settings are no settings file, for this reason.
    BadSettings(SettingsFault),
}

impl Note {
    ghost use Rattle.std.specs.Prelude.{◌≡◌};
    ghost use Rattle.admin_cli.specs.Statuses.{status_of};

    /// The program's exit status.
    pub fn status(&self) -> u8
        ensures { result ≡ status_of self.now }
    {
        match self {
            Note::Nothing | Note::Pulled { host: _, count: _ } => 0,
            Note::InputEnded => 1,
            Note::NotUnderstood | Note::ResponseCut => 1,
            Note::Refused(_) | Note::BadPath | Note::BadTarget | Note::FileTooLarge => 1,
            Note::FolderNotEmpty | Note::StoreNotEmpty => 1,
            Note::PeerRefused(_) | Note::PeerForeign => 1,
            Note::Usage => 2,
            Note::LinkFailed | Note::DoorFailed | Note::FolderFailed => 3,
            Note::DiskFailed => 4,
            Note::Foreign(_) | Note::EpochsSpent => 5,
            Note::NoMemory => 6,
            Note::BadSettings(_) => 7,
        }
    }
}

/// The name of a host, which is ASCII.
fn text_of_host(host: &HostName) -> &str
    ensures { result.now ≡ host.now }
{
    match str::from_utf8(host.as_slice()) {
        Ok(text) => text,
        Err(_) => unreachable!(),
    }
}

/// The line that standard error gets; of the usage and of settings that are refused the texts are theirs.
impl fmt::Display for Note {
    ghost use Rattle.admin_cli.specs.Notes.{text_of};

    ghost output = { text_of };

    fn fmt<W: fmt::Write>(&self, f: &mut fmt::Formatter<W>) -> fmt::Result {
        match self {
            Note::Nothing => write!(f, ""),
            Note::Pulled { host, count } => {
                let host = text_of_host(host);
                write!(f, "pulled {host} {count}")
            }
            Note::InputEnded => write!(f, "input ended inside a request"),
            Note::NotUnderstood => write!(f, "request not understood"),
            Note::ResponseCut => write!(f, "response cut"),
            Note::Refused(rule) => write!(f, "refused {rule}"),
            Note::BadPath => write!(f, "refused BadPath"),
            Note::BadTarget => write!(f, "refused BadTarget"),
            Note::FileTooLarge => write!(f, "refused FileTooLarge"),
            Note::FolderNotEmpty => write!(f, "folder not empty"),
            Note::StoreNotEmpty => write!(f, "store not empty"),
            Note::PeerRefused(status) => write!(f, "peer refused {status}"),
            Note::PeerForeign => write!(f, "peer foreign"),
            Note::Usage => write!(f, "{USAGE}"),
            Note::LinkFailed => write!(f, "link failed"),
            Note::DoorFailed => write!(f, "door failed"),
            Note::FolderFailed => write!(f, "folder failed"),
            Note::DiskFailed => write!(f, "disk failed"),
            Note::Foreign(file) => write!(f, "foreign {file}"),
            Note::EpochsSpent => write!(f, "epochs spent"),
            Note::NoMemory => write!(f, "no memory"),
            Note::BadSettings(fault) => write!(f, "bad settings: {fault}"),
        }
    }
}
