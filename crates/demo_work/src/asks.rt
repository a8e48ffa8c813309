//! What is asked for.

use backup_rules::Kind;
use office_model::SessionName;
use stream_traits::Moment;

/// What is asked for next. Hosts, directories and files are meant by their numbers; an edit and a commit are of the dump that was
/// opened last.
#[derive(Clone, Copy, Debug)]
pub(crate) enum Ask {
    AddHost {
        host: u64,
    },
    OpenDump {
        host: u64,
        kind: Kind,
        now: Moment,
    },
    PutDir {
        dir: u64,
    },
    /// The letter `v` and the value in decimal, so many times.
    PutFile {
        dir: u64,
        file: u64,
        value: u64,
        times: u64,
    },
    Remove {
        dir: u64,
        file: u64,
    },
    Commit {
        now: Moment,
    },
    Expire {
        host: u64,
        now: Moment,
    },
    Clean {
        bucket: u8,
    },
    Sweep,
    Stats,
    Backups {
        host: u64,
    },
    OpenRead {
        host: u64,
        number: u32,
    },
    ReadNext {
        restore: SessionName,
    },
    CloseRead {
        restore: SessionName,
    },
}
