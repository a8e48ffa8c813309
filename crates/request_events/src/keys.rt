ghost use Rattle.std.specs.Prelude.{◌≡◌, codes};
ghost use Rattle.http_query.specs.Keys.{rows_of};
ghost use Rattle.http_query.specs.Query.{value_of};
ghost use Rattle.request_events.specs.Keys.{keys_of, put_keys, taken};
ghost use Rattle.request_events.specs.Said.{Says};

use crate::refusal::{RequestFault, RequestRefusal};
use http_query::{Key, Query};
use http_routes::{Action, BackupAction, HostAction, OfficeAction, SessionAction};

// Keys that must be there if they are taken.

const PATH: Key = Key {
    name: "path",
    needed: true,
};

const KIND: Key = Key {
    name: "kind",
    needed: true,
};

const ON: Key = Key {
    name: "on",
    needed: true,
};

const GOOD: Key = Key {
    name: "good",
    needed: true,
};

const BUCKET: Key = Key {
    name: "bucket",
    needed: true,
};

// Keys that may be absent.

const MODE: Key = Key {
    name: "mode",
    needed: false,
};

const UID: Key = Key {
    name: "uid",
    needed: false,
};

const GID: Key = Key {
    name: "gid",
    needed: false,
};

const MTIME: Key = Key {
    name: "mtime",
    needed: false,
};

const NANOS: Key = Key {
    name: "nanos",
    needed: false,
};

const GROUP: Key = Key {
    name: "group",
    needed: false,
};

const TOKEN: Key = Key {
    name: "token",
    needed: false,
};

const BASE: Key = Key {
    name: "base",
    needed: false,
};

/// The key `path` of a listing, which is of the root without it.
const PLACE: Key = Key {
    name: "path",
    needed: false,
};

/// The keys of rules.
const RULE_KEYS: [Key; 15] = [
    Key {
        name: "FillCycle",
        needed: false,
    },
    Key {
        name: "FullPeriod",
        needed: false,
    },
    Key {
        name: "IncrPeriod",
        needed: false,
    },
    Key {
        name: "FullKeepCnt",
        needed: false,
    },
    Key {
        name: "FullKeepCntMin",
        needed: false,
    },
    Key {
        name: "FullAgeMax",
        needed: false,
    },
    Key {
        name: "IncrKeepCnt",
        needed: false,
    },
    Key {
        name: "IncrKeepCntMin",
        needed: false,
    },
    Key {
        name: "IncrAgeMax",
        needed: false,
    },
    Key {
        name: "BlackoutGoodCnt",
        needed: false,
    },
    Key {
        name: "BlackoutBadPingLimit",
        needed: false,
    },
    Key {
        name: "BlackoutPeriods",
        needed: false,
    },
    Key {
        name: "OldAge",
        needed: false,
    },
    Key {
        name: "OldFullKeepCnt",
        needed: false,
    },
    Key {
        name: "OldIncrKeepCnt",
        needed: false,
    },
];

/// The keys of a put.
const ENTRY_KEYS: [Key; 8] = [PATH, KIND, MODE, UID, GID, MTIME, NANOS, TOKEN];

/// The keys of a put of a file.
const FILE_KEYS: [Key; 9] = [PATH, KIND, MODE, UID, GID, MTIME, NANOS, TOKEN, GROUP];

/// The keys of a put, by the kind that the query names.
fn put_keys(query: &Query) -> &'static [Key]
    ensures { rows_of result.now ≡ put_keys (value_of (codes "kind") query.now) }
{
    match query.value("kind") {
        Some(text) => {
            if text == "file" {
                &FILE_KEYS
            } else {
                &ENTRY_KEYS
            }
        }
        None => &ENTRY_KEYS,
    }
}

/// The keys that an action takes.
pub fn keys_of(action: Action, query: &Query) -> &'static [Key]
    ensures { rows_of result.now ≡ keys_of action query.now }
{
    match action {
        Action::Office(OfficeAction::Clean) => &[BUCKET],
        Action::Host(HostAction::SetRules) => &RULE_KEYS,
        Action::Host(HostAction::OpenDump) => &[KIND, TOKEN],
        Action::Host(HostAction::Contact) => &[GOOD],
        Action::Backup(BackupAction::List) => &[PLACE],
        Action::Backup(BackupAction::Lookup | BackupAction::OpenFile) => &[PATH],
        Action::Backup(BackupAction::OpenRead) => &[BASE],
        Action::Backup(BackupAction::Keep) => &[ON],
        Action::Session(SessionAction::Put) => put_keys(query),
        Action::Session(SessionAction::Remove) => &[PATH, TOKEN],
        _ => &[],
    }
}

/// Refuses a query for the first rule that it breaks, if these are the keys that may or must be there.
pub fn taken(keys: &[Key], query: &Query) -> Result<(), RequestFault>
    ensures { Says result (taken (rows_of keys.now) query.now) }
{
    match query.broken_rule(keys) {
        Some(rule) => Err(RequestFault::Refused(RequestRefusal::BadQuery(rule))),
        None => Ok(()),
    }
}
