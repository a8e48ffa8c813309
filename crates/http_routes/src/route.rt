//! The table of routes: the text of each, and what it is for by its method. One more route stands here and in `specs/Table`, and
//! nowhere else.

ghost use Rattle.std.specs.Prelude.{◌≡◌, ◌≤◌, map, length};
ghost use Rattle.http_routes.specs.Table.{actions_of, row_of};
ghost use Rattle.http_routes.specs.Actions.{allow_of};

/// The routes, each named for what its path leads to.
#[derive(Clone, Copy, Debug, PartialEq, Eq, Drop)]
pub enum Route {
    Hosts,
    Host,
    Rules,
    Dumps,
    Entry,
    Commit,
    Park,
    Dump,
    Resume,
    Partial,
    Backups,
    Backup,
    BackupList,
    BackupEntry,
    BackupFile,
    Restores,
    Keep,
    Next,
    Restore,
    Expire,
    Contacts,
    Due,
    Clean,
    Sweep,
    Stats,
    Reopen,
}

/// The table of routes: the text of each, in which `{name}` stands for one piece that isn't empty and has no slash.
pub const ROUTES: [(&str, Route); 26] = [
    ("/hosts", Route::Hosts),
    ("/hosts/{host}", Route::Host),
    ("/hosts/{host}/rules", Route::Rules),
    ("/hosts/{host}/dumps", Route::Dumps),
    ("/dumps/{dump}/entry", Route::Entry),
    ("/dumps/{dump}/commit", Route::Commit),
    ("/dumps/{dump}/park", Route::Park),
    ("/dumps/{dump}", Route::Dump),
    ("/hosts/{host}/resume", Route::Resume),
    ("/hosts/{host}/partial", Route::Partial),
    ("/hosts/{host}/backups", Route::Backups),
    ("/hosts/{host}/backups/{number}", Route::Backup),
    ("/hosts/{host}/backups/{number}/list", Route::BackupList),
    ("/hosts/{host}/backups/{number}/entry", Route::BackupEntry),
    ("/hosts/{host}/backups/{number}/file", Route::BackupFile),
    ("/hosts/{host}/backups/{number}/restores", Route::Restores),
    ("/hosts/{host}/backups/{number}/keep", Route::Keep),
    ("/restores/{restore}/next", Route::Next),
    ("/restores/{restore}", Route::Restore),
    ("/hosts/{host}/expire", Route::Expire),
    ("/hosts/{host}/contacts", Route::Contacts),
    ("/hosts/{host}/due", Route::Due),
    ("/night/clean", Route::Clean),
    ("/night/sweep", Route::Sweep),
    ("/stats", Route::Stats),
    ("/reopen", Route::Reopen),
];

/// What a request asks for, by what its path names.
#[derive(Clone, Copy, Debug, PartialEq, Eq)]
pub enum Action {
    /// The path names nothing.
    Office(OfficeAction),
    Host(HostAction),
    Backup(BackupAction),
    /// The path names an open dump or restore.
    Session(SessionAction),
}

/// What is asked of the whole office.
#[derive(Clone, Copy, Debug, PartialEq, Eq)]
pub enum OfficeAction {
    Hosts,
    Clean,
    Sweep,
    Stats,
    Reopen,
}

/// What is asked of a host.
#[derive(Clone, Copy, Debug, PartialEq, Eq)]
pub enum HostAction {
    Add,
    SetRules,
    OpenDump,
    Resume,
    DropPartial,
    PartialInfo,
    Backups,
    Expire,
    Contact,
    Due,
}

/// What is asked of a backup.
#[derive(Clone, Copy, Debug, PartialEq, Eq)]
pub enum BackupAction {
    Delete,
    List,
    Lookup,
    OpenFile,
    OpenRead,
    Keep,
}

/// What is asked of an open dump or restore.
#[derive(Clone, Copy, Debug, PartialEq, Eq)]
pub enum SessionAction {
    Put,
    Remove,
    Commit,
    Park,
    Abort,
    ReadNext,
    CloseRead,
}

impl Route {
    /// What the route is for, by the methods that it takes.
    pub(crate) fn actions(self) -> &'static [(&'static str, Action)]
        ensures { map row_of result.now ≡ actions_of self }
    {
        match self {
            Route::Hosts => &[("GET", Action::Office(OfficeAction::Hosts))],
            Route::Host => &[("PUT", Action::Host(HostAction::Add))],
            Route::Rules => &[("PUT", Action::Host(HostAction::SetRules))],
            Route::Dumps => &[("POST", Action::Host(HostAction::OpenDump))],
            Route::Entry => &[
                ("PUT", Action::Session(SessionAction::Put)),
                ("DELETE", Action::Session(SessionAction::Remove)),
            ],
            Route::Commit => &[("POST", Action::Session(SessionAction::Commit))],
            Route::Park => &[("POST", Action::Session(SessionAction::Park))],
            Route::Dump => &[("DELETE", Action::Session(SessionAction::Abort))],
            Route::Resume => &[("POST", Action::Host(HostAction::Resume))],
            Route::Partial => &[
                ("DELETE", Action::Host(HostAction::DropPartial)),
                ("GET", Action::Host(HostAction::PartialInfo)),
            ],
            Route::Backups => &[("GET", Action::Host(HostAction::Backups))],
            Route::Backup => &[("DELETE", Action::Backup(BackupAction::Delete))],
            Route::BackupList => &[("GET", Action::Backup(BackupAction::List))],
            Route::BackupEntry => &[("GET", Action::Backup(BackupAction::Lookup))],
            Route::BackupFile => &[("GET", Action::Backup(BackupAction::OpenFile))],
            Route::Restores => &[("POST", Action::Backup(BackupAction::OpenRead))],
            Route::Keep => &[("POST", Action::Backup(BackupAction::Keep))],
            Route::Next => &[("GET", Action::Session(SessionAction::ReadNext))],
            Route::Restore => &[("DELETE", Action::Session(SessionAction::CloseRead))],
            Route::Expire => &[("POST", Action::Host(HostAction::Expire))],
            Route::Contacts => &[("POST", Action::Host(HostAction::Contact))],
            Route::Due => &[("GET", Action::Host(HostAction::Due))],
            Route::Clean => &[("POST", Action::Office(OfficeAction::Clean))],
            Route::Sweep => &[("POST", Action::Office(OfficeAction::Sweep))],
            Route::Stats => &[("GET", Action::Office(OfficeAction::Stats))],
            Route::Reopen => &[("POST", Action::Office(OfficeAction::Reopen))],
        }
    }

    /// The methods that the route takes, in the order of the table, with `, ` between them.
    pub fn allow(self) -> &'static str
        ensures value { result.now ≡ allow_of self }
        ensures short { length (allow_of self) ≤ 64 }
    {
        match self {
            Route::Entry => "PUT, DELETE",
            Route::Partial => "DELETE, GET",
            _ => self.actions()[0].0,
        }
    }
}
