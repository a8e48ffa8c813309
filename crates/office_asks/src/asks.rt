use attr_records::{Attr, Dir, File, HostName, Item, Link, LinkTarget, PathName};
use backup_rules::{Kind, Period, Periods, RuleChange, Rules, Setting};
use disk_trait::{Bytes, PoolId};
use office_model::{Event, PIECE_LIMIT, PutItem, SessionName, StagedFile, Token};
use std::alloc::Global;
use std::test::Fail;
use stream_traits::Moment;
use wake_schedule::Local;

/// What is asked. Hosts are named, sessions go by their number in the first epoch, and tokens by numbers.
#[derive(Clone, Copy)]
pub enum Ask {
    Host(&'static str),
    Fill(&'static str, u32),
    Quiet(&'static str),
    Full(&'static str),
    Incr(&'static str),
    FullWith(&'static str, u16),
    File(u64, &'static str, &'static str),
    Dir(u64, &'static str),
    Link(u64, &'static str),
    Remove(u64, &'static str),
    FileWith(u64, &'static str, &'static str, u16),
    RemoveWith(u64, &'static str, u16),
    Stage(u64),
    Piece(u64, &'static str),
    /// Of as many bytes as a piece may have, each an x.
    FullPiece(u64),
    LongPiece(u64),
    StageDrop(u64),
    PutStage(u64, &'static str, u64),
    PutStageWith(u64, &'static str, u64, u16),
    Open(&'static str, u32, &'static str),
    Part(u64),
    CloseFile(u64),
    Commit(u64),
    /// Of an epoch.
    CommitIn(u64, u64),
    /// With this number.
    Adopt(u64, u32),
    Abort(u64),
    Park(u64),
    Resume(&'static str),
    DropPartial(&'static str),
    Partial(&'static str),
    List(&'static str, u32, &'static str),
    Lookup(&'static str, u32, &'static str),
    Read(&'static str, u32, &'static str),
    Restore(&'static str, u32),
    /// With a base.
    RestoreSince(&'static str, u32, u32),
    Next(u64),
    Close(u64),
    Keep(&'static str, u32),
    Delete(&'static str, u32),
    Expire(&'static str),
    Migrate(&'static str),
    Contact(&'static str, bool),
    Due(&'static str, u64, u8, u16),
    Clean(u8),
    Sweep,
    Stats,
    Hosts,
    Backups(&'static str),
    PoolList(u8),
    /// From a place on.
    PoolPiece(PoolId, u64),
    Reopen,
}

const DAY: u64 = 86_400;

/// When each dump is opened and committed.
const START: u64 = 1_700_000_000;

fn moment(seconds: u64) -> Moment {
    Moment::new(seconds).unwrap_or(Moment::first())
}

fn session(sequence: u64) -> SessionName {
    SessionName { epoch: 1, sequence }
}

fn host(alloc: Global, name: &str) -> Result<HostName, Fail> {
    Ok(HostName::read(alloc, name.as_bytes())?)
}

fn path(alloc: Global, name: &str) -> Result<PathName, Fail> {
    Ok(PathName::read(alloc, name.as_bytes())?)
}

/// The token of this number.
fn token(number: u16) -> Option<Token> {
    let mut bytes = [0; 16];
    bytes[0] = (number % 256) as u8;
    bytes[1] = (number / 256) as u8;
    Some(Token { bytes })
}

fn put(
    alloc: Global,
    sequence: u64,
    name: &str,
    item: Item,
    token: Option<Token>,
) -> Result<Event, Fail> {
    Ok(Event::Put {
        dump: session(sequence),
        path: path(alloc, name)?,
        item: PutItem::Whole(item),
        token,
    })
}

/// A put of a stage.
fn put_stage(
    alloc: Global,
    sequence: u64,
    name: &str,
    stage: u64,
    token: Option<Token>,
) -> Result<Event, Fail> {
    Ok(Event::Put {
        dump: session(sequence),
        path: path(alloc, name)?,
        item: PutItem::Staged(StagedFile {
            attr: Attr::file_default(),
            group: 0,
            stage,
        }),
        token,
    })
}

/// So many bytes, each an x.
fn long_piece(alloc: Global, count: usize) -> Result<Bytes, Fail> {
    Ok(Bytes::from_vec(vec![in alloc; b'x'; count]?))
}

fn file(alloc: Global, text: &str) -> Result<Item, Fail> {
    Ok(Item::File(File {
        attr: Attr::file_default(),
        group: 0,
        bytes: Bytes::from_slice(alloc, text.as_bytes())?,
    }))
}

fn link(alloc: Global) -> Result<Item, Fail> {
    Ok(Item::Link(Link {
        attr: Attr::link_default(),
        target: LinkTarget::read(alloc, b"target")?,
    }))
}

/// Blacked out from 22:00 on Friday to 6:00 on Saturday.
fn quiet(alloc: Global) -> Result<RuleChange, Fail> {
    let mut periods = Periods::none(alloc);
    if let Some(period) = Period::new(1320, 360, 0b10_0000) {
        periods.push(period)?;
    }
    let mut change = RuleChange::none();
    change.set_blackout_periods(periods);
    Ok(change)
}

fn fill(cycle: u32) -> Result<RuleChange, Fail> {
    let mut change = RuleChange::none();
    change.set(Setting::FillCycle, cycle)?;
    Ok(change)
}

/// An event of a dump or a restore, or of none.
fn session_event(alloc: Global, ask: Ask) -> Result<Event, Fail> {
    let now = moment(START);
    match ask {
        Ask::File(sequence, name, text) => put(alloc, sequence, name, file(alloc, text)?, None),
        Ask::Dir(sequence, name) => put(
            alloc,
            sequence,
            name,
            Item::Dir(Dir {
                attr: Attr::dir_default(),
            }),
            None,
        ),
        Ask::Link(sequence, name) => put(alloc, sequence, name, link(alloc)?, None),
        Ask::Remove(sequence, name) => Ok(Event::Remove {
            dump: session(sequence),
            path: path(alloc, name)?,
            token: None,
        }),
        Ask::Stage(sequence) => Ok(Event::StageOpen {
            dump: session(sequence),
        }),
        Ask::Piece(stage, text) => Ok(Event::StagePiece {
            stage,
            bytes: Bytes::from_slice(alloc, text.as_bytes())?,
        }),
        Ask::FullPiece(stage) => Ok(Event::StagePiece {
            stage,
            bytes: long_piece(alloc, PIECE_LIMIT)?,
        }),
        Ask::LongPiece(stage) => Ok(Event::StagePiece {
            stage,
            bytes: long_piece(alloc, PIECE_LIMIT + 1)?,
        }),
        Ask::StageDrop(stage) => Ok(Event::StageDrop { stage }),
        Ask::PutStage(sequence, name, stage) => put_stage(alloc, sequence, name, stage, None),
        Ask::Part(reader) => Ok(Event::ReadPart { reader }),
        Ask::CloseFile(reader) => Ok(Event::CloseFile { reader }),
        Ask::Commit(sequence) => Ok(Event::Commit {
            dump: session(sequence),
            now,
        }),
        Ask::Abort(sequence) => Ok(Event::Abort {
            dump: session(sequence),
        }),
        Ask::Next(sequence) => Ok(Event::ReadNext {
            restore: session(sequence),
        }),
        Ask::Close(sequence) => Ok(Event::CloseRead {
            restore: session(sequence),
        }),
        Ask::Clean(bucket) => Ok(Event::Clean { bucket }),
        Ask::Sweep => Ok(Event::Sweep),
        Ask::Stats => Ok(Event::Stats),
        Ask::Hosts => Ok(Event::Hosts),
        _ => Ok(Event::Reopen),
    }
}

/// An event of a partial or of a host's tables, or of a session.
fn partial_event(alloc: Global, ask: Ask) -> Result<Event, Fail> {
    match ask {
        Ask::CommitIn(epoch, sequence) => Ok(Event::Commit {
            dump: SessionName { epoch, sequence },
            now: moment(START),
        }),
        Ask::Adopt(sequence, number) => Ok(Event::Adopt {
            dump: session(sequence),
            number,
            start: START,
            end: START + DAY,
            kind: Kind::Full,
        }),
        Ask::Park(sequence) => Ok(Event::Park {
            dump: session(sequence),
        }),
        Ask::Resume(name) => Ok(Event::Resume {
            host: host(alloc, name)?,
        }),
        Ask::DropPartial(name) => Ok(Event::DropPartial {
            host: host(alloc, name)?,
        }),
        Ask::Partial(name) => Ok(Event::PartialInfo {
            host: host(alloc, name)?,
        }),
        Ask::Migrate(name) => Ok(Event::Migrate {
            host: host(alloc, name)?,
        }),
        _ => session_event(alloc, ask),
    }
}

fn open_read(alloc: Global, name: &str, number: u32, base: Option<u32>) -> Result<Event, Fail> {
    Ok(Event::OpenRead {
        host: host(alloc, name)?,
        number,
        base,
    })
}

/// An event of a backup, or what else there is.
fn backup_event(alloc: Global, ask: Ask) -> Result<Event, Fail> {
    match ask {
        Ask::List(name, number, place) => Ok(Event::List {
            host: host(alloc, name)?,
            number,
            directory: if place.is_empty() {
                None
            } else {
                Some(path(alloc, place)?)
            },
        }),
        Ask::Lookup(name, number, place) => Ok(Event::Lookup {
            host: host(alloc, name)?,
            number,
            path: path(alloc, place)?,
        }),
        Ask::Read(name, number, place) => Ok(Event::ReadFile {
            host: host(alloc, name)?,
            number,
            path: path(alloc, place)?,
        }),
        Ask::Open(name, number, place) => Ok(Event::OpenFile {
            host: host(alloc, name)?,
            number,
            path: path(alloc, place)?,
        }),
        Ask::Restore(name, number) => open_read(alloc, name, number, None),
        Ask::RestoreSince(name, number, base) => open_read(alloc, name, number, Some(base)),
        Ask::Keep(name, number) => Ok(Event::Keep {
            host: host(alloc, name)?,
            number,
            on: true,
        }),
        Ask::Delete(name, number) => Ok(Event::Delete {
            host: host(alloc, name)?,
            number,
        }),
        _ => partial_event(alloc, ask),
    }
}

/// An event with a token, or one of a backup.
fn token_event(alloc: Global, ask: Ask) -> Result<Event, Fail> {
    match ask {
        Ask::FullWith(name, number) => Ok(Event::OpenDump {
            host: host(alloc, name)?,
            kind: Kind::Full,
            now: moment(START),
            token: token(number),
        }),
        Ask::FileWith(sequence, name, text, number) => {
            put(alloc, sequence, name, file(alloc, text)?, token(number))
        }
        Ask::RemoveWith(sequence, name, number) => Ok(Event::Remove {
            dump: session(sequence),
            path: path(alloc, name)?,
            token: token(number),
        }),
        Ask::PutStageWith(sequence, name, stage, number) => {
            put_stage(alloc, sequence, name, stage, token(number))
        }
        _ => backup_event(alloc, ask),
    }
}

/// An event of the pool's contents, or one with a token.
fn pool_event(alloc: Global, ask: Ask) -> Result<Event, Fail> {
    match ask {
        Ask::PoolList(part) => Ok(Event::PoolList { part }),
        Ask::PoolPiece(id, from) => Ok(Event::PoolPiece { id, from }),
        _ => token_event(alloc, ask),
    }
}

/// The event that an ask stands for.
pub fn event_of(alloc: Global, ask: Ask) -> Result<Event, Fail> {
    match ask {
        Ask::Host(name) => Ok(Event::AddHost {
            host: host(alloc, name)?,
            rules: Rules::defaults(alloc)?,
        }),
        Ask::Fill(name, cycle) => Ok(Event::SetRules {
            host: host(alloc, name)?,
            change: fill(cycle)?,
        }),
        Ask::Quiet(name) => Ok(Event::SetRules {
            host: host(alloc, name)?,
            change: quiet(alloc)?,
        }),
        Ask::Full(name) => Ok(Event::OpenDump {
            host: host(alloc, name)?,
            kind: Kind::Full,
            now: moment(START),
            token: None,
        }),
        Ask::Incr(name) => Ok(Event::OpenDump {
            host: host(alloc, name)?,
            kind: Kind::Incr,
            now: moment(START),
            token: None,
        }),
        Ask::Expire(name) => Ok(Event::Expire {
            host: host(alloc, name)?,
            now: moment(START + 400 * DAY),
        }),
        Ask::Contact(name, good) => Ok(Event::Contact {
            host: host(alloc, name)?,
            good,
        }),
        Ask::Due(name, later, weekday, minute) => Ok(Event::Due {
            host: host(alloc, name)?,
            now: moment(START.saturating_add(later)),
            local: Local {
                day: 0,
                minute,
                weekday,
            },
        }),
        Ask::Backups(name) => Ok(Event::Backups {
            host: host(alloc, name)?,
        }),
        _ => pool_event(alloc, ask),
    }
}
