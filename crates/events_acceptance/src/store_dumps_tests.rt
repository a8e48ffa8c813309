ghost use Rattle.std.specs.Prelude.{◌≡◌, false, OnOk};

use attr_records::{Attr, File, HostName, Item, PathName};
use attr_tables::Record;
use backup_rules::{Kind, Rules};
use backup_views::Views;
use disk_trait::{Bytes, DiskRoom, MemoryDisk};
use host_counts::HostCounts;
use host_partials::HostPartials;
use intent_journal::Journal;
use office_model::{Answer, Refusal, SessionName};
use open_sessions::Sessions;
use pool_name::Namer;
use pool_store::Pool;
use std::alloc::Global;
use std::cell::Cell;
use std::test::Fail;
use store_commits::commit_dump;
use store_dumps::{open_dump, put, remove};
use store_hosts::add_host;
use store_parts::StoreParts;
use stream_traits::Moment;

// Gives each content one digest, and counts how often it is asked for it.
#[derive(Clone, Copy)]
struct OneDigest<'a> {
    made: &'a Cell<u64>,
}

impl<'a> Namer for OneDigest<'a> {
    ghost use Rattle.std.specs.Prelude.{⊤, refl, replicate};

    type State = u8;

    ghost digest_of = { λ content. replicate 16 0 };

    ghost holds = { λ state content. ⊤ };

    fn name(&self, _content: &[u8]) -> [u8; 16] {
        self.made.set(self.made.get().wrapping_add(1));
        [0; 16]
    }

    fn start(&self) -> u8 {
        0
    }

    fn update(&self, _state: &mut u8, _piece: &[u8]) {}

    fn so_far(&self, _state: &u8) -> [u8; 16] {
        [0; 16]
    }

    fn finish(&self, _state: u8) -> [u8; 16] {
        [0; 16]
    }

    ghost has_16_bytes = { λ content. refl };
}

type Parts<'a> = StoreParts<MemoryDisk, OneDigest<'a>>;

const ROOM: DiskRoom = DiskRoom {
    changes: 400,
    bytes: 100_000,
};

// What is asked of the one open dump. The first one is full, and those behind it are of one kind.
#[derive(Clone, Copy)]
enum Ask {
    Full,
    Again,
    Put(&'static str, &'static str),
    Remove(&'static str),
    Commit,
}

// What is asked, how many digests it makes, and the extension of the content that a put leaves at its path.
struct Step(Ask, u64, Option<u16>);

const STEPS: [Step; 22] = [
    Step(Ask::Full, 0, None),
    Step(Ask::Put("a", "hello"), 1, Some(0)),
    // another content of the length and the digest
    Step(Ask::Put("b", "world"), 1, Some(1)),
    Step(Ask::Put("c", "hello"), 1, Some(0)),
    // a path put twice
    Step(Ask::Put("a", "hello"), 0, Some(0)),
    Step(Ask::Commit, 0, None),
    // an unchanged tree
    Step(Ask::Again, 0, None),
    Step(Ask::Put("a", "hello"), 0, Some(0)),
    Step(Ask::Put("b", "world"), 0, Some(1)),
    Step(Ask::Put("c", "hello"), 0, Some(0)),
    Step(Ask::Put("d", ""), 0, None),
    Step(Ask::Commit, 0, None),
    // a file that changes, but for its length and its time, and changes back
    Step(Ask::Again, 0, None),
    Step(Ask::Put("a", "hallo"), 1, Some(2)),
    Step(Ask::Put("a", "hello"), 0, Some(0)),
    Step(Ask::Put("b", "world"), 0, Some(1)),
    // one that is put behind a removal, and one that changes its length: the name of what nothing holds stays used
    Step(Ask::Remove("b"), 0, None),
    Step(Ask::Put("b", "world"), 0, Some(1)),
    Step(Ask::Put("c", "hello!"), 1, Some(3)),
    Step(Ask::Put("c", "hello!"), 0, Some(3)),
    Step(Ask::Put("d", "hello"), 1, Some(0)),
    Step(Ask::Commit, 0, None),
];

// The steps before the unchanged tree is put, and behind it.
const BEFORE: usize = 7;

const BEHIND: usize = 11;

fn expect(holds: bool, text: &'static str) -> Result<(), Fail> {
    if holds { Ok(()) } else { Err(Fail::new(text)) }
}

fn expect_ready(journal: &Journal<MemoryDisk>) -> Result<(), Fail>
    ensures { OnOk result (journal.now.halted ≡ false) }
{
    if journal.halted() {
        return Err(Fail::new("halted"));
    }
    Ok(())
}

// A store with the host `a`.
fn opened<'a>(alloc: Global, made: &'a Cell<u64>) -> Result<Parts<'a>, Fail> {
    let disk = MemoryDisk::new(alloc, Vec::new(alloc), ROOM)?;
    let Ok(mut journal) = Journal::open(alloc, disk) else {
        return Err(Fail::new("the journal doesn't open"));
    };
    expect_ready(&journal)?;
    let catalog = office_catalog::open(alloc, &mut journal)?;
    expect_ready(&journal)?;
    let pool = Pool::open(alloc, &mut journal, OneDigest { made })?;
    expect_ready(&journal)?;
    let mut parts = StoreParts {
        journal,
        pool,
        catalog,
        counts: HostCounts::new(alloc)?,
        partials: HostPartials::new(alloc)?,
        sessions: Sessions::new(alloc),
        views: Views::new(),
        halted: false,
    };
    let host = HostName::read(alloc, b"a")?;
    match add_host(&mut parts, alloc, &host, &Rules::defaults(alloc)?) {
        Ok(Answer::Done) => Ok(parts),
        _ => Err(Fail::new("no host")),
    }
}

// The name of the open dump, if one is open.
fn session_of(parts: &Parts) -> SessionName {
    match parts.sessions.dumps.first() {
        Some(dump) => dump.name,
        None => SessionName {
            epoch: 0,
            sequence: 0,
        },
    }
}

fn begin(alloc: Global, parts: &mut Parts, kind: Kind) -> Result<Result<Answer, Refusal>, Fail> {
    expect_ready(&parts.journal)?;
    if parts.halted {
        return Err(Fail::new("the store is halted"));
    }
    let host = HostName::read(alloc, b"a")?;
    Ok(open_dump(parts, alloc, &host, kind, Moment::first(), None))
}

fn carry_out(
    alloc: Global,
    parts: &mut Parts,
    again: Kind,
    ask: Ask,
) -> Result<Result<Answer, Refusal>, Fail> {
    expect_ready(&parts.journal)?;
    if parts.halted {
        return Err(Fail::new("the store is halted"));
    }
    let session = session_of(parts);
    match ask {
        Ask::Full => begin(alloc, parts, Kind::Full),
        Ask::Again => begin(alloc, parts, again),
        Ask::Put(path, text) => {
            let path = PathName::read(alloc, path.as_bytes())?;
            let item = Item::File(File {
                attr: Attr::file_default(),
                group: 0,
                bytes: Bytes::from_slice(alloc, text.as_bytes())?,
            });
            Ok(put(parts, alloc, session, &path, &item, None))
        }
        Ask::Remove(path) => {
            let path = PathName::read(alloc, path.as_bytes())?;
            Ok(remove(parts, alloc, session, &path, None))
        }
        Ask::Commit => Ok(commit_dump(parts, alloc, session, Moment::first())),
    }
}

// The extension of the content at a path of the open dump.
fn extension_at(alloc: Global, parts: &Parts, path: &str) -> Result<Option<u16>, Fail> {
    let path = PathName::read(alloc, path.as_bytes())?;
    if parts.sessions.dumps.is_empty() {
        return Ok(None);
    }
    match parts.sessions.find(0, &path) {
        Some(Record::File(file)) => Ok(file.content.map(|id| id.extension)),
        _ => Ok(None),
    }
}

fn expect_step(
    alloc: Global,
    parts: &mut Parts,
    made: &Cell<u64>,
    again: Kind,
    step: &Step,
) -> Result<(), Fail> {
    let before = made.get();
    let reply = carry_out(alloc, parts, again, step.0)?;
    expect(reply.is_ok(), "refused")?;
    let count = made.get().wrapping_sub(before);
    expect(count == step.1, "another number of digests")?;
    match step.0 {
        Ask::Put(path, _) => expect(
            extension_at(alloc, parts, path)? == step.2,
            "another content",
        ),
        _ => Ok(()),
    }
}

// How many changes of the disk these steps have made.
fn moment_behind(alloc: Global, again: Kind, steps: &[Step]) -> Result<usize, Fail> {
    let made = Cell::new(0);
    let mut parts = opened(alloc, &made)?;
    for step in steps {
        expect_step(alloc, &mut parts, &made, again, step)?;
    }
    let journal = parts.journal;
    Ok(journal.close().moment())
}

fn expect_compared(alloc: Global, again: Kind) -> Result<(), Fail> {
    let before = moment_behind(alloc, again, &STEPS[..BEFORE])?;
    let behind = moment_behind(alloc, again, &STEPS[..BEHIND])?;
    expect(before == behind, "a put of an unchanged file writes")?;
    let all = moment_behind(alloc, again, &STEPS)?;
    expect(all > behind, "nothing was written")
}

#[test]
fn a_digest_is_made_only_of_what_its_base_does_not_hold(rt: HostRuntime) -> Result<(), Fail> {
    expect_compared(rt.alloc(), Kind::Incr)
}

#[test]
fn a_full_dump_compares_with_the_newest_backup_first(rt: HostRuntime) -> Result<(), Fail> {
    expect_compared(rt.alloc(), Kind::Full)
}
