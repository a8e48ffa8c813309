//! Dumps that become backups of another server's: with a number, times and a kind of their own.

use crate::altered::{Parts, blank_parts, expect_ready};
use crate::ports::expect;
use attr_records::HostName;
use backup_rules::{Kind, Rules};
use disk_trait::{DiskRoom, MemoryDisk};
use office_model::{Answer, BrokenRule, Refusal, SessionName};
use pool_name::Md5Namer;
use std::alloc::Global;
use std::test::Fail;
use store_commits::{adopt_dump, commit_dump};
use store_dumps::open_dump;
use store_hosts::add_host;
use store_opening::open;
use stream_traits::Moment;

const ROOM: DiskRoom = DiskRoom {
    changes: 200,
    bytes: 20_000,
};

// How an open dump ends: now, or with this number, these times and this kind.
#[derive(Clone, Copy)]
enum End {
    Commit,
    Adopt(u32, u64, u64, Kind),
}

// Ends of a host's dumps, each a full one, and the number that is answered.
const FIRST: &[(End, Option<u32>)] = &[
    (End::Commit, Some(0)),
    (End::Adopt(7, 100, 200, Kind::Full), Some(7)),
];

// Behind these, numbers that are below the next one.
const BEHIND: &[(End, Option<u32>)] = &[
    (End::Adopt(7, 300, 400, Kind::Incr), None),
    (End::Adopt(1, 300, 400, Kind::Incr), None),
];

const LATER: &[(End, Option<u32>)] = &[
    (End::Adopt(8, 300, 400, Kind::Incr), Some(8)),
    (
        End::Adopt(4_000_000_000, 5, 6, Kind::Full),
        Some(4_000_000_000),
    ),
    (End::Commit, Some(4_000_000_001)),
];

// Number, times and kind of the backups behind the first ends, and behind all.
const FIRST_LINES: &[(u32, u64, u64, Kind)] = &[(0, 0, 0, Kind::Full), (7, 100, 200, Kind::Full)];

const LINES: &[(u32, u64, u64, Kind)] = &[
    (0, 0, 0, Kind::Full),
    (7, 100, 200, Kind::Full),
    (8, 300, 400, Kind::Incr),
    (4_000_000_000, 5, 6, Kind::Full),
    (4_000_000_001, 0, 0, Kind::Full),
];

// The host `a` is there then.
fn add(alloc: Global, parts: &mut Parts) -> Result<Result<Answer, Refusal>, Fail> {
    expect_ready(parts)?;
    let host = HostName::read(alloc, b"a")?;
    Ok(add_host(parts, alloc, &host, &Rules::defaults(alloc)?))
}

// Opens a dump of the host.
fn begin(alloc: Global, parts: &mut Parts) -> Result<Result<Answer, Refusal>, Fail> {
    expect_ready(parts)?;
    let host = HostName::read(alloc, b"a")?;
    Ok(open_dump(parts, alloc, &host, Kind::Full, Moment::first(), None))
}

// The name of the open dump.
fn session_of(parts: &Parts) -> Result<SessionName, Fail> {
    match parts.sessions.dumps.first() {
        Some(dump) => Ok(dump.name),
        None => Err(Fail::new("no dump is open")),
    }
}

// Ends the open dump.
fn reply_to(alloc: Global, parts: &mut Parts, end: End) -> Result<Result<Answer, Refusal>, Fail> {
    expect_ready(parts)?;
    let session = session_of(parts)?;
    match end {
        End::Commit => Ok(commit_dump(parts, alloc, session, Moment::first())),
        End::Adopt(number, start, end, kind) => Ok(adopt_dump(
            parts, alloc, session, number, start, end, kind,
        )),
    }
}

// A dump that was refused is open still, and ends next.
fn expect_end(alloc: Global, parts: &mut Parts, end: End, number: Option<u32>) -> Result<(), Fail> {
    if parts.sessions.dumps.is_empty() {
        expect(begin(alloc, parts)?.is_ok(), "no dump")?;
    }
    match (reply_to(alloc, parts, end)?, number) {
        (Ok(Answer::Committed(given)), Some(number)) => expect(given == number, "another number"),
        (Err(Refusal::Broken(BrokenRule::NumberBehind)), None) => Ok(()),
        _ => Err(Fail::new("another answer")),
    }
}

// Goes on with these ends.
fn go_on(alloc: Global, parts: &mut Parts, ends: &[(End, Option<u32>)]) -> Result<(), Fail> {
    for (end, number) in ends {
        expect_end(alloc, parts, *end, *number)?;
    }
    Ok(())
}

// The parts of a store with a host, behind the first ends.
fn first_parts(alloc: Global) -> Result<Parts, Fail> {
    let mut parts = blank_parts(alloc)?;
    expect(add(alloc, &mut parts)?.is_ok(), "no host")?;
    go_on(alloc, &mut parts, FIRST)?;
    Ok(parts)
}

// The backups of the one host, and its next number.
fn expect_lines(parts: &Parts, lines: &[(u32, u64, u64, Kind)], next: u64) -> Result<(), Fail> {
    let Some(index) = parts.catalog.hosts().first() else {
        return Err(Fail::new("no host"));
    };
    let found = index.lines().lines();
    expect(
        found.len() == lines.len() && index.next() == next,
        "another index",
    )?;
    for (line, wanted) in found.iter().zip(lines) {
        expect(
            (line.number, line.start, line.end, line.kind) == *wanted,
            "another line",
        )?;
    }
    Ok(())
}

#[test]
fn an_adopted_backup_has_its_number_and_its_times(rt: HostRuntime) -> Result<(), Fail> {
    let alloc = rt.alloc();
    let mut parts = first_parts(alloc)?;
    go_on(alloc, &mut parts, BEHIND)?;
    go_on(alloc, &mut parts, LATER)?;
    expect_lines(&parts, LINES, 4_000_000_002)?;
    match open(alloc, parts.journal.close(), Md5Namer) {
        Ok(parts) => expect_lines(&parts, LINES, 4_000_000_002),
        Err(_) => Err(Fail::new("not opened")),
    }
}

#[test]
fn a_number_below_the_next_one_leaves_all(rt: HostRuntime) -> Result<(), Fail> {
    let alloc = rt.alloc();
    let mut parts = first_parts(alloc)?;
    let before = first_parts(alloc)?.journal.close().moment();
    go_on(alloc, &mut parts, BEHIND)?;
    expect_lines(&parts, FIRST_LINES, 8)?;
    // (a refused one begins a dump, which writes nothing)
    expect(
        parts.journal.close().moment() == before,
        "something was written",
    )
}

// The parts of a store whose disk fails in one call, with an open dump; none, if that call came before.
fn failing_parts(alloc: Global, call: u64) -> Result<Option<Parts>, Fail> {
    let disk = MemoryDisk::new(alloc, Vec::from_array(alloc, [call])?, ROOM)?;
    let Ok(mut parts) = open(alloc, disk, Md5Namer) else {
        return Ok(None);
    };
    if add(alloc, &mut parts)?.is_err() || begin(alloc, &mut parts)?.is_err() {
        return Ok(None);
    }
    Ok(Some(parts))
}

// Whether an adoption failed for this call: then the store is halted.
fn is_halted_by(alloc: Global, call: u64) -> Result<bool, Fail> {
    let Some(mut parts) = failing_parts(alloc, call)? else {
        return Ok(false);
    };
    match reply_to(alloc, &mut parts, End::Adopt(3, 1, 2, Kind::Full))? {
        Ok(_) => expect(!parts.halted, "halted").map(|_done| false),
        Err(Refusal::DiskFault) => expect(parts.halted, "not halted").map(|_done| true),
        Err(_) => Err(Fail::new("another refusal")),
    }
}

#[test]
fn a_fault_of_the_disk_in_an_adoption_halts(rt: HostRuntime) -> Result<(), Fail> {
    let mut halted = 0u32;
    for call in 255..330u64 {
        if is_halted_by(rt.alloc(), call)? {
            halted = halted.wrapping_add(1);
        }
    }
    expect(halted > 3, "no call failed")
}
