//! Links and disks that fail.

use crate::runs::{
    Case, Coming, Machine, NEVER, PIPE, QUIET, Ran, SERVE, SERVED, TURNS, Want, expect_end,
    expect_served, links_of, new_disk, run_at, run_over, worker_of,
};
use crate::texts::{ASK_STATS, COMMIT, COMMITTED, FILE, MAKER, NO_HOST};
use caller_doors::FlagGate;
use disk_trait::{Choice, MemoryDisk};
use std::sync::atomic::AtomicBool;
use std::test::Fail;
use stream_traits::OpenGate;

/// A link that asks what is kept.
const COUNTER: Coming<'static> = Coming {
    input: &[ASK_STATS],
    ..QUIET
};

/// What comes before the numbers of what is kept, if each has one digit.
const STATS_HEAD: &str =
    "HTTP/1.1 200 OK\r\nContent-Type: application/json\r\nContent-Length: 77\r\n\r\n";

/// The start of the response to the first of the four requests that make the backup, and the first three responses.
const PART: &str = "HTTP/1.1 2";

const FIRST: &str =
    "HTTP/1.1 201 Created\r\nContent-Type: application/json\r\nContent-Length: 14\r\n\r\n{\"host\":\"pc1\"}";

const SECOND: &str =
    "HTTP/1.1 201 Created\r\nContent-Type: application/json\r\nContent-Length: 14\r\n\r\n{\"dump\":\"1-0\"}";

const THIRD: &str =
    "HTTP/1.1 200 OK\r\nContent-Type: application/json\r\nContent-Length: 2\r\n\r\n{}";

/// A link that fails and the next one, and what was sent over each: over the second what is kept.
type LinkFault = (
    &'static [Coming<'static>],
    &'static [&'static [&'static str]],
);

/// Each response is one call, from call 2 on.
const LINK_FAULTS: [LinkFault; 5] = [
    (
        &[Coming { fails: 0, ..MAKER }, COUNTER],
        &[
            &[],
            &[
                STATS_HEAD,
                "{\"backups\":0,\"bytes\":0,\"dumps\":0,\"files\":0,\"hosts\":0,\"marked\":0,\"restores\":0}",
            ],
        ],
    ),
    (
        &[Coming { room: 10, ..MAKER }, COUNTER],
        &[
            &[PART],
            &[
                STATS_HEAD,
                "{\"backups\":0,\"bytes\":0,\"dumps\":0,\"files\":0,\"hosts\":1,\"marked\":0,\"restores\":0}",
            ],
        ],
    ),
    (
        &[Coming { fails: 3, ..MAKER }, COUNTER],
        &[
            &[FIRST],
            &[
                STATS_HEAD,
                "{\"backups\":0,\"bytes\":0,\"dumps\":1,\"files\":0,\"hosts\":1,\"marked\":0,\"restores\":0}",
            ],
        ],
    ),
    (
        &[Coming { fails: 4, ..MAKER }, COUNTER],
        &[
            &[FIRST, SECOND],
            &[
                STATS_HEAD,
                "{\"backups\":0,\"bytes\":0,\"dumps\":1,\"files\":0,\"hosts\":1,\"marked\":0,\"restores\":0}",
            ],
        ],
    ),
    (
        &[Coming { fails: 5, ..MAKER }, COUNTER],
        &[
            &[FIRST, SECOND, THIRD],
            &[
                STATS_HEAD,
                "{\"backups\":1,\"bytes\":5,\"dumps\":0,\"files\":1,\"hosts\":1,\"marked\":0,\"restores\":0}",
            ],
        ],
    ),
];

/// A link that asks for a host that isn't there.
const STRANGER: Coming<'static> = Coming {
    input: &["GET /hosts/pc9/backups HTTP/1.1\r\nHost: b\r\n\r\n"],
    ..QUIET
};

/// Fails where a link that fails so ends more than its own connection, or something else was sent over it or the next one.
fn expect_link_fault(rt: &impl Machine, row: LinkFault) -> Result<(), Fail> {
    let (coming, outputs) = row;
    let alloc = rt.alloc();
    let workers = Vec::from_array(
        alloc,
        [
            worker_of(alloc, coming, NEVER, OpenGate)?,
            worker_of(alloc, &[STRANGER, STRANGER], NEVER, OpenGate)?,
        ],
    )?;
    let done = run_at(rt, &SERVE, new_disk(alloc, NEVER)?, workers)?;
    expect_end(alloc, &done, &SERVED)?;
    expect_served(alloc, &done, 0, outputs)?;
    expect_served(alloc, &done, 1, &[&[NO_HOST], &[NO_HOST]])
}

#[test]
fn a_link_that_fails_ends_its_connection_alone(rt: HostRuntime) -> Result<(), Fail> {
    for row in LINK_FAULTS {
        expect_link_fault(&rt, row)?;
    }
    Ok(())
}

/// A link that makes the backup, and asks what is kept.
const ONE_DUMP: Coming<'static> = Coming {
    input: &[COMMIT, ASK_STATS],
    ..QUIET
};

/// Four requests that make a backup of a second host, in a second dump.
const OTHER_COMMIT: &str = "PUT /hosts/pc2 HTTP/1.1\r\nHost: b\r\n\r\n\
    POST /hosts/pc2/dumps?kind=full HTTP/1.1\r\nHost: b\r\n\r\n\
    PUT /dumps/1-1/entry?path=b.txt&kind=file HTTP/1.1\r\nHost: b\r\nContent-Length: 5\r\n\r\nhello\
    POST /dumps/1-1/commit HTTP/1.1\r\nHost: b\r\n\r\n";

const OTHER_COMMITTED: &str =
    "HTTP/1.1 201 Created\r\nContent-Type: application/json\r\nContent-Length: 14\r\n\r\n{\"host\":\"pc2\"}\
    HTTP/1.1 201 Created\r\nContent-Type: application/json\r\nContent-Length: 14\r\n\r\n{\"dump\":\"1-1\"}\
    HTTP/1.1 200 OK\r\nContent-Type: application/json\r\nContent-Length: 2\r\n\r\n{}\
    HTTP/1.1 201 Created\r\nContent-Type: application/json\r\nContent-Length: 12\r\n\r\n{\"number\":0}";

/// A link that makes it, and asks what is kept.
const OTHER_DUMP: Coming<'static> = Coming {
    input: &[OTHER_COMMIT, ASK_STATS],
    ..QUIET
};

/// Asks for the files of both.
const ASK_BOTH: &str = "GET /hosts/pc1/backups/0/file?path=a.txt HTTP/1.1\r\nHost: b\r\n\r\n\
    GET /hosts/pc2/backups/0/file?path=b.txt HTTP/1.1\r\nHost: b\r\n\r\n";

/// What a halted store answers.
const HALTED: &[u8] = b"\r\n\r\n{\"refused\":\"Halted\"}";

/// How a run ends whose store is halted.
const FAILED: Want<'static> = Want {
    status: 4,
    said: "disk failed",
    output: "",
};

/// What was sent over a worker's first link; nothing if it served none.
fn first_sent<G>(done: &Ran<G>, worker: usize) -> Result<&[u8], Fail> {
    match links_of(done, worker)?.first() {
        Some(link) => Ok(link.sent()),
        None => Ok(&[]),
    }
}

/// Fails where, after a stop at the end that leaves what is uncertain absent, the next run doesn't end well, or doesn't give a file
/// that is to be there.
fn expect_kept(
    rt: &impl Machine,
    disk: &MemoryDisk,
    is_kept: bool,
    is_other_kept: bool,
) -> Result<(), Fail> {
    let case = Case {
        input: ASK_BOTH,
        ..PIPE
    };
    let image = disk.image(rt.alloc(), disk.moment(), Choice::Absent)?;
    let done = run_over(rt, &case, image)?;
    let told = done.link.output();
    let is_told = !is_kept || told.starts_with(FILE.as_bytes());
    let is_other_told = !is_other_kept || told.ends_with(FILE.as_bytes());
    if done.note.status() == 0 && is_told && is_other_told {
        return Ok(());
    }
    Err(Fail::new(format_args!("{:?}, {is_kept}, {is_other_kept}", done.note)))
}

/// Fails where a run on whose disk this call fails ends otherwise than by its status, or a commit that it acknowledged isn't there
/// in the next one. Returns whether the store was halted, or not opened.
fn halts_by(rt: &impl Machine, disk_fails: u64) -> Result<bool, Fail> {
    let alloc = rt.alloc();
    let (opened, none) = (AtomicBool::new(false), AtomicBool::new(false));
    let first = FlagGate::new(&opened, 2, &none, NEVER, TURNS);
    let second = FlagGate::new(&none, NEVER, &opened, 1, TURNS);
    let workers = Vec::from_array(
        alloc,
        [
            worker_of(alloc, &[ONE_DUMP], NEVER, first)?,
            worker_of(alloc, &[OTHER_DUMP], NEVER, second)?,
        ],
    )?;
    let done = run_at(rt, &SERVE, new_disk(alloc, disk_fails)?, workers)?;
    let one = first_sent(&done, 0)?;
    let other = first_sent(&done, 1)?;
    let halted = one.is_empty() || one.ends_with(HALTED) || other.ends_with(HALTED);
    let want = if halted { &FAILED } else { &SERVED };
    expect_end(alloc, &done, want)?;
    let is_kept = one.starts_with(COMMITTED.as_bytes());
    let is_other_kept = other.starts_with(OTHER_COMMITTED.as_bytes());
    expect_kept(rt, &done.disk, is_kept, is_other_kept)?;
    Ok(halted)
}

/// How many calls of the disk fail, each in a run of its own.
const RUNS: u64 = 40;

/// Each second one of the last calls of the opening, and of those of the two connections. The second one opens its dump when the
/// first one has.
#[test]
fn a_fault_of_the_disk_loses_no_commit(rt: HostRuntime) -> Result<(), Fail> {
    let mut halted = 0u64;
    for index in 0..RUNS {
        if halts_by(&rt, 250 + 2 * index)? {
            halted = halted.saturating_add(1);
        }
    }
    if halted > 0 && halted < RUNS {
        return Ok(());
    }
    Err(Fail::new(format_args!("halted by {halted} calls")))
}
