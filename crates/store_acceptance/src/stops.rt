//! Stops and faults in a commit, around the write of Gate.

use disk_trait::{Choice, Disk, FileId, MemoryDisk};
use pool_name::Md5Namer;
use std::test::Fail;
use store_talks::talks::{
    ABSENT, CHOICES, DONE, HOST, MADE, Machine, NOW, OK, Row, Says, blank_disk, expect,
    expect_talk, image_of, is_answered, place_answered, talk,
};

const FULL: Row = Row(
    "POST /hosts/pc1/dumps?kind=full",
    "",
    Says::Json(MADE, "{\"dump\":\"1-0\"}"),
);

const PUT: Row = Row("PUT /dumps/1-0/entry?path=a.txt&kind=file", "hello", DONE);

/// What comes before the commit.
const BEFORE: &[Row] = &[HOST, FULL, PUT];

const COMMITTED: &[Row] = &[
    HOST,
    FULL,
    PUT,
    Row(
        "POST /dumps/1-0/commit",
        "",
        Says::Json(MADE, "{\"number\":0}"),
    ),
];

const FAILED: &[Row] = &[HOST, FULL, PUT, Row("POST /dumps/1-0/commit", "", FAULT)];

pub const FAULT: Says = Says::Json("500 Internal Server Error", "{\"refused\":\"DiskFault\"}");

pub const LIST: &str = "GET /hosts/pc1/backups";

/// The backups before and after the commit.
pub const NONE: Says = Says::Json(OK, "{\"backups\":[],\"dump\":null,\"next\":0}");

pub const ONE: Says = Says::Json(
    OK,
    "{\"backups\":[{\"end\":1700000000,\"filled\":true,\"keep\":false,\"kind\":\"full\",\"number\":0,\"start\":1700000000}],\"dump\":null,\"next\":1}",
);

const LISTS: [&[Row]; 2] = [&[Row(LIST, "", NONE)], &[Row(LIST, "", ONE)]];

/// Fails where an opening that is stopped at one of its moments from this one on, and then another one, finds another listing.
fn expect_again(
    rt: &impl Machine,
    opened: &MemoryDisk,
    from: usize,
    choice: Choice,
    place: usize,
) -> Result<(), Fail> {
    for moment in from..=opened.moment() {
        let image = image_of(rt.alloc(), opened, moment, choice)?;
        let (again, _) = place_answered(rt, image, Md5Namer, &LISTS)?;
        expect(again == place, "a second stop finds another listing")?;
    }
    Ok(())
}

/// The place of the listing that a stop leaves, which each second stop in the opening leaves, too.
fn listed_after(
    rt: &impl Machine,
    disk: &MemoryDisk,
    moment: usize,
    choice: Choice,
) -> Result<usize, Fail> {
    let image = image_of(rt.alloc(), disk, moment, choice)?;
    let (place, opened) = place_answered(rt, image, Md5Namer, &LISTS)?;
    expect_again(rt, &opened, 0, choice, place)?;
    Ok(place)
}

/// What stops in a commit leave: the listing before it while Gate is closed, and the one after it once Gate is open. There is one
/// moment at which what Gate holds decides.
#[test]
fn a_stopped_commit_leaves_one_of_two_listings(rt: HostRuntime) -> Result<(), Fail> {
    let alloc = rt.alloc();
    let start = expect_talk(&rt, blank_disk(alloc, &[])?, Md5Namer, NOW, BEFORE)?.moment();
    let disk = expect_talk(&rt, blank_disk(alloc, &[])?, Md5Namer, NOW, COMMITTED)?;
    let mut open = 0u32;
    for moment in start..=disk.moment() {
        let written = listed_after(&rt, &disk, moment, Choice::Written)?;
        let absent = listed_after(&rt, &disk, moment, Choice::Absent)?;
        let _ = listed_after(&rt, &disk, moment, Choice::One(0x4F))?;
        expect(absent <= written, "without Gate the commit is made")?;
        if absent < written {
            open = open.saturating_add(1);
        }
    }
    expect(open == 1, "not one moment at which Gate decides")
}

/// Whether the call is the sync that fails behind the write of Gate in the commit, so that all is answered as here.
fn is_gate_sync(rt: &impl Machine, call: u64, rows: &[Row]) -> Result<bool, Fail> {
    let alloc = rt.alloc();
    let done = talk(rt, blank_disk(alloc, &[call])?, Md5Namer, NOW, rows)?;
    let failed = is_answered(alloc, &done, rows)?;
    let mut disk = done.disk;
    match disk.read(alloc, FileId::Gate) {
        Ok(Some(gate)) => Ok(failed && gate.as_slice() == b"O".as_slice()),
        _ => Ok(false),
    }
}

/// The number of that call: the first one whose failure leaves Gate open.
pub fn gate_sync(rt: &impl Machine, rows: &[Row]) -> Result<u64, Fail> {
    for call in 0..600u64 {
        if is_gate_sync(rt, call, rows)? {
            return Ok(call);
        }
    }
    Err(Fail::new("no call leaves Gate open"))
}

pub const HALTED: Row = Row(
    "GET /stats",
    "",
    Says::Json("503 Service Unavailable", "{\"refused\":\"Halted\"}"),
);

pub const REOPEN: Row = Row("POST /reopen", "", Says::Json(OK, "{\"epoch\":2}"));

const GONE: Row = Row(
    "POST /dumps/1-0/commit",
    "",
    Says::Json(ABSENT, "{\"refused\":\"NoSession\"}"),
);

/// The fault halts the store, a reopening finds one of the two listings, and the dump is gone.
const HALTED_TALKS: [&[Row]; 2] = [
    &[
        HOST,
        FULL,
        PUT,
        Row("POST /dumps/1-0/commit", "", FAULT),
        HALTED,
        REOPEN,
        Row(LIST, "", NONE),
        GONE,
    ],
    &[
        HOST,
        FULL,
        PUT,
        Row("POST /dumps/1-0/commit", "", FAULT),
        HALTED,
        REOPEN,
        Row(LIST, "", ONE),
        GONE,
    ],
];

#[test]
fn a_fault_behind_the_write_of_gate_leaves_one_of_two_listings(
    rt: HostRuntime,
) -> Result<(), Fail> {
    let call = gate_sync(&rt, FAILED)?;
    let (place, disk) = place_answered(
        &rt,
        blank_disk(rt.alloc(), &[call])?,
        Md5Namer,
        &HALTED_TALKS,
    )?;
    let (again, _) = place_answered(&rt, disk, Md5Namer, &LISTS)?;
    expect(again == place, "another opening finds another listing")
}

/// The store that the fault halted is opened again, and that opening stopped: before its first sync has succeeded one of the two
/// listings is left, from then on the one that it found.
#[test]
fn a_stopped_opening_leaves_what_it_found(rt: HostRuntime) -> Result<(), Fail> {
    let call = gate_sync(&rt, FAILED)?;
    let halted = talk(&rt, blank_disk(rt.alloc(), &[call])?, Md5Namer, NOW, FAILED)?.disk;
    let start = halted.moment();
    let (place, opened) = place_answered(&rt, halted, Md5Namer, &LISTS)?;
    for choice in CHOICES {
        let _ = listed_after(&rt, &opened, start, choice)?;
        expect_again(&rt, &opened, start.saturating_add(1), choice, place)?;
    }
    Ok(())
}
