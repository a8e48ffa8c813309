//! What a dump had when it was parked outlives its store's end, and cleanings; a later one goes on with it.

use crate::contents::clean_all;
use crate::ports::{Steps, TestPort, disk_with, expect, is_answered, open, open_blank};
use disk_trait::{Choice, Disk, MemoryDisk};
use office_asks::{Ask, expect_steps};
use std::alloc::Global;
use std::test::Fail;

const CHOICES: [Choice; 3] = [Choice::Written, Choice::Absent, Choice::One(0x4F)];

/// A dump that has a file.
const BEGUN: Steps = &[
    (Ask::Host("pc1"), "done"),
    (Ask::Full("pc1"), "1-0"),
    (Ask::File(0, "a", "hello"), "done"),
];

const PARKED: Steps = &[
    (Ask::Host("pc1"), "done"),
    (Ask::Full("pc1"), "1-0"),
    (Ask::File(0, "a", "hello"), "done"),
    (Ask::Park(0), "done"),
];

/// A dump goes on in the second epoch, and is committed.
const GOES_ON: Steps = &[
    (Ask::Resume("pc1"), "2-0"),
    (Ask::Partial("pc1"), "1 Full 1700000000"),
    (Ask::CommitIn(2, 0), "0"),
    (Ask::Read("pc1", 0, "a"), "hello"),
    (Ask::Partial("pc1"), "NoPartial"),
    (Ask::Stats, "1 1 0 0 1 0 5"),
];

#[test]
fn a_parked_dump_outlives_its_store(rt: HostRuntime) -> Result<(), Fail> {
    let alloc = rt.alloc();
    let mut port = open(alloc, disk_with(alloc, PARKED)?)?;
    clean_all(alloc, &mut port)?;
    clean_all(alloc, &mut port)?;
    expect_steps(alloc, &mut port, GOES_ON)
}

/// Another partial takes the place of the first, whose content is in bucket 8; its own is in bucket 10.
const REPLACED: Steps = &[
    (Ask::Host("pc1"), "done"),
    (Ask::Full("pc1"), "1-0"),
    (Ask::File(0, "a", "first"), "done"),
    (Ask::Park(0), "done"),
    (Ask::Remove(0, "a"), "done"),
    (Ask::File(0, "b", "second"), "done"),
    (Ask::Park(0), "done"),
    (Ask::Abort(0), "done"),
    (Ask::Stats, "1 0 0 0 2 0 11"),
    (Ask::Clean(8), "1 0 0"),
    (Ask::Clean(10), "0 0 0"),
    (Ask::Clean(8), "0 0 1"),
    (Ask::Clean(10), "0 0 0"),
    (Ask::Stats, "1 0 0 0 1 0 6"),
    (Ask::Resume("pc1"), "1-1"),
    (Ask::Commit(1), "0"),
    (Ask::Read("pc1", 0, "a"), "NoPath"),
    (Ask::Read("pc1", 0, "b"), "second"),
];

#[test]
fn a_second_park_takes_the_place_of_the_first(rt: HostRuntime) -> Result<(), Fail> {
    let alloc = rt.alloc();
    expect_steps(alloc, &mut open_blank(alloc)?, REPLACED)
}

/// The base of the parked dump is deleted before a dump goes on.
const WITHOUT_BASE: Steps = &[
    (Ask::Host("pc1"), "done"),
    (Ask::Full("pc1"), "1-0"),
    (Ask::File(0, "a", "hello"), "done"),
    (Ask::Commit(0), "0"),
    (Ask::Incr("pc1"), "1-1"),
    (Ask::File(1, "b", "world"), "done"),
    (Ask::Park(1), "done"),
    (Ask::Abort(1), "done"),
    (Ask::Delete("pc1", 0), "done"),
    (Ask::Partial("pc1"), "2 Incr 1700000000"),
];

/// No backup is left, and yet the dump goes on as an incremental.
const INCREMENTAL: Steps = &[
    (Ask::Incr("pc1"), "NoBackup"),
    (Ask::Resume("pc1"), "2-0"),
    (Ask::CommitIn(2, 0), "1"),
    (Ask::List("pc1", 1, ""), "a b "),
    (Ask::Read("pc1", 1, "a"), "hello"),
    (Ask::Read("pc1", 1, "b"), "world"),
    (Ask::Stats, "1 1 0 0 2 0 10"),
];

#[test]
fn a_resumed_incremental_needs_no_base(rt: HostRuntime) -> Result<(), Fail> {
    let alloc = rt.alloc();
    let mut port = open(alloc, disk_with(alloc, WITHOUT_BASE)?)?;
    clean_all(alloc, &mut port)?;
    clean_all(alloc, &mut port)?;
    expect_steps(alloc, &mut port, INCREMENTAL)
}

/// While the dump is open its content stays, and then two cleanings take it.
const DROPPED: Steps = &[
    (Ask::Host("pc1"), "done"),
    (Ask::Full("pc1"), "1-0"),
    (Ask::File(0, "a", "hello"), "done"),
    (Ask::Park(0), "done"),
    (Ask::DropPartial("pc1"), "done"),
    (Ask::Clean(5), "0 0 0"),
    (Ask::Abort(0), "done"),
    (Ask::Clean(5), "1 0 0"),
    (Ask::Clean(5), "0 0 1"),
    (Ask::Stats, "1 0 0 0 0 0 0"),
];

/// The same of a store that was opened again.
const DROPPED_LATER: Steps = &[
    (Ask::DropPartial("pc1"), "done"),
    (Ask::Partial("pc1"), "NoPartial"),
    (Ask::Clean(5), "1 0 0"),
    (Ask::Clean(5), "0 0 1"),
    (Ask::Stats, "1 0 0 0 0 0 0"),
];

#[test]
fn cleanings_take_what_a_dropped_partial_had(rt: HostRuntime) -> Result<(), Fail> {
    let alloc = rt.alloc();
    expect_steps(alloc, &mut open_blank(alloc)?, DROPPED)?;
    expect_steps(
        alloc,
        &mut open(alloc, disk_with(alloc, PARKED)?)?,
        DROPPED_LATER,
    )
}

/// A host that isn't there comes before a partial that isn't, and that before an open dump.
const REFUSALS: Steps = &[
    (Ask::Park(0), "NoSession"),
    (Ask::Resume("pc1"), "NoHost"),
    (Ask::DropPartial("pc1"), "NoHost"),
    (Ask::Partial("pc1"), "NoHost"),
    (Ask::Host("pc1"), "done"),
    (Ask::Full("pc1"), "1-0"),
    (Ask::Resume("pc1"), "NoPartial"),
    (Ask::DropPartial("pc1"), "NoPartial"),
    (Ask::Partial("pc1"), "NoPartial"),
    (Ask::Park(0), "done"),
    (Ask::Partial("pc1"), "0 Full 1700000000"),
    (Ask::Resume("pc1"), "SessionOpen"),
    (Ask::Abort(0), "done"),
    (Ask::Park(0), "NoSession"),
    (Ask::Resume("pc1"), "1-1"),
    (Ask::Resume("pc1"), "SessionOpen"),
    (Ask::Commit(1), "0"),
    (Ask::Resume("pc1"), "NoPartial"),
];

#[test]
fn refusals_come_in_their_order(rt: HostRuntime) -> Result<(), Fail> {
    let alloc = rt.alloc();
    expect_steps(alloc, &mut open_blank(alloc)?, REFUSALS)
}

/// The port of the store that a stop leaves.
fn port_after(
    alloc: Global,
    disk: &MemoryDisk,
    moment: usize,
    choice: Choice,
) -> Result<TestPort, Fail> {
    if moment > disk.moment() {
        return Err(Fail::new("a moment to come"));
    }
    open(alloc, disk.image(alloc, moment, choice)?)
}

/// Whether a stop left the partial, with which a dump then goes on; else there is none.
fn is_left(alloc: Global, disk: &MemoryDisk, moment: usize, choice: Choice) -> Result<bool, Fail> {
    let mut port = port_after(alloc, disk, moment, choice)?;
    if is_answered(alloc, &mut port, Ask::Partial("pc1"), "NoPartial")? {
        return Ok(false);
    }
    expect_steps(alloc, &mut port, GOES_ON)?;
    Ok(true)
}

#[test]
fn a_stop_leaves_the_partial_whole_or_none(rt: HostRuntime) -> Result<(), Fail> {
    let alloc = rt.alloc();
    let start = disk_with(alloc, BEGUN)?.moment();
    let disk = disk_with(alloc, PARKED)?;
    for moment in start..disk.moment() {
        for choice in CHOICES {
            let _ = is_left(alloc, &disk, moment, choice)?;
        }
    }
    expect(
        is_left(alloc, &disk, disk.moment(), Choice::Absent)?,
        "not durable",
    )
}
