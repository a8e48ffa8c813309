//! Stops while a content comes in pieces.

use crate::ports::{Steps, TestPort, disk_with, expect, is_whole, open};
use disk_trait::{Choice, Disk, FileId, MemoryDisk};
use office_asks::{Ask, expect_step};
use std::alloc::Global;
use std::test::Fail;

const CHOICES: [Choice; 3] = [Choice::Written, Choice::Absent, Choice::One(0x4F)];

const BEFORE: Steps = &[(Ask::Host("pc1"), "done"), (Ask::Full("pc1"), "1-0")];

const PUT: Steps = &[
    (Ask::Host("pc1"), "done"),
    (Ask::Full("pc1"), "1-0"),
    (Ask::Stage(0), "stage 0"),
    (Ask::Piece(0, "hel"), "done"),
    (Ask::Piece(0, "lo, "), "done"),
    (Ask::Piece(0, "world"), "done"),
    (Ask::PutStage(0, "a", 0), "done"),
];

const COMMITTED: Steps = &[
    (Ask::Host("pc1"), "done"),
    (Ask::Full("pc1"), "1-0"),
    (Ask::Stage(0), "stage 0"),
    (Ask::Piece(0, "hel"), "done"),
    (Ask::Piece(0, "lo, "), "done"),
    (Ask::Piece(0, "world"), "done"),
    (Ask::PutStage(0, "a", 0), "done"),
    (Ask::Commit(0), "0"),
];

/// The port of the store that a stop leaves.
fn port_after(
    alloc: Global,
    disk: &MemoryDisk,
    moment: usize,
    choice: Choice,
) -> Result<TestPort, Fail> {
    if moment > disk.moment() {
        return Err(Fail::new("a moment to come"));
    }
    open(alloc, disk.image(alloc, moment, choice)?)
}

/// Fails where the disk of a store has the file of the stage.
fn expect_no_stage(alloc: Global, port: TestPort) -> Result<(), Fail> {
    let mut disk = port.into_store().close();
    let found = disk.read(alloc, FileId::Stage(0))?;
    expect(found.is_none(), "a stage's file is left")
}

/// Whether a stop left the backup. Whatever it left, a sweep removes the file of the stage.
fn is_left(alloc: Global, disk: &MemoryDisk, moment: usize, choice: Choice) -> Result<bool, Fail> {
    let mut port = port_after(alloc, disk, moment, choice)?;
    let is_left = is_whole(alloc, &mut port)?;
    expect_step(alloc, &mut port, Ask::Sweep, "done")?;
    expect_no_stage(alloc, port)?;
    Ok(is_left)
}

#[test]
fn a_stop_before_the_commit_leaves_no_backup(rt: HostRuntime) -> Result<(), Fail> {
    let alloc = rt.alloc();
    let start = disk_with(alloc, BEFORE)?.moment();
    let disk = disk_with(alloc, PUT)?;
    for moment in start..=disk.moment() {
        for choice in CHOICES {
            expect(
                !is_left(alloc, &disk, moment, choice)?,
                "a backup before its commit",
            )?;
        }
    }
    Ok(())
}

#[test]
fn a_stop_in_the_commit_leaves_the_backup_whole_or_none(rt: HostRuntime) -> Result<(), Fail> {
    let alloc = rt.alloc();
    let start = disk_with(alloc, PUT)?.moment();
    let disk = disk_with(alloc, COMMITTED)?;
    for moment in start..disk.moment() {
        for choice in CHOICES {
            let _ = is_left(alloc, &disk, moment, choice)?;
        }
    }
    expect(
        !is_left(alloc, &disk, start, Choice::Absent)?,
        "a backup before its commit",
    )?;
    expect(
        is_left(alloc, &disk, disk.moment(), Choice::Absent)?,
        "not durable",
    )
}
