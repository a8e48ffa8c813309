//! The journal's file `intent`, cut: behind a closed Gate the store opens as before, behind an open one it is named.

use crate::disks::{OPENED, copy_of, expect_each_foreign, expect_same};
use disk_trait::{Disk, FileId, MemoryDisk};
use std::test::Fail;
use store_talks::scripts::Step::{Ask, Dump, File, Read};
use store_talks::scripts::{Put, Step, expect_steps};
use store_talks::talks::{HOST, Machine, blank_disk};

/// A store with one backup.
const KEPT: &[Step] = &[Ask(HOST), Dump(0, "full", &[Put("a.txt", "hello")])];

/// What it has.
const HELD: &[Step] = &[
    Read("/hosts", "{\"hosts\":[\"pc1\"]}"),
    File(0, "a.txt", b"hello"),
];

/// The changes of a commit that takes Head away, with their seal.
const INTENT: &[u8] =
    b"RIN1\x00\x00\x00\x00\x00\x00\x00\x01\x01\x02\x15\x62\x60\x92\xef\x3a\x48\x3e\xdd\xbf\xe3\x29\x4c\xbe\xe3\xd2";

/// How much of it is left.
const LENGTHS: &[usize] = &[29, 14, 4, 1, 0];

/// What a closed Gate holds.
const CLOSED: &[&[u8]] = &[b"C", b"", b"c", b"OO", b"o"];

/// Fails where a run over this disk, whose Intent is cut to this length, doesn't find what was there, or leaves other files but for those that
/// its opening writes.
fn expect_opened(rt: &impl Machine, disk: &MemoryDisk, length: usize) -> Result<(), Fail> {
    let alloc = rt.alloc();
    let mut cut = copy_of(alloc, disk)?;
    cut.write(FileId::Intent, INTENT.get(..length).unwrap_or(INTENT))?;
    let mut left = expect_steps(rt, copy_of(alloc, &cut)?, HELD)?;
    expect_same(alloc, &mut cut, &mut left, OPENED)
}

/// Fails where a cut Intent keeps the store of this disk from opening as before.
fn expect_each_opened(rt: &impl Machine, disk: &MemoryDisk) -> Result<(), Fail> {
    for length in LENGTHS {
        expect_opened(rt, disk, *length)?;
    }
    Ok(())
}

#[test]
fn a_cut_intent_behind_a_closed_gate_is_nothing(rt: HostRuntime) -> Result<(), Fail> {
    let alloc = rt.alloc();
    let mut disk = expect_steps(&rt, blank_disk(alloc, &[])?, KEPT)?;
    expect_each_opened(&rt, &disk)?;
    for bytes in CLOSED {
        disk.write(FileId::Gate, bytes)?;
        expect_each_opened(&rt, &disk)?;
    }
    disk.remove(FileId::Gate)?;
    expect_each_opened(&rt, &disk)
}

#[test]
fn an_altered_intent_behind_an_open_gate_is_named(rt: HostRuntime) -> Result<(), Fail> {
    let mut disk = expect_steps(&rt, blank_disk(rt.alloc(), &[])?, KEPT)?;
    disk.write(FileId::Intent, INTENT)?;
    disk.write(FileId::Gate, b"O")?;
    expect_each_foreign(&rt, &disk, FileId::Intent)
}
