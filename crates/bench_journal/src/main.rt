//! Measures what a commit costs over a disk in memory, beside writing the same bytes once and hashing them. The words
//! `FILES BYTES` give the sizes, and a third word `time` asks for the times. The words `judge ITEMS TABLES`, and `time`, measure
//! what it costs to judge a certificate. Without words it runs a small size of both.
#![tactic(auto)]

ghost use Rattle.intent_journal.specs.Changes.{AreChanges};

mod changes;
mod fault;
mod judging;
mod sizes;

use crate::changes::changes_of;
use crate::fault::Fault;
use crate::judging::{certificate_of, is_sound};
use crate::sizes::{Shape, Sizes, read_tasks};
use disk_trait::{Disk, DiskRoom, MemoryDisk};
use intent_journal::{Changes, Journal};
use md5::{Digest, Md5};
use std::alloc::Global;
use std::io;
use std::time::Instant;

fn main(rt: HostRuntime) -> Result<(), Fault> {
    let tasks = read_tasks(&rt)?;
    if let Some(sizes) = tasks.commit {
        measure_commit(&rt, sizes)?;
    }
    if let Some(shape) = tasks.judge {
        measure_judge(&rt, shape)?;
    }
    Ok(())
}

/// Prints what a commit costs.
fn measure_commit(rt: &HostRuntime, sizes: Sizes) -> Result<(), Fault> {
    let changes = changes_of(rt.alloc(), sizes)?;
    let write = time_writes(rt, sizes, &changes)?;
    let hash = time_hash(rt, &changes)?;
    let (calls, commit) = time_commit(rt, sizes, &changes)?;
    let Sizes { files, bytes, .. } = sizes;
    println!(rt; "commit: {files} files of {bytes} bytes, {calls} changes and syncs")?;
    if sizes.with_times {
        let times = commit.saturating_mul(100).checked_div(write).unwrap_or(0);
        println!(rt;
            "write: {write} us; hash: {hash} us; commit: {commit} us, {times} % of the write"
        )?;
    }
    Ok(())
}

/// Prints what it costs to judge a certificate.
fn measure_judge(rt: &HostRuntime, shape: Shape) -> Result<(), Fault> {
    let Shape { items, tables, .. } = shape;
    let file = certificate_of(rt.alloc(), items, tables)?;
    let begin = Instant::now(rt)?;
    let _digest = Md5::digest(file.as_slice());
    let hash = micros_since(rt, begin)?;
    let begin = Instant::now(rt)?;
    let sound = is_sound(file.as_slice());
    let judge = micros_since(rt, begin)?;
    let bytes = file.len();
    println!(rt; "judge: {items} items, {tables} tables, {bytes} bytes, sound: {sound}")?;
    if shape.with_times {
        println!(rt; "hash: {hash} us; judge: {judge} us")?;
    }
    Ok(())
}

/// The microseconds since a step began.
fn micros_since(rt: &HostRuntime, begin: Instant) -> io::Result<u64> {
    let elapsed = begin.elapsed(rt)?;
    Ok(u64::try_from(elapsed.as_micros()).unwrap_or(u64::MAX))
}

/// An empty disk with room for a commit of these sizes.
fn new_disk(rt: &HostRuntime, sizes: Sizes) -> Result<MemoryDisk, Fault> {
    let room = DiskRoom {
        changes: u64::from(sizes.files).saturating_add(16),
        bytes: (sizes.bytes as u64)
            .saturating_add(64)
            .saturating_mul(u64::from(sizes.files))
            .saturating_mul(2)
            .saturating_add(64),
    };
    let alloc = rt.alloc();
    Ok(MemoryDisk::new(alloc, Vec::new(alloc), room)?)
}

/// Writes the bytes of the changes once, and syncs.
fn time_writes(rt: &HostRuntime, sizes: Sizes, changes: &Changes) -> Result<u64, Fault> {
    let mut disk = new_disk(rt, sizes)?;
    let begin = Instant::now(rt)?;
    for change in changes.as_slice() {
        if let Some(bytes) = &change.bytes {
            disk.write(change.file, bytes.as_slice())?;
        }
    }
    disk.sync()?;
    Ok(micros_since(rt, begin)?)
}

/// Hashes the bytes of the changes.
fn time_hash(rt: &HostRuntime, changes: &Changes) -> Result<u64, Fault> {
    let begin = Instant::now(rt)?;
    let mut state = Md5::new();
    for change in changes.as_slice() {
        if let Some(bytes) = &change.bytes {
            state.update(bytes.as_slice());
        }
    }
    let _digest = state.finalize();
    Ok(micros_since(rt, begin)?)
}

/// Commits the changes: how many calls the disk counts for it, and the microseconds.
fn time_commit(rt: &HostRuntime, sizes: Sizes, changes: &Changes) -> Result<(usize, u64), Fault>
    requires { AreChanges changes.now }
{
    let opened = open(rt.alloc(), new_disk(rt, sizes)?)?.close();
    let opening = opened.moment();
    let mut journal = open(rt.alloc(), opened)?;
    let begin = Instant::now(rt)?;
    journal.commit(rt.alloc(), changes)?;
    let micros = micros_since(rt, begin)?;
    let calls = journal.close().moment();
    Ok((
        calls.saturating_sub(opening).saturating_sub(opening),
        micros,
    ))
}

/// The journal of a disk.
fn open(alloc: Global, disk: MemoryDisk) -> Result<Journal<MemoryDisk>, Fault> {
    match Journal::open(alloc, disk) {
        Ok(journal) => Ok(journal),
        Err((_disk, _fault)) => Err(Fault::Disk),
    }
}
