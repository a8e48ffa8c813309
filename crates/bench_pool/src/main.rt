//! Measures what a pool costs over a disk in memory: opening one, beside reading and hashing its index, and look-ups of
//! contents that are there, beside hashing and reading them. The words `CONTENTS LOOKUPS` give the sizes, and a third
//! word `time` asks for the times; `files` and `names` make the files alone, or open a pool over them too, for the
//! memory that a pool takes. Without words it runs a small size.
#![tactic(auto)]

ghost use Rattle.std.specs.Prelude.{◌≡◌, false, IfOk};
ghost use Rattle.pool_changes.specs.Kept.{slots_of};
ghost use Rattle.pool_changes.specs.Indexed.{AreGiven};

mod contents;
mod fault;
mod sizes;

use crate::contents::{content_of, disk_of_files, new_disk};
use crate::fault::Fault;
use crate::sizes::{Mode, Sizes, read_sizes};
use disk_trait::{FileId, MemoryDisk, PoolId};
use intent_journal::Journal;
use md5::{Digest, Md5};
use pool_name::{Md5Namer, Namer};
use pool_store::{Pool, Slot};
use std::alloc::Global;
use std::io;
use std::time::Instant;

fn main(rt: HostRuntime) -> Result<(), Fault> {
    let sizes = read_sizes(&rt)?;
    match sizes.mode {
        Mode::Counts | Mode::Times => measure(&rt, sizes),
        Mode::Files | Mode::Names => make_files(&rt, sizes),
    }
}

/// Makes the files of all contents, and opens a pool over them if it is asked for.
fn make_files(rt: &HostRuntime, sizes: Sizes) -> Result<(), Fault> {
    let mut journal = journal_of(rt.alloc(), disk_of_files(rt.alloc(), sizes)?)?;
    let Sizes { contents, .. } = sizes;
    if sizes.mode == Mode::Files {
        println!(rt; "files: {contents}")?;
        return Ok(());
    }
    let pool = open(rt.alloc(), &mut journal)?;
    let listed = pool.stats().files;
    println!(rt; "names: {contents}, {listed} of them listed")?;
    Ok(())
}

/// Fills a pool, opens it again, and looks contents up.
fn measure(rt: &HostRuntime, sizes: Sizes) -> Result<(), Fault> {
    let alloc = rt.alloc();
    let mut journal = journal_of(alloc, new_disk(alloc, sizes)?)?;
    let (stage, settle) = fill(rt, sizes, &mut journal)?;
    let (read, hash) = read_index(rt, &mut journal)?;
    let begin = Instant::now(rt)?;
    let mut pool = open(alloc, &mut journal)?;
    let open = micros_since(rt, begin)?;
    let begin = Instant::now(rt)?;
    look_up(alloc, sizes, &mut pool, &mut journal)?;
    let look_up = micros_since(rt, begin)?;
    let begin = Instant::now(rt)?;
    let found = hash_and_read(alloc, sizes, &mut journal)?;
    let plain = micros_since(rt, begin)?;
    let stats = pool.stats();
    let (files, bytes) = (stats.files, stats.bytes);
    println!(rt; "pool: {files} contents of {bytes} bytes, {found} looked up")?;
    if sizes.mode == Mode::Times {
        println!(rt; "stage: {stage} us; settle and commit: {settle} us")?;
        println!(rt; "index: read {read} us, hash {hash} us; open: {open} us")?;
        println!(rt; "look up: {look_up} us; hash and read: {plain} us")?;
    }
    Ok(())
}

/// The microseconds since a step began.
fn micros_since(rt: &HostRuntime, begin: Instant) -> io::Result<u64> {
    let elapsed = begin.elapsed(rt)?;
    Ok(u64::try_from(elapsed.as_micros()).unwrap_or(u64::MAX))
}

/// The journal of a disk.
fn journal_of(alloc: Global, disk: MemoryDisk) -> Result<Journal<MemoryDisk>, Fault> {
    match Journal::open(alloc, disk) {
        Ok(journal) => Ok(journal),
        Err((_disk, _fault)) => Err(Fault::Disk),
    }
}

/// The pool of a journal.
fn open(alloc: Global, journal: &mut Journal<MemoryDisk>) -> Result<Pool<Md5Namer>, Fault> {
    if journal.halted() {
        return Err(Fault::Disk);
    }
    Ok(Pool::open(alloc, journal, Md5Namer)?)
}

/// Takes a content in, or looks it up.
fn take_in(
    alloc: Global,
    pool: &mut Pool<Md5Namer>,
    journal: &mut Journal<MemoryDisk>,
    number: u64,
) -> Result<PoolId, Fault> {
    if journal.halted() {
        return Err(Fault::Disk);
    }
    let content = content_of(number);
    let bytes = content.as_slice();
    if bytes.is_empty() {
        return Err(Fault::Name);
    }
    Ok(pool.match_or_stage(alloc, journal, bytes)?)
}

/// Takes all contents in.
fn take_all_in(
    alloc: Global,
    sizes: Sizes,
    pool: &mut Pool<Md5Namer>,
    journal: &mut Journal<MemoryDisk>,
) -> Result<Vec<PoolId>, Fault> {
    let mut ids = Vec::new(alloc);
    for number in 0..sizes.contents {
        ids.push(take_in(alloc, pool, journal, number)?)?;
    }
    Ok(ids)
}

/// These ids, each of which is a staged content's.
#[tactic(auto, using(crate::proofs::Giving::given_more))]
fn given_ids(alloc: Global, pool: &Pool<Md5Namer>, ids: &[PoolId]) -> Result<Vec<PoolId>, Fault>
    ensures { IfOk result (λ given. AreGiven (slots_of pool.now.names) given.items) }
{
    let mut given: Vec<PoolId> = Vec::new(alloc);
    for id in ids {
        match pool.slot(*id) {
            Some(Slot::Staged { .. }) => {}
            _ => return Err(Fault::Name),
        }
        given.push(*id)?;
    }
    Ok(given)
}

/// Takes all contents in, and commits that the index lists them: the microseconds of both.
fn fill(
    rt: &HostRuntime,
    sizes: Sizes,
    journal: &mut Journal<MemoryDisk>,
) -> Result<(u64, u64), Fault> {
    let alloc = rt.alloc();
    let mut pool = open(alloc, journal)?;
    let begin = Instant::now(rt)?;
    let ids = take_all_in(alloc, sizes, &mut pool, journal)?;
    let stage = micros_since(rt, begin)?;
    let begin = Instant::now(rt)?;
    let given = given_ids(alloc, &pool, ids.as_slice())?;
    let change = pool.settle(alloc, given.as_slice())?;
    journal.commit(alloc, change.changes())?;
    pool.accept(change);
    let settle = micros_since(rt, begin)?;
    Ok((stage, settle))
}

/// Reads the files of the index, and hashes their bytes: the microseconds of both.
fn read_index(rt: &HostRuntime, journal: &mut Journal<MemoryDisk>) -> Result<(u64, u64), Fault> {
    let mut read: u64 = 0;
    let mut hash: u64 = 0;
    for byte in 0..=u8::MAX {
        let begin = Instant::now(rt)?;
        let found = journal.get(rt.alloc(), FileId::PoolBucket(byte))?;
        read = read.saturating_add(micros_since(rt, begin)?);
        let begin = Instant::now(rt)?;
        if let Some(bytes) = found {
            let mut state = Md5::new();
            state.update(bytes.as_slice());
            let _digest = state.finalize();
        }
        hash = hash.saturating_add(micros_since(rt, begin)?);
    }
    Ok((read, hash))
}

/// The content that is looked up next: one of the numbers, in an order that looks random.
fn number_of(sizes: Sizes, turn: u64) -> u64 {
    turn.wrapping_mul(0x9E37_79B9_7F4A_7C15)
        .checked_rem(sizes.contents)
        .unwrap_or(0)
}

/// Looks contents up that are there.
fn look_up(
    alloc: Global,
    sizes: Sizes,
    pool: &mut Pool<Md5Namer>,
    journal: &mut Journal<MemoryDisk>,
) -> Result<(), Fault> {
    for turn in 0..sizes.lookups {
        let _id = take_in(alloc, pool, journal, number_of(sizes, turn))?;
    }
    Ok(())
}

/// Hashes the same contents, and reads their files: how many have one.
fn hash_and_read(
    alloc: Global,
    sizes: Sizes,
    journal: &mut Journal<MemoryDisk>,
) -> Result<u64, Fault> {
    let mut found: u64 = 0;
    for turn in 0..sizes.lookups {
        let digest = Md5Namer.name(&content_of(number_of(sizes, turn)));
        let extension = 0;
        let file = journal.get(alloc, FileId::Pool(PoolId { digest, extension }))?;
        if file.is_some() {
            found = found.saturating_add(1);
        }
    }
    Ok(found)
}
