//! A store over a disk in memory, and what it is asked.

use disk_trait::{DiskRoom, MemoryDisk};
use office_asks::{
    Ask, CHAIN_EXAMPLES, DUMP_EXAMPLES, POOL_EXAMPLES, RETRY_EXAMPLES, TREE_EXAMPLES, event_of,
    expect_step, expect_steps, text_of,
};
use office_model::Port;
use office_store::{DirectPort, Store};
use pool_name::{FirstByteNamer, Md5Namer};
use std::alloc::Global;
use std::test::Fail;

pub type TestPort = DirectPort<MemoryDisk, Md5Namer>;

const ROOM: DiskRoom = DiskRoom {
    changes: 400,
    bytes: 2_000_000,
};

/// Steps, and the reply to each.
pub type Steps = &'static [(Ask, &'static str)];

/// A disk without files, of which these calls fail.
pub fn blank_disk(alloc: Global, fails: &[u64]) -> Result<MemoryDisk, Fail> {
    Ok(MemoryDisk::new(alloc, Vec::from_slice(alloc, fails)?, ROOM)?)
}

/// The port of the store of a disk.
pub fn open(alloc: Global, disk: MemoryDisk) -> Result<TestPort, Fail> {
    match Store::open(alloc, disk, Md5Namer) {
        Ok(store) => Ok(DirectPort::new(store)),
        Err(_) => Err(Fail::new("not opened")),
    }
}

pub fn open_blank(alloc: Global) -> Result<TestPort, Fail> {
    open(alloc, blank_disk(alloc, &[])?)
}

/// The disk of a store that was asked so.
pub fn disk_with(alloc: Global, steps: Steps) -> Result<MemoryDisk, Fail> {
    let mut port = open_blank(alloc)?;
    expect_steps(alloc, &mut port, steps)?;
    Ok(port.into_store().close())
}

pub fn expect(holds: bool, else_says: &str) -> Result<(), Fail> {
    if holds {
        Ok(())
    } else {
        Err(Fail::new(format_args!("{else_says}")))
    }
}

/// Whether a port answers an ask so.
pub fn is_answered<P: Port>(
    alloc: Global,
    port: &mut P,
    ask: Ask,
    reply: &str,
) -> Result<bool, Fail> {
    let event = event_of(alloc, ask)?;
    Ok(text_of(alloc, port.call(alloc, &event))?.as_str() == reply)
}

/// Whether the store has the backup, with the bytes of its file; else it has none.
pub fn is_whole<P: Port>(alloc: Global, port: &mut P) -> Result<bool, Fail> {
    if is_answered(alloc, port, Ask::Read("pc1", 0, "a"), "hello, world")? {
        return Ok(true);
    }
    expect_step(alloc, port, Ask::Read("pc1", 0, "a"), "NoBackup")?;
    Ok(false)
}

/// Stages of two dumps, whose pieces come in turn.
const SIDE_BY_SIDE: Steps = &[
    (Ask::Host("pc1"), "done"),
    (Ask::Host("pc2"), "done"),
    (Ask::Full("pc1"), "1-0"),
    (Ask::Full("pc2"), "1-1"),
    (Ask::Stage(0), "stage 0"),
    (Ask::Stage(1), "stage 1"),
    (Ask::Piece(0, "hel"), "done"),
    (Ask::Piece(1, "wor"), "done"),
    (Ask::Piece(0, "lo"), "done"),
    (Ask::Piece(1, "ld"), "done"),
    (Ask::PutStage(1, "a", 0), "NoSession"),
    (Ask::PutStage(1, "b", 1), "done"),
    (Ask::PutStage(0, "a", 0), "done"),
    (Ask::Commit(0), "0"),
    (Ask::Commit(1), "0"),
    (Ask::Read("pc1", 0, "a"), "hello"),
    (Ask::Read("pc2", 0, "b"), "world"),
];

#[test]
fn stages_of_two_dumps_stand_side_by_side(rt: HostRuntime) -> Result<(), Fail> {
    let alloc = rt.alloc();
    expect_steps(alloc, &mut open_blank(alloc)?, SIDE_BY_SIDE)
}

/// Each of the examples, from a store without hosts on.
fn expect_examples(alloc: Global, examples: &[Steps]) -> Result<(), Fail> {
    for steps in examples {
        expect_steps(alloc, &mut open_blank(alloc)?, steps)?;
    }
    Ok(())
}

#[test]
fn a_store_answers_dumps_as_the_office_in_memory_does(rt: HostRuntime) -> Result<(), Fail> {
    expect_examples(rt.alloc(), DUMP_EXAMPLES)
}

#[test]
fn a_store_answers_of_trees_as_the_office_in_memory_does(rt: HostRuntime) -> Result<(), Fail> {
    expect_examples(rt.alloc(), TREE_EXAMPLES)
}

#[test]
fn a_store_answers_retries_as_the_office_in_memory_does(rt: HostRuntime) -> Result<(), Fail> {
    expect_examples(rt.alloc(), RETRY_EXAMPLES)
}

#[test]
fn a_store_answers_of_its_pool_as_the_office_in_memory_does(rt: HostRuntime) -> Result<(), Fail> {
    expect_examples(rt.alloc(), POOL_EXAMPLES)
}

/// The port of the store of a disk without files, where a content's digest is its first byte.
fn open_chained(alloc: Global) -> Result<DirectPort<MemoryDisk, FirstByteNamer>, Fail> {
    match Store::open(alloc, blank_disk(alloc, &[])?, FirstByteNamer) {
        Ok(store) => Ok(DirectPort::new(store)),
        Err(_) => Err(Fail::new("not opened")),
    }
}

#[test]
fn a_store_gives_contents_of_one_digest_the_names_that_the_office_in_memory_gives(
    rt: HostRuntime,
) -> Result<(), Fail> {
    let alloc = rt.alloc();
    for steps in CHAIN_EXAMPLES {
        expect_steps(alloc, &mut open_chained(alloc)?, steps)?;
    }
    Ok(())
}
