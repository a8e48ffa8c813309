//! Each call of the disk fails in turn while a content comes in pieces.

use crate::ports::{Steps, TestPort, blank_disk, expect, is_answered, is_whole};
use office_asks::{Ask, event_of, expect_steps, text_of};
use office_model::Port;
use office_store::{DirectPort, Store};
use pool_name::Md5Namer;
use std::alloc::Global;
use std::test::Fail;

/// More calls than the steps make.
const CALLS: u64 = 420;

const BEFORE: Steps = &[(Ask::Host("pc1"), "done"), (Ask::Full("pc1"), "1-0")];

/// What may fail, and the reply without a fault.
const STEPS: Steps = &[
    (Ask::Stage(0), "stage 0"),
    (Ask::Piece(0, "hel"), "done"),
    (Ask::Piece(0, "lo, "), "done"),
    (Ask::Piece(0, "world"), "done"),
    (Ask::PutStage(0, "a", 0), "done"),
    (Ask::Commit(0), "0"),
];

/// The reply to an ask, in words.
fn reply_to<P: Port>(alloc: Global, port: &mut P, ask: Ask) -> Result<String, Fail> {
    let event = event_of(alloc, ask)?;
    text_of(alloc, port.call(alloc, &event))
}

/// Whether a fault befalls an ask; else it has this reply.
fn fails<P: Port>(alloc: Global, port: &mut P, ask: Ask, reply: &str) -> Result<bool, Fail> {
    let said = reply_to(alloc, port, ask)?;
    if said.as_str() == "DiskFault" {
        return Ok(true);
    }
    expect(said.as_str() == reply, "another reply")?;
    Ok(false)
}

/// Asks for each, up to the first that a fault befalls, and says which one that is.
fn failed_step<P: Port>(alloc: Global, port: &mut P) -> Result<usize, Fail> {
    for (index, (ask, reply)) in STEPS.iter().enumerate() {
        if fails(alloc, port, *ask, reply)? {
            return Ok(index);
        }
    }
    Ok(STEPS.len())
}

const BEHIND_A_PIECE: Steps = &[
    (Ask::Piece(0, "x"), "NoSession"),
    (Ask::Stage(0), "stage 1"),
    (Ask::Piece(1, "hello, world"), "done"),
    (Ask::PutStage(0, "a", 1), "done"),
    (Ask::Commit(0), "0"),
    (Ask::Read("pc1", 0, "a"), "hello, world"),
];

const BEHIND_A_PUT: Steps = &[
    (Ask::PutStage(0, "a", 0), "done"),
    (Ask::Commit(0), "0"),
    (Ask::Read("pc1", 0, "a"), "hello, world"),
];

const BEHIND_A_COMMIT: Steps = &[(Ask::Stage(0), "Halted"), (Ask::Reopen, "epoch 2")];

/// Behind a fault in a piece the stage is gone, and the dump goes on with another one; behind one in a put the stage is there, and
/// the put can be asked for again; behind one in the commit the store is halted, and opened again it has the backup whole or not.
fn goes_on<P: Port>(alloc: Global, port: &mut P, step: usize) -> Result<(), Fail> {
    match step {
        1..=3 => expect_steps(alloc, port, BEHIND_A_PIECE),
        4 => expect_steps(alloc, port, BEHIND_A_PUT),
        5 => {
            expect_steps(alloc, port, BEHIND_A_COMMIT)?;
            let _ = is_whole(alloc, port)?;
            Ok(())
        }
        _ => Err(Fail::new("a fault where no file is touched")),
    }
}

/// The port of a store of which this call fails, with an open dump, if neither met the fault.
fn port_failing(alloc: Global, call: u64) -> Result<Option<TestPort>, Fail> {
    let Ok(store) = Store::open(alloc, blank_disk(alloc, &[call])?, Md5Namer) else {
        return Ok(None);
    };
    let mut port = DirectPort::new(store);
    for (ask, reply) in BEFORE {
        if !is_answered(alloc, &mut port, *ask, reply)? {
            return Ok(None);
        }
    }
    Ok(Some(port))
}

/// The step that a call belongs to, if it is one of the steps' and fails; else how many they are.
fn step_of(alloc: Global, call: u64) -> Result<usize, Fail> {
    let Some(mut port) = port_failing(alloc, call)? else {
        return Ok(STEPS.len());
    };
    let step = failed_step(alloc, &mut port)?;
    if step < STEPS.len() {
        goes_on(alloc, &mut port, step)?;
    }
    Ok(step)
}

#[test]
fn each_fault_is_answered_once_and_leaves_what_the_model_says(rt: HostRuntime) -> Result<(), Fail> {
    let alloc = rt.alloc();
    let mut met = Vec::new(alloc);
    for call in 0..CALLS {
        met.push(step_of(alloc, call)?)?;
    }
    for step in 1..=5usize {
        expect(met.contains(&step), "no fault in a step")?;
    }
    Ok(())
}
