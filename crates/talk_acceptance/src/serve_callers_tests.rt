use crate::interfaces::interface;
use caller_doors::{Door, FlagGate, ListDoor};
use door_server::*;
use pool_name::Md5Namer;
use std::alloc::Global;
use std::collections::VecDeque;
use std::sync::atomic::AtomicBool;
use std::test::Fail;
use stream_traits::{FixedClock, MemoryLink, Moment, OpenGate};
use tree_office::TreeOffice;

const ADD: &[u8] = b"PUT /hosts/pc1 HTTP/1.1\r\nHost: b\r\n\r\n";

const ADD_OUTPUT: &[u8] =
    b"HTTP/1.1 201 Created\r\nContent-Type: application/json\r\nContent-Length: 14\r\n\r\n{\"host\":\"pc1\"}";

const LIST: &[u8] = b"GET /hosts HTTP/1.1\r\nHost: b\r\n\r\n";

const LIST_OUTPUT: &[u8] =
    b"HTTP/1.1 200 OK\r\nContent-Type: application/json\r\nContent-Length: 17\r\n\r\n{\"hosts\":[\"pc1\"]}";

/// The turns for which a gate waits at most.
const TURNS: u64 = 1_000_000_000;

/// A door with a link that adds a host and one that lists the hosts, which fails at one of its calls.
fn door(alloc: Global, fails: u64) -> Result<ListDoor, Fail> {
    let mut links = VecDeque::new(alloc);
    for input in [ADD, LIST] {
        links.push_back(MemoryLink::new(alloc, input.to_vec(alloc)?, 1_024, Vec::new(alloc))?)?;
    }
    let fails = Vec::from_array(alloc, [fails])?;
    Ok(ListDoor::new(alloc, links, fails)?)
}

/// A caller of an office of its own.
fn caller<G: Drop>(
    alloc: Global,
    fails: u64,
    gate: G,
) -> Result<Caller<TreeOffice<Md5Namer>, ListDoor, FixedClock, G>, Fail> {
    Ok(Caller {
        port: TreeOffice::new(alloc, Md5Namer),
        worker: Worker {
            door: door(alloc, fails)?,
            clock: FixedClock::new(Moment::first()),
            gate,
        },
    })
}

/// What was sent on the served link at an index.
fn sent(door: &ListDoor, index: usize) -> Result<&[u8], Fail> {
    match door.served().get(index) {
        Some(link) => Ok(link.sent()),
        None => Err(Fail::new("no link")),
    }
}

#[test]
fn two_doors_are_served_beside_each_other(rt: HostRuntime) -> Result<(), Fail> {
    let alloc = rt.alloc();
    let (first, second) = (AtomicBool::new(false), AtomicBool::new(false));
    let mut callers = Vec::from_array(
        alloc,
        [
            caller(alloc, u64::MAX, FlagGate::new(&first, 0, &second, 0, TURNS))?,
            caller(alloc, u64::MAX, FlagGate::new(&second, 0, &first, 0, TURNS))?,
        ],
    )?;
    serve_callers(&rt, alloc, callers.as_mut_slice(), &interface(alloc)?);
    for caller in callers.as_slice() {
        assert!(rt; caller.worker.gate.passed());
        assert_eq!(rt; sent(&caller.worker.door, 0)?, ADD_OUTPUT);
        assert_eq!(rt; sent(&caller.worker.door, 1)?, LIST_OUTPUT);
    }
    Ok(())
}

#[test]
fn a_door_that_fails_is_left_alone(rt: HostRuntime) -> Result<(), Fail> {
    let alloc = rt.alloc();
    let mut callers = Vec::from_array(
        alloc,
        [
            caller(alloc, 1, OpenGate)?,
            caller(alloc, u64::MAX, OpenGate)?,
        ],
    )?;
    serve_callers(&rt, alloc, callers.as_mut_slice(), &interface(alloc)?);
    assert_eq!(rt; callers[0].worker.door.faults(), 1);
    assert_eq!(rt; callers[0].worker.door.served().len(), 1);
    assert_eq!(rt; sent(&callers[0].worker.door, 0)?, ADD_OUTPUT);
    assert_eq!(rt; callers[1].worker.door.faults(), 0);
    assert_eq!(rt; sent(&callers[1].worker.door, 1)?, LIST_OUTPUT);
    Ok(())
}
