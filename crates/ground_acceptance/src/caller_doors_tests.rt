use crate::told::expect;
use caller_doors::*;
use std::alloc::Global;
use std::collections::VecDeque;
use std::sync::atomic::AtomicBool;
use std::test::Fail;
use std::thread::{Threads, join};
use stream_traits::{Gate, MemoryLink, Sink};

/// Writes a byte to each link that comes, gives it back, and says how many came.
fn mark_all<D: Door>(door: &mut D) -> u64 {
    let mut count = 0u64;
    for _ in 0..9 {
        match door.next() {
            Came::Link(mut link) => {
                let _ = link.write(b"x");
                door.done(link);
                count = count.saturating_add(1);
            }
            Came::Closed | Came::Failed => {}
        }
    }
    count
}

/// Marks the links of two doors in two threads.
fn mark_apart<D: Door>(rt: &impl Threads, one: &mut D, other: &mut D) -> (u64, u64) {
    join(rt, || mark_all(one), || mark_all(other))
}

/// A door over links that give these bytes to be read, which fails at one call.
fn door(alloc: Global, inputs: [&[u8]; 3], fails: u64) -> Result<ListDoor, Fail> {
    let mut links = VecDeque::new(alloc);
    for input in inputs {
        let link = MemoryLink::new(alloc, input.to_vec(alloc)?, 4, Vec::new(alloc))?;
        links.push_back(link)?;
    }
    let fails = Vec::from_array(alloc, [fails])?;
    Ok(ListDoor::new(alloc, links, fails)?)
}

/// Fails unless the door is closed, and each of its three links has its mark.
fn expect_marked(door: &mut ListDoor) -> Result<(), Fail> {
    expect(matches!(door.next(), Came::Closed), "not closed")?;
    expect(door.served().len() == 3, "other links")?;
    for link in door.served() {
        expect(link.output() == b"x".as_slice(), "another mark")?;
    }
    Ok(())
}

/// Fails unless the next call of the door gives a link, or fails.
fn expect_came(door: &mut ListDoor, has_link: bool) -> Result<(), Fail> {
    let as_wanted = match door.next() {
        Came::Link(_link) => has_link,
        Came::Failed => !has_link,
        Came::Closed => false,
    };
    expect(as_wanted, "another answer")
}

#[test]
fn a_list_door_gives_each_link_once(rt: HostRuntime) -> Result<(), Fail> {
    let alloc = rt.alloc();
    let mut one = door(alloc, [b"a", b"b", b"c"], 1)?;
    let mut other = door(alloc, [b"d", b"e", b"f"], u64::MAX)?;
    let marked = mark_apart(&rt, &mut one, &mut other);
    expect(marked == (3, 3), "other counts of links")?;
    expect(one.faults() == 1 && other.faults() == 0, "other faults")?;
    expect_marked(&mut one)
}

#[test]
fn a_door_fails_at_its_calls_alone(rt: HostRuntime) -> Result<(), Fail> {
    let mut door = door(rt.alloc(), [b"a", b"b", b"c"], 1)?;
    expect_came(&mut door, true)?;
    expect_came(&mut door, false)?;
    expect_came(&mut door, true)?;
    expect(door.faults() == 1 && door.served().is_empty(), "others")
}

/// Holds at two gates in two threads.
fn hold_apart<G: Gate>(rt: &impl Threads, one: &mut G, other: &mut G) {
    join(rt, || one.hold(0), || other.hold(0));
}

#[test]
fn two_gates_wait_for_each_other(rt: HostRuntime) -> Result<(), Fail> {
    let (first, second) = (AtomicBool::new(false), AtomicBool::new(false));
    let mut one = FlagGate::new(&first, 0, &second, 0, 1_000_000_000);
    let mut other = FlagGate::new(&second, 0, &first, 0, 1_000_000_000);
    hold_apart(&rt, &mut one, &mut other);
    expect(one.passed() && other.passed(), "not both passed")
}

#[test]
fn a_gate_waits_at_its_request_alone(rt: HostRuntime) -> Result<(), Fail> {
    let (first, second) = (AtomicBool::new(false), AtomicBool::new(false));
    let mut one = FlagGate::new(&first, 0, &second, 2, 3);
    let mut other = FlagGate::new(&second, 1, &first, 1, 3);
    other.hold(0);
    one.hold(2);
    expect(!one.passed() && !other.passed(), "one has passed")?;
    other.hold(1);
    expect(!other.passed(), "the other has passed")?;
    one.hold(0);
    one.hold(1);
    expect(!one.passed(), "the one has passed")?;
    one.hold(2);
    other.hold(1);
    expect(one.passed() && other.passed(), "not both passed")
}
