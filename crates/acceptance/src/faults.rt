//! Disks and links that fail.

use crate::ends::{Case, Machine, QUIET, Want, disk_of, expect_run, run_over};
use crate::files::{COMMIT, READ};
use std::test::Fail;

/// Fails where a run on whose disk this call fails ends otherwise than by its status, or leaves a disk that can't be opened.
/// Returns whether the disk failed in the run.
fn ends_by_its_status(rt: &impl Machine, disk_fails: u64) -> Result<bool, Fail> {
    let case = Case {
        input: &[COMMIT, READ],
        disk_fails,
        ..QUIET
    };
    let done = run_over(rt, &case, disk_of(rt.alloc(), &case)?)?;
    let status = done.note.status();
    let again = run_over(rt, &QUIET, done.disk)?;
    if (status != 0 && status != 4) || again.note.status() != 0 {
        return Err(Fail::new(format_args!(
            "call {disk_fails}: status {status}, then {:?}",
            again.note
        )));
    }
    Ok(status == 4)
}

/// Wherever the disk fails, the run ends with 0 or, if the store is halted or wasn't opened, with 4, and the next one opens
/// the store.
#[test]
fn a_fault_of_the_disk_has_its_status(rt: HostRuntime) -> Result<(), Fail> {
    let mut halted = 0u32;
    for disk_fails in 0..CALLS {
        if ends_by_its_status(&rt, disk_fails)? {
            halted = halted.saturating_add(1);
        }
    }
    if halted > 8 {
        return Ok(());
    }
    Err(Fail::new(format_args!("halted by {halted} calls")))
}

/// How many calls of the disk the run has: most are of the opening, which looks for each file of the pool's index.
const CALLS: u64 = 297;

/// A host of the name `a`.
const ADD: &str = "PUT /hosts/a HTTP/1.1\r\nHost: b\r\n\r\n";

/// The response to it.
const ADDED: &str =
    "HTTP/1.1 201 Created\r\nContent-Type: application/json\r\nContent-Length: 12\r\n\r\n{\"host\":\"a\"}";

/// Fails where two requests over such a link don't end with its fault and this output.
fn expect_link_fault(
    rt: &impl Machine,
    link_fails: u64,
    link_room: usize,
    output: &[&str],
) -> Result<(), Fail> {
    let case = Case {
        input: &[ADD, ADD],
        link_fails,
        link_room,
        ..QUIET
    };
    let want = Want {
        status: 3,
        said: "link failed",
        output,
    };
    let _ = expect_run(rt, &case, &want)?;
    Ok(())
}

/// The response to the second, which adds it again.
const ADDED_AGAIN: &str =
    "HTTP/1.1 409 Conflict\r\nContent-Type: application/json\r\nContent-Length: 24\r\n\r\n{\"refused\":\"HostExists\"}";

/// The number of the link's call that fails, the room for its output, and the output.
const LINK_FAULTS: [(u64, usize, &[&str]); 7] = [
    (0, 999, &[]),
    (1, 999, &[]),
    (2, 999, &[]),
    (3, 999, &[ADDED]),
    (4, 999, &[ADDED, ADDED_AGAIN]),
    (5, 999, &[ADDED, ADDED_AGAIN]),
    (99, 10, &["HTTP/1.1 2"]),
];

/// What was written before is sent (call 0), both requests are read (1), each response is written (2 and 3), both are sent (4), and
/// the end is read (5).
#[test]
fn a_fault_of_the_link_has_its_status(rt: HostRuntime) -> Result<(), Fail> {
    for (link_fails, link_room, output) in LINK_FAULTS {
        expect_link_fault(&rt, link_fails, link_room, output)?;
    }
    Ok(())
}
