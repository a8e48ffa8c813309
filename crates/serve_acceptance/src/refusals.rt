//! Runs that serve nobody.

use crate::runs::{
    Case, Machine, NEVER, PIPE, SERVE, SERVE_LINE, SERVED, Want, expect_end, expect_file,
    expect_run_over, expect_served, new_disk, run_at, worker_of,
};
use crate::texts::MAKER;
use caller_doors::{Came, Door};
use command_line::USAGE;
use disk_trait::{Disk, FileId, MemoryDisk};
use std::alloc::Global;
use std::test::Fail;
use stream_traits::OpenGate;

/// Fails where two disks don't hold the same files.
fn expect_same_files(
    alloc: Global,
    one: &mut MemoryDisk,
    other: &mut MemoryDisk,
) -> Result<(), Fail> {
    let files = one.list(alloc)?;
    if files.as_slice() != other.list(alloc)?.as_slice() {
        return Err(Fail::new("other files"));
    }
    for file in files.as_slice() {
        match one.read(alloc, *file)? {
            Some(bytes) => expect_file(alloc, other, *file, Some(bytes.as_slice()))?,
            None => expect_file(alloc, other, *file, None)?,
        }
    }
    Ok(())
}

/// It opens the store as `pipe` does without input, twice.
#[test]
fn a_server_without_workers_serves_nobody(rt: HostRuntime) -> Result<(), Fail> {
    let alloc = rt.alloc();
    let mut served = new_disk(alloc, NEVER)?;
    let mut piped = new_disk(alloc, NEVER)?;
    for _ in 0..2 {
        served = expect_run_over(&rt, &SERVE, served, &SERVED)?;
        piped = expect_run_over(&rt, &PIPE, piped, &SERVED)?;
        expect_same_files(alloc, &mut served, &mut piped)?;
    }
    Ok(())
}

/// A file that isn't the store's.
const ABC: &[u8] = b"abc";

/// Words, settings and the file Head of a disk, and the status and what is said of them.
const REFUSED: [(&str, &str, Option<&[u8]>, u8, &str); 4] = [
    (SERVE_LINE, "", Some(ABC), 5, "foreign head"),
    (
        SERVE_LINE,
        "FillCycle = 7",
        None,
        7,
        "bad settings: unknown key",
    ),
    (
        SERVE_LINE,
        "FillCycle = 7",
        Some(ABC),
        7,
        "bad settings: unknown key",
    ),
    (
        "backup_server serve --store store",
        "Zone",
        Some(ABC),
        2,
        USAGE,
    ),
];

/// Fails where a run doesn't end so, takes a link of its door or changes the file Head.
fn expect_refused(
    rt: &impl Machine,
    case: &Case<'_>,
    head: Option<&[u8]>,
    want: &Want<'_>,
) -> Result<(), Fail> {
    let alloc = rt.alloc();
    let mut disk = new_disk(alloc, NEVER)?;
    if let Some(bytes) = head {
        disk.write(FileId::Head, bytes)?;
    }
    let workers = Vec::from_array(alloc, [worker_of(alloc, &[MAKER], NEVER, OpenGate)?])?;
    let mut done = run_at(rt, case, disk, workers)?;
    expect_end(alloc, &done, want)?;
    expect_served(alloc, &done, 0, &[])?;
    expect_file(alloc, &mut done.disk, FileId::Head, head)?;
    for worker in done.workers.as_mut_slice() {
        if !matches!(worker.door.next(), Came::Link(_)) {
            return Err(Fail::new("a link was taken"));
        }
    }
    Ok(())
}

#[test]
fn a_refused_run_takes_no_link(rt: HostRuntime) -> Result<(), Fail> {
    for (line, settings, head, status, said) in REFUSED {
        let case = Case {
            line,
            settings,
            ..SERVE
        };
        let want = Want {
            status,
            said,
            output: "",
        };
        expect_refused(&rt, &case, head, &want)?;
    }
    Ok(())
}
