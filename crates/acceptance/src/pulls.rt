//! The command `pull`: what it asks another server, what it brings, and how it ends.

use crate::ends::{
    Case, Machine, QUIET, Ran, Want, disk_of, expect_end, expect_run, expect_run_over, run_over,
    words_of,
};
use crate::files::{COMMIT, COMMITTED, CONTENT, READ};
use admin_cli::run;
use command_line::Parsed;
use disk_trait::MemoryDisk;
use folder_trait::{MemoryFolder, NoProgress};
use pool_name::Md5Namer;
use std::alloc::AllocError;
use std::test::Fail;
use stream_traits::{FixedClock, MemoryLink, Moment};

/// Asks for the backups of the host.
const LIST: &str = "GET /hosts/pc1/backups HTTP/1.1\r\nHost: b\r\n\r\n";

/// There is the one that was committed at 1,700,000,000.
const LISTED: &str =
    "HTTP/1.1 200 OK\r\nContent-Type: application/json\r\nContent-Length: 124\r\n\r\n{\"backups\":[{\"end\":1700000000,\"filled\":true,\"keep\":false,\"kind\":\"full\",\"number\":0,\"start\":1700000000}],\"dump\":null,\"next\":1}";

/// The host is there, and has no backup.
const NONE_LISTED: &str =
    "HTTP/1.1 200 OK\r\nContent-Type: application/json\r\nContent-Length: 35\r\n\r\n{\"backups\":[],\"dump\":null,\"next\":0}";

/// Asks for that backup: its restore is opened, read up to its end, and closed.
const BRING: &str =
    "POST /hosts/pc1/backups/0/restores HTTP/1.1\r\nHost: b\r\nContent-Length: 0\r\n\r\n\
    GET /restores/2-0/next HTTP/1.1\r\nHost: b\r\n\r\n\
    GET /restores/2-0/next HTTP/1.1\r\nHost: b\r\n\r\n\
    GET /restores/2-0/next HTTP/1.1\r\nHost: b\r\n\r\n\
    DELETE /restores/2-0 HTTP/1.1\r\nHost: b\r\nContent-Length: 0\r\n\r\n";

/// Opens that restore.
const OPEN: &str =
    "POST /hosts/pc1/backups/0/restores HTTP/1.1\r\nHost: b\r\nContent-Length: 0\r\n\r\n";

/// Reads two of its frames: the file, and its bytes.
const READ_TWICE: &str = "GET /restores/2-0/next HTTP/1.1\r\nHost: b\r\n\r\n\
    GET /restores/2-0/next HTTP/1.1\r\nHost: b\r\n\r\n";

/// Reads the next one.
const READ_NEXT: &str = "GET /restores/2-0/next HTTP/1.1\r\nHost: b\r\n\r\n";

/// No such backup is there any more.
const NO_BACKUP: &str =
    "HTTP/1.1 404 Not Found\r\nContent-Type: application/json\r\nContent-Length: 22\r\n\r\n{\"refused\":\"NoBackup\"}";

/// The answers of another server, whose host `pc1` has the file `a.txt` in its one backup.
fn answers_to(rt: &impl Machine, requests: &[&str]) -> Result<Vec<u8>, Fail> {
    let first = Case {
        input: &[COMMIT],
        ..QUIET
    };
    let committed = Want {
        status: 0,
        said: "",
        output: &[COMMITTED],
    };
    let disk = expect_run(rt, &first, &committed)?;
    let asked = Case {
        input: requests,
        ..QUIET
    };
    let done = run_over(rt, &asked, disk)?;
    Ok(Vec::from_slice(rt.alloc(), done.link.output())?)
}

/// Pulls over this disk an hour later, while the other server says this.
fn pull_over(rt: &impl Machine, disk: MemoryDisk, input: Vec<u8>) -> Result<Ran, AllocError> {
    let alloc = rt.alloc();
    let line = "backup_server pull --host pc1 --from elsewhere --store store";
    let words = words_of(alloc, line)?;
    let fails = Vec::from_array(alloc, [u64::MAX])?;
    let link = MemoryLink::new(alloc, input, 65_536, fails)?;
    let mut clock = FixedClock::new(Moment::new(1_700_003_600).unwrap_or(Moment::first()));
    let mut folder = MemoryFolder::new(alloc, Vec::new(alloc));
    Ok(run(
        rt,
        alloc,
        &Parsed::read(alloc, words.as_slice()),
        b"",
        disk,
        Md5Namer,
        &mut clock,
        link,
        Vec::new(alloc),
        &mut folder,
        &mut NoProgress,
    ))
}

/// Pulls over this disk, fails where it doesn't end so, and gives the disk back.
fn expect_pull(
    rt: &impl Machine,
    disk: MemoryDisk,
    input: Vec<u8>,
    want: &Want<'_>,
) -> Result<MemoryDisk, Fail> {
    let done = pull_over(rt, disk, input)?;
    expect_end(rt.alloc(), &done, want)?;
    Ok(done.disk)
}

/// The backup has the number and the times that it has there. A second pull has nothing to bring.
#[test]
fn a_pull_brings_what_is_new(rt: HostRuntime) -> Result<(), Fail> {
    let empty = disk_of(rt.alloc(), &QUIET)?;
    let pulled = Want {
        status: 0,
        said: "pulled pc1 1",
        output: &[LIST, BRING],
    };
    let disk = expect_pull(&rt, empty, answers_to(&rt, &[LIST, BRING])?, &pulled)?;
    let home = Case {
        input: &[LIST, READ],
        ..QUIET
    };
    let there = Want {
        status: 0,
        said: "",
        output: &[LISTED, CONTENT],
    };
    let disk = expect_run_over(&rt, &home, disk, &there)?;
    let nothing = Want {
        status: 0,
        said: "pulled pc1 0",
        output: &[LIST],
    };
    let _ = expect_pull(&rt, disk, answers_to(&rt, &[LIST])?, &nothing)?;
    Ok(())
}

#[test]
fn a_refusal_of_the_other_server_ends_a_pull(rt: HostRuntime) -> Result<(), Fail> {
    let mut input = answers_to(&rt, &[LIST])?;
    input.extend_from_slice(NO_BACKUP.as_bytes())?;
    let refused = Want {
        status: 1,
        said: "peer refused 404",
        output: &[LIST, OPEN],
    };
    let empty = disk_of(rt.alloc(), &QUIET)?;
    let _ = expect_pull(&rt, empty, input, &refused)?;
    Ok(())
}

/// Another server that says no more behind the first two frames is foreign; the dump that was open at home is aborted, and the next pull
/// brings all.
#[test]
fn a_pull_that_is_cut_leaves_no_dump(rt: HostRuntime) -> Result<(), Fail> {
    let empty = disk_of(rt.alloc(), &QUIET)?;
    let foreign = Want {
        status: 1,
        said: "peer foreign",
        output: &[LIST, OPEN, READ_TWICE, READ_NEXT],
    };
    let cut = answers_to(&rt, &[LIST, OPEN, READ_TWICE])?;
    let disk = expect_pull(&rt, empty, cut, &foreign)?;
    let home = Case {
        input: &[LIST],
        ..QUIET
    };
    let none = Want {
        status: 0,
        said: "",
        output: &[NONE_LISTED],
    };
    let disk = expect_run_over(&rt, &home, disk, &none)?;
    let pulled = Want {
        status: 0,
        said: "pulled pc1 1",
        output: &[LIST, BRING],
    };
    let _ = expect_pull(&rt, disk, answers_to(&rt, &[LIST, BRING])?, &pulled)?;
    Ok(())
}
