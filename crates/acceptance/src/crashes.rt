//! Stops of the machine, and files that were altered.

use crate::ends::{Case, Machine, QUIET, Want, disk_of, expect_run_over, run_over};
use crate::files::{COMMIT, COMMITTED};
use disk_trait::{Choice, Disk, FileId, MemoryDisk, PoolId};
use std::test::Fail;

/// Asks for the backups, as the last request.
const LIST: &str = "GET /hosts/pc1/backups HTTP/1.1\r\nHost: b\r\nConnection: close\r\n\r\n";

/// There is no such host; there is no backup; there is the one.
const LISTS: [&str; 3] = [
    "HTTP/1.1 404 Not Found\r\nContent-Type: application/json\r\nContent-Length: 20\r\nConnection: close\r\n\r\n{\"refused\":\"NoHost\"}",
    "HTTP/1.1 200 OK\r\nContent-Type: application/json\r\nContent-Length: 35\r\nConnection: close\r\n\r\n{\"backups\":[],\"dump\":null,\"next\":0}",
    "HTTP/1.1 200 OK\r\nContent-Type: application/json\r\nContent-Length: 124\r\nConnection: close\r\n\r\n{\"backups\":[{\"end\":1700000000,\"filled\":true,\"keep\":false,\"kind\":\"full\",\"number\":0,\"start\":1700000000}],\"dump\":null,\"next\":1}",
];

/// The disk after the first commit.
fn committed(rt: &impl Machine) -> Result<MemoryDisk, Fail> {
    let case = Case {
        input: &[COMMIT],
        ..QUIET
    };
    let want = Want {
        status: 0,
        said: "",
        output: &[COMMITTED],
    };
    expect_run_over(rt, &case, disk_of(rt.alloc(), &case)?, &want)
}

/// Fails if a run on this disk doesn't end with 0, or gives none of the three answers.
fn expect_one_of_three(rt: &impl Machine, disk: MemoryDisk) -> Result<(), Fail> {
    let case = Case {
        input: &[LIST],
        ..QUIET
    };
    let done = run_over(rt, &case, disk)?;
    for text in LISTS {
        if done.link.output() == text.as_bytes() && done.note.status() == 0 {
            return Ok(());
        }
    }
    Err(Fail::new(format_args!("{:?}", done.note)))
}

/// Whatever a stop at a moment of the first run leaves, the next one finds no host, a host without backups, or the backup.
#[test]
fn each_stop_leaves_what_was_before_or_after(rt: HostRuntime) -> Result<(), Fail> {
    let disk = committed(&rt)?;
    for moment in 0..disk.moment() {
        for choice in [Choice::Written, Choice::Absent] {
            let image = disk.image(rt.alloc(), moment, choice)?;
            expect_one_of_three(&rt, image)?;
        }
    }
    Ok(())
}

/// The content `hello` in the pool.
const HELLO: FileId = FileId::Pool(PoolId {
    digest: *b"\x5d\x41\x40\x2a\xbc\x4b\x2a\x76\xb9\x71\x9d\x91\x10\x17\xc5\x92",
    extension: 0,
});

/// The response to a read of a content that isn't the one that was kept.
const DAMAGED: &str =
    "HTTP/1.1 502 Bad Gateway\r\nContent-Type: application/json\r\nContent-Length: 70\r\nConnection: close\r\n\r\n{\"file\":\"pool-5d41402abc4b2a76b9719d911017c592-0\",\"refused\":\"Damaged\"}";

#[test]
fn an_altered_content_is_not_given(rt: HostRuntime) -> Result<(), Fail> {
    let mut disk = committed(&rt)?;
    disk.write(HELLO, b"hallo")?;
    let case = Case {
        input: &[crate::files::READ],
        ..QUIET
    };
    let want = Want {
        status: 0,
        said: "",
        output: &[DAMAGED],
    };
    let _ = expect_run_over(&rt, &case, disk, &want)?;
    Ok(())
}
