//! The command `demo`: what it says, and how it ends.

use crate::ends::{Case, Machine, QUIET, Want, expect_run, expect_run_over};
use demo_work::demo;
use disk_trait::DiskRoom;
use pool_name::Md5Namer;
use std::test::Fail;
use tree_office::TreeOffice;

/// The command over an empty link, with the room that it needs.
const DEMO: Case<'static> = Case {
    line: "backup_server demo --store store 1",
    disk_room: DiskRoom {
        changes: 100_000,
        bytes: 100_000_000,
    },
    ..QUIET
};

/// What is said of the number 1, as tests/demo.py has it.
const LINES: &str =
    "demo 1\nhosts 4\nbackups 56 filled 32\npool files 819 bytes 116510 marked 63\ncheck ccf5a1439b17613e47c09731846c3f55\n";

/// The numbers of the calls of the disk and of the link that fail, the room for the link's output, and how the run ends.
struct Row {
    disk_fails: u64,
    link_fails: u64,
    link_room: usize,
    want: Want<'static>,
}

/// Nothing fails; and a commit does, so that nothing is said.
const DISKS: &[Row] = &[
    Row {
        disk_fails: 999_999,
        link_fails: 99,
        link_room: 999,
        want: Want {
            status: 0,
            said: "",
            output: &[LINES],
        },
    },
    Row {
        disk_fails: 2_000,
        link_fails: 99,
        link_room: 999,
        want: Want {
            status: 4,
            said: "disk failed",
            output: &[],
        },
    },
];

/// The lines are written (call 0 of the link), but not sent (1); or they are cut off.
const LINKS: &[Row] = &[
    Row {
        disk_fails: 999_999,
        link_fails: 1,
        link_room: 999,
        want: Want {
            status: 3,
            said: "link failed",
            output: &[LINES],
        },
    },
    Row {
        disk_fails: 999_999,
        link_fails: 99,
        link_room: 10,
        want: Want {
            status: 3,
            said: "link failed",
            output: &["demo 1\nhos"],
        },
    },
];

/// Fails where a demo doesn't end as it was to.
fn expect_rows(rt: &impl Machine, rows: &[Row]) -> Result<(), Fail> {
    for row in rows {
        let case = Case {
            disk_fails: row.disk_fails,
            link_fails: row.link_fails,
            link_room: row.link_room,
            ..DEMO
        };
        let _ = expect_run(rt, &case, &row.want)?;
    }
    Ok(())
}

#[test]
fn a_demo_says_what_came_of_it(rt: HostRuntime) -> Result<(), Fail> {
    expect_rows(&rt, DISKS)
}

#[test]
fn a_demo_says_that_the_link_failed(rt: HostRuntime) -> Result<(), Fail> {
    expect_rows(&rt, LINKS)
}

/// The office in memory, in which each backup is a whole tree, comes to the same lines.
#[test]
fn a_demo_of_the_office_says_the_same(rt: HostRuntime) -> Result<(), Fail> {
    let alloc = rt.alloc();
    let mut office = TreeOffice::new(alloc, Md5Namer);
    let end = demo(alloc, &mut office, 1);
    let Some(text) = end.text() else {
        return Err(Fail::new(format_args!("{end:?}")));
    };
    if text.as_slice() == LINES.as_bytes() {
        return Ok(());
    }
    Err(Fail::new("the office says something else"))
}

/// A store with a host, to which a demo does nothing.
#[test]
fn a_demo_leaves_a_store_with_a_host_alone(rt: HostRuntime) -> Result<(), Fail> {
    let first = Case {
        input: &["PUT /hosts/pc1 HTTP/1.1\r\nHost: b\r\n\r\n"],
        ..QUIET
    };
    let added = Want {
        status: 0,
        said: "",
        output: &[
            "HTTP/1.1 201 Created\r\nContent-Type: application/json\r\nContent-Length: 14\r\n\r\n{\"host\":\"pc1\"}",
        ],
    };
    let disk = expect_run(&rt, &first, &added)?;
    let refused = Want {
        status: 1,
        said: "store not empty",
        output: &[],
    };
    let _ = expect_run_over(&rt, &DEMO, disk, &refused)?;
    Ok(())
}
