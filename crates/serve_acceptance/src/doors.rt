//! Connections that wait for each other, and doors that fail.

use crate::runs::{
    Case, Coming, Machine, NEVER, PIPE, QUIET, SERVE, SERVED, TURNS, Want, expect_end,
    expect_run_over, expect_served, new_disk, run_at, worker_of,
};
use crate::texts::{ASK_FILE, COMMIT, COMMITTED, FILE, MAKER, NO_HOST, READER};
use caller_doors::FlagGate;
use disk_trait::MemoryDisk;
use std::sync::atomic::AtomicBool;
use std::test::Fail;
use stream_traits::OpenGate;

const ASK_HOSTS: &str = "GET /hosts HTTP/1.1\r\nHost: b\r\n\r\n";

const HOSTS: &str =
    "HTTP/1.1 200 OK\r\nContent-Type: application/json\r\nContent-Length: 17\r\n\r\n{\"hosts\":[\"pc1\"]}";

/// A link that makes a backup, and then asks for the hosts.
const DUMPER: Coming<'static> = Coming {
    input: &[COMMIT, ASK_HOSTS],
    ..QUIET
};

/// Puts a file into that backup's dump.
const LATE_PUT: &str =
    "PUT /dumps/1-0/entry?path=b.txt&kind=file HTTP/1.1\r\nHost: b\r\nContent-Length: 1\r\n\r\nx";

const NO_SESSION: &str =
    "HTTP/1.1 404 Not Found\r\nContent-Type: application/json\r\nContent-Length: 23\r\n\r\n{\"refused\":\"NoSession\"}";

/// A link that does so, and then asks for the backup's file.
const LATE: Coming<'static> = Coming {
    input: &[LATE_PUT, ASK_FILE],
    ..QUIET
};

/// The late put is held until the other connection's commit is answered, and all of that one until the put's head has come.
#[test]
fn two_connections_wait_for_each_other(rt: HostRuntime) -> Result<(), Fail> {
    let alloc = rt.alloc();
    let (came, committed) = (AtomicBool::new(false), AtomicBool::new(false));
    let first = FlagGate::new(&came, 0, &committed, 0, TURNS);
    let second = FlagGate::new(&committed, 4, &came, 0, TURNS);
    let workers = Vec::from_array(
        alloc,
        [
            worker_of(alloc, &[LATE], NEVER, first)?,
            worker_of(alloc, &[DUMPER], NEVER, second)?,
        ],
    )?;
    let done = run_at(&rt, &SERVE, new_disk(alloc, NEVER)?, workers)?;
    expect_end(alloc, &done, &SERVED)?;
    expect_served(alloc, &done, 0, &[&[NO_SESSION, FILE]])?;
    expect_served(alloc, &done, 1, &[&[COMMITTED, HOSTS]])?;
    for worker in done.workers.as_slice() {
        assert!(rt; worker.gate.passed());
    }
    Ok(())
}

/// A link that adds a second host.
const ADDER: Coming<'static> = Coming {
    input: &["PUT /hosts/pc2 HTTP/1.1\r\nHost: b\r\n\r\n"],
    ..QUIET
};

const ADDED: &str =
    "HTTP/1.1 201 Created\r\nContent-Type: application/json\r\nContent-Length: 14\r\n\r\n{\"host\":\"pc2\"}";

const ASK_LIST: &str = "GET /hosts/pc2/backups HTTP/1.1\r\nHost: b\r\n\r\n";

const LIST: &str =
    "HTTP/1.1 200 OK\r\nContent-Type: application/json\r\nContent-Length: 35\r\n\r\n{\"backups\":[],\"dump\":null,\"next\":0}";

/// A link that asks for its backups.
const LISTER: Coming<'static> = Coming {
    input: &[ASK_LIST],
    ..QUIET
};

/// The number of the first door's call that fails, what was sent over the links that it gave before, and what the next run tells
/// of the file.
const DOOR_FAULTS: [(u64, &[&[&str]], &str); 3] = [
    (0, &[], NO_HOST),
    (1, &[&[COMMITTED]], FILE),
    (2, &[&[COMMITTED], &[FILE]], FILE),
];

/// Fails where a run whose first door fails at this call doesn't end so, or the links of the other one aren't all served. Gives
/// the disk back.
fn expect_door_fault(
    rt: &impl Machine,
    fails: u64,
    outputs: &[&[&str]],
) -> Result<MemoryDisk, Fail> {
    let alloc = rt.alloc();
    let workers = Vec::from_array(
        alloc,
        [
            worker_of(alloc, &[MAKER, READER], fails, OpenGate)?,
            worker_of(alloc, &[ADDER, LISTER], NEVER, OpenGate)?,
        ],
    )?;
    let done = run_at(rt, &SERVE, new_disk(alloc, NEVER)?, workers)?;
    let failed = Want {
        status: 3,
        said: "door failed",
        output: "",
    };
    expect_end(alloc, &done, &failed)?;
    expect_served(alloc, &done, 0, outputs)?;
    expect_served(alloc, &done, 1, &[&[ADDED], &[LIST]])?;
    Ok(done.disk)
}

/// What was committed before is there in the next run.
#[test]
fn a_door_that_fails_is_left_alone(rt: HostRuntime) -> Result<(), Fail> {
    for (fails, outputs, file) in DOOR_FAULTS {
        let disk = expect_door_fault(&rt, fails, outputs)?;
        let asked = Case {
            input: ASK_FILE,
            ..PIPE
        };
        let told = Want {
            output: file,
            ..SERVED
        };
        let disk = expect_run_over(&rt, &asked, disk, &told)?;
        let asked = Case {
            input: ASK_LIST,
            ..PIPE
        };
        let told = Want {
            output: LIST,
            ..SERVED
        };
        let _ = expect_run_over(&rt, &asked, disk, &told)?;
    }
    Ok(())
}
