//! Files that go in and come out.

use crate::ends::{Case, QUIET, Want, expect_file, expect_run, expect_run_over};
use disk_trait::{FileId, PoolId};
use std::test::Fail;

/// Four requests that make `a.txt` the one file of backup 0 of the host `pc1`.
pub const COMMIT: &str = "PUT /hosts/pc1 HTTP/1.1\r\nHost: b\r\n\r\n\
    POST /hosts/pc1/dumps?kind=full HTTP/1.1\r\nHost: b\r\n\r\n\
    PUT /dumps/1-0/entry?path=a.txt&kind=file HTTP/1.1\r\nHost: b\r\nContent-Length: 5\r\n\r\nhello\
    POST /dumps/1-0/commit HTTP/1.1\r\nHost: b\r\n\r\n";

/// The responses to them.
pub const COMMITTED: &str =
    "HTTP/1.1 201 Created\r\nContent-Type: application/json\r\nContent-Length: 14\r\n\r\n{\"host\":\"pc1\"}\
    HTTP/1.1 201 Created\r\nContent-Type: application/json\r\nContent-Length: 14\r\n\r\n{\"dump\":\"1-0\"}\
    HTTP/1.1 200 OK\r\nContent-Type: application/json\r\nContent-Length: 2\r\n\r\n{}\
    HTTP/1.1 201 Created\r\nContent-Type: application/json\r\nContent-Length: 12\r\n\r\n{\"number\":0}";

/// Asks for the file, as the last request.
pub const READ: &str =
    "GET /hosts/pc1/backups/0/file?path=a.txt HTTP/1.1\r\nHost: b\r\nConnection: close\r\n\r\n";

/// The response to that.
pub const CONTENT: &str =
    "HTTP/1.1 200 OK\r\nContent-Type: application/octet-stream\r\nContent-Length: 5\r\nConnection: close\r\n\r\nhello";

/// A second dump of the host, in which a file's bytes are cut short.
const CUT_PUT: &str = "POST /hosts/pc1/dumps?kind=full HTTP/1.1\r\nHost: b\r\n\r\n\
    PUT /dumps/1-1/entry?path=b.txt&kind=file HTTP/1.1\r\nHost: b\r\nContent-Length: 10\r\n\r\nhello, ";

/// The response to its opening.
const SECOND_DUMP: &str =
    "HTTP/1.1 201 Created\r\nContent-Type: application/json\r\nContent-Length: 14\r\n\r\n{\"dump\":\"1-1\"}";

/// Opens an incremental dump.
const INCR: &str = "POST /hosts/pc1/dumps?kind=incr HTTP/1.1\r\nHost: b\r\n\r\n";

/// The response to it in the second epoch.
const NEXT_DUMP: &str =
    "HTTP/1.1 201 Created\r\nContent-Type: application/json\r\nContent-Length: 14\r\n\r\n{\"dump\":\"2-0\"}";

/// An incremental dump with a directory, a link and a removal.
const CHANGE: &str = "POST /hosts/pc1/dumps?kind=incr HTTP/1.1\r\nHost: b\r\n\r\n\
    PUT /dumps/1-1/entry?path=d&kind=dir&mode=750 HTTP/1.1\r\nHost: b\r\n\r\n\
    PUT /dumps/1-1/entry?path=d/l&kind=link HTTP/1.1\r\nHost: b\r\nContent-Length: 8\r\n\r\n../a.txt\
    DELETE /dumps/1-1/entry?path=a.txt HTTP/1.1\r\nHost: b\r\n\r\n\
    POST /dumps/1-1/commit HTTP/1.1\r\nHost: b\r\n\r\n";

const CHANGED: &str =
    "HTTP/1.1 201 Created\r\nContent-Type: application/json\r\nContent-Length: 14\r\n\r\n{\"dump\":\"1-1\"}\
    HTTP/1.1 200 OK\r\nContent-Type: application/json\r\nContent-Length: 2\r\n\r\n{}\
    HTTP/1.1 200 OK\r\nContent-Type: application/json\r\nContent-Length: 2\r\n\r\n{}\
    HTTP/1.1 200 OK\r\nContent-Type: application/json\r\nContent-Length: 2\r\n\r\n{}\
    HTTP/1.1 201 Created\r\nContent-Type: application/json\r\nContent-Length: 12\r\n\r\n{\"number\":1}";

/// Asks what it made.
const ASK: &str = "GET /hosts/pc1/backups/1/list HTTP/1.1\r\nHost: b\r\n\r\n\
    GET /hosts/pc1/backups/1/entry?path=d/l HTTP/1.1\r\nHost: b\r\n\r\n\
    GET /hosts/pc1/backups/1/file?path=a.txt HTTP/1.1\r\nHost: b\r\n\r\n";

const TOLD: &str =
    "HTTP/1.1 200 OK\r\nContent-Type: application/json\r\nContent-Length: 89\r\n\r\n{\"entries\":[{\"gid\":0,\"kind\":\"dir\",\"mode\":\"0750\",\"mtime\":0,\"name\":\"d\",\"nanos\":0,\"uid\":0}]}\
    HTTP/1.1 200 OK\r\nContent-Type: application/json\r\nContent-Length: 85\r\n\r\n{\"gid\":0,\"kind\":\"link\",\"mode\":\"0777\",\"mtime\":0,\"nanos\":0,\"target\":\"../a.txt\",\"uid\":0}\
    HTTP/1.1 404 Not Found\r\nContent-Type: application/json\r\nContent-Length: 20\r\n\r\n{\"refused\":\"NoPath\"}";

/// A deletion, two cleanings and a sweep, as the last requests.
const NIGHT: &str = "DELETE /hosts/pc1/backups/0 HTTP/1.1\r\nHost: b\r\n\r\n\
    POST /night/clean?bucket=5 HTTP/1.1\r\nHost: b\r\n\r\n\
    POST /night/clean?bucket=5 HTTP/1.1\r\nHost: b\r\n\r\n\
    POST /night/sweep HTTP/1.1\r\nHost: b\r\n\r\n\
    GET /stats HTTP/1.1\r\nHost: b\r\nConnection: close\r\n\r\n";

const CLEANED: &str =
    "HTTP/1.1 200 OK\r\nContent-Type: application/json\r\nContent-Length: 2\r\n\r\n{}\
    HTTP/1.1 200 OK\r\nContent-Type: application/json\r\nContent-Length: 37\r\n\r\n{\"marked\":1,\"removed\":0,\"unmarked\":0}\
    HTTP/1.1 200 OK\r\nContent-Type: application/json\r\nContent-Length: 37\r\n\r\n{\"marked\":0,\"removed\":1,\"unmarked\":0}\
    HTTP/1.1 200 OK\r\nContent-Type: application/json\r\nContent-Length: 2\r\n\r\n{}\
    HTTP/1.1 200 OK\r\nContent-Type: application/json\r\nContent-Length: 77\r\nConnection: close\r\n\r\n{\"backups\":0,\"bytes\":0,\"dumps\":0,\"files\":0,\"hosts\":1,\"marked\":0,\"restores\":0}";

/// The table of backup 0, with its seal: `a.txt` is a file of mode 0644 and of the content whose MD5 (RFC 1321) is named.
const TABLE: &[u8] =
    b"RTB2\x00\x00\x00\x01\x01\x00\x05a.txt\x00\x00\x01\xa4\x00\x00\x00\x00\x00\x00\x00\x00\x00\x00\x00\x00\x00\x00\x00\x00\x00\x00\x00\x00\x00\x00\x00\x00\x00\x00\x00\x00\x00\x00\x00\x05\x5d\x41\x40\x2a\xbc\x4b\x2a\x76\xb9\x71\x9d\x91\x10\x17\xc5\x92\x00\x00\x62\x90\x2b\xf6\x8a\xab\xc3\x54\x52\xb3\x1c\x14\xf5\x36\xd2\xed";

/// The content `hello` in the pool.
const HELLO: FileId = FileId::Pool(PoolId {
    digest: *b"\x5d\x41\x40\x2a\xbc\x4b\x2a\x76\xb9\x71\x9d\x91\x10\x17\xc5\x92",
    extension: 0,
});

#[test]
fn a_committed_file_is_given_back(rt: HostRuntime) -> Result<(), Fail> {
    let alloc = rt.alloc();
    let case = Case {
        input: &[COMMIT, READ],
        ..QUIET
    };
    let want = Want {
        status: 0,
        said: "",
        output: &[COMMITTED, CONTENT],
    };
    let mut disk = expect_run(&rt, &case, &want)?;
    expect_file(alloc, &mut disk, HELLO, Some(b"hello"))?;
    expect_file(alloc, &mut disk, FileId::Table(0, 0), Some(TABLE))
}

/// The second run opens the store that the first one left: its sessions are of the next epoch.
#[test]
fn a_second_run_reads_what_the_first_committed(rt: HostRuntime) -> Result<(), Fail> {
    let first = Case {
        input: &[COMMIT],
        ..QUIET
    };
    let committed = Want {
        status: 0,
        said: "",
        output: &[COMMITTED],
    };
    let disk = expect_run(&rt, &first, &committed)?;
    let second = Case {
        input: &[INCR, READ],
        ..QUIET
    };
    let read = Want {
        status: 0,
        said: "",
        output: &[NEXT_DUMP, CONTENT],
    };
    let _ = expect_run_over(&rt, &second, disk, &read)?;
    Ok(())
}

/// What clients ask of a host with one backup: an incremental dump that puts a directory and a link and removes a file, its
/// commit, and look-ups in both backups.
#[test]
fn an_incremental_changes_what_it_says_alone(rt: HostRuntime) -> Result<(), Fail> {
    let case = Case {
        input: &[COMMIT, CHANGE, ASK, READ],
        ..QUIET
    };
    let want = Want {
        status: 0,
        said: "",
        output: &[COMMITTED, CHANGED, TOLD, CONTENT],
    };
    let _ = expect_run(&rt, &case, &want)?;
    Ok(())
}

/// A backup goes, and its content with the second cleaning and the sweep.
#[test]
fn what_nothing_holds_leaves_the_pool(rt: HostRuntime) -> Result<(), Fail> {
    let case = Case {
        input: &[COMMIT, NIGHT],
        ..QUIET
    };
    let want = Want {
        status: 0,
        said: "",
        output: &[COMMITTED, CLEANED],
    };
    let mut disk = expect_run(&rt, &case, &want)?;
    expect_file(rt.alloc(), &mut disk, HELLO, None)
}

/// The same file on a second host, and an empty one.
const AGAIN: &str = "PUT /hosts/pc2 HTTP/1.1\r\nHost: b\r\n\r\n\
    POST /hosts/pc2/dumps?kind=full HTTP/1.1\r\nHost: b\r\n\r\n\
    PUT /dumps/1-1/entry?path=b&kind=file HTTP/1.1\r\nHost: b\r\nContent-Length: 5\r\n\r\nhello\
    PUT /dumps/1-1/entry?path=e&kind=file HTTP/1.1\r\nHost: b\r\nContent-Length: 0\r\n\r\n\
    POST /dumps/1-1/commit HTTP/1.1\r\nHost: b\r\n\r\n\
    GET /hosts/pc2/backups/0/file?path=e HTTP/1.1\r\nHost: b\r\n\r\n\
    GET /stats HTTP/1.1\r\nHost: b\r\nConnection: close\r\n\r\n";

const KEPT_ONCE: &str =
    "HTTP/1.1 201 Created\r\nContent-Type: application/json\r\nContent-Length: 14\r\n\r\n{\"host\":\"pc2\"}\
    HTTP/1.1 201 Created\r\nContent-Type: application/json\r\nContent-Length: 14\r\n\r\n{\"dump\":\"1-1\"}\
    HTTP/1.1 200 OK\r\nContent-Type: application/json\r\nContent-Length: 2\r\n\r\n{}\
    HTTP/1.1 200 OK\r\nContent-Type: application/json\r\nContent-Length: 2\r\n\r\n{}\
    HTTP/1.1 201 Created\r\nContent-Type: application/json\r\nContent-Length: 12\r\n\r\n{\"number\":0}\
    HTTP/1.1 200 OK\r\nContent-Type: application/octet-stream\r\nContent-Length: 0\r\n\r\n\
    HTTP/1.1 200 OK\r\nContent-Type: application/json\r\nContent-Length: 77\r\nConnection: close\r\n\r\n{\"backups\":2,\"bytes\":5,\"dumps\":0,\"files\":1,\"hosts\":2,\"marked\":0,\"restores\":0}";

#[test]
fn a_content_of_two_hosts_is_kept_once(rt: HostRuntime) -> Result<(), Fail> {
    let case = Case {
        input: &[COMMIT, AGAIN],
        ..QUIET
    };
    let want = Want {
        status: 0,
        said: "",
        output: &[COMMITTED, KEPT_ONCE],
    };
    let _ = expect_run(&rt, &case, &want)?;
    Ok(())
}

#[test]
fn truncated_put_is_not_stored(rt: HostRuntime) -> Result<(), Fail> {
    let alloc = rt.alloc();
    let case = Case {
        input: &[COMMIT, CUT_PUT],
        ..QUIET
    };
    let want = Want {
        status: 1,
        said: "input ended inside a request",
        output: &[COMMITTED, SECOND_DUMP],
    };
    let mut disk = expect_run(&rt, &case, &want)?;
    expect_file(alloc, &mut disk, FileId::Table(0, 0), Some(TABLE))?;
    expect_file(alloc, &mut disk, FileId::Table(0, 1), None)
}

#[test]
fn empty_input_ends_quietly(rt: HostRuntime) -> Result<(), Fail> {
    let want = Want {
        status: 0,
        said: "",
        output: &[],
    };
    let _ = expect_run(&rt, &QUIET, &want)?;
    Ok(())
}
