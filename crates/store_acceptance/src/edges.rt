//! Dumps at the edge of what is usual: an empty file alone, one content at two paths, two puts at one path, a second dump of a host.

use disk_trait::FileId;
use std::test::Fail;
use store_talks::scripts::Step::{Ask, Clean, Commit, Dump, File, Open, Read};
use store_talks::scripts::{Put, Step, expect_steps};
use store_talks::talks::{CONFLICT, DONE, HOST, Row, Says, blank_disk, expect_files};

/// A dump whose one file is empty: the pool has no content of it.
const EMPTY_FILE: &[Step] = &[
    Ask(HOST),
    Dump(0, "full", &[Put("e", "")]),
    Read(
        "/stats",
        "{\"backups\":1,\"bytes\":0,\"dumps\":0,\"files\":0,\"hosts\":1,\"marked\":0,\"restores\":0}",
    ),
    File(0, "e", b""),
];

/// Two puts at one path of one dump: the later one stands, and the first one's content is no content of the pool.
const PUT_TWICE: &[Step] = &[
    Ask(HOST),
    Open(0, "full"),
    Ask(Row("PUT /dumps/1-0/entry?path=a&kind=file", "hello", DONE)),
    Ask(Row("PUT /dumps/1-0/entry?path=a&kind=file", "other", DONE)),
    Commit(0),
    File(0, "a", b"other"),
    Read(
        "/stats",
        "{\"backups\":1,\"bytes\":5,\"dumps\":0,\"files\":1,\"hosts\":1,\"marked\":0,\"restores\":0}",
    ),
];

/// A host has one open dump at a time.
const OPEN_TWICE: &[Step] = &[
    Ask(HOST),
    Open(0, "full"),
    Ask(Row(
        "POST /hosts/pc1/dumps?kind=full",
        "",
        Says::Json(CONFLICT, "{\"refused\":\"SessionOpen\"}"),
    )),
    Ask(Row("DELETE /dumps/1-0", "", DONE)),
    Open(1, "full"),
];

#[test]
fn dumps_at_the_edge_are_as_they_are_said(rt: HostRuntime) -> Result<(), Fail> {
    let alloc = rt.alloc();
    for rows in [EMPTY_FILE, PUT_TWICE] {
        let _ = expect_steps(&rt, blank_disk(alloc, &[])?, rows)?;
    }
    Ok(())
}

/// One content at two paths.
const AT_TWO_PATHS: &[Step] = &[
    Ask(HOST),
    Dump(0, "full", &[Put("a", "hello"), Put("b", "hello")]),
];

/// The host's counts: two of `hello`. The seal is MD5 (RFC 1321) as Python's `hashlib` computes it.
const HELLO_TWICE: &[u8] =
    b"RCT1\x00\x00\x00\x00\x00\x00\x00\x00\x00\x00\x00\x01]A@*\xbcK*v\xb9q\x9d\x91\x10\x17\xc5\x92\x00\x00\x00\x00\x00\x00\x00\x00\x00\x02\x04@\x08\xd2i)K\xe3]A\x19\x1b\xbbN\xe4\x82";

/// The next run reads the counts: the content stays while the backup is there, and leaves with the second cleaning behind it.
const STILL_HELD: &[Step] = &[
    Clean(5, 0, 0, 0),
    Clean(5, 0, 0, 0),
    File(0, "b", b"hello"),
    Ask(Row("DELETE /hosts/pc1/backups/0", "", DONE)),
    Clean(5, 1, 0, 0),
    Clean(5, 0, 1, 0),
];

#[test]
fn a_count_of_two_is_read_from_counts(rt: HostRuntime) -> Result<(), Fail> {
    let alloc = rt.alloc();
    let mut disk = expect_steps(&rt, blank_disk(alloc, &[])?, AT_TWO_PATHS)?;
    expect_files(alloc, &mut disk, &[(FileId::Counts(0), Some(HELLO_TWICE))])?;
    let _ = expect_steps(&rt, disk, STILL_HELD)?;
    Ok(())
}

#[test]
fn a_host_has_one_open_dump(rt: HostRuntime) -> Result<(), Fail> {
    let _ = expect_steps(&rt, blank_disk(rt.alloc(), &[])?, OPEN_TWICE)?;
    Ok(())
}
