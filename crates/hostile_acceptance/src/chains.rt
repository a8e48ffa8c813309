//! A chain of the pool that is full of files which the index doesn't list.

use disk_trait::{Disk, DiskRoom, FileId, MemoryDisk, PoolId};
use pool_name::FirstByteNamer;
use std::test::Fail;
use store_talks::talks::{DONE, HOST, MADE, NOW, Row, Says, expect_files, expect_talk};

/// The digest of what begins with the byte 61.
const DIGEST: [u8; 16] = *b"a\0\0\0\0\0\0\0\0\0\0\0\0\0\0\0";

/// The digest of what begins with the byte 62.
const OTHER: [u8; 16] = *b"b\0\0\0\0\0\0\0\0\0\0\0\0\0\0\0";

const ROOM: DiskRoom = DiskRoom {
    changes: 200_000,
    bytes: 200_000,
};

const PUT: &str = "PUT /dumps/1-0/entry?path=x&kind=file";

/// A content of the full chain is taken once a sweep took away what nothing lists; one of another digest is taken before, and kept.
const ASKED: &[Row] = &[
    HOST,
    Row(
        "POST /hosts/pc1/dumps?kind=full",
        "",
        Says::Json(MADE, "{\"dump\":\"1-0\"}"),
    ),
    Row("PUT /dumps/1-0/entry?path=y&kind=file", "by", DONE),
    Row(
        PUT,
        "ax",
        Says::Json("422 Unprocessable Entity", "{\"refused\":\"ChainFull\"}"),
    ),
    Row("POST /night/sweep", "", DONE),
    Row(PUT, "ax", DONE),
    Row(
        "POST /dumps/1-0/commit",
        "",
        Says::Json(MADE, "{\"number\":0}"),
    ),
    Row(
        "GET /hosts/pc1/backups/0/file?path=x",
        "",
        Says::Bytes(b"ax"),
    ),
    Row(
        "GET /hosts/pc1/backups/0/file?path=y",
        "",
        Says::Bytes(b"by"),
    ),
];

/// What is in the pool then.
const LEFT: &[(FileId, Option<&[u8]>)] = &[
    (
        FileId::Pool(PoolId {
            digest: DIGEST,
            extension: 0,
        }),
        Some(b"ax"),
    ),
    (
        FileId::Pool(PoolId {
            digest: DIGEST,
            extension: 1,
        }),
        None,
    ),
    (
        FileId::Pool(PoolId {
            digest: DIGEST,
            extension: u16::MAX,
        }),
        None,
    ),
    (
        FileId::Pool(PoolId {
            digest: OTHER,
            extension: 0,
        }),
        Some(b"by"),
    ),
];

#[test]
fn a_full_chain_is_swept_and_takes_the_content(rt: HostRuntime) -> Result<(), Fail> {
    let alloc = rt.alloc();
    let mut disk = MemoryDisk::new(alloc, Vec::new(alloc), ROOM)?;
    for extension in 0..=u16::MAX {
        let id = PoolId {
            digest: DIGEST,
            extension,
        };
        disk.write(FileId::Pool(id), b"ax")?;
    }
    let mut disk = expect_talk(&rt, disk, FirstByteNamer, NOW, ASKED)?;
    expect_files(alloc, &mut disk, LEFT)
}
