//! Files that were altered behind the store's back: whatever calls for one is refused with its name, and nothing is written.

use disk_trait::{Disk, FileId, PoolId};
use pool_name::Md5Namer;
use std::test::Fail;
use store_talks::scripts::Step::{Ask, Dump};
use store_talks::scripts::{Put, Step, expect_steps};
use store_talks::talks::{
    DONE, HOST, MADE, Machine, NOW, OK, Row, Says, blank_disk, expect_files, expect_talk,
};

/// Two backups, the newer of which is stored whole.
const TWO: &[Step] = &[
    Ask(HOST),
    Dump(0, "full", &[Put("a.txt", "hello")]),
    Dump(1, "incr", &[Put("b", "other")]),
];

/// The content `hello` in the pool.
const HELLO: FileId = FileId::Pool(PoolId {
    digest: *b"\x5d\x41\x40\x2a\xbc\x4b\x2a\x76\xb9\x71\x9d\x91\x10\x17\xc5\x92",
    extension: 0,
});

const TABLE: FileId = FileId::Table(0, 1);

/// The answer to what calls for the newer backup's table.
const NO_TABLE: Says = Says::Json(
    "502 Bad Gateway",
    "{\"file\":\"table-0-1\",\"refused\":\"Damaged\"}",
);

/// The answer to what calls for the content.
const NO_CONTENT: Says = Says::Json(
    "502 Bad Gateway",
    "{\"file\":\"pool-5d41402abc4b2a76b9719d911017c592-0\",\"refused\":\"Damaged\"}",
);

/// Each event that reads a table, the newest one's being no table: a dump that can't be committed stays open.
const OVER_A_TABLE: &[Row] = &[
    Row("GET /hosts/pc1/backups/1/list", "", NO_TABLE),
    Row("GET /hosts/pc1/backups/1/entry?path=b", "", NO_TABLE),
    Row("GET /hosts/pc1/backups/1/file?path=b", "", NO_TABLE),
    Row(
        "GET /hosts/pc1/backups/0/file?path=a.txt",
        "",
        Says::Bytes(b"hello"),
    ),
    Row("POST /hosts/pc1/backups/1/restores", "", NO_TABLE),
    Row("POST /hosts/pc1/dumps?kind=incr", "", NO_TABLE),
    Row(
        "POST /hosts/pc1/dumps?kind=full",
        "",
        Says::Json(MADE, "{\"dump\":\"2-0\"}"),
    ),
    Row("PUT /dumps/2-0/entry?path=c&kind=dir", "", DONE),
    Row("POST /dumps/2-0/commit", "", NO_TABLE),
    Row("POST /dumps/2-0/commit", "", NO_TABLE),
    Row("DELETE /hosts/pc1/backups/1", "", NO_TABLE),
    Row("DELETE /dumps/2-0", "", DONE),
    Row(
        "GET /stats",
        "",
        Says::Json(
            OK,
            "{\"backups\":2,\"bytes\":10,\"dumps\":0,\"files\":2,\"hosts\":1,\"marked\":0,\"restores\":0}",
        ),
    ),
];

/// The entry of `a.txt`, of five bytes.
const ENTRY: &[u8] =
    b"E\x01\x00\x05a.txt\x00\x00\x01\xa4\x00\x00\x00\x00\x00\x00\x00\x00\x00\x00\x00\x00\x00\x00\x00\x00\x00\x00\x00\x00\x00\x00\x00\x00\x00\x00\x00\x00\x00\x00\x00\x05";

/// Each event that gives a content's bytes: a restore gives no last piece of other bytes, whenever it is asked.
const OVER_A_CONTENT: &[Row] = &[
    Row("GET /hosts/pc1/backups/1/file?path=a.txt", "", NO_CONTENT),
    Row("GET /hosts/pc1/backups/0/file?path=a.txt", "", NO_CONTENT),
    Row(
        "POST /hosts/pc1/backups/0/restores",
        "",
        Says::Json(MADE, "{\"restore\":\"2-0\"}"),
    ),
    Row("GET /restores/2-0/next", "", Says::Bytes(ENTRY)),
    Row("GET /restores/2-0/next", "", NO_CONTENT),
    Row("GET /restores/2-0/next", "", NO_CONTENT),
    Row(
        "GET /hosts/pc1/backups/1/file?path=b",
        "",
        Says::Bytes(b"other"),
    ),
];

/// Fails where these requests aren't answered so over a store whose file has these bytes, or where the file has others afterwards.
fn expect_over(rt: &impl Machine, file: FileId, bytes: &[u8], rows: &[Row]) -> Result<(), Fail> {
    let alloc = rt.alloc();
    let mut disk = expect_steps(rt, blank_disk(alloc, &[])?, TWO)?;
    disk.write(file, bytes)?;
    let mut disk = expect_talk(rt, disk, Md5Namer, NOW, rows)?;
    expect_files(alloc, &mut disk, &[(file, Some(bytes))])
}

#[test]
fn what_calls_for_a_damaged_table_is_refused(rt: HostRuntime) -> Result<(), Fail> {
    expect_over(&rt, TABLE, b"RTB2", OVER_A_TABLE)
}

#[test]
fn what_calls_for_a_damaged_content_is_refused(rt: HostRuntime) -> Result<(), Fail> {
    expect_over(&rt, HELLO, b"hellO", OVER_A_CONTENT)
}
