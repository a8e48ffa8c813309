//! Trees that change from backup to backup, and the tables that are kept of them.

use disk_trait::FileId;
use std::test::Fail;
use store_talks::scripts::Step::{Ask, Commit, Dump, File, Open, Read};
use store_talks::scripts::{Put, Step, expect_steps};
use store_talks::talks::{
    ABSENT, CONFLICT, DONE, HOST, Row, Says, WEEKLY, blank_disk, expect_files,
};

/// A directory that isn't there, is there with three files, isn't there, and is there without files.
const DIRECTORY: &[Step] = &[
    Ask(HOST),
    Ask(WEEKLY),
    Dump(0, "full", &[Put("k", "one")]),
    Open(1, "incr"),
    Ask(Row("PUT /dumps/1-1/entry?path=d&kind=dir", "", DONE)),
    Ask(Row("PUT /dumps/1-1/entry?path=d/x&kind=file", "x", DONE)),
    Ask(Row("PUT /dumps/1-1/entry?path=d/y&kind=file", "y", DONE)),
    Ask(Row("PUT /dumps/1-1/entry?path=d/z&kind=file", "z", DONE)),
    Commit(1),
    Open(2, "incr"),
    Ask(Row("DELETE /dumps/1-2/entry?path=d", "", DONE)),
    Commit(2),
    Open(3, "incr"),
    Ask(Row("PUT /dumps/1-3/entry?path=d&kind=dir", "", DONE)),
    Commit(3),
];

/// What the four backups show of it.
const SHOWN: &[Step] = &[
    Ask(Row(
        "GET /hosts/pc1/backups/0/list?path=d",
        "",
        Says::Json(ABSENT, "{\"refused\":\"NoPath\"}"),
    )),
    Read(
        "/hosts/pc1/backups/1/list?path=d",
        "{\"entries\":[{\"gid\":0,\"group\":0,\"kind\":\"file\",\"mode\":\"0644\",\"mtime\":0,\"name\":\"x\",\"nanos\":0,\"size\":1,\"uid\":0},{\"gid\":0,\"group\":0,\"kind\":\"file\",\"mode\":\"0644\",\"mtime\":0,\"name\":\"y\",\"nanos\":0,\"size\":1,\"uid\":0},{\"gid\":0,\"group\":0,\"kind\":\"file\",\"mode\":\"0644\",\"mtime\":0,\"name\":\"z\",\"nanos\":0,\"size\":1,\"uid\":0}]}",
    ),
    File(1, "d/y", b"y"),
    Ask(Row(
        "GET /hosts/pc1/backups/2/list?path=d",
        "",
        Says::Json(ABSENT, "{\"refused\":\"NoPath\"}"),
    )),
    Ask(Row(
        "GET /hosts/pc1/backups/2/file?path=d/y",
        "",
        Says::Json(ABSENT, "{\"refused\":\"NoPath\"}"),
    )),
    Read("/hosts/pc1/backups/3/list?path=d", "{\"entries\":[]}"),
    Ask(Row(
        "GET /hosts/pc1/backups/3/list?path=k",
        "",
        Says::Json(CONFLICT, "{\"refused\":\"NotADirectory\"}"),
    )),
    Ask(Row(
        "GET /hosts/pc1/backups/3/file?path=d",
        "",
        Says::Json(CONFLICT, "{\"refused\":\"NotAFile\"}"),
    )),
    File(0, "k", b"one"),
    File(3, "k", b"one"),
];

/// A table of `d` with its three files. Seals and contents are MD5 (RFC 1321) as Python's `hashlib` computes it, here and below.
const WITH_FILES: &[u8] =
    b"RTB2\x00\x00\x00\x04\x02\x00\x01d\x00\x00\x01\xed\x00\x00\x00\x00\x00\x00\x00\x00\x00\x00\x00\x00\x00\x00\x00\x00\x00\x00\x00\x00\x01\x00\x03d/x\x00\x00\x01\xa4\x00\x00\x00\x00\x00\x00\x00\x00\x00\x00\x00\x00\x00\x00\x00\x00\x00\x00\x00\x00\x00\x00\x00\x00\x00\x00\x00\x00\x00\x00\x00\x01\x9d\xd4\xe4a&\x8c\x804\xf5\xc8VN\x15\\g\xa6\x00\x00\x01\x00\x03d/y\x00\x00\x01\xa4\x00\x00\x00\x00\x00\x00\x00\x00\x00\x00\x00\x00\x00\x00\x00\x00\x00\x00\x00\x00\x00\x00\x00\x00\x00\x00\x00\x00\x00\x00\x00\x01AR\x90v\x95\x94F\x0e.HY\"\x90O4]\x00\x00\x01\x00\x03d/z\x00\x00\x01\xa4\x00\x00\x00\x00\x00\x00\x00\x00\x00\x00\x00\x00\x00\x00\x00\x00\x00\x00\x00\x00\x00\x00\x00\x00\x00\x00\x00\x00\x00\x00\x00\x01\xfb\xad\xe9\xe3j?6\xd3\xd6v\xc1\xb8\x08E\x1d\xd7\x00\x005\x07h\xf9\xf3\x9e\xe9\x89\xbe\xe2a^o\x8b\xc6<";

/// A table with one deletion mark, at `d`.
const MARK: &[u8] =
    b"RTB2\x00\x00\x00\x01\x00\x00\x01d\xa8\x06\xe7D\xd4{ \xe8\xf8\x1a\xa0\xc7\x1d\xf7\xc6\x03";

/// The whole tree of `d` without files, and of `k`.
const NEWEST: &[u8] =
    b"RTB2\x00\x00\x00\x02\x02\x00\x01d\x00\x00\x01\xed\x00\x00\x00\x00\x00\x00\x00\x00\x00\x00\x00\x00\x00\x00\x00\x00\x00\x00\x00\x00\x01\x00\x01k\x00\x00\x01\xa4\x00\x00\x00\x00\x00\x00\x00\x00\x00\x00\x00\x00\x00\x00\x00\x00\x00\x00\x00\x00\x00\x00\x00\x00\x00\x00\x00\x00\x00\x00\x00\x03\xf9|])\x94\x1b\xfb\x1b/\xda\xb0\x87I\x06\xab\x82\x00\x00@\x8a2\xfa\xa5\xf7\xe0\xa6\x09>\x0b\x95\xc3Hl7";

const TABLES: [(FileId, Option<&[u8]>); 4] = [
    (FileId::Table(0, 1), Some(WITH_FILES)),
    (FileId::Table(0, 2), Some(MARK)),
    (FileId::Table(0, 3), Some(NEWEST)),
    (FileId::Table(0, 4), None),
];

#[test]
fn a_directory_goes_and_comes_back(rt: HostRuntime) -> Result<(), Fail> {
    let alloc = rt.alloc();
    let blank = blank_disk(alloc, &[])?;
    let disk = expect_steps(&rt, blank, DIRECTORY)?;
    let mut disk = expect_steps(&rt, disk, SHOWN)?;
    expect_files(alloc, &mut disk, &TABLES)
}

/// A file, a directory and a link at one path, each in its backup.
const KINDS: &[Step] = &[
    Ask(HOST),
    Ask(WEEKLY),
    Open(0, "full"),
    Ask(Row(
        "PUT /dumps/1-0/entry?path=q/r&kind=file",
        "a",
        Says::Json(CONFLICT, "{\"refused\":\"NoParent\"}"),
    )),
    Ask(Row("PUT /dumps/1-0/entry?path=p&kind=file", "a", DONE)),
    Commit(0),
    Open(1, "incr"),
    Ask(Row("PUT /dumps/1-1/entry?path=p&kind=dir", "", DONE)),
    Commit(1),
    Open(2, "incr"),
    Ask(Row(
        "PUT /dumps/1-2/entry?path=p&kind=link",
        "../t",
        Says::Json(CONFLICT, "{\"refused\":\"IsDirectory\"}"),
    )),
    Ask(Row("DELETE /dumps/1-2/entry?path=p", "", DONE)),
    Ask(Row("PUT /dumps/1-2/entry?path=p&kind=link", "../t", DONE)),
    Commit(2),
];

const EACH_KIND: &[Step] = &[
    Read(
        "/hosts/pc1/backups/0/entry?path=p",
        "{\"gid\":0,\"group\":0,\"kind\":\"file\",\"mode\":\"0644\",\"mtime\":0,\"nanos\":0,\"size\":1,\"uid\":0}",
    ),
    Read(
        "/hosts/pc1/backups/1/entry?path=p",
        "{\"gid\":0,\"kind\":\"dir\",\"mode\":\"0755\",\"mtime\":0,\"nanos\":0,\"uid\":0}",
    ),
    Read(
        "/hosts/pc1/backups/2/entry?path=p",
        "{\"gid\":0,\"kind\":\"link\",\"mode\":\"0777\",\"mtime\":0,\"nanos\":0,\"target\":\"../t\",\"uid\":0}",
    ),
    File(0, "p", b"a"),
    Read("/hosts/pc1/backups/1/list?path=p", "{\"entries\":[]}"),
];

/// The table of backup 1, which isn't filled: the directory.
const ONE_DIR: &[u8] =
    b"RTB2\x00\x00\x00\x01\x02\x00\x01p\x00\x00\x01\xed\x00\x00\x00\x00\x00\x00\x00\x00\x00\x00\x00\x00\x00\x00\x00\x00\x00\x00\x00\x00\xaf,\xdb\xe1 \x11I\x83b>T\xe1\x0f\xfdr\x86";

/// The table of the newest, the whole tree: the link.
const ONE_LINK: &[u8] =
    b"RTB2\x00\x00\x00\x01\x03\x00\x01p\x00\x00\x01\xff\x00\x00\x00\x00\x00\x00\x00\x00\x00\x00\x00\x00\x00\x00\x00\x00\x00\x00\x00\x00\x00\x04../t\x14\x87\x99a\xbb\x13~7;=\xb6\xb1\x0d[\xaba";

const KIND_TABLES: [(FileId, Option<&[u8]>); 2] = [
    (FileId::Table(0, 1), Some(ONE_DIR)),
    (FileId::Table(0, 2), Some(ONE_LINK)),
];

#[test]
fn a_path_has_another_kind_in_each_backup(rt: HostRuntime) -> Result<(), Fail> {
    let alloc = rt.alloc();
    let blank = blank_disk(alloc, &[])?;
    let disk = expect_steps(&rt, blank, KINDS)?;
    let mut disk = expect_steps(&rt, disk, EACH_KIND)?;
    expect_files(alloc, &mut disk, &KIND_TABLES)
}
