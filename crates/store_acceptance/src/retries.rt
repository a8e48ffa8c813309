//! Requests that are tried again, which their tokens tell.

use crate::stops::{FAULT, HALTED, LIST, NONE, ONE, REOPEN, gate_sync};
use pool_name::Md5Namer;
use std::test::Fail;
use store_talks::talks::{
    ABSENT, CHOICES, DONE, HOST, MADE, NOW, OK, Row, Says, blank_disk, expect, expect_talk,
    image_of, place_answered, talk,
};

const OPEN: &str = "POST /hosts/pc1/dumps?kind=full&token=00112233445566778899aabbccddeeff";

const OPENED: Row = Row(OPEN, "", Says::Json(MADE, "{\"dump\":\"1-0\"}"));

const PUT: Row = Row("PUT /dumps/1-0/entry?path=a.txt&kind=file", "hello", DONE);

const COMMIT: &str = "POST /dumps/1-0/commit";

const NUMBERED: Row = Row(COMMIT, "", Says::Json(MADE, "{\"number\":0}"));

const ALREADY: Row = Row(OPEN, "", Says::Json(OK, "{\"number\":0}"));

const NO_SESSION: Says = Says::Json(ABSENT, "{\"refused\":\"NoSession\"}");

/// What comes before the commit; the opening is asked twice, and opens one dump.
const BEFORE: &[Row] = &[HOST, OPENED, OPENED, PUT];

const COMMITTED: &[Row] = &[HOST, OPENED, OPENED, PUT, NUMBERED];

const FAILED: &[Row] = &[HOST, OPENED, OPENED, PUT, Row(COMMIT, "", FAULT)];

/// Without the backup the commit is refused, and the opening opens a dump; with it both answer its number.
const AGAIN: [&[Row]; 2] = [
    &[
        Row(LIST, "", NONE),
        Row(COMMIT, "", NO_SESSION),
        Row(OPEN, "", Says::Json(MADE, "{\"dump\":\"2-0\"}")),
    ],
    &[Row(LIST, "", ONE), NUMBERED, ALREADY],
];

/// The same without another run: the fault halts the store, which is opened again.
const REOPENED: [&[Row]; 2] = [
    &[
        HOST,
        OPENED,
        OPENED,
        PUT,
        Row(COMMIT, "", FAULT),
        HALTED,
        REOPEN,
        Row(LIST, "", NONE),
        Row(COMMIT, "", NO_SESSION),
        Row(OPEN, "", Says::Json(MADE, "{\"dump\":\"2-0\"}")),
    ],
    &[
        HOST,
        OPENED,
        OPENED,
        PUT,
        Row(COMMIT, "", FAULT),
        HALTED,
        REOPEN,
        Row(LIST, "", ONE),
        NUMBERED,
        ALREADY,
    ],
];

/// Each stop in a commit leaves an office that answers the commit and the opening as one of the two listings says.
#[test]
fn a_stopped_commit_is_asked_again(rt: HostRuntime) -> Result<(), Fail> {
    let alloc = rt.alloc();
    let start = expect_talk(&rt, blank_disk(alloc, &[])?, Md5Namer, NOW, BEFORE)?.moment();
    let disk = expect_talk(&rt, blank_disk(alloc, &[])?, Md5Namer, NOW, COMMITTED)?;
    let end = disk.moment();
    for moment in start..=end {
        for choice in CHOICES {
            let image = image_of(alloc, &disk, moment, choice)?;
            let (place, _) = place_answered(&rt, image, Md5Namer, &AGAIN)?;
            expect(start < moment || place == 0, "there before the commit")?;
            expect(moment < end || place == 1, "not durable")?;
        }
    }
    Ok(())
}

/// The sync behind the write of Gate fails, so that no number is answered: it is, if the commit is found, when it is asked again.
#[test]
fn a_commit_whose_answer_was_lost_is_asked_again(rt: HostRuntime) -> Result<(), Fail> {
    let alloc = rt.alloc();
    let call = gate_sync(&rt, FAILED)?;
    let lost = talk(&rt, blank_disk(alloc, &[call])?, Md5Namer, NOW, FAILED)?.disk;
    let (place, _) = place_answered(&rt, lost, Md5Namer, &AGAIN)?;
    let blank = blank_disk(alloc, &[call])?;
    let (again, _) = place_answered(&rt, blank, Md5Namer, &REOPENED)?;
    expect(place == again, "a reopening finds another listing")
}

/// Puts and removals of one token are made once in a dump, and once again in another dump.
const ONCE: &[Row] = &[
    HOST,
    OPENED,
    Row(
        "PUT /dumps/1-0/entry?path=a.txt&kind=file&token=0123456789abcdef0123456789abcdef",
        "hello",
        DONE,
    ),
    Row(
        "PUT /dumps/1-0/entry?path=a.txt&kind=file&token=0123456789abcdef0123456789abcdef",
        "other",
        DONE,
    ),
    Row(
        "DELETE /dumps/1-0/entry?path=a.txt&token=0123456789abcdef0123456789abcdef",
        "",
        DONE,
    ),
    Row("PUT /dumps/1-0/entry?path=b.txt&kind=file", "b", DONE),
    Row(
        "DELETE /dumps/1-0/entry?path=b.txt&token=fedcba9876543210fedcba9876543210",
        "",
        DONE,
    ),
    Row("PUT /dumps/1-0/entry?path=b.txt&kind=file", "bb", DONE),
    Row(
        "DELETE /dumps/1-0/entry?path=b.txt&token=fedcba9876543210fedcba9876543210",
        "",
        DONE,
    ),
    NUMBERED,
    Row(
        "POST /hosts/pc1/dumps?kind=full",
        "",
        Says::Json(MADE, "{\"dump\":\"1-1\"}"),
    ),
    Row(
        "PUT /dumps/1-1/entry?path=a.txt&kind=file&token=0123456789abcdef0123456789abcdef",
        "other",
        DONE,
    ),
    Row(
        "POST /dumps/1-1/commit",
        "",
        Says::Json(MADE, "{\"number\":1}"),
    ),
    Row(
        "GET /hosts/pc1/backups/0/file?path=a.txt",
        "",
        Says::Bytes(b"hello"),
    ),
    Row(
        "GET /hosts/pc1/backups/0/file?path=b.txt",
        "",
        Says::Bytes(b"bb"),
    ),
    Row(
        "GET /hosts/pc1/backups/1/file?path=a.txt",
        "",
        Says::Bytes(b"other"),
    ),
    Row("POST /dumps/1-1/commit", "", NO_SESSION),
];

#[test]
fn a_put_that_is_tried_again_is_made_once(rt: HostRuntime) -> Result<(), Fail> {
    let blank = blank_disk(rt.alloc(), &[])?;
    let _ = expect_talk(&rt, blank, Md5Namer, NOW, ONCE)?;
    Ok(())
}

const SECOND: &str = "POST /hosts/pc1/dumps?kind=full&token=00112233445566778899aabbccddee00";

/// Two backups, of which the first is deleted.
const DELETED: &[Row] = &[
    HOST,
    OPENED,
    Row(
        SECOND,
        "",
        Says::Json("409 Conflict", "{\"refused\":\"SessionOpen\"}"),
    ),
    NUMBERED,
    Row(SECOND, "", Says::Json(MADE, "{\"dump\":\"1-1\"}")),
    Row(
        "POST /dumps/1-1/commit",
        "",
        Says::Json(MADE, "{\"number\":1}"),
    ),
    Row("DELETE /hosts/pc1/backups/0", "", DONE),
    ALREADY,
    NUMBERED,
];

/// What another run finds: the receipts stand in the host's file.
const FOUND: &[Row] = &[
    Row(
        "GET /hosts/pc1/backups/0/list",
        "",
        Says::Json(ABSENT, "{\"refused\":\"NoBackup\"}"),
    ),
    NUMBERED,
    ALREADY,
    Row(SECOND, "", Says::Json(OK, "{\"number\":1}")),
    Row(
        "POST /dumps/1-1/commit",
        "",
        Says::Json(MADE, "{\"number\":1}"),
    ),
    Row("POST /dumps/1-2/commit", "", NO_SESSION),
    Row(
        "POST /hosts/pc1/dumps?kind=incr&token=00112233445566778899aabbccddee01",
        "",
        Says::Json(MADE, "{\"dump\":\"2-0\"}"),
    ),
];

#[test]
fn receipts_outlive_the_backup_and_the_run(rt: HostRuntime) -> Result<(), Fail> {
    let blank = blank_disk(rt.alloc(), &[])?;
    let disk = expect_talk(&rt, blank, Md5Namer, NOW, DELETED)?;
    let _ = expect_talk(&rt, disk, Md5Namer, NOW, FOUND)?;
    Ok(())
}
