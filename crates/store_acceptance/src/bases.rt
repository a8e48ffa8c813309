//! Restores with a base: what leads from one backup to another, frame by frame.

use std::test::Fail;
use store_talks::scripts::Step::{Ask, Commit, Open};
use store_talks::scripts::{Step, expect_steps};
use store_talks::talks::{ABSENT, DONE, HOST, MADE, Row, Says, blank_disk};

/// Backup 0 with the directories `a`, `a/x`, `c` and `k` and the file `b`; backup 1 without `a`, with another `b`, and with a link in the
/// place of `k`.
const MAKE: &[Step] = &[
    Ask(HOST),
    Open(0, "full"),
    Ask(Row("PUT /dumps/1-0/entry?path=a&kind=dir&mode=77", "", DONE)),
    Ask(Row("PUT /dumps/1-0/entry?path=a/x&kind=dir&mode=77", "", DONE)),
    Ask(Row("PUT /dumps/1-0/entry?path=b&kind=file&mode=77", "old", DONE)),
    Ask(Row("PUT /dumps/1-0/entry?path=c&kind=dir&mode=77", "", DONE)),
    Ask(Row("PUT /dumps/1-0/entry?path=k&kind=dir&mode=77", "", DONE)),
    Commit(0),
    Open(1, "incr"),
    Ask(Row("DELETE /dumps/1-1/entry?path=a", "", DONE)),
    Ask(Row("DELETE /dumps/1-1/entry?path=k", "", DONE)),
    Ask(Row("PUT /dumps/1-1/entry?path=b&kind=file&mode=77", "new", DONE)),
    Ask(Row("PUT /dumps/1-1/entry?path=k&kind=link&mode=77", "c", DONE)),
    Commit(1),
];

const NO_BACKUP: Says = Says::Json(ABSENT, "{\"refused\":\"NoBackup\"}");

/// The value of the key is out of form.
const BAD_VALUE: Says = Says::Json("400 Bad Request", "{\"refused\":\"BadQuery.Value\"}");

/// The backup is looked for before its base.
const REFUSE: &[Step] = &[
    Ask(Row("POST /hosts/pc1/backups/1/restores?base=2", "", NO_BACKUP)),
    Ask(Row("POST /hosts/pc1/backups/2/restores?base=0", "", NO_BACKUP)),
    Ask(Row(
        "POST /hosts/pc1/backups/1/restores?base=4294967295",
        "",
        NO_BACKUP,
    )),
    Ask(Row(
        "POST /hosts/pc2/backups/1/restores?base=0",
        "",
        Says::Json(ABSENT, "{\"refused\":\"NoHost\"}"),
    )),
    Ask(Row(
        "POST /hosts/pc1/backups/1/restores?base=4294967296",
        "",
        BAD_VALUE,
    )),
    Ask(Row("POST /hosts/pc1/backups/1/restores?base=00", "", BAD_VALUE)),
    Ask(Row("POST /hosts/pc1/backups/1/restores?base=", "", BAD_VALUE)),
];

/// A restore of 1 since 0, of 0 since 1, of 1 since itself, and of 1; behind the end the end comes again.
const GIVE: &[Step] = &[
    Ask(Row(
        "POST /hosts/pc1/backups/1/restores?base=0",
        "",
        Says::Json(MADE, "{\"restore\":\"3-0\"}"),
    )),
    Ask(Row("GET /restores/3-0/next", "", Says::Bytes(b"X\0\x01a"))),
    Ask(Row("GET /restores/3-0/next", "", Says::Bytes(b"X\0\x01k"))),
    Ask(Row(
        "GET /restores/3-0/next",
        "",
        Says::Bytes(
            b"E\x01\0\x01b\0\0\0?\0\0\0\0\0\0\0\0\0\0\0\0\0\0\0\0\0\0\0\0\0\0\0\0\0\0\0\0\0\0\0\x03",
        ),
    )),
    Ask(Row("GET /restores/3-0/next", "", Says::Bytes(b"D\0\0\0\x03new"))),
    Ask(Row(
        "GET /restores/3-0/next",
        "",
        Says::Bytes(b"E\x03\0\x01k\0\0\0?\0\0\0\0\0\0\0\0\0\0\0\0\0\0\0\0\0\0\0\0\0\x01c"),
    )),
    Ask(Row("GET /restores/3-0/next", "", Says::Bytes(b"Z\0\0\0\x02"))),
    Ask(Row("GET /restores/3-0/next", "", Says::Bytes(b"Z\0\0\0\x02"))),
    Ask(Row(
        "POST /hosts/pc1/backups/0/restores?base=1",
        "",
        Says::Json(MADE, "{\"restore\":\"3-1\"}"),
    )),
    Ask(Row("GET /restores/3-1/next", "", Says::Bytes(b"X\0\x01k"))),
    Ask(Row(
        "GET /restores/3-1/next",
        "",
        Says::Bytes(b"E\x02\0\x01a\0\0\0?\0\0\0\0\0\0\0\0\0\0\0\0\0\0\0\0\0\0\0\0"),
    )),
    Ask(Row(
        "GET /restores/3-1/next",
        "",
        Says::Bytes(b"E\x02\0\x03a/x\0\0\0?\0\0\0\0\0\0\0\0\0\0\0\0\0\0\0\0\0\0\0\0"),
    )),
    Ask(Row(
        "GET /restores/3-1/next",
        "",
        Says::Bytes(
            b"E\x01\0\x01b\0\0\0?\0\0\0\0\0\0\0\0\0\0\0\0\0\0\0\0\0\0\0\0\0\0\0\0\0\0\0\0\0\0\0\x03",
        ),
    )),
    Ask(Row("GET /restores/3-1/next", "", Says::Bytes(b"D\0\0\0\x03old"))),
    Ask(Row(
        "GET /restores/3-1/next",
        "",
        Says::Bytes(b"E\x02\0\x01k\0\0\0?\0\0\0\0\0\0\0\0\0\0\0\0\0\0\0\0\0\0\0\0"),
    )),
    Ask(Row("GET /restores/3-1/next", "", Says::Bytes(b"Z\0\0\0\x04"))),
    Ask(Row(
        "POST /hosts/pc1/backups/1/restores?base=%31",
        "",
        Says::Json(MADE, "{\"restore\":\"3-2\"}"),
    )),
    Ask(Row("GET /restores/3-2/next", "", Says::Bytes(b"Z\0\0\0\0"))),
    Ask(Row(
        "POST /hosts/pc1/backups/1/restores",
        "",
        Says::Json(MADE, "{\"restore\":\"3-3\"}"),
    )),
    Ask(Row(
        "GET /restores/3-3/next",
        "",
        Says::Bytes(
            b"E\x01\0\x01b\0\0\0?\0\0\0\0\0\0\0\0\0\0\0\0\0\0\0\0\0\0\0\0\0\0\0\0\0\0\0\0\0\0\0\x03",
        ),
    )),
    Ask(Row("GET /restores/3-3/next", "", Says::Bytes(b"D\0\0\0\x03new"))),
    Ask(Row(
        "GET /restores/3-3/next",
        "",
        Says::Bytes(b"E\x02\0\x01c\0\0\0?\0\0\0\0\0\0\0\0\0\0\0\0\0\0\0\0\0\0\0\0"),
    )),
    Ask(Row(
        "GET /restores/3-3/next",
        "",
        Says::Bytes(b"E\x03\0\x01k\0\0\0?\0\0\0\0\0\0\0\0\0\0\0\0\0\0\0\0\0\0\0\0\0\x01c"),
    )),
    Ask(Row("GET /restores/3-3/next", "", Says::Bytes(b"Z\0\0\0\x03"))),
];

/// First the topmost paths that the base has and the backup lost, or has as another kind, one of the two a directory; then the entries
/// that are new or changed. The base may be the newer one, or the backup itself.
#[test]
fn a_restore_with_a_base_gives_what_changed(rt: HostRuntime) -> Result<(), Fail> {
    let alloc = rt.alloc();
    let blank = blank_disk(alloc, &[])?;
    let disk = expect_steps(&rt, blank, MAKE)?;
    let disk = expect_steps(&rt, disk, REFUSE)?;
    let _disk = expect_steps(&rt, disk, GIVE)?;
    Ok(())
}
