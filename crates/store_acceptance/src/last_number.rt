//! A host that has given all but the last of its numbers.

use attr_records::HostName;
use backup_index::{HostIndex, LineList, write_host_index};
use backup_rules::Rules;
use disk_trait::{Bytes, Disk, FileId};
use pool_name::Md5Namer;
use receipts::ReceiptList;
use std::alloc::Global;
use std::test::Fail;
use store_talks::talks::{DONE, HOST, MADE, NOW, OK, Row, Says, blank_disk, expect_talk};

/// The index of the host `pc1`, without backups, whose next number is the last one.
fn spent_index(alloc: Global) -> Result<Bytes, Fail> {
    let name = HostName::read(alloc, b"pc1")?;
    let rules = Rules::defaults(alloc)?;
    let receipts = ReceiptList::new(alloc);
    let lines = LineList::new(alloc);
    match HostIndex::new(0, name, rules, 0, 0, 4_294_967_295, receipts, lines) {
        Ok(index) => Ok(write_host_index(alloc, &index.parts())?),
        Err(_) => Err(Fail::new("no index")),
    }
}

/// The last number is given, and then none; a read finds the backup.
const LAST: &[Row] = &[
    Row(
        "POST /hosts/pc1/dumps?kind=full",
        "",
        Says::Json(MADE, "{\"dump\":\"2-0\"}"),
    ),
    Row("PUT /dumps/2-0/entry?path=a&kind=file", "last", DONE),
    Row(
        "POST /dumps/2-0/commit",
        "",
        Says::Json(MADE, "{\"number\":4294967295}"),
    ),
    Row("POST /hosts/pc1/dumps?kind=full", "", SPENT),
    Row("POST /hosts/pc1/dumps?kind=incr", "", SPENT),
    Row(
        "GET /hosts/pc1/backups/4294967295/file?path=a",
        "",
        Says::Bytes(b"last"),
    ),
];

const SPENT: Says = Says::Json("422 Unprocessable Entity", "{\"refused\":\"NumbersSpent\"}");

/// The same holds after another opening.
const SPENT_AGAIN: &[Row] = &[
    Row("POST /hosts/pc1/dumps?kind=full", "", SPENT),
    Row(
        "GET /hosts/pc1/backups",
        "",
        Says::Json(
            OK,
            "{\"backups\":[{\"end\":1700000000,\"filled\":true,\"keep\":false,\"kind\":\"full\",\"number\":4294967295,\"start\":1700000000}],\"dump\":null,\"next\":4294967296}",
        ),
    ),
    Row(
        "GET /hosts/pc1/backups/4294967295/file?path=a",
        "",
        Says::Bytes(b"last"),
    ),
];

#[test]
fn no_number_comes_behind_the_last(rt: HostRuntime) -> Result<(), Fail> {
    let alloc = rt.alloc();
    let mut disk = expect_talk(&rt, blank_disk(alloc, &[])?, Md5Namer, NOW, &[HOST])?;
    disk.write(FileId::Host(0), spent_index(alloc)?.as_slice())?;
    let disk = expect_talk(&rt, disk, Md5Namer, NOW, LAST)?;
    let _ = expect_talk(&rt, disk, Md5Namer, NOW, SPENT_AGAIN)?;
    Ok(())
}
