use crate::parts::{blank_parts, expect_ready, expect_rows};
use office_talks::{Row, expect};
use std::test::Fail;

/// What is asked, and the answer. No backup is there.
const ROWS: &[Row] = &[
    Row("POST /hosts/a/contacts?good=1", "", NO_HOST),
    Row("PUT /hosts/a", "", "{\"host\":\"a\"}"),
    Row("PUT /hosts/a", "", "{\"refused\":\"HostExists\"}"),
    Row("PUT /hosts/b-1", "", "{\"host\":\"b-1\"}"),
    Row(
        "POST /hosts/a/contacts?good=1",
        "",
        "{\"bad\":0,\"good\":1}",
    ),
    Row(
        "POST /hosts/a/contacts?good=1",
        "",
        "{\"bad\":0,\"good\":2}",
    ),
    Row(
        "POST /hosts/a/contacts?good=0",
        "",
        "{\"bad\":1,\"good\":2}",
    ),
    Row("PUT /hosts/a/rules?BlackoutBadPingLimit=2", "", "{}"),
    Row(
        "POST /hosts/a/contacts?good=0",
        "",
        "{\"bad\":2,\"good\":0}",
    ),
    Row(
        "POST /hosts/b-1/contacts?good=1",
        "",
        "{\"bad\":0,\"good\":1}",
    ),
    Row("PUT /hosts/b/rules?BlackoutBadPingLimit=2", "", NO_HOST),
    Row(
        "POST /hosts/a/backups/0/keep?on=1",
        "",
        "{\"refused\":\"NoBackup\"}",
    ),
    Row(
        "GET /hosts/a/due",
        "",
        "{\"blackout\":false,\"due\":\"full\"}",
    ),
    Row(
        "GET /hosts/b-1/backups",
        "",
        "{\"backups\":[],\"dump\":null,\"next\":0}",
    ),
    Row("GET /hosts/b/backups", "", NO_HOST),
    Row("GET /hosts", "", "{\"hosts\":[\"a\",\"b-1\"]}"),
    Row("GET /stats", "", STATS),
];

const NO_HOST: &str = "{\"refused\":\"NoHost\"}";

const STATS: &str =
    "{\"backups\":0,\"bytes\":0,\"dumps\":0,\"files\":0,\"hosts\":2,\"marked\":0,\"restores\":0}";

#[test]
fn hosts_are_added_and_changed(rt: HostRuntime) -> Result<(), Fail> {
    let alloc = rt.alloc();
    let mut parts = blank_parts(alloc)?;
    expect_rows(alloc, &mut parts, ROWS)?;
    expect_ready(&parts)?;
    let found = office_catalog::open(alloc, &mut parts.journal)?;
    expect(found.hosts().len() == 2, "the files have other hosts")
}
