use disk_trait::{Choice, Disk, DiskRoom, MemoryDisk};
use office_talks::{HOST, NOW, Row, expect, expect_rows, is_answered, moment_at, place_answered};
use pool_name::Md5Namer;
use std::alloc::Global;
use std::test::Fail;
use tree_office::TreeOffice;
use turn_port::{DirectPort, Store};

type TestPort = DirectPort<MemoryDisk, Md5Namer>;

const ROOM: DiskRoom = DiskRoom {
    changes: 400,
    bytes: 20_000,
};

const CHOICES: [Choice; 3] = [Choice::Written, Choice::Absent, Choice::One(0x4F)];

const OTHER_HOST: Row = Row("PUT /hosts/pc2", "", "{\"host\":\"pc2\"}");

/// What is asked of a blank office, and the replies. The mode 0077 of some files keeps the frames of a restore in ASCII.
const SCRIPT: &[Row] = &[
    Row("GET /hosts", "", "{\"hosts\":[]}"),
    Row("PUT /hosts/pc1", "", "{\"host\":\"pc1\"}"),
    Row("PUT /hosts/pc1", "", "{\"refused\":\"HostExists\"}"),
    Row("PUT /hosts/pc2", "", "{\"host\":\"pc2\"}"),
    Row("GET /hosts", "", "{\"hosts\":[\"pc1\",\"pc2\"]}"),
    Row("PUT /hosts/pc1/rules?FillCycle=7", "", "{}"),
    Row(
        "PUT /hosts/pc3/rules?FillCycle=7",
        "",
        "{\"refused\":\"NoHost\"}",
    ),
    Row(
        "POST /hosts/pc1/backups/0/keep?on=1",
        "",
        "{\"refused\":\"NoBackup\"}",
    ),
    Row(
        "POST /hosts/pc3/backups/0/keep?on=1",
        "",
        "{\"refused\":\"NoHost\"}",
    ),
    Row(
        "POST /hosts/pc1/contacts?good=1",
        "",
        "{\"bad\":0,\"good\":1}",
    ),
    Row(
        "POST /hosts/pc1/contacts?good=1",
        "",
        "{\"bad\":0,\"good\":2}",
    ),
    Row(
        "POST /hosts/pc1/contacts?good=0",
        "",
        "{\"bad\":1,\"good\":2}",
    ),
    Row(
        "GET /hosts/pc1/due",
        "",
        "{\"blackout\":false,\"due\":\"full\"}",
    ),
    Row("GET /hosts/pc3/due", "", "{\"refused\":\"NoHost\"}"),
    Row("POST /hosts/pc1/dumps?kind=full", "", "{\"dump\":\"1-0\"}"),
    Row(
        "POST /hosts/pc1/dumps?kind=full",
        "",
        "{\"refused\":\"SessionOpen\"}",
    ),
    Row("POST /hosts/pc2/dumps?kind=full", "", "{\"dump\":\"1-1\"}"),
    Row(
        "POST /hosts/pc3/dumps?kind=full",
        "",
        "{\"refused\":\"NoHost\"}",
    ),
    Row(
        "DELETE /dumps/1-0/entry?path=a",
        "",
        "{\"refused\":\"NoPath\"}",
    ),
    Row("PUT /dumps/1-0/entry?path=a&kind=file", "hello", "{}"),
    Row("DELETE /dumps/1-0/entry?path=a", "", "{}"),
    Row(
        "DELETE /dumps/1-0/entry?path=a",
        "",
        "{\"refused\":\"NoPath\"}",
    ),
    Row("PUT /dumps/1-1/entry?path=a&kind=file", "hello", "{}"),
    Row(
        "PUT /dumps/1-2/entry?path=a&kind=file",
        "hello",
        "{\"refused\":\"NoSession\"}",
    ),
    Row("POST /dumps/1-3/commit", "", "{\"refused\":\"NoSession\"}"),
    Row(
        "GET /hosts/pc1/backups",
        "",
        "{\"backups\":[],\"dump\":\"1-0\",\"next\":0}",
    ),
    Row(
        "GET /stats",
        "",
        "{\"backups\":0,\"bytes\":0,\"dumps\":2,\"files\":0,\"hosts\":2,\"marked\":0,\"restores\":0}",
    ),
    Row("DELETE /dumps/1-0", "", "{}"),
    Row("DELETE /dumps/1-0", "", "{\"refused\":\"NoSession\"}"),
    Row(
        "DELETE /dumps/1-0/entry?path=a",
        "",
        "{\"refused\":\"NoSession\"}",
    ),
    Row(
        "GET /hosts/pc1/backups",
        "",
        "{\"backups\":[],\"dump\":null,\"next\":0}",
    ),
    Row("POST /dumps/1-0/commit", "", "{\"refused\":\"NoSession\"}"),
    Row(
        "GET /hosts/pc1/backups/0/list",
        "",
        "{\"refused\":\"NoBackup\"}",
    ),
    Row(
        "GET /hosts/pc1/backups/0/entry?path=a",
        "",
        "{\"refused\":\"NoBackup\"}",
    ),
    Row(
        "GET /hosts/pc3/backups/0/file?path=a",
        "",
        "{\"refused\":\"NoHost\"}",
    ),
    Row("POST /dumps/1-1/commit", "", "{\"number\":0}"),
    Row("POST /dumps/1-1/commit", "", "{\"refused\":\"NoSession\"}"),
    Row(
        "GET /hosts/pc2/backups",
        "",
        "{\"backups\":[{\"end\":1700000000,\"filled\":true,\"keep\":false,\"kind\":\"full\",\"number\":0,\"start\":1700000000}],\"dump\":null,\"next\":1}",
    ),
    Row("POST /hosts/pc2/backups/0/keep?on=1", "", "{}"),
    Row(
        "GET /hosts/pc2/backups/0/list",
        "",
        "{\"entries\":[{\"gid\":0,\"group\":0,\"kind\":\"file\",\"mode\":\"0644\",\"mtime\":0,\"name\":\"a\",\"nanos\":0,\"size\":5,\"uid\":0}]}",
    ),
    Row(
        "GET /hosts/pc2/backups/0/entry?path=a",
        "",
        "{\"gid\":0,\"group\":0,\"kind\":\"file\",\"mode\":\"0644\",\"mtime\":0,\"nanos\":0,\"size\":5,\"uid\":0}",
    ),
    Row("GET /hosts/pc2/backups/0/file?path=a", "", "hello"),
    Row("POST /hosts/pc2/dumps?kind=full", "", "{\"dump\":\"1-2\"}"),
    Row(
        "DELETE /dumps/1-2/entry?path=a",
        "",
        "{\"refused\":\"NoPath\"}",
    ),
    Row("POST /dumps/1-2/commit", "", "{\"number\":1}"),
    Row(
        "GET /hosts/pc2/backups",
        "",
        "{\"backups\":[{\"end\":1700000000,\"filled\":true,\"keep\":true,\"kind\":\"full\",\"number\":0,\"start\":1700000000},{\"end\":1700000000,\"filled\":true,\"keep\":false,\"kind\":\"full\",\"number\":1,\"start\":1700000000}],\"dump\":null,\"next\":2}",
    ),
    Row("GET /hosts/pc2/backups/0/file?path=a", "", "hello"),
    Row(
        "GET /stats",
        "",
        "{\"backups\":2,\"bytes\":5,\"dumps\":0,\"files\":1,\"hosts\":2,\"marked\":0,\"restores\":0}",
    ),
    Row(
        "POST /hosts/pc1/dumps?kind=incr",
        "",
        "{\"refused\":\"NoBackup\"}",
    ),
    Row(
        "POST /hosts/pc3/dumps?kind=incr",
        "",
        "{\"refused\":\"NoHost\"}",
    ),
    Row("POST /hosts/pc1/dumps?kind=full", "", "{\"dump\":\"1-3\"}"),
    Row(
        "POST /hosts/pc1/dumps?kind=incr",
        "",
        "{\"refused\":\"NoBackup\"}",
    ),
    Row(
        "PUT /dumps/1-3/entry?path=a&kind=file&mode=77",
        "hello",
        "{}",
    ),
    Row(
        "PUT /dumps/1-3/entry?path=b&kind=file&mode=77",
        "farewell",
        "{}",
    ),
    Row(
        "PUT /dumps/1-3/entry?path=c&kind=file&mode=77",
        "same",
        "{}",
    ),
    Row("POST /dumps/1-3/commit", "", "{\"number\":0}"),
    Row("POST /hosts/pc1/dumps?kind=incr", "", "{\"dump\":\"1-4\"}"),
    Row(
        "POST /hosts/pc1/dumps?kind=incr",
        "",
        "{\"refused\":\"SessionOpen\"}",
    ),
    Row("PUT /dumps/1-4/entry?path=a&kind=file", "changed", "{}"),
    Row("DELETE /dumps/1-4/entry?path=b", "", "{}"),
    Row("POST /dumps/1-4/commit", "", "{\"number\":1}"),
    Row("GET /hosts/pc1/backups/1/file?path=a", "", "changed"),
    Row("POST /hosts/pc1/dumps?kind=incr", "", "{\"dump\":\"1-5\"}"),
    Row(
        "DELETE /dumps/1-5/entry?path=b",
        "",
        "{\"refused\":\"NoPath\"}",
    ),
    Row("PUT /dumps/1-5/entry?path=d&kind=file", "new", "{}"),
    Row("POST /dumps/1-5/commit", "", "{\"number\":2}"),
    Row(
        "GET /hosts/pc1/backups",
        "",
        "{\"backups\":[{\"end\":1700000000,\"filled\":true,\"keep\":false,\"kind\":\"full\",\"number\":0,\"start\":1700000000},{\"end\":1700000000,\"filled\":false,\"keep\":false,\"kind\":\"incr\",\"number\":1,\"start\":1700000000},{\"end\":1700000000,\"filled\":true,\"keep\":false,\"kind\":\"incr\",\"number\":2,\"start\":1700000000}],\"dump\":null,\"next\":3}",
    ),
    Row("POST /hosts/pc1/dumps?kind=incr", "", "{\"dump\":\"1-6\"}"),
    Row("DELETE /dumps/1-6", "", "{}"),
    Row(
        "GET /stats",
        "",
        "{\"backups\":5,\"bytes\":27,\"dumps\":0,\"files\":5,\"hosts\":2,\"marked\":0,\"restores\":0}",
    ),
    Row("POST /reopen", "", "{\"epoch\":2}"),
    Row(
        "GET /hosts/pc1/backups/2/list",
        "",
        "{\"entries\":[{\"gid\":0,\"group\":0,\"kind\":\"file\",\"mode\":\"0644\",\"mtime\":0,\"name\":\"a\",\"nanos\":0,\"size\":7,\"uid\":0},{\"gid\":0,\"group\":0,\"kind\":\"file\",\"mode\":\"0077\",\"mtime\":0,\"name\":\"c\",\"nanos\":0,\"size\":4,\"uid\":0},{\"gid\":0,\"group\":0,\"kind\":\"file\",\"mode\":\"0644\",\"mtime\":0,\"name\":\"d\",\"nanos\":0,\"size\":3,\"uid\":0}]}",
    ),
    Row("GET /hosts/pc1/backups/2/file?path=a", "", "changed"),
    Row(
        "GET /hosts/pc1/backups/2/file?path=b",
        "",
        "{\"refused\":\"NoPath\"}",
    ),
    Row("GET /hosts/pc1/backups/2/file?path=d", "", "new"),
    Row(
        "GET /hosts/pc1/backups/1/list",
        "",
        "{\"entries\":[{\"gid\":0,\"group\":0,\"kind\":\"file\",\"mode\":\"0644\",\"mtime\":0,\"name\":\"a\",\"nanos\":0,\"size\":7,\"uid\":0},{\"gid\":0,\"group\":0,\"kind\":\"file\",\"mode\":\"0077\",\"mtime\":0,\"name\":\"c\",\"nanos\":0,\"size\":4,\"uid\":0}]}",
    ),
    Row("GET /hosts/pc1/backups/1/file?path=a", "", "changed"),
    Row(
        "GET /hosts/pc1/backups/1/file?path=b",
        "",
        "{\"refused\":\"NoPath\"}",
    ),
    Row("GET /hosts/pc1/backups/1/file?path=c", "", "same"),
    Row(
        "GET /hosts/pc1/backups/1/file?path=d",
        "",
        "{\"refused\":\"NoPath\"}",
    ),
    Row(
        "GET /hosts/pc1/backups/0/list",
        "",
        "{\"entries\":[{\"gid\":0,\"group\":0,\"kind\":\"file\",\"mode\":\"0077\",\"mtime\":0,\"name\":\"a\",\"nanos\":0,\"size\":5,\"uid\":0},{\"gid\":0,\"group\":0,\"kind\":\"file\",\"mode\":\"0077\",\"mtime\":0,\"name\":\"b\",\"nanos\":0,\"size\":8,\"uid\":0},{\"gid\":0,\"group\":0,\"kind\":\"file\",\"mode\":\"0077\",\"mtime\":0,\"name\":\"c\",\"nanos\":0,\"size\":4,\"uid\":0}]}",
    ),
    Row("GET /hosts/pc1/backups/0/file?path=a", "", "hello"),
    Row("GET /hosts/pc1/backups/0/file?path=b", "", "farewell"),
    Row("GET /hosts/pc2/backups/0/file?path=a", "", "hello"),
    Row(
        "GET /hosts/pc2/backups",
        "",
        "{\"backups\":[{\"end\":1700000000,\"filled\":true,\"keep\":true,\"kind\":\"full\",\"number\":0,\"start\":1700000000},{\"end\":1700000000,\"filled\":true,\"keep\":false,\"kind\":\"full\",\"number\":1,\"start\":1700000000}],\"dump\":null,\"next\":2}",
    ),
    Row("POST /dumps/1-1/commit", "", "{\"refused\":\"NoSession\"}"),
    Row("DELETE /dumps/1-1", "", "{\"refused\":\"NoSession\"}"),
    Row("GET /hosts", "", "{\"hosts\":[\"pc1\",\"pc2\"]}"),
    Row(
        "POST /hosts/pc1/contacts?good=0",
        "",
        "{\"bad\":2,\"good\":2}",
    ),
    Row("POST /hosts/pc2/dumps?kind=full", "", "{\"dump\":\"2-0\"}"),
    Row("POST /hosts/pc1/dumps?kind=incr", "", "{\"dump\":\"2-1\"}"),
    Row(
        "GET /stats",
        "",
        "{\"backups\":5,\"bytes\":27,\"dumps\":2,\"files\":5,\"hosts\":2,\"marked\":0,\"restores\":0}",
    ),
    Row(
        "POST /hosts/pc1/backups/7/restores",
        "",
        "{\"refused\":\"NoBackup\"}",
    ),
    Row(
        "POST /hosts/pc1/backups/0/restores",
        "",
        "{\"restore\":\"2-2\"}",
    ),
    Row("DELETE /hosts/pc1/backups/0", "", "{}"),
    Row(
        "DELETE /hosts/pc1/backups/0",
        "",
        "{\"refused\":\"NoBackup\"}",
    ),
    Row("DELETE /hosts/pc2/backups/0", "", "{\"refused\":\"Kept\"}"),
    Row("GET /hosts/pc1/backups/1/file?path=a", "", "changed"),
    Row(
        "POST /night/clean?bucket=15",
        "",
        "{\"marked\":0,\"removed\":0,\"unmarked\":0}",
    ),
    Row(
        "GET /restores/2-2/next",
        "",
        "E\x01\0\x01a\0\0\0?\0\0\0\0\0\0\0\0\0\0\0\0\0\0\0\0\0\0\0\0\0\0\0\0\0\0\0\0\0\0\0\x05",
    ),
    Row("GET /restores/2-2/next", "", "D\0\0\0\x05hello"),
    Row(
        "GET /restores/2-2/next",
        "",
        "E\x01\0\x01b\0\0\0?\0\0\0\0\0\0\0\0\0\0\0\0\0\0\0\0\0\0\0\0\0\0\0\0\0\0\0\0\0\0\0\x08",
    ),
    Row("GET /restores/2-2/next", "", "D\0\0\0\x08farewell"),
    Row(
        "GET /restores/2-2/next",
        "",
        "E\x01\0\x01c\0\0\0?\0\0\0\0\0\0\0\0\0\0\0\0\0\0\0\0\0\0\0\0\0\0\0\0\0\0\0\0\0\0\0\x04",
    ),
    Row("GET /restores/2-2/next", "", "D\0\0\0\x04same"),
    Row("GET /restores/2-2/next", "", "Z\0\0\0\x03"),
    Row("GET /restores/2-2/next", "", "Z\0\0\0\x03"),
    Row("DELETE /restores/2-2", "", "{}"),
    Row("DELETE /restores/2-2", "", "{\"refused\":\"NoSession\"}"),
    Row("GET /restores/2-2/next", "", "{\"refused\":\"NoSession\"}"),
    Row(
        "POST /night/clean?bucket=15",
        "",
        "{\"marked\":1,\"removed\":0,\"unmarked\":0}",
    ),
    Row(
        "POST /night/clean?bucket=15",
        "",
        "{\"marked\":0,\"removed\":1,\"unmarked\":0}",
    ),
    Row(
        "POST /night/clean?bucket=16",
        "",
        "{\"refused\":\"BadBucket\"}",
    ),
    Row("POST /night/sweep", "", "{}"),
    Row(
        "GET /stats",
        "",
        "{\"backups\":4,\"bytes\":19,\"dumps\":2,\"files\":4,\"hosts\":2,\"marked\":0,\"restores\":0}",
    ),
    Row("POST /hosts/pc1/expire", "", "{\"deleted\":0}"),
    Row("POST /hosts/pc3/expire", "", "{\"refused\":\"NoHost\"}"),
    Row("POST /reopen", "", "{\"epoch\":3}"),
    Row(
        "GET /hosts/pc1/backups/1/list",
        "",
        "{\"entries\":[{\"gid\":0,\"group\":0,\"kind\":\"file\",\"mode\":\"0644\",\"mtime\":0,\"name\":\"a\",\"nanos\":0,\"size\":7,\"uid\":0},{\"gid\":0,\"group\":0,\"kind\":\"file\",\"mode\":\"0077\",\"mtime\":0,\"name\":\"c\",\"nanos\":0,\"size\":4,\"uid\":0}]}",
    ),
    Row("GET /hosts/pc1/backups/1/file?path=c", "", "same"),
    Row("GET /hosts/pc2/backups/0/file?path=a", "", "hello"),
];

/// The port of the store of a disk.
fn open(alloc: Global, disk: MemoryDisk) -> Result<TestPort, Fail> {
    match Store::open(alloc, disk, Md5Namer) {
        Ok(store) => Ok(DirectPort::new(store)),
        Err(_) => Err(Fail::new("not opened")),
    }
}

fn open_blank(alloc: Global) -> Result<TestPort, Fail> {
    open(alloc, MemoryDisk::new(alloc, Vec::new(alloc), ROOM)?)
}

#[test]
fn a_store_answers_as_the_office_in_memory_does(rt: HostRuntime) -> Result<(), Fail> {
    let alloc = rt.alloc();
    expect_rows(alloc, &mut open_blank(alloc)?, moment_at(NOW), SCRIPT)?;
    expect_rows(
        alloc,
        &mut TreeOffice::new(alloc, Md5Namer),
        moment_at(NOW),
        SCRIPT,
    )
}

/// The disk of a store that was asked so.
fn disk_with(alloc: Global, rows: &[Row]) -> Result<MemoryDisk, Fail> {
    let mut port = open_blank(alloc)?;
    expect_rows(alloc, &mut port, moment_at(NOW), rows)?;
    Ok(port.into_store().close())
}

/// The hosts that a store may have, which are the first of two.
const HOSTS: [Row; 3] = [
    Row("GET /hosts", "", "{\"hosts\":[]}"),
    Row("GET /hosts", "", "{\"hosts\":[\"pc1\"]}"),
    Row("GET /hosts", "", "{\"hosts\":[\"pc1\",\"pc2\"]}"),
];

/// How many hosts the image of a crash has.
fn hosts_after(
    alloc: Global,
    disk: &MemoryDisk,
    moment: usize,
    choice: Choice,
) -> Result<usize, Fail> {
    if moment > disk.moment() {
        return Err(Fail::new("a moment to come"));
    }
    let mut port = open(alloc, disk.image(alloc, moment, choice)?)?;
    place_answered(alloc, &mut port, moment_at(NOW), &HOSTS)
}

#[test]
fn each_crash_of_a_new_host_leaves_the_hosts_before_or_after(rt: HostRuntime) -> Result<(), Fail> {
    let alloc = rt.alloc();
    let start = disk_with(alloc, &[HOST])?.moment();
    let disk = disk_with(alloc, &[HOST, OTHER_HOST])?;
    let end = disk.moment();
    for moment in start..end {
        for choice in CHOICES {
            let count = hosts_after(alloc, &disk, moment, choice)?;
            expect(count == 1 || count == 2, "other hosts")?;
        }
    }
    expect(
        hosts_after(alloc, &disk, end, Choice::Absent)? == 2,
        "not durable",
    )
}

const FAILED: Row = Row("PUT /hosts/pc1", "", "{\"refused\":\"DiskFault\"}");

/// What a halted store answers until it is reopened.
const HALTED: [Row; 2] = [
    Row("GET /hosts", "", "{\"refused\":\"Halted\"}"),
    Row("POST /reopen", "", "{\"epoch\":2}"),
];

/// A store that met a fault is halted; reopened it has the host or not.
fn expect_halted(alloc: Global, store: Store<MemoryDisk, Md5Namer>) -> Result<(), Fail> {
    expect(store.is_halted() && store.faults() == 1, "not halted")?;
    let mut port = DirectPort::new(store);
    expect_rows(alloc, &mut port, moment_at(NOW), &HALTED)?;
    let count = place_answered(alloc, &mut port, moment_at(NOW), &HOSTS)?;
    expect(count < 2, "another host")
}

/// Whether the failing call was one of the event's.
fn is_met(alloc: Global, call: u64) -> Result<bool, Fail> {
    let disk = MemoryDisk::new(alloc, Vec::from_array(alloc, [call])?, ROOM)?;
    let Ok(store) = Store::open(alloc, disk, Md5Namer) else {
        return Ok(false);
    };
    let mut port = DirectPort::new(store);
    let is_met = is_answered(alloc, &mut port, moment_at(NOW), &FAILED)?;
    if is_met {
        expect_halted(alloc, port.into_store())?;
    }
    Ok(is_met)
}

#[test]
fn a_fault_halts_the_store_until_it_is_reopened(rt: HostRuntime) -> Result<(), Fail> {
    let mut count = 0u32;
    for call in 255..340u64 {
        if is_met(rt.alloc(), call)? {
            count = count.saturating_add(1);
        }
    }
    expect(count > 3, "no fault was met")
}
