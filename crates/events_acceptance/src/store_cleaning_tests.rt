use crate::parts::{Parts, blank_parts, expect_ready, expect_row, expect_rows};
use attr_records::{Attr, PathName};
use attr_tables::{Record, Row as TableRow, StoredFile, Table};
use disk_trait::{FileId, PoolId};
use host_counts::HostCounts;
use office_talks::{Row, expect};
use pool_changes::Slot;
use pool_name::Md5Namer;
use ref_counts::{Counts, count_tables};
use std::alloc::Global;
use std::test::Fail;

// Stages `hello`, and claims it.
fn put(alloc: Global, parts: &mut Parts<Md5Namer>) -> Result<PoolId, Fail> {
    expect_ready(parts)?;
    let id = parts
        .pool
        .match_or_stage(alloc, &mut parts.journal, b"hello")?;
    Ok(id)
}

// Commits that the index lists it.
fn list(alloc: Global, parts: &mut Parts<Md5Namer>, id: PoolId) -> Result<(), Fail> {
    match parts.pool.slot(id) {
        Some(Slot::Staged { .. }) => {}
        _ => return Err(Fail::new("not staged")),
    }
    let change = parts.pool.settle(alloc, &[id])?;
    expect_ready(parts)?;
    parts.journal.commit(alloc, change.changes())?;
    parts.pool.accept(change);
    Ok(())
}

// Lets go of its one claim.
fn release(parts: &mut Parts<Md5Namer>, id: PoolId) -> Result<(), Fail> {
    match parts.pool.slot(id) {
        Some(Slot::Live { claims: 1, .. } | Slot::Staged { claims: 1, .. }) => {}
        _ => return Err(Fail::new("not claimed once")),
    }
    parts.pool.release(id);
    Ok(())
}

// The counts of a host with one backup of one file.
fn counts_of(alloc: Global, id: PoolId) -> Result<Counts, Fail> {
    let mut table = Table::new(alloc);
    let file = StoredFile {
        attr: Attr::file_default(),
        group: 0,
        size: 5,
        content: Some(id),
    };
    table.push(TableRow::new(PathName::read(alloc, b"a.txt")?, Record::File(file)))?;
    Ok(count_tables(alloc, &[table])?)
}

// How many contents the disk has.
fn contents(alloc: Global, parts: &mut Parts<Md5Namer>) -> Result<u32, Fail> {
    expect_ready(parts)?;
    let mut count: u32 = 0;
    for file in parts.journal.list(alloc)?.as_slice() {
        if matches!(*file, FileId::Pool(_)) {
            count = count.saturating_add(1);
        }
    }
    Ok(count)
}

// The bucket of `hello`, whose MD5 begins with 5d (RFC 1321), is cleaned: nothing changes, a content is marked, unmarked or
// removed.
const SAME: Row = Row(
    "POST /night/clean?bucket=5",
    "",
    "{\"marked\":0,\"removed\":0,\"unmarked\":0}",
);

const MARKED: Row = Row(
    "POST /night/clean?bucket=5",
    "",
    "{\"marked\":1,\"removed\":0,\"unmarked\":0}",
);

const UNMARKED: Row = Row(
    "POST /night/clean?bucket=5",
    "",
    "{\"marked\":0,\"removed\":0,\"unmarked\":1}",
);

const REMOVED: Row = Row(
    "POST /night/clean?bucket=5",
    "",
    "{\"marked\":0,\"removed\":1,\"unmarked\":0}",
);

// Another bucket is cleaned.
const OTHER: Row = Row(
    "POST /night/clean?bucket=4",
    "",
    "{\"marked\":0,\"removed\":0,\"unmarked\":0}",
);

const NO_BUCKET: Row = Row(
    "POST /night/clean?bucket=16",
    "",
    "{\"refused\":\"BadBucket\"}",
);

const SWEEP: Row = Row("POST /night/sweep", "", "{}");

// Fails where the disk has another number of contents.
fn expect_contents(alloc: Global, parts: &mut Parts<Md5Namer>, count: u32) -> Result<(), Fail> {
    expect(
        contents(alloc, parts)? == count,
        "other contents on the disk",
    )
}

// Stages `hello`, and commits that the index lists it.
fn put_and_list(alloc: Global, parts: &mut Parts<Md5Namer>) -> Result<PoolId, Fail> {
    let id = put(alloc, parts)?;
    list(alloc, parts, id)?;
    Ok(id)
}

#[test]
fn a_content_that_nothing_holds_leaves_at_the_second_cleaning(rt: HostRuntime) -> Result<(), Fail> {
    let alloc = rt.alloc();
    let mut parts = blank_parts(alloc)?;
    let id = put_and_list(alloc, &mut parts)?;
    expect_row(alloc, &mut parts, &SAME)?;
    release(&mut parts, id)?;
    expect_rows(alloc, &mut parts, &[OTHER, MARKED, REMOVED, SAME])?;
    expect_contents(alloc, &mut parts, 1)?;
    expect_row(alloc, &mut parts, &SWEEP)?;
    expect_contents(alloc, &mut parts, 0)
}

// The counts of the second of two hosts name a content.
fn count(alloc: Global, parts: &mut Parts<Md5Namer>, id: PoolId) -> Result<(), Fail> {
    let mut counts = HostCounts::new(alloc)?;
    counts.push(Counts::new(alloc));
    counts.push(counts_of(alloc, id)?);
    parts.counts = counts;
    Ok(())
}

#[test]
fn a_content_that_counts_or_claims_name_stays(rt: HostRuntime) -> Result<(), Fail> {
    let alloc = rt.alloc();
    let mut parts = blank_parts(alloc)?;
    let id = put_and_list(alloc, &mut parts)?;
    release(&mut parts, id)?;
    expect_row(alloc, &mut parts, &MARKED)?;
    expect(put(alloc, &mut parts)? == id, "it has another name")?;
    expect_row(alloc, &mut parts, &UNMARKED)?;
    release(&mut parts, id)?;
    expect_row(alloc, &mut parts, &MARKED)?;
    count(alloc, &mut parts, id)?;
    expect_rows(alloc, &mut parts, &[UNMARKED, SWEEP])?;
    expect_contents(alloc, &mut parts, 1)
}

#[test]
fn what_was_staged_and_let_go_is_swept(rt: HostRuntime) -> Result<(), Fail> {
    let alloc = rt.alloc();
    let mut parts = blank_parts(alloc)?;
    let id = put(alloc, &mut parts)?;
    expect_row(alloc, &mut parts, &SWEEP)?;
    expect_contents(alloc, &mut parts, 1)?;
    release(&mut parts, id)?;
    expect_contents(alloc, &mut parts, 1)?;
    expect_row(alloc, &mut parts, &SWEEP)?;
    expect_contents(alloc, &mut parts, 0)?;
    expect_row(alloc, &mut parts, &NO_BUCKET)
}
