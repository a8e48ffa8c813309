//! Stops in a night, whose leavings are compared with what the office in memory answers.

use crate::plain::office_answers;
use disk_trait::{Choice, MemoryDisk};
use pool_name::Md5Namer;
use std::alloc::{AllocError, Global};
use std::test::Fail;
use store_talks::Note;
use store_talks::scripts::Step::{Ask, Clean, Dump, Expire};
use store_talks::scripts::{At, Put, Script, expect_script};
use store_talks::talks::{
    CHOICES, DONE, HOST, Machine, NOW, Row, START, blank_disk, expect, image_of, pipe, put_request,
};
use tree_office::TreeOffice;

/// Five backups: a full, two incrementals that become unfilled, and two fulls.
const DAYS: &[At] = &[
    At(1_690_000_000, Ask(HOST)),
    At(
        1_690_000_000,
        Dump(0, "full", &[Put("p", "hello"), Put("k", "stays")]),
    ),
    At(1_691_000_000, Dump(1, "incr", &[Put("p", "ex")])),
    At(1_692_000_000, Dump(2, "incr", &[Put("p", "a0")])),
    At(
        1_693_000_000,
        Dump(3, "full", &[Put("p", "three"), Put("k", "stays")]),
    ),
    At(
        START,
        Dump(4, "full", &[Put("p", "four"), Put("k", "stays")]),
    ),
];

/// The third backup is deleted, so that its table is folded into that of the second; the first one expires; what the two alone had
/// is marked, removed and swept.
const NIGHT: &[At] = &[
    At(START, Ask(Row("DELETE /hosts/pc1/backups/2", "", DONE))),
    At(START, Expire(1)),
    At(START, Clean(5, 2, 0, 0)),
    At(START, Clean(5, 0, 2, 0)),
    At(START, Ask(Row("POST /night/sweep", "", DONE))),
];

/// What is asked after a stop. The office in memory says what the answers are.
const QUESTIONS: [&str; 9] = [
    "GET /hosts",
    "GET /hosts/pc1/backups",
    "GET /stats",
    "GET /hosts/pc1/backups/0/file?path=p",
    "GET /hosts/pc1/backups/1/file?path=p",
    "GET /hosts/pc1/backups/2/file?path=p",
    "GET /hosts/pc1/backups/3/file?path=p",
    "GET /hosts/pc1/backups/4/file?path=p",
    "GET /hosts/pc1/backups/1/list",
];

/// What is sent to ask them.
fn questions(alloc: Global) -> Result<Vec<u8>, AllocError> {
    let mut bytes = Vec::new(alloc);
    for ask in QUESTIONS {
        put_request(&mut bytes, alloc, ask, "")?;
    }
    Ok(bytes)
}

/// The days, and the first events of the night.
fn script_of(alloc: Global, count: usize) -> Result<Script, Fail> {
    let mut script = Script::new(alloc);
    script.add_all(DAYS)?;
    match NIGHT.get(..count) {
        Some(events) => script.add_all(events)?,
        None => return Err(Fail::new("a longer night")),
    }
    Ok(script)
}

/// What the office in memory answers after the first events of the night. Fails where it answers these otherwise than is written.
fn answers_after(alloc: Global, count: usize) -> Result<Vec<u8>, Fail> {
    let mut office = TreeOffice::new(alloc, Md5Namer);
    let Script {
        moments,
        input,
        output,
        ..
    } = script_of(alloc, count)?;
    let said = office_answers(alloc, &mut office, moments.as_slice(), input)?;
    expect(
        said.as_slice() == output.as_slice(),
        "the office in memory answers otherwise",
    )?;
    office_answers(alloc, &mut office, NOW, questions(alloc)?)
}

/// The disk after the first events of the night.
fn disk_after(rt: &impl Machine, count: usize) -> Result<MemoryDisk, Fail> {
    let alloc = rt.alloc();
    expect_script(rt, blank_disk(alloc, &[])?, script_of(alloc, count)?)
}

/// What a store answers that is opened after a stop, and its disk.
fn said_after(
    rt: &impl Machine,
    disk: &MemoryDisk,
    moment: usize,
    choice: Choice,
) -> Result<(Vec<u8>, MemoryDisk), Fail> {
    let alloc = rt.alloc();
    let image = image_of(alloc, disk, moment, choice)?;
    let done = pipe(rt, image, Md5Namer, NOW, questions(alloc)?)?;
    expect(done.note == Note::Nothing, "an image isn't opened")?;
    let said = Vec::from_slice(alloc, done.link.output())?;
    Ok((said, done.disk))
}

/// Fails where a stop at a moment of the opening leaves other answers.
fn expect_again(
    rt: &impl Machine,
    opened: &MemoryDisk,
    choice: Choice,
    said: &[u8],
) -> Result<(), Fail> {
    for moment in 1..=opened.moment() {
        let (again, _) = said_after(rt, opened, moment, choice)?;
        expect(
            again.as_slice() == said,
            "a second stop leaves other answers",
        )?;
    }
    Ok(())
}

/// Fails where a stop leaves other answers than those before and after, or a second stop others than the first.
fn expect_stop(
    rt: &impl Machine,
    disk: &MemoryDisk,
    moment: usize,
    before: &[u8],
    after: &[u8],
) -> Result<(), Fail> {
    for choice in CHOICES {
        let (said, opened) = said_after(rt, disk, moment, choice)?;
        let said = said.as_slice();
        expect(
            said == before || said == after,
            "a stop leaves other answers",
        )?;
        expect_again(rt, &opened, choice, said)?;
    }
    Ok(())
}

/// Fails where a stop at a moment of the event at this place of the night leaves other answers than those of the office in memory
/// before it and after it, one before its first call other than those before it, or one at its end other than those after it. Each
/// choice of what uncertain files hold is tried.
fn expect_event(rt: &impl Machine, place: usize) -> Result<(), Fail> {
    let next = place.saturating_add(1);
    let before = answers_after(rt.alloc(), place)?;
    let before = before.as_slice();
    let after = answers_after(rt.alloc(), next)?;
    let after = after.as_slice();
    let start = disk_after(rt, place)?.moment();
    let disk = disk_after(rt, next)?;
    let end = disk.moment();
    expect(start < end, "the event changes nothing")?;
    expect_stop(rt, &disk, start, before, before)?;
    for moment in start.saturating_add(1)..end {
        expect_stop(rt, &disk, moment, before, after)?;
    }
    expect_stop(rt, &disk, end, after, after)
}

#[test]
fn a_stopped_deletion_leaves_what_was_before_or_after(rt: HostRuntime) -> Result<(), Fail> {
    expect_event(&rt, 0)
}

#[test]
fn a_stopped_expiry_leaves_what_was_before_or_after(rt: HostRuntime) -> Result<(), Fail> {
    expect_event(&rt, 1)
}

#[test]
fn a_stopped_marking_leaves_what_was_before_or_after(rt: HostRuntime) -> Result<(), Fail> {
    expect_event(&rt, 2)
}

#[test]
fn a_stopped_removal_leaves_what_was_before_or_after(rt: HostRuntime) -> Result<(), Fail> {
    expect_event(&rt, 3)
}

#[test]
fn a_stopped_sweep_leaves_what_was_before_or_after(rt: HostRuntime) -> Result<(), Fail> {
    expect_event(&rt, 4)
}
