//! The table of faults. One call of the disk in the script fails, and no other: the request that makes it is answered so, and it alone;
//! those behind it find the store halted, or at work as if that request hadn't been. Opened again, the store answers what the plain
//! office answers before that request or after it.

use crate::plain::office_answers;
use crate::script::{
    Said, State, States, event_count, plain_after, questions, rows_of, said_in, state_of,
};
use disk_trait::{Disk, MemoryDisk};
use pool_name::Md5Namer;
use std::alloc::{AllocError, Global};
use std::test::Fail;
use store_talks::Note;
use store_talks::talks::{
    Machine, NOW, Row, Says, blank_disk, expect, input_of, output_of, pipe, put_answer, put_request,
};

const FAULT: Says = Says::Json("500 Internal Server Error", "{\"refused\":\"DiskFault\"}");

const HALTED: Says = Says::Json("503 Service Unavailable", "{\"refused\":\"Halted\"}");

/// More calls than the script makes.
const CALLS: u64 = 3_000;

/// The files of the pool's index that an opening looks for.
const BUCKETS: u64 = 256;

/// What may come if the request at one place of the script meets the fault.
#[derive(Drop)]
struct Wanted {
    /// All answers to the script, if the store is halted.
    halted: Vec<u8>,
    /// All answers to it, if the store is at work.
    at_work: Vec<u8>,
    /// The answers up to that request and to what is asked behind it, if it did nothing.
    before: Vec<u8>,
    /// These, if it did what it was to do.
    after: Vec<u8>,
}

/// The requests before a place.
fn before(rows: &[Row], place: usize) -> &[Row] {
    rows.get(..place).unwrap_or(rows)
}

/// The requests behind it.
fn behind(rows: &[Row], place: usize) -> &[Row] {
    rows.get(place.saturating_add(1)..).unwrap_or(&[])
}

/// The answers before a place, and a fault there.
fn faulted(alloc: Global, rows: &[Row], place: usize) -> Result<Vec<u8>, AllocError> {
    let mut output = output_of(alloc, before(rows, place))?;
    put_answer(&mut output, alloc, FAULT)?;
    Ok(output)
}

/// All answers, if the store is halted.
fn when_halted(alloc: Global, rows: &[Row], place: usize) -> Result<Vec<u8>, AllocError> {
    let mut output = faulted(alloc, rows, place)?;
    for _ in behind(rows, place) {
        put_answer(&mut output, alloc, HALTED)?;
    }
    Ok(output)
}

/// All answers, if the store goes on: those of the plain office that isn't asked what stands at the place.
fn when_at_work(alloc: Global, rows: &[Row], place: usize) -> Result<Vec<u8>, Fail> {
    let mut office = plain_after(alloc, before(rows, place))?;
    let input = input_of(alloc, behind(rows, place))?;
    let said = office_answers(alloc, &mut office, NOW, input)?;
    let mut output = faulted(alloc, rows, place)?;
    output.extend_from_slice(said.as_slice())?;
    Ok(output)
}

/// What is asked behind a fault: the store is opened again, and the questions.
fn asked_again(alloc: Global) -> Result<Vec<u8>, AllocError> {
    let mut input = Vec::new(alloc);
    put_request(&mut input, alloc, "POST /reopen", "")?;
    let questions = questions(alloc)?;
    input.extend_from_slice(questions.as_slice())?;
    Ok(input)
}

/// The answers up to the fault at a place, and those of the plain office to what is asked behind it, which was asked so many requests.
fn when_opened(alloc: Global, rows: &[Row], place: usize, count: usize) -> Result<Vec<u8>, Fail> {
    let mut office = plain_after(alloc, before(rows, count))?;
    let said = office_answers(alloc, &mut office, NOW, asked_again(alloc)?)?;
    let mut output = faulted(alloc, rows, place)?;
    output.extend_from_slice(said.as_slice())?;
    Ok(output)
}

fn wanted_at(alloc: Global, rows: &[Row], place: usize) -> Result<Wanted, Fail> {
    Ok(Wanted {
        halted: when_halted(alloc, rows, place)?,
        at_work: when_at_work(alloc, rows, place)?,
        before: when_opened(alloc, rows, place, place)?,
        after: when_opened(alloc, rows, place, place.saturating_add(1))?,
    })
}

/// The same for each place of the script.
fn all_wanted(alloc: Global, rows: &[Row]) -> Result<Vec<Wanted>, Fail> {
    let mut all = Vec::new(alloc);
    for place in 0..rows.len() {
        all.push(wanted_at(alloc, rows, place)?)?;
    }
    Ok(all)
}

/// The place of the first request that is answered otherwise than is written.
fn place_failed(alloc: Global, output: &[u8], rows: &[Row]) -> Result<usize, AllocError> {
    let mut wanted = Vec::new(alloc);
    for (place, row) in rows.iter().enumerate() {
        put_answer(&mut wanted, alloc, row.2)?;
        if !output.starts_with(wanted.as_slice()) {
            return Ok(place);
        }
    }
    Ok(rows.len())
}

/// What the table is made of: the script, what may come for each place of it, and what a blank store answers that was opened once or
/// twice.
#[derive(Drop)]
struct Table {
    rows: Vec<Row>,
    wanted: Vec<Wanted>,
    blank: Vec<Said>,
}

const BLANK: States = States {
    first: State {
        events: 0,
        epoch: 1,
    },
    last: State {
        events: 0,
        epoch: 2,
    },
};

fn table_of(alloc: Global) -> Result<Table, Fail> {
    let rows = rows_of(alloc, event_count())?;
    let wanted = all_wanted(alloc, rows.as_slice())?;
    let mut blank = Vec::new(alloc);
    blank.push(said_in(alloc, BLANK.first)?)?;
    blank.push(said_in(alloc, BLANK.last)?)?;
    Ok(Table {
        rows,
        wanted,
        blank,
    })
}

/// What comes of a run: the answers, how it ended, and the disk.
fn run_on(
    rt: &impl Machine,
    disk: MemoryDisk,
    input: Vec<u8>,
) -> Result<(Vec<u8>, Note, MemoryDisk), Fail> {
    let done = pipe(rt, disk, Md5Namer, NOW, input)?;
    let output = Vec::from_slice(rt.alloc(), done.link.output())?;
    Ok((output, done.note, done.disk))
}

/// The opening met the fault, and the run ends; the next one finds a store without hosts.
fn expect_unopened(
    rt: &impl Machine,
    table: &Table,
    note: Note,
    disk: MemoryDisk,
) -> Result<(), Fail> {
    expect(
        note == Note::DiskFailed,
        "an opening that failed isn't told",
    )?;
    let (output, _, _) = run_on(rt, disk, questions(rt.alloc())?)?;
    let found = state_of(table.blank.as_slice(), BLANK, output.as_slice());
    expect(
        found.is_some(),
        "a store isn't blank behind its first opening",
    )
}

/// What is asked up to a place, and behind it.
fn input_up_to(alloc: Global, rows: &[Row], place: usize) -> Result<Vec<u8>, AllocError> {
    let mut input = input_of(alloc, before(rows, place.saturating_add(1)))?;
    let again = asked_again(alloc)?;
    input.extend_from_slice(again.as_slice())?;
    Ok(input)
}

/// The request at a place meets the fault, and the store is opened again: it has what was before that request or after it, and if it
/// was at work what was before it.
fn expect_opened(
    rt: &impl Machine,
    table: &Table,
    call: u64,
    place: usize,
    halted: bool,
) -> Result<(), Fail> {
    let alloc = rt.alloc();
    let Some(wanted) = table.wanted.get(place) else {
        return Err(Fail::new("no such request"));
    };
    let input = input_up_to(alloc, table.rows.as_slice(), place)?;
    let (output, _, _) = run_on(rt, blank_disk(alloc, &[call])?, input)?;
    let output = output.as_slice();
    let is_before = output == wanted.before.as_slice();
    let is_after = halted && output == wanted.after.as_slice();
    if is_before || is_after {
        return Ok(());
    }
    let text = String::from_utf8_lossy(alloc, output)?;
    Err(Fail::new(format_args!("opened behind call {call}, request {place}: {text}")))
}

/// A request met the fault: it alone tells of it.
fn expect_told(
    rt: &impl Machine,
    table: &Table,
    call: u64,
    halted: bool,
    output: &[u8],
) -> Result<(), Fail> {
    let alloc = rt.alloc();
    let place = place_failed(alloc, output, table.rows.as_slice())?;
    let Some(wanted) = table.wanted.get(place) else {
        return Err(Fail::new("a fault that nobody tells"));
    };
    let all = if halted {
        wanted.halted.as_slice()
    } else {
        wanted.at_work.as_slice()
    };
    if output == all {
        return expect_opened(rt, table, call, place, halted);
    }
    let text = String::from_utf8_lossy(alloc, output)?;
    Err(Fail::new(format_args!("call {call}, request {place}: {text}")))
}

/// Whether the script makes this call, whose failure does what it is to do.
fn is_made(rt: &impl Machine, table: &Table, call: u64) -> Result<bool, Fail> {
    let alloc = rt.alloc();
    let rows = table.rows.as_slice();
    let disk = blank_disk(alloc, &[call])?;
    let (output, note, disk) = run_on(rt, disk, input_of(alloc, rows)?)?;
    if disk.faults() == 0 {
        return Ok(false);
    }
    if output.is_empty() {
        expect_unopened(rt, table, note, disk)?;
    } else {
        expect_told(rt, table, call, note == Note::DiskFailed, output.as_slice())?;
    }
    Ok(true)
}

#[test]
fn each_fault_is_told_once_and_leaves_what_was_before_or_after(
    rt: HostRuntime,
) -> Result<(), Fail> {
    let table = table_of(rt.alloc())?;
    for call in 0..CALLS {
        if !is_made(&rt, &table, call)? {
            return expect(call > BUCKETS, "fewer calls than the opening makes");
        }
    }
    Err(Fail::new("more calls than the script makes"))
}
