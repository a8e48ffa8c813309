//! The script of the tables of stops and of faults, what is asked behind it, and what the plain office, the one in memory, answers.

use crate::plain::office_answers;
use pool_name::Md5Namer;
use std::alloc::{AllocError, Global};
use std::test::Fail;
use store_talks::talks::{
    DONE, HOST, MADE, NOW, OK, Row, Says, expect, input_of, output_of, put_request,
};
use tree_office::TreeOffice;

const TOKEN_OPENING: &str =
    "POST /hosts/pc1/dumps?kind=full&token=00112233445566778899aabbccddeeff";

const TOKEN_PUT: &str =
    "PUT /dumps/1-0/entry?path=a.txt&kind=file&token=ffeeddccbbaa99887766554433221100";

/// A full dump with one file: its opening and its put bear tokens, and the put is made twice.
const FULL: &[Row] = &[
    Row(TOKEN_OPENING, "", Says::Json(MADE, "{\"dump\":\"1-0\"}")),
    Row(TOKEN_PUT, "hello", DONE),
    Row(TOKEN_PUT, "hello", DONE),
    Row(
        "POST /dumps/1-0/commit",
        "",
        Says::Json(MADE, "{\"number\":0}"),
    ),
];

/// An incremental one, which takes the file out.
const INCREMENTAL: &[Row] = &[
    Row(
        "POST /hosts/pc1/dumps?kind=incr",
        "",
        Says::Json(MADE, "{\"dump\":\"1-1\"}"),
    ),
    Row("DELETE /dumps/1-1/entry?path=a.txt", "", DONE),
    Row(
        "POST /dumps/1-1/commit",
        "",
        Says::Json(MADE, "{\"number\":1}"),
    ),
];

/// A full dump with another file, which is broken off: what it has is the host's partial.
const PARKING: &[Row] = &[
    Row(
        "POST /hosts/pc1/dumps?kind=full",
        "",
        Says::Json(MADE, "{\"dump\":\"1-2\"}"),
    ),
    Row("PUT /dumps/1-2/entry?path=p&kind=file", "parked", DONE),
    Row("POST /dumps/1-2/park", "", DONE),
];

/// The dump is dropped and gone on with from the partial, which the commit drops.
const RESUMING: &[Row] = &[
    Row("DELETE /dumps/1-2", "", DONE),
    Row(
        "POST /hosts/pc1/resume",
        "",
        Says::Json(MADE, "{\"dump\":\"1-3\"}"),
    ),
    Row(
        "POST /dumps/1-3/commit",
        "",
        Says::Json(MADE, "{\"number\":2}"),
    ),
];

/// The content of the first dump is then nobody's.
const DELETION: &[Row] = &[Row("DELETE /hosts/pc1/backups/0", "", DONE)];

const MARKING: &[Row] = &[Row(
    "POST /night/clean?bucket=5",
    "",
    Says::Json(OK, "{\"marked\":1,\"removed\":0,\"unmarked\":0}"),
)];

const REMOVAL: &[Row] = &[Row(
    "POST /night/clean?bucket=5",
    "",
    Says::Json(OK, "{\"marked\":0,\"removed\":1,\"unmarked\":0}"),
)];

const SWEEP: &[Row] = &[Row("POST /night/sweep", "", DONE)];

/// The events of the script, in their order, each with its requests.
const EVENTS: &[&[Row]] = &[
    &[HOST],
    FULL,
    INCREMENTAL,
    PARKING,
    RESUMING,
    DELETION,
    MARKING,
    REMOVAL,
    SWEEP,
];

/// How many events it has.
pub fn event_count() -> usize {
    EVENTS.len()
}

/// The requests of the first events.
pub fn rows_of(alloc: Global, events: usize) -> Result<Vec<Row>, Fail> {
    let Some(first) = EVENTS.get(..events) else {
        return Err(Fail::new("a longer script"));
    };
    let mut rows = Vec::new(alloc);
    for event in first {
        rows.extend_from_slice(event)?;
    }
    Ok(rows)
}

/// The questions: hosts, backups, the partial, lists, files, numbers, the counts of contacts, a cleaning, a sweep, a further dump with
/// what it keeps, and the first dump's opening once more, which its receipt answers. The further dump's name goes by how often the store
/// was opened, so it is asked for by three names; where one is that of the first dump, its receipt answers the commit.
const QUESTIONS: &[(&str, &str)] = &[
    ("GET /hosts", ""),
    ("GET /hosts/pc1/backups", ""),
    ("GET /hosts/pc1/partial", ""),
    ("GET /hosts/pc1/backups/0/list", ""),
    ("GET /hosts/pc1/backups/1/list", ""),
    ("GET /hosts/pc1/backups/0/file?path=a.txt", ""),
    ("GET /hosts/pc1/backups/1/file?path=a.txt", ""),
    ("GET /hosts/pc1/backups/2/file?path=p", ""),
    ("GET /stats", ""),
    ("POST /hosts/pc1/contacts?good=1", ""),
    ("POST /night/clean?bucket=5", ""),
    ("POST /night/sweep", ""),
    ("POST /hosts/pc1/dumps?kind=full", ""),
    ("PUT /dumps/1-0/entry?path=b&kind=file", "hello"),
    ("PUT /dumps/2-0/entry?path=b&kind=file", "hello"),
    ("PUT /dumps/3-0/entry?path=b&kind=file", "hello"),
    ("POST /dumps/1-0/commit", ""),
    ("POST /dumps/2-0/commit", ""),
    ("POST /dumps/3-0/commit", ""),
    ("GET /hosts/pc1/backups/0/file?path=b", ""),
    ("GET /hosts/pc1/backups/1/file?path=b", ""),
    ("GET /hosts/pc1/backups/2/file?path=b", ""),
    ("GET /hosts/pc1/backups/3/file?path=b", ""),
    (TOKEN_OPENING, ""),
    ("GET /stats", ""),
];

/// What is sent to ask them.
pub fn questions(alloc: Global) -> Result<Vec<u8>, AllocError> {
    let mut bytes = Vec::new(alloc);
    for (ask, body) in QUESTIONS {
        put_request(&mut bytes, alloc, ask, body)?;
    }
    Ok(bytes)
}

/// A state of the plain office: how many events of the script it has seen, and how often it was opened.
#[derive(Clone, Copy, Debug)]
pub struct State {
    pub events: usize,
    pub epoch: usize,
}

/// What it answers to the questions in a state.
#[derive(Drop)]
pub struct Said {
    pub state: State,
    pub output: Vec<u8>,
}

/// The plain office after these requests. Fails where it answers them otherwise than is written.
pub fn plain_after(alloc: Global, rows: &[Row]) -> Result<TreeOffice<Md5Namer>, Fail> {
    let mut office = TreeOffice::new(alloc, Md5Namer);
    let said = office_answers(alloc, &mut office, NOW, input_of(alloc, rows)?)?;
    let wanted = output_of(alloc, rows)?;
    expect(
        said.as_slice() == wanted.as_slice(),
        "the plain office answers otherwise",
    )?;
    Ok(office)
}

/// Opens the office again until its epoch is this one.
fn open_up_to(alloc: Global, office: &mut TreeOffice<Md5Namer>, epoch: usize) -> Result<(), Fail> {
    for _ in 1..epoch {
        let mut input = Vec::new(alloc);
        put_request(&mut input, alloc, "POST /reopen", "")?;
        let _ = office_answers(alloc, office, NOW, input)?;
    }
    Ok(())
}

/// What the plain office answers in a state.
pub fn said_in(alloc: Global, state: State) -> Result<Said, Fail> {
    let rows = rows_of(alloc, state.events)?;
    let mut office = plain_after(alloc, rows.as_slice())?;
    open_up_to(alloc, &mut office, state.epoch)?;
    let output = office_answers(alloc, &mut office, NOW, questions(alloc)?)?;
    Ok(Said { state, output })
}

/// The last epoch that an image is asked in: the first opening of the script, one that is stopped, and one more.
const EPOCHS: usize = 3;

/// Adds what it answers behind so many events, in each epoch.
fn add_epochs(alloc: Global, all: &mut Vec<Said>, events: usize) -> Result<(), Fail> {
    for epoch in 1..=EPOCHS {
        all.push(said_in(alloc, State { events, epoch })?)?;
    }
    Ok(())
}

/// What the plain office answers in all states.
pub fn all_said(alloc: Global) -> Result<Vec<Said>, Fail> {
    let mut all = Vec::new(alloc);
    for events in 0..=event_count() {
        add_epochs(alloc, &mut all, events)?;
    }
    Ok(all)
}

/// States: from one number of events and one epoch up to another.
#[derive(Clone, Copy, Debug)]
pub struct States {
    pub first: State,
    pub last: State,
}

fn is_within(state: State, states: States) -> bool {
    let State { events, epoch } = state;
    let States { first, last } = states;
    let has_seen = first.events <= events && events <= last.events;
    has_seen && first.epoch <= epoch && epoch <= last.epoch
}

/// The first of these states in which the plain office answers so.
pub fn state_of(all: &[Said], states: States, output: &[u8]) -> Option<State> {
    for said in all {
        if is_within(said.state, states) && said.output.as_slice() == output {
            return Some(said.state);
        }
    }
    None
}
