//! Four connections to one store whose requests are answered in an order that is set: each is answered as by the office in memory.

use crate::runs::{
    Case, ListWorker, Machine, NEVER, PIPE, SERVE, SERVED, TURNS, expect_end, expect_sent,
    new_clock, new_disk, quiet_link, run_at, run_over, worker_with,
};
use backup_rules::Rules;
use browse_http::{Interface, Served, serve_connection};
use disk_trait::MemoryDisk;
use pool_name::Md5Namer;
use request_events::Defaults;
use std::alloc::{AllocError, Global};
use std::collections::VecDeque;
use std::sync::atomic::{AtomicU64, Ordering};
use std::test::Fail;
use stream_traits::{Gate, MemoryLink, OpenGate};
use tree_office::TreeOffice;
use wake_schedule::Zone;

/// A gate that holds each request of a connection until its step is due. The gates of all connections share what is due; one step
/// is so when the request of the step before was answered. Requests behind a connection's last step aren't held.
#[derive(Drop)]
struct StepGate<'a> {
    /// The step that is due.
    due: &'a AtomicU64,
    /// The steps of the requests to come.
    steps: VecDeque<u64>,
    /// The step of the request before.
    before: Option<u64>,
    /// Whether a step didn't become due.
    missed: bool,
}

impl<'a> Gate for StepGate<'a> {
    // The request before was answered.
    fn hold(&mut self, _index: u64) {
        if let Some(step) = self.before {
            self.due.store(step.saturating_add(1), Ordering::SeqCst);
        }
        self.before = self.steps.pop_front();
        if let Some(step) = self.before {
            self.missed = self.missed || !is_due(self.due, step);
        }
    }
}

/// Waits until a step is due, and says whether it became so.
fn is_due(due: &AtomicU64, step: u64) -> bool {
    for _ in 0..TURNS {
        if due.load(Ordering::SeqCst) == step {
            return true;
        }
    }
    false
}

/// The worker that asks, the method and the target of its request, and the body.
#[derive(Clone, Copy)]
struct Row(usize, &'static str, &'static str);

/// All requests, in the order of their steps. The first two workers dump hosts of their own, the other two meet on one host.
const ROWS: &[Row] = &[
    Row(0, "PUT /hosts/pc1", ""),
    Row(1, "PUT /hosts/pc2", ""),
    Row(2, "PUT /hosts/pc3", ""),
    Row(3, "PUT /hosts/pc3", ""),
    Row(2, "PUT /hosts/pc3/rules?IncrKeepCnt=1&IncrKeepCntMin=0", ""),
    Row(3, "POST /hosts/pc3/dumps?kind=incr", ""),
    Row(3, "DELETE /dumps/1-0", ""),
    Row(0, "POST /hosts/pc1/dumps?kind=full", ""),
    Row(1, "POST /hosts/pc2/dumps?kind=full", ""),
    Row(2, "POST /hosts/pc3/dumps?kind=full", ""),
    Row(3, "POST /hosts/pc3/dumps?kind=full", ""),
    Row(3, "PUT /dumps/1-3/entry?path=x&kind=file", "of the other"),
    Row(0, "PUT /dumps/1-1/entry?path=a&kind=file", "one"),
    Row(1, "PUT /dumps/1-2/entry?path=d&kind=dir", ""),
    Row(1, "PUT /dumps/1-2/entry?path=d/a&kind=file", "one"),
    Row(2, "PUT /dumps/1-3/entry?path=x/y&kind=file", "no"),
    Row(2, "PUT /dumps/1-3/entry?path=l&kind=link", "../x"),
    Row(0, "POST /dumps/1-1/commit", ""),
    Row(3, "GET /hosts/pc1/backups/0/file?path=a", ""),
    Row(1, "GET /hosts/pc2/backups/0/list", ""),
    Row(2, "POST /dumps/1-3/commit", ""),
    Row(3, "POST /dumps/1-3/commit", ""),
    Row(3, "POST /hosts/pc3/dumps?kind=incr", ""),
    Row(2, "POST /hosts/pc3/dumps?kind=incr", ""),
    Row(2, "GET /hosts/pc3/backups", ""),
    Row(1, "POST /dumps/1-2/commit", ""),
    Row(3, "PUT /dumps/1-4/entry?path=x&kind=file", "again"),
    Row(2, "DELETE /hosts/pc3/backups/0", ""),
    Row(0, "GET /hosts/pc2/backups/0/file?path=d/a", ""),
    Row(3, "POST /dumps/1-4/commit", ""),
    Row(2, "GET /hosts/pc3/backups/1/file?path=x", ""),
    Row(1, "POST /hosts/pc2/backups/0/restores", ""),
    Row(0, "DELETE /hosts/pc2/backups/0", ""),
    Row(1, "GET /restores/1-5/next", ""),
    Row(0, "GET /restores/1-5/next", ""),
    Row(2, "POST /hosts/pc3/dumps?kind=incr", ""),
    Row(3, "DELETE /dumps/1-6/entry?path=l", ""),
    Row(2, "POST /dumps/1-6/commit", ""),
    Row(3, "POST /hosts/pc3/dumps?kind=incr", ""),
    Row(3, "POST /dumps/1-7/commit", ""),
    Row(2, "POST /hosts/pc3/backups/0/keep?on=1", ""),
    Row(3, "DELETE /hosts/pc3/backups/0", ""),
    Row(2, "POST /hosts/pc3/expire", ""),
    Row(3, "GET /hosts/pc3/backups", ""),
    Row(3, "DELETE /hosts/pc3/backups/9", ""),
    Row(1, "DELETE /restores/1-5", ""),
    Row(0, "POST /night/clean?bucket=0", ""),
    Row(1, "POST /night/sweep", ""),
    Row(0, "GET /stats", ""),
    Row(0, "POST /hosts/pc1/dumps?kind=incr", ""),
    Row(1, "GET /hosts", ""),
];

/// What each worker asks last, which nothing changes.
const LAST: &str = "GET /hosts/pc9/due";

/// Asks the next run what is there.
const QUESTIONS: &[Row] = &[
    Row(0, "GET /hosts", ""),
    Row(0, "GET /hosts/pc1/backups", ""),
    Row(0, "GET /hosts/pc2/backups", ""),
    Row(0, "GET /hosts/pc3/backups", ""),
    Row(0, "GET /hosts/pc1/backups/0/file?path=a", ""),
    Row(0, "GET /hosts/pc3/backups/0/list", ""),
    Row(0, "GET /hosts/pc3/backups/0/file?path=x", ""),
    Row(0, "GET /hosts/pc3/backups/3/list", ""),
    Row(0, "GET /hosts/pc3/backups/3/file?path=x", ""),
    Row(0, "GET /stats", ""),
];

/// A request of this method and target.
fn request(alloc: Global, ask: &str, body: &str) -> Result<String, AllocError> {
    let count = body.len();
    format!(in alloc; "{ask} HTTP/1.1\r\nHost: b\r\nContent-Length: {count}\r\n\r\n{body}")
}

/// What a worker sends to ask its part of these.
fn input_of(alloc: Global, rows: &[Row], worker: usize) -> Result<String, AllocError> {
    let mut text = String::new(alloc);
    for row in rows {
        if row.0 == worker {
            text.push_str(request(alloc, row.1, row.2)?.as_str())?;
        }
    }
    Ok(text)
}

/// The steps of a worker's requests.
fn steps_of(alloc: Global, rows: &[Row], worker: usize) -> Result<VecDeque<u64>, Fail> {
    let mut steps = VecDeque::new(alloc);
    let mut step = 0u64;
    for row in rows {
        if row.0 == worker {
            steps.push_back(step)?;
        }
        step = step.saturating_add(1);
    }
    Ok(steps)
}

/// A worker with one link, over which it asks its part at its steps.
fn stepper<'a>(
    alloc: Global,
    due: &'a AtomicU64,
    worker: usize,
) -> Result<ListWorker<StepGate<'a>>, Fail> {
    let mut input = input_of(alloc, ROWS, worker)?;
    input.push_str(request(alloc, LAST, "")?.as_str())?;
    let mut links = VecDeque::new(alloc);
    links.push_back(quiet_link(alloc, input.as_str())?)?;
    let gate = StepGate {
        due,
        steps: steps_of(alloc, ROWS, worker)?,
        before: None,
        missed: false,
    };
    worker_with(alloc, links, NEVER, gate)
}

/// The interface with the default rules, and UTC.
fn interface(alloc: Global) -> Result<Interface, Fail> {
    let Ok(zone) = Zone::read("UTC") else {
        return Err(Fail::new("no zone"));
    };
    let rules = Rules::defaults(alloc)?;
    Ok(Interface::new(alloc, Defaults { rules, zone })?)
}

/// Serves a connection with this input from the office, and gives its link back.
fn told(alloc: Global, office: &mut TreeOffice<Md5Namer>, input: &str) -> Result<MemoryLink, Fail> {
    let link = quiet_link(alloc, input)?;
    let Served { link, .. } = serve_connection(
        alloc,
        office,
        link,
        &mut new_clock(),
        &mut OpenGate,
        &interface(alloc)?,
    );
    Ok(link)
}

/// What the office answers to one worker, if all requests come in the order of their steps.
fn answers_to(
    alloc: Global,
    office: &mut TreeOffice<Md5Namer>,
    worker: usize,
) -> Result<Vec<u8>, Fail> {
    let mut answers = Vec::new(alloc);
    for row in ROWS {
        let link = told(alloc, office, request(alloc, row.1, row.2)?.as_str())?;
        if row.0 == worker {
            answers.extend_from_slice(link.output())?;
        }
    }
    let link = told(alloc, office, request(alloc, LAST, "")?.as_str())?;
    answers.extend_from_slice(link.output())?;
    Ok(answers)
}

/// Fails where a worker's requests weren't answered at their steps as by the office.
fn expect_as_office(
    alloc: Global,
    served: &ListWorker<StepGate<'_>>,
    worker: usize,
) -> Result<(), Fail> {
    if served.gate.missed || !served.gate.steps.is_empty() {
        return Err(Fail::new(format_args!("worker {worker} missed a step")));
    }
    let mut office = TreeOffice::new(alloc, Md5Namer);
    let answers = answers_to(alloc, &mut office, worker)?;
    match served.door.served() {
        [link] => expect_sent(alloc, link, answers.as_slice()),
        _ => Err(Fail::new(format_args!("worker {worker} has no one link"))),
    }
}

/// Fails where the next run tells anything else than the office does, which is opened again, too: the dump that is open is gone
/// from both.
fn expect_same_after(rt: &impl Machine, disk: MemoryDisk) -> Result<(), Fail> {
    let alloc = rt.alloc();
    let mut office = TreeOffice::new(alloc, Md5Namer);
    let _ = answers_to(alloc, &mut office, 0)?;
    let _ = told(
        alloc,
        &mut office,
        request(alloc, "POST /reopen", "")?.as_str(),
    )?;
    let questions = input_of(alloc, QUESTIONS, 0)?;
    let case = Case {
        input: questions.as_str(),
        ..PIPE
    };
    let done = run_over(rt, &case, disk)?;
    let link = told(alloc, &mut office, questions.as_str())?;
    expect_sent(alloc, &done.link, link.output())
}

#[test]
fn four_connections_are_answered_as_by_the_office(rt: HostRuntime) -> Result<(), Fail> {
    let alloc = rt.alloc();
    let due = AtomicU64::new(0);
    let mut workers = Vec::new(alloc);
    for worker in 0..4 {
        workers.push(stepper(alloc, &due, worker)?)?;
    }
    let done = run_at(&rt, &SERVE, new_disk(alloc, NEVER)?, workers)?;
    expect_end(alloc, &done, &SERVED)?;
    for (worker, served) in done.workers.iter().enumerate() {
        expect_as_office(alloc, served, worker)?;
    }
    expect_same_after(&rt, done.disk)
}
