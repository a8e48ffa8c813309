//! Scripts: what is asked at which moment and what is to be answered, in steps of which some are several requests.

use crate::talks::{
    ABSENT, MADE, Machine, OK, Row, START, Says, pipe, put_answer, put_request, put_response,
};
use admin_cli::Note;
use disk_trait::MemoryDisk;
use pool_name::Md5Namer;
use std::alloc::{AllocError, Global};
use std::test::Fail;

/// A file that a dump puts: its path, and its bytes.
#[derive(Clone, Copy)]
pub struct Put(pub &'static str, pub &'static str);

/// Requests for the host `pc1`, with the answers to them.
#[derive(Clone, Copy)]
pub enum Step {
    Ask(Row),
    /// A resource is read: the target, and the answer in JSON.
    Read(&'static str, &'static str),
    /// A dump begins: its number, which becomes its backup's, in a store that was opened once, and its kind.
    Open(usize, &'static str),
    /// A dump ends.
    Commit(usize),
    /// A dump from its beginning to its end, with files.
    Dump(usize, &'static str, &'static [Put]),
    /// The rules are followed, which delete so many backups.
    Expire(usize),
    /// The backup of this number is there, without entries.
    Held(usize),
    /// The backup of this number isn't there.
    Gone(usize),
    /// The backup of this number has this file.
    File(usize, &'static str, &'static [u8]),
    /// There is no backup of this number to have this file.
    NoFile(usize, &'static str),
    /// Whether there is a blackout, and what is due.
    Due(bool, &'static str),
    /// A contact, which is good if the first number is 1, and how many bad and good ones are counted then.
    Contact(u32, u32, u32),
    /// This bucket is cleaned, which marks, removes and unmarks so many contents.
    Clean(u32, u32, u32, u32),
}

const NO_ENTRIES: Says = Says::Json(OK, "{\"entries\":[]}");

const NO_BACKUP: Says = Says::Json(ABSENT, "{\"refused\":\"NoBackup\"}");

/// A step at a moment.
#[derive(Clone, Copy)]
pub struct At(pub u64, pub Step);

/// What is sent, the moment of each request, and what comes back if all is answered as it is to be.
#[derive(Drop)]
pub struct Script {
    alloc: Global,
    pub moments: Vec<u64>,
    pub input: Vec<u8>,
    pub output: Vec<u8>,
}

impl Script {
    /// A script in which nothing is asked.
    pub fn new(alloc: Global) -> Script {
        Script {
            alloc,
            moments: Vec::new(alloc),
            input: Vec::new(alloc),
            output: Vec::new(alloc),
        }
    }

    /// Adds a request without its answer.
    fn ask(&mut self, at: u64, ask: &str, body: &str) -> Result<(), AllocError> {
        self.moments.push(at)?;
        put_request(&mut self.input, self.alloc, ask, body)
    }

    /// Adds an answer in JSON.
    fn answer(&mut self, status: &str, json: &str) -> Result<(), AllocError> {
        put_response(
            &mut self.output,
            self.alloc,
            status,
            "json",
            json.as_bytes(),
        )
    }

    fn add_row(&mut self, at: u64, row: &Row) -> Result<(), AllocError> {
        self.ask(at, row.0, row.1)?;
        put_answer(&mut self.output, self.alloc, row.2)
    }

    fn add_put(&mut self, at: u64, number: usize, put: &Put) -> Result<(), AllocError> {
        let path = put.0;
        let ask = format!(in self.alloc; "PUT /dumps/1-{number}/entry?path={path}&kind=file")?;
        self.ask(at, ask.as_str(), put.1)?;
        self.answer(OK, "{}")
    }

    fn add_read(&mut self, at: u64, target: &str, json: &str) -> Result<(), AllocError> {
        let ask = format!(in self.alloc; "GET {target}")?;
        self.ask(at, ask.as_str(), "")?;
        self.answer(OK, json)
    }

    fn add_open(&mut self, at: u64, number: usize, kind: &str) -> Result<(), AllocError> {
        let ask = format!(in self.alloc; "POST /hosts/pc1/dumps?kind={kind}")?;
        self.ask(at, ask.as_str(), "")?;
        let json = format!(in self.alloc; "{{\"dump\":\"1-{number}\"}}")?;
        self.answer(MADE, json.as_str())
    }

    fn add_commit(&mut self, at: u64, number: usize) -> Result<(), AllocError> {
        let ask = format!(in self.alloc; "POST /dumps/1-{number}/commit")?;
        self.ask(at, ask.as_str(), "")?;
        let json = format!(in self.alloc; "{{\"number\":{number}}}")?;
        self.answer(MADE, json.as_str())
    }

    fn add_dump(
        &mut self,
        at: u64,
        number: usize,
        kind: &str,
        puts: &[Put],
    ) -> Result<(), AllocError> {
        self.add_open(at, number, kind)?;
        for put in puts {
            self.add_put(at, number, put)?;
        }
        self.add_commit(at, number)
    }

    fn add_expire(&mut self, at: u64, deleted: usize) -> Result<(), AllocError> {
        self.ask(at, "POST /hosts/pc1/expire", "")?;
        let json = format!(in self.alloc; "{{\"deleted\":{deleted}}}")?;
        self.answer(OK, json.as_str())
    }

    fn add_list(&mut self, at: u64, number: usize, says: Says) -> Result<(), AllocError> {
        let ask = format!(in self.alloc; "GET /hosts/pc1/backups/{number}/list")?;
        self.ask(at, ask.as_str(), "")?;
        put_answer(&mut self.output, self.alloc, says)
    }

    fn add_file(
        &mut self,
        at: u64,
        number: usize,
        path: &str,
        says: Says,
    ) -> Result<(), AllocError> {
        let ask = format!(in self.alloc; "GET /hosts/pc1/backups/{number}/file?path={path}")?;
        self.ask(at, ask.as_str(), "")?;
        put_answer(&mut self.output, self.alloc, says)
    }

    fn add_due(&mut self, at: u64, blackout: bool, due: &str) -> Result<(), AllocError> {
        self.ask(at, "GET /hosts/pc1/due", "")?;
        let json = format!(in self.alloc; "{{\"blackout\":{blackout},\"due\":\"{due}\"}}")?;
        self.answer(OK, json.as_str())
    }

    fn add_contact(&mut self, at: u64, given: u32, bad: u32, good: u32) -> Result<(), AllocError> {
        let ask = format!(in self.alloc; "POST /hosts/pc1/contacts?good={given}")?;
        self.ask(at, ask.as_str(), "")?;
        let json = format!(in self.alloc; "{{\"bad\":{bad},\"good\":{good}}}")?;
        self.answer(OK, json.as_str())
    }

    fn add_clean(&mut self, at: u64, bucket: u32, counts: [u32; 3]) -> Result<(), AllocError> {
        let [marked, removed, unmarked] = counts;
        let ask = format!(in self.alloc; "POST /night/clean?bucket={bucket}")?;
        self.ask(at, ask.as_str(), "")?;
        let json = format!(in self.alloc;
            "{{\"marked\":{marked},\"removed\":{removed},\"unmarked\":{unmarked}}}"
        )?;
        self.answer(OK, json.as_str())
    }

    /// Adds a step.
    pub fn add(&mut self, at: u64, step: &Step) -> Result<(), AllocError> {
        match *step {
            Step::Ask(row) => self.add_row(at, &row),
            Step::Read(target, json) => self.add_read(at, target, json),
            Step::Open(number, kind) => self.add_open(at, number, kind),
            Step::Commit(number) => self.add_commit(at, number),
            Step::Dump(number, kind, puts) => self.add_dump(at, number, kind, puts),
            Step::Expire(deleted) => self.add_expire(at, deleted),
            Step::Held(number) => self.add_list(at, number, NO_ENTRIES),
            Step::Gone(number) => self.add_list(at, number, NO_BACKUP),
            Step::File(number, path, bytes) => self.add_file(at, number, path, Says::Bytes(bytes)),
            Step::NoFile(number, path) => self.add_file(at, number, path, NO_BACKUP),
            Step::Due(blackout, due) => self.add_due(at, blackout, due),
            Step::Contact(given, bad, good) => self.add_contact(at, given, bad, good),
            Step::Clean(bucket, marked, removed, unmarked) => {
                self.add_clean(at, bucket, [marked, removed, unmarked])
            }
        }
    }

    /// Adds steps, each at its moment.
    pub fn add_all(&mut self, steps: &[At]) -> Result<(), AllocError> {
        for At(at, step) in steps {
            self.add(*at, step)?;
        }
        Ok(())
    }
}

/// Asks, fails where the run doesn't end with status 0 or something is answered otherwise, and gives the disk back.
pub fn expect_script(
    rt: &impl Machine,
    disk: MemoryDisk,
    script: Script,
) -> Result<MemoryDisk, Fail> {
    let Script {
        moments,
        input,
        output,
        ..
    } = script;
    let done = pipe(rt, disk, Md5Namer, moments.as_slice(), input)?;
    if done.note == Note::Nothing && done.link.output() == output.as_slice() {
        return Ok(done.disk);
    }
    let note = &done.note;
    let said = String::from_utf8_lossy(rt.alloc(), done.link.output())?;
    Err(Fail::new(format_args!("{note:?}, {said}")))
}

/// Asks these steps, all at one moment; fails and gives the disk back likewise.
pub fn expect_steps(
    rt: &impl Machine,
    disk: MemoryDisk,
    steps: &[Step],
) -> Result<MemoryDisk, Fail> {
    let mut script = Script::new(rt.alloc());
    for step in steps {
        script.add(START, step)?;
    }
    expect_script(rt, disk, script)
}
