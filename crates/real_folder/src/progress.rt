//! How far a walk is, for a person at a terminal.

use crate::told::{Shown, tell, tell_for_now};
use attr_records::PathName;
use folder_trait::Progress;
use std::fmt;
use std::io::IsTerminal;
use std::time::{Clock, Duration};

/// For how many milliseconds a line stands before the next takes its place.
const STANDS: u64 = 100;

/// How far a walk is.
#[derive(Drop)]
struct Reached {
    entries: u64,
    bytes: u64,
    passed: u64,
    /// Since the walk began.
    time: Duration,
}

/// `120 entries, 4096 bytes, 1.5 MB/s`, and how many files were passed over, if any.
impl fmt::Display for Reached {
    fn fmt<W: fmt::Write>(&self, f: &mut fmt::Formatter<W>) -> fmt::Result {
        let entries = self.entries;
        let bytes = self.bytes;
        let time = u64::try_from(self.time.as_micros()).unwrap_or(u64::MAX);
        // bytes in a microsecond are megabytes in a second
        let tenths = bytes.saturating_mul(10).checked_div(time).unwrap_or(0);
        let whole = tenths / 10;
        let part = tenths % 10;
        write!(f, "{entries} entries, {bytes} bytes, {whole}.{part} MB/s")?;
        if self.passed > 0 {
            let passed = self.passed;
            write!(f, ", {passed} passed over")?;
        }
        Ok(())
    }
}

/// Says on standard error how far a walk is: on a terminal in one line, at most ten times a second; elsewhere not at all. A file that
/// has gone is told anywhere, as `gone: PATH`.
#[derive(Drop)]
pub struct ProgressLine {
    rt: HostRuntime,
    is_terminal: bool,
    began: Duration,
    told: Duration,
    entries: u64,
    bytes: u64,
    passed: u64,
}

impl ProgressLine {
    /// The walk begins now.
    pub fn new(rt: HostRuntime) -> ProgressLine {
        let now = rt.monotonic().unwrap_or(Duration::ZERO);
        ProgressLine {
            rt,
            is_terminal: rt.stderr().is_terminal(),
            began: now,
            told: now,
            entries: 0,
            bytes: 0,
            passed: 0,
        }
    }

    /// Says how far the walk came, as it has ended: on a terminal always, elsewhere only if a file was passed over.
    pub fn finish(&self) {
        if self.is_terminal || self.passed > 0 {
            tell(&self.rt, self.reached(self.now()));
        }
    }

    fn now(&self) -> Duration {
        self.rt.monotonic().unwrap_or(self.told)
    }

    fn reached(&self, now: Duration) -> Reached {
        Reached {
            entries: self.entries,
            bytes: self.bytes,
            passed: self.passed,
            time: now.saturating_sub(self.began),
        }
    }
}

impl Progress for ProgressLine {
    fn went_on(&mut self, entries: u64, bytes: u64) {
        self.entries = entries;
        self.bytes = bytes;
        if !self.is_terminal {
            return;
        }
        let now = self.now();
        if now.saturating_sub(self.told) >= Duration::from_millis(STANDS) {
            self.told = now;
            tell_for_now(&self.rt, self.reached(now));
        }
    }

    fn passed_over(&mut self, path: &PathName) {
        self.passed = self.passed.saturating_add(1);
        tell(&self.rt, format_args!("gone: {}", Shown::of(path)));
    }
}
