use crate::fault::Fault;
use std::alloc::Global;
use std::time::Instant;
use std::{fmt, io};

/// Where the lines go: standard output, a line for each step.
#[derive(Drop)]
pub struct Report {
    rt: HostRuntime,
    with_times: bool,
}

impl Report {
    pub fn new(rt: HostRuntime, with_times: bool) -> Report {
        Report { rt, with_times }
    }

    pub fn alloc(&self) -> Global {
        self.rt.alloc()
    }

    /// The moment at which a step begins.
    pub fn begin(&self) -> io::Result<Instant> {
        Instant::now(&self.rt)
    }

    /// The microseconds since a step began.
    pub fn micros_since(&self, begin: Instant) -> io::Result<u64> {
        let elapsed = begin.elapsed(&self.rt)?;
        Ok(u64::try_from(elapsed.as_micros()).unwrap_or(u64::MAX))
    }

    /// Prints the line of a step that took so many microseconds for so many messages of so many bytes in all.
    pub fn say(
        &self,
        micros: u64,
        count: u32,
        bytes: usize,
        what: impl fmt::Display + Drop,
    ) -> Result<(), Fault> {
        if !self.with_times {
            println!(self.rt; "{what}")?;
            return Ok(());
        }
        let a_second = (u64::from(count) * 1_000_000)
            .checked_div(micros)
            .unwrap_or(0);
        let megabytes = (bytes as u64).checked_div(micros).unwrap_or(0);
        println!(self.rt; "{what}; {micros} us, {a_second} a second, {megabytes} MB/s")?;
        Ok(())
    }
}
