ghost use Rattle.std.specs.Prelude.{None, ◌≤◌, length, IfOk};

use crate::fault_count::FaultCount;
use std::alloc::Global;
use std::io;
use std::io::{BufReader, BufWriter, ErrorKind, Read, Write};
use stream_traits::{Failed, Faults, Link, Sink, Source};

/// How many bytes each buffer holds.
const PIECE: usize = 65_536;

/// How often a call that a signal interrupted is tried again.
const MOST_TRIES: u32 = u32::MAX;

/// Reads once, and again where a signal interrupted it.
pub(crate) fn read_again<I: Read>(input: &mut I, room: &mut [u8]) -> io::Result<usize>
    ensures { IfOk result (λ count. count ≤ length room.new) }
{
    for _ in 0..MOST_TRIES {
        match input.read(room) {
            Ok(count) => return Ok(count),
            Err(error) => {
                if error.kind() != ErrorKind::Interrupted {
                    return Err(error);
                }
            }
        }
    }
    Err(io::Error::from(ErrorKind::Interrupted))
}

/// Writes once, and again where a signal interrupted it.
pub(crate) fn write_again<O: Write>(output: &mut O, bytes: &[u8]) -> io::Result<usize>
    ensures { IfOk result (λ count. count ≤ length bytes.now) }
{
    for _ in 0..MOST_TRIES {
        match output.write(bytes) {
            Ok(count) => return Ok(count),
            Err(error) => {
                if error.kind() != ErrorKind::Interrupted {
                    return Err(error);
                }
            }
        }
    }
    Err(io::Error::from(ErrorKind::Interrupted))
}

/// A link that reads from one stream of the system and writes to another, each through a buffer. It
/// tells nothing of their bytes.
#[derive(Drop)]
pub struct StandardStreams<I: Read + Drop, O: Write + Drop> {
    input: BufReader<I>,
    output: BufWriter<O>,
    faults: FaultCount,
}

impl<I: Read + Drop, O: Write + Drop> StandardStreams<I, O> {
    /// Fails only for want of memory.
    pub fn new(alloc: Global, input: I, output: O) -> io::Result<StandardStreams<I, O>> {
        let input = BufReader::with_capacity(alloc, PIECE, input)?;
        let output = BufWriter::with_capacity(alloc, PIECE, output)?;
        Ok(StandardStreams {
            input,
            output,
            faults: FaultCount::new(),
        })
    }
}

impl<I: Read + Drop, O: Write + Drop> Faults for StandardStreams<I, O> {
    ghost left = { λ _. None };

    ghost written = { λ _. None };

    ghost sent = { λ _. None };

    ghost faults = { λ streams. streams.faults };

    fn faults(&self) -> u64 {
        self.faults.value()
    }
}

impl<I: Read + Drop, O: Write + Drop> Source for StandardStreams<I, O> {
    fn read(&mut self, room: &mut [u8]) -> Result<usize, Failed> {
        match read_again(&mut self.input, room) {
            Ok(count) => Ok(count),
            Err(_) => {
                self.faults.raise();
                Err(Failed)
            }
        }
    }
}

impl<I: Read + Drop, O: Write + Drop> Sink for StandardStreams<I, O> {
    fn write(&mut self, bytes: &[u8]) -> Result<usize, Failed> {
        match write_again(&mut self.output, bytes) {
            Ok(count) if count > 0 || bytes.is_empty() => Ok(count),
            _ => {
                self.faults.raise();
                Err(Failed)
            }
        }
    }

    fn flush(&mut self) -> Result<(), Failed> {
        match self.output.flush() {
            Ok(()) => Ok(()),
            Err(_) => {
                self.faults.raise();
                Err(Failed)
            }
        }
    }
}

impl<I: Read + Drop, O: Write + Drop> Link for StandardStreams<I, O> {}
