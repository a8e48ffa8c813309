ghost use Rattle.std.specs.Prelude.{None};

use crate::fault_count::FaultCount;
use crate::standard_streams::{read_again, write_again};
use std::alloc::Global;
use std::io;
use std::io::{BufWriter, Read, Write};
use std::net::{Shutdown, TcpStream};
use std::time::{Clock as Clocks, Duration, Instant};
use stream_traits::{Failed, Faults, Link, Sink, Source};

/// How many bytes wait at most before they are sent.
const PIECE: usize = 16_384;

/// For how many seconds a peer may be silent, or not take what is sent, before its link fails.
const PATIENCE: u64 = 60;

/// For how many seconds what a peer still sends is dropped, at most, once its link is done with.
const LINGER: u64 = 2;

/// How many bytes of it, at most.
const MOST_DROPPED: usize = 1 << 20;

/// A link over a TCP connection, which sends at once what is flushed. A peer that is silent for 60 seconds, or doesn't take its
/// answer for so long, is a failed link. It tells nothing of its bytes.
#[derive(Drop)]
pub struct TcpLink {
    output: BufWriter<TcpStream>,
    faults: FaultCount,
}

impl TcpLink {
    /// Fails for want of memory, or where the system takes none of the stream's options.
    pub fn new(alloc: Global, stream: TcpStream) -> io::Result<TcpLink> {
        let patience = Some(Duration::from_secs(PATIENCE));
        stream.set_nodelay(true)?;
        stream.set_read_timeout(patience)?;
        stream.set_write_timeout(patience)?;
        Ok(TcpLink {
            output: BufWriter::with_capacity(alloc, PIECE, stream)?,
            faults: FaultCount::new(),
        })
    }

    /// Closes the connection so that the peer gets all that was sent: the writing side first, and the other once the peer has
    /// closed its own, or 1 MiB or two seconds of what it still sent were dropped.
    pub fn close<R: Clocks>(self, rt: &R) {
        let (stream, _) = self.output.into_parts();
        let _ = end_writing(rt, &stream);
    }
}

/// Closes the writing side, and drops what still comes.
fn end_writing<R: Clocks>(rt: &R, stream: &TcpStream) -> io::Result<()> {
    stream.shutdown(Shutdown::Write)?;
    let start = Instant::now(rt)?;
    let mut room = [0; 4_096];
    let mut left = MOST_DROPPED;
    while left > 0 {
        let Some(time) = Duration::from_secs(LINGER).checked_sub(start.elapsed(rt)?) else {
            return Ok(());
        };
        stream.set_read_timeout(Some(time))?;
        let mut input = stream;
        match read_again(&mut input, &mut room)? {
            0 => return Ok(()),
            count => left = left.saturating_sub(count),
        }
    }
    Ok(())
}

impl Faults for TcpLink {
    ghost left = { λ _. None };

    ghost written = { λ _. None };

    ghost sent = { λ _. None };

    ghost faults = { λ link. link.faults };

    fn faults(&self) -> u64 {
        self.faults.value()
    }
}

impl Source for TcpLink {
    fn read(&mut self, room: &mut [u8]) -> Result<usize, Failed> {
        let mut input = self.output.get_ref();
        match read_again(&mut input, room) {
            Ok(count) => Ok(count),
            Err(_) => {
                self.faults.raise();
                Err(Failed)
            }
        }
    }
}

impl Sink for TcpLink {
    fn write(&mut self, bytes: &[u8]) -> Result<usize, Failed> {
        match write_again(&mut self.output, bytes) {
            Ok(count) if count > 0 || bytes.is_empty() => Ok(count),
            _ => {
                self.faults.raise();
                Err(Failed)
            }
        }
    }

    fn flush(&mut self) -> Result<(), Failed> {
        match self.output.flush() {
            Ok(()) => Ok(()),
            Err(_) => {
                self.faults.raise();
                Err(Failed)
            }
        }
    }
}

impl Link for TcpLink {}
