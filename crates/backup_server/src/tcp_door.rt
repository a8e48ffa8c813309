ghost use Rattle.std.specs.Prelude.{None};

use crate::fault_count::FaultCount;
use crate::tcp_link::TcpLink;
use caller_doors::{Came, Door};
use std::alloc::Global;
use std::io::ErrorKind;
use std::net::{TcpListener, TcpStream};
use std::time::{Clock as Clocks, Duration};
use std::{io, thread};

/// For how many seconds a door waits before it tries again where no connection can be taken, as where too many files are open.
const PAUSE: u64 = 1;

/// How often it tries for one link, before it fails.
const MOST_TRIES: u32 = 600;

/// How often it tries without a pause, where a signal or the peer itself ended the call.
const MOST_CALLS: u32 = u32::MAX;

/// A door at a listener that other doors may share. It is closed after so many links, also where one of them failed. Where the
/// system gives it no connection it tries again each second, and fails after ten minutes. It tells none of its links.
#[derive(Drop)]
pub struct TcpDoor<'l, R> {
    rt: R,
    alloc: Global,
    listener: &'l TcpListener,
    left: u64,
    fault: Option<io::Error>,
    faults: FaultCount,
}

impl<'l, R> TcpDoor<'l, R> {
    /// A door for this number of links. One that is not to close takes `u64::MAX`, which no run uses up.
    pub fn new(rt: R, alloc: Global, listener: &'l TcpListener, links: u64) -> TcpDoor<'l, R> {
        TcpDoor {
            rt,
            alloc,
            listener,
            left: links,
            fault: None,
            faults: FaultCount::new(),
        }
    }

    /// Why it failed last, if it failed.
    pub fn fault(&self) -> Option<&io::Error> {
        self.fault.as_ref()
    }
}

impl<'l, R: Clocks + Send> Door for TcpDoor<'l, R> {
    type Link = TcpLink;

    ghost coming = { λ _. None };

    ghost given_back = { λ _. None };

    ghost takes_back = { λ _. Unit {0} };

    ghost most = { λ door. door.left };

    ghost faults = { λ door. door.faults };

    fn next(&mut self) -> Came<TcpLink> {
        if self.left == 0 {
            return Came::Closed;
        }
        match next_link(&self.rt, self.alloc, self.listener) {
            Ok(link) => {
                self.left -= 1;
                Came::Link(link)
            }
            Err(error) => {
                self.fault = Some(error);
                self.faults.raise();
                Came::Failed
            }
        }
    }

    fn done(&mut self, link: TcpLink) {
        link.close(&self.rt);
    }

    fn faults(&self) -> u64 {
        self.faults.value()
    }
}

/// A link over the next connection that comes, for which it waits. What the system refuses is tried again.
fn next_link<R: Clocks>(rt: &R, alloc: Global, listener: &TcpListener) -> io::Result<TcpLink> {
    for _ in 1..MOST_TRIES {
        match link_once(alloc, listener) {
            Ok(link) => return Ok(link),
            Err(_) => thread::sleep(rt, Duration::from_secs(PAUSE)),
        }
    }
    link_once(alloc, listener)
}

/// A link over the next connection. One over which none can be made is closed.
fn link_once(alloc: Global, listener: &TcpListener) -> io::Result<TcpLink> {
    TcpLink::new(alloc, accept_again(listener)?)
}

/// The next connection, also where a signal interrupted the waiting, or a peer left before its turn came.
fn accept_again(listener: &TcpListener) -> io::Result<TcpStream> {
    for _ in 0..MOST_CALLS {
        match listener.accept() {
            Ok((stream, _)) => return Ok(stream),
            Err(error) => match error.kind() {
                ErrorKind::Interrupted | ErrorKind::ConnectionAborted => {}
                _ => return Err(error),
            },
        }
    }
    Err(io::Error::from(ErrorKind::Interrupted))
}
