//! What `serve` works with: a listener, and workers whose doors share it. And the link of `pull` and `push-folder`, to another server.

use crate::system_clock::SystemClock;
use crate::tcp_door::TcpDoor;
use crate::tcp_link::TcpLink;
use admin_cli::Worker;
use std::alloc::AllocError;
use std::io;
use std::net::{TcpListener, TcpStream};
use stream_traits::OpenGate;

/// How many links are served beside each other.
const WORKERS: usize = 4;

/// A worker who serves the links that come to a listener.
pub type TcpWorker<'l> = Worker<TcpDoor<'l, HostRuntime>, SystemClock<HostRuntime>, OpenGate>;

/// Listens on an address, and says on standard error on which: at port 0 the system chose one.
pub fn listen_on(rt: &HostRuntime, address: &str) -> io::Result<TcpListener> {
    let listener = TcpListener::bind(rt, address)?;
    let bound = listener.local_addr()?;
    let _ = eprintln!(rt; "listening on {bound}");
    Ok(listener)
}

/// Workers who share a listener, each of whom leaves after so many links, if a number is given.
pub fn workers_at<'l>(
    rt: &HostRuntime,
    listener: &'l TcpListener,
    connections: Option<u32>,
) -> Result<Vec<TcpWorker<'l>>, AllocError> {
    let alloc = rt.alloc();
    let links = match connections {
        Some(links) => u64::from(links),
        None => u64::MAX,
    };
    let mut workers = Vec::with_capacity(alloc, WORKERS)?;
    for _ in 0..WORKERS {
        workers.push(Worker {
            door: TcpDoor::new(*rt, alloc, listener, links),
            clock: SystemClock::new(*rt),
            gate: OpenGate,
        })?;
    }
    Ok(workers)
}

/// A link to the server that listens on an address.
pub fn link_to(rt: &HostRuntime, address: &str) -> io::Result<TcpLink> {
    TcpLink::new(rt.alloc(), TcpStream::connect(rt, address)?)
}

/// Says on standard error why a door failed, if one did.
pub fn explain_doors(rt: &HostRuntime, workers: &[TcpWorker<'_>]) {
    for worker in workers {
        if let Some(error) = worker.door.fault() {
            let _ = eprintln!(rt; "no connection can be taken: {error}");
            return;
        }
    }
}
