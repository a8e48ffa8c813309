//! The calls, each one exchange.

ghost use Rattle.std.specs.Prelude.{IsErrOf};
ghost use Rattle.fault_counts.specs.Counts.{Counted};
ghost use Rattle.http_wire.specs.Wires.{faults_of, seen_of};
ghost use Rattle.office_model.specs.declared.event.Event.{Event};
ghost use Rattle.restore_stream.specs.OneFrame.{IsFrameOf};
ghost use Rattle.peer_asks.specs.Asks.{Asks, Closes, IsListing, IsOpened};

use crate::asking::{ask, found};
use attr_records::HostName;
use http_wire::Wire;
use listing_back::{Listing, read_listing, read_opened};
use office_model::{Event, SessionName};
use peer_exchange::PeerFault;
use restore_stream::{Frame, read_frame};
use std::alloc::Global;
use stream_traits::{Faults, Link};

/// The backups of a host, the number of the next one, and the dump that is open.
pub fn list_backups<L: Link>(
    alloc: Global,
    wire: &mut Wire<L>,
    host: &HostName,
) -> Result<Listing, PeerFault>
    ensures asked { Asks (seen_of wire.old) (seen_of wire.new) (Event.Backups host.now) 200 IsListing result }
    ensures counted { Counted (faults_of wire.old) (faults_of wire.new) (IsErrOf result PeerFault.Link) }
{
    let Ok(host) = host.copy(alloc) else {
        return Err(PeerFault::Memory);
    };
    let event = Event::Backups { host };
    match ask(alloc, wire, &event, 200) {
        Ok(body) => found(read_listing(alloc, body.as_slice())),
        Err(fault) => Err(fault),
    }
}

/// Opens a restore of a backup; with a base, of what leads from there to it. Where this comes to a fault, the other server may have
/// opened one all the same.
pub fn open_restore<L: Link>(
    alloc: Global,
    wire: &mut Wire<L>,
    host: &HostName,
    number: u32,
    base: Option<u32>,
) -> Result<SessionName, PeerFault>
    ensures asked { Asks (seen_of wire.old) (seen_of wire.new) (Event.OpenRead host.now number base) 201 IsOpened result }
    ensures counted { Counted (faults_of wire.old) (faults_of wire.new) (IsErrOf result PeerFault.Link) }
{
    let Ok(host) = host.copy(alloc) else {
        return Err(PeerFault::Memory);
    };
    let event = Event::OpenRead { host, number, base };
    match ask(alloc, wire, &event, 201) {
        Ok(body) => found(read_opened(alloc, body.as_slice())),
        Err(fault) => Err(fault),
    }
}

/// The next frame of an open restore.
pub fn next_frame<L: Link>(
    alloc: Global,
    wire: &mut Wire<L>,
    restore: SessionName,
) -> Result<Frame, PeerFault>
    ensures asked { Asks (seen_of wire.old) (seen_of wire.new) (Event.ReadNext restore) 200 IsFrameOf result }
    ensures counted { Counted (faults_of wire.old) (faults_of wire.new) (IsErrOf result PeerFault.Link) }
{
    let event = Event::ReadNext { restore };
    match ask(alloc, wire, &event, 200) {
        Ok(body) => found(read_frame(alloc, body.as_slice())),
        Err(fault) => Err(fault),
    }
}

/// Closes a restore.
pub fn close_restore<L: Link>(
    alloc: Global,
    wire: &mut Wire<L>,
    restore: SessionName,
) -> Result<(), PeerFault>
    ensures asked { Closes (seen_of wire.old) (seen_of wire.new) (Event.CloseRead restore) 200 result }
    ensures counted { Counted (faults_of wire.old) (faults_of wire.new) (IsErrOf result PeerFault.Link) }
{
    let event = Event::CloseRead { restore };
    match ask(alloc, wire, &event, 200) {
        Ok(_) => Ok(()),
        Err(fault) => Err(fault),
    }
}
