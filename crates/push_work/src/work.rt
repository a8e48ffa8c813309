//! The work of a push.

ghost use Rattle.std.specs.Prelude.{◌≡◌};
ghost use Rattle.stream_traits.specs.Seen.{seen_of};
ghost use Rattle.push_work.specs.Pushes.{Pushes};

use crate::ends::{PushEnd, end_of};
use attr_records::HostName;
use backup_rules::Kind;
use folder_trait::{Folder, Progress};
use folder_walk::dump_folder;
use http_wire::Wire;
use push_codec::PushCodec;
use remote_port::RemotePort;
use std::alloc::Global;
use stream_traits::{Clock, Faults, Link};

/// What came of a push.
#[derive(Drop)]
pub struct PushDone<L> {
    pub end: PushEnd,
    pub link: L,
}

/// Makes a folder the next backup of a host on the server to which a link leads. The link is to be a new connection.
///
/// A full dump puts all of the folder. An incremental one begins with the tree of the host's last backup there, which is listed; what the
/// folder lacks of it is removed. Each call of the dump is a request, and no more is written until its response was read. It ends at
/// the first refusal, and an open dump is then aborted; or at the first response that says no reply, and then nothing more is asked. The
/// clock is read twice, as for a dump at home, but the server takes its own moments. `progress` is told how far it is. The folder stays as
/// it was.
pub fn push_folder<L: Link, F: Folder, C: Clock, G: Progress>(
    alloc: Global,
    link: L,
    folder: &mut F,
    host: HostName,
    kind: Kind,
    clock: &mut C,
    progress: &mut G,
) -> PushDone<L>
    ensures { Pushes ⟦<F as Folder>⟧ (seen_of ⟦<L as Faults>⟧ link) (seen_of ⟦<L as Faults>⟧ result.link) folder.old folder.new
        (C.moments clock.old) (C.moments clock.new) kind host result.end }
{
    let wire = Wire::new(alloc, link);
    let mut port: RemotePort<L, PushCodec> = RemotePort::new(wire);
    let dumped = dump_folder(alloc, &mut port, folder, &host, kind, clock, progress);
    let ended = port.end();
    let wire = port.into_wire();
    let link = wire.into_link();
    PushDone {
        end: end_of(host, dumped, ended),
        link,
    }
}
