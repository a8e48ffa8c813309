//! The frames of a restore, which are laid into a dump.

ghost use Rattle.std.specs.Prelude.{◌≡◌, ◌≢◌, ◌<◌, ℕ, IfErr, IsErrOf};
ghost use Rattle.fault_counts.specs.Counts.{Counted};
ghost use Rattle.stream_traits.specs.Seen.{LinkSeen};
ghost use Rattle.http_wire.specs.Wires.{faults_of, seen_of};
ghost use Rattle.frame_puts.specs.declared.laying.Laying.TheVariants.{Nothing};
ghost use Rattle.pull_work.specs.declared.plan.Plan.{Plan};
ghost use Rattle.pull_work.specs.declared.ends.PullEnd.{PullEnd};
ghost use Rattle.pull_work.specs.Script.{Job, Reading, Taking, Closing, frame_limit, intake_of, taken};
ghost use Rattle.pull_work.specs.Runs.{Goes};
ghost use Rattle.pull_work.specs.Parts.{or_aborting, is_ended};

use crate::ends::{PullEnd, end_by, lay_end};
use folder_trait::{Count, Progress};
use frame_puts::Laying;
use http_wire::Wire;
use office_model::{Frame, Port, SessionName};
use peer_asks::next_frame;
use std::alloc::Global;
use stream_traits::{Faults, Link};

/// Whether the last frame was taken.
fn is_ended(laying: &Laying) -> bool
    ensures { result ≡ is_ended laying.now }
{
    match laying {
        Laying::Ended => true,
        Laying::Nothing | Laying::Small(_) | Laying::Large(_) => false,
    }
}

/// Lays a frame into a dump.
fn lay_frame<P: Port>(
    alloc: Global,
    home: &mut P,
    dump: SessionName,
    laying: &mut Laying,
    frame: Frame,
) -> Result<(), PullEnd>
    ensures goes { (seen : LinkSeen) (plan : Plan) (job : Job) (restore : SessionName) (read : ℕ) → Goes P.moves plan home.old home.new seen seen (Taking (intake_of job restore dump laying.old read) frame) (or_aborting dump (taken (intake_of job restore dump laying.old read) laying.new) result) }
    ensures unfailed { IfErr result (λ end. end ≢ PullEnd.LinkFault) }
{
    match laying.take(alloc, home, dump, frame) {
        Ok(_) => Ok(()),
        Err(fault) => Err(lay_end(fault)),
    }
}

/// Tells of a frame that was read: of an entry, of a file's bytes.
fn tell<G: Progress>(count: &mut Count<'_, G>, frame: &Frame) {
    match frame {
        Frame::Entry { path: _, node: _ } => count.add(1, 0),
        Frame::Piece(bytes) => count.add(0, bytes.len() as u64),
        Frame::Deleted(_) | Frame::End(_) => {}
    }
}

/// Reads the next frame of a restore, and lays it into a dump. It is told.
fn read_one<P: Port, L: Link, G: Progress>(
    alloc: Global,
    home: &mut P,
    wire: &mut Wire<L>,
    restore: SessionName,
    dump: SessionName,
    laying: &mut Laying,
    count: &mut Count<'_, G>,
) -> Result<(), PullEnd>
    ensures goes { (plan : Plan) (job : Job) (read : ℕ) → read < frame_limit → Goes P.moves plan home.old home.new (seen_of wire.old) (seen_of wire.new) (Reading (intake_of job restore dump laying.old read)) (or_aborting dump (taken (intake_of job restore dump laying.old read) laying.new) result) }
    ensures counted { Counted (faults_of wire.old) (faults_of wire.new) (IsErrOf result PullEnd.LinkFault) }
{
    match next_frame(alloc, wire, restore) {
        Ok(frame) => {
            tell(count, &frame);
            lay_frame(alloc, home, dump, laying, frame)
        }
        Err(fault) => Err(end_by(fault)),
    }
}

/// Reads the frames of a restore up to its end, and lays each into a dump.
pub(crate) fn read_all<P: Port, L: Link, G: Progress>(
    alloc: Global,
    home: &mut P,
    wire: &mut Wire<L>,
    restore: SessionName,
    dump: SessionName,
    count: &mut Count<'_, G>,
) -> Result<(), PullEnd>
    ensures goes { (plan : Plan) (job : Job) → Goes P.moves plan home.old home.new (seen_of wire.old) (seen_of wire.new) (Reading (intake_of job restore dump Nothing 0)) (or_aborting dump (Closing job restore dump) result) }
    ensures counted { Counted (faults_of wire.old) (faults_of wire.new) (IsErrOf result PullEnd.LinkFault) }
{
    let mut laying = Laying::Nothing;
    for _read in 0..u64::MAX {
        match read_one(alloc, home, wire, restore, dump, &mut laying, count) {
            Ok(()) => {}
            Err(end) => return Err(end),
        }
        if is_ended(&laying) {
            return Ok(());
        }
    }
    Err(PullEnd::PeerForeign)
}
