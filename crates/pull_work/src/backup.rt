//! One backup, which is brought from another server.

ghost use Rattle.std.specs.Prelude.{◌≡◌, ℕ, List, ◌∷◌, IsErrOf};
ghost use Rattle.fault_counts.specs.Counts.{Counted};
ghost use Rattle.http_wire.specs.Wires.{faults_of, seen_of};
ghost use Rattle.backup_rules.specs.declared.lines.Line.{Line};
ghost use Rattle.frame_puts.specs.declared.laying.Laying.TheVariants.{Nothing};
ghost use Rattle.pull_work.specs.declared.plan.Plan.{Plan};
ghost use Rattle.pull_work.specs.declared.ends.PullEnd.{PullEnd};
ghost use Rattle.pull_work.specs.Script.{Job, Bringing, Reading, intake_of, job_of};
ghost use Rattle.pull_work.specs.Runs.{Goes};
ghost use Rattle.pull_work.specs.Parts.{or_aborting, or_over, brought};

use crate::calls::{abort, adopt, open_dump};
use crate::ends::{PullEnd, end_by};
use crate::frames::read_all;
use crate::plan::Plan;
use backup_rules::Line;
use folder_trait::{Count, Progress};
use http_wire::Wire;
use office_model::{Port, SessionName};
use peer_asks::{close_restore, open_restore};
use std::alloc::Global;
use stream_traits::{Faults, Link};

/// Lays all of a restore into a dump, and adopts that.
fn fill<P: Port, L: Link, G: Progress>(
    alloc: Global,
    home: &mut P,
    wire: &mut Wire<L>,
    line: &Line,
    restore: SessionName,
    dump: SessionName,
    count: &mut Count<'_, G>,
) -> Result<(), PullEnd>
    ensures goes { (plan : Plan) (job : Job) → job.line ≡ line.now → Goes P.moves plan home.old home.new (seen_of wire.old) (seen_of wire.new) (Reading (intake_of job restore dump Nothing 0)) (or_aborting dump (brought job) result) }
    ensures counted { Counted (faults_of wire.old) (faults_of wire.new) (IsErrOf result PullEnd.LinkFault) }
{
    match read_all(alloc, home, wire, restore, dump, count) {
        Ok(()) => {}
        Err(end) => return Err(end),
    }
    match close_restore(alloc, wire, restore) {
        Ok(()) => {}
        Err(fault) => return Err(end_by(fault)),
    }
    adopt(alloc, home, dump, line)
}

/// Brings the backup of a line, from a base on if there is one.
pub(crate) fn bring<P: Port, L: Link, G: Progress>(
    alloc: Global,
    home: &mut P,
    wire: &mut Wire<L>,
    plan: &Plan,
    line: &Line,
    base: Option<u32>,
    count: &mut Count<'_, G>,
) -> Result<(), PullEnd>
    ensures goes { (left : List Line) (done : ℕ) → Goes P.moves plan.now home.old home.new (seen_of wire.old) (seen_of wire.new) (Bringing base (line.now ∷ left) done) (or_over (brought (job_of base line.now left done)) result) }
    ensures counted { Counted (faults_of wire.old) (faults_of wire.new) (IsErrOf result PullEnd.LinkFault) }
{
    let restore = match open_restore(alloc, wire, &plan.host, line.number, base) {
        Ok(restore) => restore,
        Err(fault) => return Err(end_by(fault)),
    };
    let dump = match open_dump(alloc, home, plan, base) {
        Ok(dump) => dump,
        Err(end) => return Err(end),
    };
    match fill(alloc, home, wire, line, restore, dump, count) {
        Ok(()) => Ok(()),
        Err(end) => {
            abort(alloc, home, dump);
            Err(end)
        }
    }
}
