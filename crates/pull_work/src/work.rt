//! The work of a pull.

ghost use Rattle.std.specs.Prelude.{◌≡◌};
ghost use Rattle.fault_counts.specs.Counts.{Counted};
ghost use Rattle.http_wire.specs.Wires.{faults_of, seen_of};
ghost use Rattle.pull_work.specs.Compared.{new_lines};
ghost use Rattle.pull_work.specs.declared.ends.PullEnd.{PullEnd};
ghost use Rattle.pull_work.specs.Script.{Asking, Bringing, Over};
ghost use Rattle.pull_work.specs.Runs.{Goes};

use crate::asking::own_backups;
use crate::backup::bring;
use crate::comparing::{base_in, is_new};
use crate::ends::{PullEnd, end_by};
use crate::plan::Plan;
use backup_rules::Line;
use folder_trait::{Count, Progress};
use http_wire::Wire;
use office_model::Port;
use peer_asks::list_backups;
use std::alloc::Global;
use stream_traits::{Faults, Link};

/// Brings those of the other server's backups whose number isn't below home's next one, in the order in which they are listed.
fn bring_all<P: Port, L: Link, G: Progress>(
    alloc: Global,
    home: &mut P,
    wire: &mut Wire<L>,
    plan: &Plan,
    base: Option<u32>,
    next: u64,
    lines: &[Line],
    count: &mut Count<'_, G>,
) -> PullEnd
    ensures goes { Goes P.moves plan.now home.old home.new (seen_of wire.old) (seen_of wire.new) (Bringing base (new_lines next lines.now) 0) (Over result) }
    ensures counted { Counted (faults_of wire.old) (faults_of wire.new) (result ≡ PullEnd.LinkFault) }
{
    let mut newest = base;
    let mut done: u64 = 0;
    for line in lines {
        if !is_new(line, next) {
            continue;
        }
        match bring(alloc, home, wire, plan, line, newest, count) {
            Ok(()) => {}
            Err(end) => return end,
        }
        newest = Some(line.number);
        done += 1;
    }
    PullEnd::Done(done)
}

/// Pulls a host's backups from another server: those whose number isn't below home's next one, in the order in which that lists them.
///
/// If the host isn't at home it is added with the plan's rules. For each backup a restore is opened there, and a dump at home; with a
/// base both, if the newest backup at home is there, too, the same by number, times and kind, as each is that was adopted before. The
/// frames are laid into the dump, the restore is closed, and the dump is adopted with the number, times and kind that it has there. It
/// ends at the first refusal at home, fault of the other server or of the link, frame that doesn't fit, or want of memory. Those that
/// were adopted before are then at home; a dump that is open is aborted, and the reason is what came first. Each entry that was read is told,
/// and each piece of a file.
pub fn pull<P: Port, L: Link, G: Progress>(
    alloc: Global,
    home: &mut P,
    wire: &mut Wire<L>,
    plan: &Plan,
    progress: &mut G,
) -> PullEnd
    ensures goes { Goes P.moves plan.now home.old home.new (seen_of wire.old) (seen_of wire.new) Asking (Over result) }
    ensures counted { Counted (faults_of wire.old) (faults_of wire.new) (result ≡ PullEnd.LinkFault) }
{
    let own = match own_backups(alloc, home, plan) {
        Ok(own) => own,
        Err(end) => return end,
    };
    let there = match list_backups(alloc, wire, &plan.host) {
        Ok(there) => there,
        Err(fault) => return end_by(fault),
    };
    let base = base_in(own.lines.as_slice(), there.lines.as_slice());
    bring_all(
        alloc,
        home,
        wire,
        plan,
        base,
        own.next,
        there.lines.as_slice(),
        &mut Count::new(progress),
    )
}
