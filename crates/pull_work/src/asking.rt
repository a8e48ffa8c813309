//! Which backups are at home, where a host that isn't there is added.

ghost use Rattle.std.specs.Prelude.{◌≡◌, ◌≢◌, IfErr};
ghost use Rattle.stream_traits.specs.Seen.{LinkSeen};
ghost use Rattle.pull_work.specs.declared.ends.PullEnd.{PullEnd};
ghost use Rattle.pull_work.specs.Script.{Asking, Adding, is_no_host};
ghost use Rattle.pull_work.specs.Runs.{Goes};
ghost use Rattle.pull_work.specs.Parts.{own_phase};

use crate::calls::{HomeFault, Own, add_host, home_end, list_own};
use crate::ends::PullEnd;
use crate::plan::Plan;
use office_model::{BrokenRule, Port, Refusal};
use std::alloc::Global;

/// Whether a refusal says that the host isn't there.
fn is_no_host(refusal: &Refusal) -> bool
    ensures { result ≡ is_no_host refusal.now }
{
    match refusal {
        Refusal::Broken(rule) => *rule == BrokenRule::NoHost,
        Refusal::Halted | Refusal::DiskFault | Refusal::Damaged { .. } | Refusal::Memory => false,
    }
}

/// Adds the host, and asks for its backups.
fn added_backups<P: Port>(alloc: Global, home: &mut P, plan: &Plan) -> Result<Own, PullEnd>
    ensures goes { (seen : LinkSeen) → Goes P.moves plan.now home.old home.new seen seen Adding (own_phase result) }
    ensures unfailed { IfErr result (λ end. end ≢ PullEnd.LinkFault) }
{
    match add_host(alloc, home, plan) {
        Ok(()) => {}
        Err(end) => return Err(end),
    }
    match list_own(alloc, home, &plan.host) {
        Ok(own) => Ok(own),
        Err(fault) => Err(home_end(fault)),
    }
}

/// Asks for the host's backups at home; if it isn't there it is added first.
pub(crate) fn own_backups<P: Port>(alloc: Global, home: &mut P, plan: &Plan) -> Result<Own, PullEnd>
    ensures goes { (seen : LinkSeen) → Goes P.moves plan.now home.old home.new seen seen Asking (own_phase result) }
    ensures unfailed { IfErr result (λ end. end ≢ PullEnd.LinkFault) }
{
    match list_own(alloc, home, &plan.host) {
        Ok(own) => Ok(own),
        Err(HomeFault::Memory) => Err(PullEnd::Memory),
        Err(HomeFault::Refused(refusal)) => {
            if is_no_host(&refusal) {
                return added_backups(alloc, home, plan);
            }
            Err(PullEnd::Refused(refusal))
        }
    }
}
