//! The calls of a pull at home, one each.

ghost use Rattle.std.specs.Prelude.{◌≡◌, ◌≢◌, IfOk, IfErr};
ghost use Rattle.stream_traits.specs.Seen.{LinkSeen};
ghost use Rattle.receipts.specs.declared.session.SessionName.{SessionName};
ghost use Rattle.office_model.specs.declared.event.Event.TheVariants as E;
ghost use Rattle.pull_work.specs.declared.plan.Plan.{Plan};
ghost use Rattle.pull_work.specs.declared.ends.PullEnd.{PullEnd};
ghost use Rattle.pull_work.specs.Script.{Job, kind_for, Adding, AskingAgain, Opening, Adopting, Aborting, Over};
ghost use Rattle.pull_work.specs.Runs.{Goes};
ghost use Rattle.pull_work.specs.Parts.{home_end, IsListed, IsUncalled, opened_phase, or_aborting, or_over, brought};

use crate::ends::PullEnd;
use crate::plan::Plan;
use attr_records::HostName;
use backup_rules::{Kind, Line};
use office_model::{Answer, Event, LineList, Port, Refusal, SessionName};
use std::alloc::Global;

/// What is at home of a host.
#[derive(Debug, Drop)]
pub(crate) struct Own {
    /// Its backups, by rising number.
    pub(crate) lines: LineList,
    /// The number of the next one.
    pub(crate) next: u64,
}

/// Why a call at home wasn't answered.
#[derive(Debug, Drop)]
pub(crate) enum HomeFault {
    Refused(Refusal),
    /// There was no memory to make it.
    Memory,
}

/// The end by such a fault.
pub(crate) fn home_end(fault: HomeFault) -> PullEnd
    ensures { result ≡ home_end fault }
{
    match fault {
        HomeFault::Refused(refusal) => PullEnd::Refused(refusal),
        HomeFault::Memory => PullEnd::Memory,
    }
}

/// Asks for a host's backups.
pub(crate) fn list_own<P: Port>(
    alloc: Global,
    home: &mut P,
    host: &HostName,
) -> Result<Own, HomeFault>
    ensures ok { IfOk result (λ own. IsListed P.moves home.old home.new host.now own) }
    ensures err { IfErr result (IsUncalled P.moves home.old home.new (E.Backups host.now)) }
{
    let Ok(host) = host.copy(alloc) else {
        return Err(HomeFault::Memory);
    };
    match home.call(alloc, &Event::Backups { host }) {
        Ok(Answer::Backups { lines, next, .. }) => Ok(Own { lines, next }),
        Ok(_) => unreachable!(),
        Err(refusal) => Err(HomeFault::Refused(refusal)),
    }
}

/// Adds the host of a plan.
pub(crate) fn add_host<P: Port>(alloc: Global, home: &mut P, plan: &Plan) -> Result<(), PullEnd>
    ensures goes { (seen : LinkSeen) → Goes P.moves plan.now home.old home.new seen seen Adding (or_over AskingAgain result) }
    ensures unfailed { IfErr result (λ end. end ≢ PullEnd.LinkFault) }
{
    let Ok(host) = plan.host.copy(alloc) else {
        return Err(PullEnd::Memory);
    };
    let Ok(rules) = plan.rules.copy(alloc) else {
        return Err(PullEnd::Memory);
    };
    match home.call(alloc, &Event::AddHost { host, rules }) {
        Ok(_) => Ok(()),
        Err(refusal) => Err(PullEnd::Refused(refusal)),
    }
}

/// From a base on it is incremental.
fn kind_for(base: Option<u32>) -> Kind
    ensures { result ≡ kind_for base }
{
    match base {
        Some(_) => Kind::Incr,
        None => Kind::Full,
    }
}

/// Opens a dump for a restore, by its base.
pub(crate) fn open_dump<P: Port>(
    alloc: Global,
    home: &mut P,
    plan: &Plan,
    base: Option<u32>,
) -> Result<SessionName, PullEnd>
    ensures goes { (seen : LinkSeen) (job : Job) (restore : SessionName) → job.base ≡ base → Goes P.moves plan.now home.old home.new seen seen (Opening job restore) (opened_phase job restore result) }
    ensures unfailed { IfErr result (λ end. end ≢ PullEnd.LinkFault) }
{
    let Ok(host) = plan.host.copy(alloc) else {
        return Err(PullEnd::Memory);
    };
    let event = Event::OpenDump {
        host,
        kind: kind_for(base),
        now: plan.start,
        token: None,
    };
    match home.call(alloc, &event) {
        Ok(Answer::Dump(dump)) => Ok(dump),
        Ok(Answer::Already(_)) => Err(PullEnd::Memory),
        Ok(_) => unreachable!(),
        Err(refusal) => Err(PullEnd::Refused(refusal)),
    }
}

/// Adopts a dump as the backup of a line.
pub(crate) fn adopt<P: Port>(
    alloc: Global,
    home: &mut P,
    dump: SessionName,
    line: &Line,
) -> Result<(), PullEnd>
    ensures goes { (seen : LinkSeen) (plan : Plan) (job : Job) → job.line ≡ line.now → Goes P.moves plan home.old home.new seen seen (Adopting job dump) (or_aborting dump (brought job) result) }
    ensures unfailed { IfErr result (λ end. end ≢ PullEnd.LinkFault) }
{
    let event = Event::Adopt {
        dump,
        number: line.number,
        start: line.start,
        end: line.end,
        kind: line.kind,
    };
    match home.call(alloc, &event) {
        Ok(_) => Ok(()),
        Err(refusal) => Err(PullEnd::Refused(refusal)),
    }
}

/// Aborts a dump, whatever that is answered with.
pub(crate) fn abort<P: Port>(alloc: Global, home: &mut P, dump: SessionName)
    ensures { (seen : LinkSeen) (plan : Plan) (end : PullEnd) → Goes P.moves plan home.old home.new seen seen (Aborting dump end) (Over end) }
{
    let _answered = home.call(alloc, &Event::Abort { dump });
}
