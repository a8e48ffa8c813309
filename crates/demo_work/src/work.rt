//! One ask after the other.

ghost use Rattle.std.specs.Prelude.{◌≡◌, Ok, Err, [], ◌∷◌, OnOk, IfOk, IfErr};
ghost use Rattle.office_model.specs.declared.event.Event.TheVariants as E;
ghost use Rattle.office_model.specs.declared.answer.Answer.TheVariants as A;
ghost use Rattle.demo_work.specs.Asks.{event_of};
ghost use Rattle.demo_work.specs.Ends.{Shows};
ghost use Rattle.demo_work.specs.Steps.{script_of, Taken, Turned, TurnStops, Finished, Stopped, IsBegun, end_of, Continues};

use crate::asks::Ask;
use crate::counts::Tally;
use crate::ends::DemoEnd;
use crate::events::event_of;
use crate::follow_ups::{dump_in, is_passed, more, push_all};
use crate::planning::plan;
use office_model::{Answer, Event, HostList, Port, Refusal, SessionName};
use std::alloc::{AllocError, Global};

/// How far a demo is: the dump that was opened last, what is left to be asked, the next on top, and what was told.
#[derive(Drop)]
pub(crate) struct Work {
    pub dump: SessionName,
    pub pending: Vec<Ask>,
    pub tally: Tally,
}

/// Why a demo ends early.
#[derive(Debug, Drop)]
pub(crate) enum Stop {
    /// The last call was refused.
    Refused(Refusal),
    /// There was no memory.
    Memory,
}

/// A demo before its first ask.
fn begin(alloc: Global, number: u64) -> Result<Work, AllocError>
    ensures { IfOk result (λ work. IsBegun number work) }
{
    let mut pending = Vec::new(alloc);
    push_all(&mut pending, plan(alloc, number)?)?;
    Ok(Work {
        dump: SessionName {
            epoch: 0,
            sequence: 0,
        },
        pending,
        tally: Tally::new(),
    })
}

impl Work {
    /// Takes the answer to an ask: what it tells, and what it brings on.
    fn take(&mut self, alloc: Global, ask: &Ask, answer: &Answer) -> Result<(), AllocError>
        ensures { OnOk result (Taken ask.now (Ok answer.now) self.old self.new) }
    {
        self.tally.add(alloc, answer)?;
        self.dump = dump_in(self.dump, answer);
        let asks = more(alloc, ask, answer)?;
        push_all(&mut self.pending, asks)
    }
}

/// Calls an ask.
fn turn<P: Port>(alloc: Global, port: &mut P, ask: &Ask, work: &mut Work) -> Result<(), Stop>
    ensures ok { OnOk result (Turned P.moves port.old port.new ask.now work.old work.new) }
    ensures err { IfErr result (λ stop. TurnStops P.moves port.old port.new (event_of work.old.dump ask.now) stop) }
{
    let event = match event_of(alloc, work.dump, ask) {
        Ok(event) => event,
        Err(AllocError) => return Err(Stop::Memory),
    };
    match port.call(alloc, &event) {
        Ok(answer) => match work.take(alloc, ask, &answer) {
            Ok(()) => Ok(()),
            Err(AllocError) => Err(Stop::Memory),
        },
        Err(refusal) => {
            if is_passed(&event, &refusal) {
                return Ok(());
            }
            Err(Stop::Refused(refusal))
        }
    }
}

/// Calls one ask after the other, up to the last.
fn carry_out<P: Port>(alloc: Global, port: &mut P, work: Work) -> Result<Tally, Stop>
    ensures ok { IfOk result (λ tally. Finished P.moves port.old port.new work tally) }
    ensures err { IfErr result (λ stop. Stopped P.moves port.old port.new (script_of work) stop) }
{
    let mut work = work;
    for _turn in 0..u64::MAX {
        let ask = match work.pending.pop() {
            Some(ask) => ask,
            None => return Ok(work.tally),
        };
        match turn(alloc, port, &ask, &mut work) {
            Ok(()) => {}
            Err(stop) => return Err(stop),
        }
    }
    Err(Stop::Memory)
}

/// Asks for the names of the hosts.
fn hosts_of<P: Port>(alloc: Global, port: &mut P) -> Result<HostList, Refusal>
    ensures ok { IfOk result (λ hosts. P.moves port.old ((E.Hosts, Ok (A.Hosts hosts)) ∷ []) port.new) }
    ensures err { IfErr result (λ refusal. P.moves port.old ((E.Hosts, Err refusal) ∷ []) port.new) }
{
    match port.call(alloc, &Event::Hosts) {
        Ok(Answer::Hosts(hosts)) => Ok(hosts),
        Ok(_) => unreachable!(),
        Err(refusal) => Err(refusal),
    }
}

/// How a demo ends that is stopped so.
fn end_of(stop: Stop) -> DemoEnd
    ensures { result ≡ end_of stop }
{
    match stop {
        Stop::Refused(refusal) => DemoEnd::Refused(refusal),
        Stop::Memory => DemoEnd::Memory,
    }
}

/// Carries out the plan of a number over a port on which no host is.
fn fresh_demo<P: Port>(alloc: Global, port: &mut P, number: u64) -> DemoEnd
    ensures { Continues P.moves port.old port.new number result }
{
    let work = match begin(alloc, number) {
        Ok(work) => work,
        Err(AllocError) => return DemoEnd::Memory,
    };
    match carry_out(alloc, port, work) {
        Ok(tally) => DemoEnd::Done(tally.summary(number)),
        Err(stop) => end_of(stop),
    }
}

/// Carries out the demo of a number over a port on which no host is; with one there, nothing is called but for the hosts' names, and
/// the end is `Occupied`.
///
/// Four hosts are added. On each of sixty days each is dumped, by drawn edits, and expired, and a quarter of the pool's buckets is
/// cleaned; once a week the pool is swept. Then the office is asked for its numbers, and each backup that is left is read to its end.
/// It ends at the first refusal, but goes on where a removal finds nothing; it ends for want of memory, too.
pub fn demo<P: Port>(alloc: Global, port: &mut P, number: u64) -> DemoEnd
    ensures { Shows P.moves port.old port.new number result }
{
    let hosts = match hosts_of(alloc, port) {
        Ok(hosts) => hosts,
        Err(refusal) => return DemoEnd::Refused(refusal),
    };
    if hosts.as_slice().is_empty() {
        return fresh_demo(alloc, port, number);
    }
    DemoEnd::Occupied
}
