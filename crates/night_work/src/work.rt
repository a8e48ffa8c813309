//! The night's work.

ghost use Rattle.std.specs.Prelude.{◌≡◌, ℕ, ◌<◌, ◌+◌, ◌-◌, ◌^◌, true, [], ◌∷◌, Ok, Err, IfOk, IfErr};
ghost use Rattle.office_model.specs.declared.event.Event.TheVariants as E;
ghost use Rattle.office_model.specs.declared.answer.Answer.TheVariants as A;
ghost use Rattle.night_work.specs.Script.{is_due, total, night_of};
ghost use Rattle.night_work.specs.Steps.{Carried, Stopped, added, AreAtMost};
ghost use Rattle.night_work.specs.Ends.{Worked, Works, is_begun};

use crate::ends::{Night, NightEnd};
use crate::events::events_after;
use office_model::{Answer, Event, HostList, Port, Refusal};
use std::alloc::{AllocError, Global};
use stream_traits::{Clock, Moment};
use wake_schedule::{Wakeup, Zone, wake};

/// Whether the work is to be done: always, or if it is scheduled, in the minute of the nightly work.
fn is_due(scheduled: bool, schedule: &[u16], minute: u16) -> bool
    ensures { result ≡ is_due scheduled schedule.now minute }
{
    !scheduled || wake(schedule, minute) == Wakeup::Nightly
}

/// Adds what an answer counts.
fn add(night: &mut Night, answer: &Answer)
    requires { AreAtMost (2 ^ 128 - 2 ^ 64) night.old }
    ensures value { night.new ≡ added night.old answer.now }
    ensures small { (most : ℕ) → AreAtMost most night.old → AreAtMost (most + 2 ^ 64) night.new }
{
    match answer {
        Answer::Expired(count) => {
            night.expired += u128::from(*count);
        }
        Answer::Cleaned {
            marked,
            unmarked,
            removed,
        } => {
            night.marked += u128::from(*marked);
            night.unmarked += u128::from(*unmarked);
            night.removed += u128::from(*removed);
        }
        _ => {}
    }
}

/// Calls the events one after the other, up to the first that is refused.
fn carry_out<P: Port>(
    alloc: Global,
    port: &mut P,
    day: i64,
    events: &[Event],
) -> Result<Night, Refusal>
    ensures ok { IfOk result (λ night. Carried P.moves port.old port.new day events.now night) }
    ensures err { IfErr result (λ refusal. Stopped P.moves port.old port.new events.now refusal) }
{
    let mut night = Night {
        day,
        expired: 0,
        marked: 0,
        unmarked: 0,
        removed: 0,
    };
    for event in events {
        match port.call(alloc, event) {
            Ok(answer) => add(&mut night, &answer),
            Err(refusal) => return Err(refusal),
        }
    }
    Ok(night)
}

/// Asks for the names of the hosts.
fn hosts_of<P: Port>(alloc: Global, port: &mut P) -> Result<HostList, Refusal>
    ensures ok { IfOk result (λ hosts. P.moves port.old ((E.Hosts, Ok (A.Hosts hosts)) ∷ []) port.new) }
    ensures err { IfErr result (λ refusal. P.moves port.old ((E.Hosts, Err refusal) ∷ []) port.new) }
{
    match port.call(alloc, &Event::Hosts) {
        Ok(Answer::Hosts(hosts)) => Ok(hosts),
        Ok(_) => unreachable!(),
        Err(refusal) => Err(refusal),
    }
}

/// The work of a night that begins at a moment of this day.
fn work<P: Port>(alloc: Global, port: &mut P, now: Moment, day: i64, period: u32) -> NightEnd
    requires { 0 < period }
    ensures worked { Worked P.moves port.old port.new now day period result }
    ensures begun { is_begun result ≡ true }
{
    let hosts = match hosts_of(alloc, port) {
        Ok(hosts) => hosts,
        Err(refusal) => return NightEnd::Refused(refusal),
    };
    let events = match events_after(alloc, hosts.as_slice(), now, day, period) {
        Ok(events) => events,
        Err(AllocError) => return NightEnd::Memory,
    };
    match carry_out(alloc, port, day, events.as_slice()) {
        Ok(night) => NightEnd::Done(night),
        Err(refusal) => NightEnd::Refused(refusal),
    }
}

/// Does the night's work over a port, if it is time: it asks for the hosts, expires each in order of adding, cleans those of the
/// sixteen buckets whose remainder by the period is that of the day on the zone's clock, rising, and sweeps the pool. It ends at
/// the first refusal. If it is `scheduled`, it is time only where the local minute is the first one of `schedule`; else it always
/// is. The clock is read once, before anything is called.
pub fn night<P: Port, C: Clock>(
    alloc: Global,
    port: &mut P,
    clock: &mut C,
    zone: &Zone,
    schedule: &[u16],
    period: u32,
    scheduled: bool,
) -> NightEnd
    requires { 0 < period }
    ensures { Works P.moves port.old port.new (C.moments clock.old) (C.moments clock.new) zone.now schedule.now period scheduled result }
{
    let now = clock.now();
    let local = zone.local(now.seconds());
    if !is_due(scheduled, schedule, local.minute) {
        return NightEnd::NotNow;
    }
    work(alloc, port, now, local.day, period)
}
