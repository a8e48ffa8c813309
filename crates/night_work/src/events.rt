//! What is called once the names of the hosts are known.

ghost use Rattle.std.specs.Prelude.{◌≡◌, ◌<◌, [], ◌∷◌, ◌++◌, map, IfOk, OnOk};
ghost use Rattle.office_model.specs.declared.event.Event.TheVariants as E;
ghost use Rattle.night_work.specs.Script.{night_buckets, events_after};
ghost use Rattle.night_work.specs.Steps.{picked};

use attr_records::HostName;
use office_model::Event;
use std::alloc::{AllocError, Global};
use stream_traits::Moment;
use wake_schedule::{BUCKETS, nightly_buckets};

/// Adds an expiry of each host at the end.
fn push_expiries(
    alloc: Global,
    events: &mut Vec<Event>,
    hosts: &[HostName],
    now: Moment,
) -> Result<(), AllocError>
    ensures { OnOk result (events.new.items ≡ events.old.items ++ map (λ host. E.Expire host now) hosts.now) }
{
    for host in hosts {
        let host = host.copy(alloc)?;
        events.push(Event::Expire { host, now })?;
    }
    Ok(())
}

/// Adds a clean of the bucket at the end, if it is chosen.
fn push_clean(events: &mut Vec<Event>, bucket: u8, chosen: bool) -> Result<(), AllocError>
    ensures { OnOk result (events.new.items ≡ events.old.items ++ map E.Clean (picked chosen bucket)) }
{
    if chosen {
        events.push(Event::Clean { bucket })?;
    }
    Ok(())
}

/// Adds a clean of each of the night's buckets at the end, rising.
fn push_cleans(events: &mut Vec<Event>, day: i64, period: u32) -> Result<(), AllocError>
    requires { 0 < period }
    ensures { OnOk result (events.new.items ≡ events.old.items ++ map E.Clean (night_buckets day period)) }
{
    let chosen = nightly_buckets(day, period);
    for bucket in 0..BUCKETS {
        push_clean(events, bucket as u8, chosen[bucket])?;
    }
    Ok(())
}

/// An expiry of each host, a clean of each of the night's buckets, and a sweep.
pub fn events_after(
    alloc: Global,
    hosts: &[HostName],
    now: Moment,
    day: i64,
    period: u32,
) -> Result<Vec<Event>, AllocError>
    requires { 0 < period }
    ensures { IfOk result (λ events. events.items ≡ events_after now (night_buckets day period) hosts.now) }
{
    let mut events = Vec::new(alloc);
    push_expiries(alloc, &mut events, hosts, now)?;
    push_cleans(&mut events, day, period)?;
    events.push(Event::Sweep)?;
    Ok(events)
}
