//! The work of a migration.

ghost use Rattle.std.specs.Prelude.{◌≡◌, [], ◌∷◌, ◌++◌, map, length, Ok, Err, IfOk, IfErr, OnOk};
ghost use Rattle.office_model.specs.declared.event.Event.TheVariants as E;
ghost use Rattle.office_model.specs.declared.answer.Answer.TheVariants as A;
ghost use Rattle.migrate_work.specs.Script.{events_after};
ghost use Rattle.migrate_work.specs.Ends.{Carried, Stopped, Works};

use crate::ends::MigrationEnd;
use attr_records::HostName;
use office_model::{Answer, Event, HostList, Port, Refusal};
use std::alloc::{AllocError, Global};

/// A migration of each host, in order.
fn events_after(alloc: Global, hosts: &[HostName]) -> Result<Vec<Event>, AllocError>
    ensures { IfOk result (λ events. events.items ≡ events_after hosts.now) }
{
    let mut events = Vec::new(alloc);
    for host in hosts {
        let host = host.copy(alloc)?;
        events.push(Event::Migrate { host })?;
    }
    Ok(events)
}

/// Calls the events one after the other, up to the first that is refused.
fn carry_out<P: Port>(alloc: Global, port: &mut P, events: &[Event]) -> Result<(), Refusal>
    ensures ok { IfOk result (λ _. Carried P.moves port.old port.new events.now) }
    ensures err { IfErr result (λ refusal. Stopped P.moves port.old port.new events.now refusal) }
{
    for event in events {
        match port.call(alloc, event) {
            Ok(_) => {}
            Err(refusal) => return Err(refusal),
        }
    }
    Ok(())
}

/// Asks for the names of the hosts.
fn hosts_of<P: Port>(alloc: Global, port: &mut P) -> Result<HostList, Refusal>
    ensures ok { IfOk result (λ hosts. P.moves port.old ((E.Hosts, Ok (A.Hosts hosts)) ∷ []) port.new) }
    ensures err { IfErr result (λ refusal. P.moves port.old ((E.Hosts, Err refusal) ∷ []) port.new) }
{
    match port.call(alloc, &Event::Hosts) {
        Ok(Answer::Hosts(hosts)) => Ok(hosts),
        Ok(_) => unreachable!(),
        Err(refusal) => Err(refusal),
    }
}

/// How many hosts were named.
fn count_of(hosts: &HostList) -> u64
    ensures { result ≡ length hosts.now }
{
    hosts.as_slice().len() as u64
}

/// Migrates all hosts of a store over a port: it asks for the hosts, and then has each migrated, in order of adding. It ends at the first
/// refusal; those before it are migrated then. What memory it takes itself is taken before the first is.
pub fn migrate<P: Port>(alloc: Global, port: &mut P) -> MigrationEnd
    ensures { Works P.moves port.old port.new result }
{
    let hosts = match hosts_of(alloc, port) {
        Ok(hosts) => hosts,
        Err(refusal) => return MigrationEnd::Refused(refusal),
    };
    let events = match events_after(alloc, hosts.as_slice()) {
        Ok(events) => events,
        Err(AllocError) => return MigrationEnd::Memory,
    };
    match carry_out(alloc, port, events.as_slice()) {
        Ok(()) => MigrationEnd::Done(count_of(&hosts)),
        Err(refusal) => MigrationEnd::Refused(refusal),
    }
}
