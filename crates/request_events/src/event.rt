ghost use Rattle.std.specs.Prelude.{◌≡◌, Ok};
ghost use Rattle.request_events.specs.Said.{Says};
ghost use Rattle.request_events.specs.Events.{event_of, file_event, link_event, local_in};
ghost use Rattle.office_model.specs.declared.event.Event.TheVariants as E;

use crate::defaults::Defaults;
use crate::plan::{FilePut, Plan};
use crate::refusal::{RequestFault, RequestRefusal};
use attr_records::{Attr, BadTarget, File, HostName, Item, Link, LinkTarget, PathName};
use disk_trait::Bytes;
use office_model::{Event, PutItem, SessionName, Token};
use std::alloc::Global;
use stream_traits::Moment;

/// The event of a plan, a body, the moment after it and the settings, or why the request is refused. Of the body it takes no more
/// than `looked_at` tells.
pub fn event_of(
    alloc: Global,
    plan: Plan,
    body: Vec<u8>,
    now: Moment,
    defaults: &Defaults,
) -> Result<Event, RequestFault>
    ensures { Says result (event_of plan body.items now defaults.now) }
{
    match plan {
        Plan::Ready(event) => Ok(event),
        Plan::AddHost { host } => add_host(alloc, host, defaults),
        Plan::OpenDump { host, kind, token } => Ok(Event::OpenDump {
            host,
            kind,
            now,
            token,
        }),
        Plan::PutFile(put) => Ok(put_file(put, body)),
        Plan::PutLink {
            dump,
            path,
            attr,
            token,
        } => put_link(alloc, dump, path, attr, token, body),
        Plan::Commit { dump } => Ok(Event::Commit { dump, now }),
        Plan::Expire { host } => Ok(Event::Expire { host, now }),
        Plan::Due { host } => Ok(due(host, now, defaults)),
    }
}

/// The adding of a host with the rules of the settings.
fn add_host(alloc: Global, host: HostName, defaults: &Defaults) -> Result<Event, RequestFault>
    ensures { Says result (Ok (E.AddHost host defaults.now.rules)) }
{
    let rules = defaults.rules.copy(alloc)?;
    Ok(Event::AddHost { host, rules })
}

/// What is due for a host at this moment, by the clock of the settings' zone.
fn due(host: HostName, now: Moment, defaults: &Defaults) -> Event
    ensures { result ≡ E.Due host now (local_in defaults.now now) }
{
    let local = defaults.zone.local(now.seconds());
    Event::Due { host, now, local }
}

/// The put of a file with these bytes.
fn put_file(put: FilePut, bytes: Vec<u8>) -> Event
    ensures { result ≡ file_event put bytes.items }
{
    let file = File {
        attr: put.attr,
        group: put.group,
        bytes: Bytes::from_vec(bytes),
    };
    Event::Put {
        dump: put.dump,
        path: put.path,
        item: PutItem::Whole(Item::File(file)),
        token: put.token,
    }
}

/// The put of a link with this target, or the refusal of the target.
fn put_link(
    alloc: Global,
    dump: SessionName,
    path: PathName,
    attr: Attr,
    token: Option<Token>,
    target: Vec<u8>,
) -> Result<Event, RequestFault>
    ensures { Says result (link_event dump path attr token target.items) }
{
    match LinkTarget::read(alloc, target.as_slice()) {
        Ok(target) => {
            let item = PutItem::Whole(Item::Link(Link { attr, target }));
            Ok(Event::Put {
                dump,
                path,
                item,
                token,
            })
        }
        Err(BadTarget::BadTarget) => Err(RequestFault::Refused(RequestRefusal::BadTarget)),
        Err(BadTarget::Memory) => Err(RequestFault::Memory),
    }
}
