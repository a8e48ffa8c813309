//! What is asked of a backup of a host.

ghost use Rattle.request_events.specs.Said.{Says};
ghost use Rattle.request_events.specs.BackupEvents.{backup_event};

use crate::refusal::RequestFault;
use crate::values::{base_in, flag_in, path_in, place_in};
use attr_records::HostName;
use http_query::Query;
use http_routes::BackupAction;
use office_model::Event;
use std::alloc::Global;

pub fn backup_event(
    alloc: Global,
    action: BackupAction,
    host: HostName,
    number: u32,
    query: &Query,
) -> Result<Event, RequestFault>
    ensures { Says result (backup_event action host number query.now) }
{
    match action {
        BackupAction::Delete => Ok(Event::Delete { host, number }),
        BackupAction::List => {
            let directory = place_in(alloc, query)?;
            Ok(Event::List {
                host,
                number,
                directory,
            })
        }
        BackupAction::Lookup => {
            let path = path_in(alloc, query)?;
            Ok(Event::Lookup { host, number, path })
        }
        BackupAction::OpenFile => {
            let path = path_in(alloc, query)?;
            Ok(Event::OpenFile { host, number, path })
        }
        BackupAction::OpenRead => {
            let base = base_in(query)?;
            Ok(Event::OpenRead { host, number, base })
        }
        BackupAction::Keep => {
            let on = flag_in(query, "on")?;
            Ok(Event::Keep { host, number, on })
        }
    }
}
