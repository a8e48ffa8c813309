//! What is asked of a host.

ghost use Rattle.request_events.specs.Said.{Says};
ghost use Rattle.request_events.specs.HostPlans.{host_plan};

use crate::plan::Plan;
use crate::refusal::RequestFault;
use crate::rules::change_in;
use crate::values::{dump_kind_in, flag_in, token_in};
use attr_records::HostName;
use http_query::Query;
use http_routes::HostAction;
use office_model::Event;
use std::alloc::Global;

pub fn host_plan(
    alloc: Global,
    action: HostAction,
    host: HostName,
    query: &Query,
) -> Result<Plan, RequestFault>
    ensures { Says result (host_plan action host query.now) }
{
    match action {
        HostAction::Add => Ok(Plan::AddHost { host }),
        HostAction::SetRules => {
            let change = change_in(alloc, query)?;
            Ok(Plan::Ready(Event::SetRules { host, change }))
        }
        HostAction::OpenDump => {
            let kind = dump_kind_in(query)?;
            let token = token_in(query)?;
            Ok(Plan::OpenDump { host, kind, token })
        }
        HostAction::Resume => Ok(Plan::Ready(Event::Resume { host })),
        HostAction::DropPartial => Ok(Plan::Ready(Event::DropPartial { host })),
        HostAction::PartialInfo => Ok(Plan::Ready(Event::PartialInfo { host })),
        HostAction::Backups => Ok(Plan::Ready(Event::Backups { host })),
        HostAction::Expire => Ok(Plan::Expire { host }),
        HostAction::Contact => {
            let good = flag_in(query, "good")?;
            Ok(Plan::Ready(Event::Contact { host, good }))
        }
        HostAction::Due => Ok(Plan::Due { host }),
    }
}
