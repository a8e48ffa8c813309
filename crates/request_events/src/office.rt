//! What is asked of the whole office.

ghost use Rattle.request_events.specs.Said.{Says};
ghost use Rattle.request_events.specs.OfficeEvents.{office_event};

use crate::refusal::RequestFault;
use crate::values::bucket_in;
use http_query::Query;
use http_routes::OfficeAction;
use office_model::Event;

pub fn office_event(action: OfficeAction, query: &Query) -> Result<Event, RequestFault>
    ensures { Says result (office_event action query.now) }
{
    match action {
        OfficeAction::Hosts => Ok(Event::Hosts),
        OfficeAction::Clean => {
            let bucket = bucket_in(query)?;
            Ok(Event::Clean { bucket })
        }
        OfficeAction::Sweep => Ok(Event::Sweep),
        OfficeAction::Stats => Ok(Event::Stats),
        OfficeAction::Reopen => Ok(Event::Reopen),
    }
}
