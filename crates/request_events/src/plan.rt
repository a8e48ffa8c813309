ghost use Rattle.std.specs.Prelude.{◌≡◌};
ghost use Rattle.http_routes.specs.Table.{table};
ghost use Rattle.request_events.specs.Said.{Says};
ghost use Rattle.request_events.specs.Plans.{action_asked, has_length, is_file, measured, plan_for, planned};

use crate::backups::backup_event;
use crate::hosts::host_plan;
use crate::keys::{keys_of, taken};
use crate::names::{host_in, number_in, session_in};
use crate::office::office_event;
use crate::refusal::{RequestFault, RequestRefusal};
use crate::sessions::session_plan;
use attr_records::{Attr, HostName, PathName};
use backup_rules::Kind;
use http_heads::Head;
use http_query::Query;
use http_routes::{Action, Route, route_of, split_target};
use matchit::Router;
use office_model::{Event, SessionName, Token};
use std::alloc::Global;

/// The put of a file, but for its bytes.
#[derive(Debug, Drop)]
pub struct FilePut {
    pub dump: SessionName,
    pub path: PathName,
    pub attr: Attr,
    /// Files of one group other than 0 are hard links of one file.
    pub group: u32,
    pub token: Option<Token>,
}

/// What a head asks for: an event, or what lacks its body, the moment or the settings to be one.
#[derive(Debug, Drop)]
pub enum Plan {
    /// The event as it is.
    Ready(Event),
    /// The rules are those of the settings.
    AddHost {
        host: HostName,
    },
    /// The moment is that after the body.
    OpenDump {
        host: HostName,
        kind: Kind,
        token: Option<Token>,
    },
    /// The body is the file's bytes.
    PutFile(FilePut),
    /// The body is the link's target.
    PutLink {
        dump: SessionName,
        path: PathName,
        attr: Attr,
        token: Option<Token>,
    },
    /// The moment is that after the body.
    Commit {
        dump: SessionName,
    },
    /// The moment is that after the body.
    Expire {
        host: HostName,
    },
    /// The moment is that after the body, and the clock that of the settings' zone.
    Due {
        host: HostName,
    },
}

/// What a head asks for, or why it is refused.
#[tactic(auto, unfolding(crate::specs::Plans::planned))]
pub fn plan_of(alloc: Global, router: &Router<Route>, head: &Head) -> Result<Plan, RequestFault>
    requires { router.now ≡ table }
    ensures { Says result (planned head.now) }
{
    let (path, query) = split_target(head.target());
    let action = action_asked(router, path, head.method())?;
    let query = Query::read(alloc, query.as_bytes())?;
    let plan = plan_for(alloc, action, path, &query)?;
    measured(has_length(head), plan)
}

/// Whether the end of the body is known: it has a length, or comes in chunks.
fn has_length(head: &Head) -> bool
    ensures { result ≡ has_length head.now }
{
    head.length().is_some() || head.is_chunked()
}

fn is_file(plan: &Plan) -> bool
    ensures { result ≡ is_file plan.now }
{
    matches!(plan, Plan::PutFile(_))
}

/// The plan, unless it is of a file whose bytes have no length.
fn measured(has_length: bool, plan: Plan) -> Result<Plan, RequestFault>
    ensures { Says result (measured has_length plan) }
{
    if is_file(&plan) && !has_length {
        return Err(RequestFault::Refused(RequestRefusal::NoLength));
    }
    Ok(plan)
}

/// What a method asks for at a path.
fn action_asked(router: &Router<Route>, path: &str, method: &[u8]) -> Result<Action, RequestFault>
    requires { router.now ≡ table }
    ensures { Says result (action_asked path.now method.now) }
{
    let Some(route) = route_of(router, path) else {
        return Err(RequestFault::Refused(RequestRefusal::NoRoute));
    };
    match route.action(method) {
        Some(action) => Ok(action),
        None => Err(RequestFault::Refused(RequestRefusal::NoMethod(route))),
    }
}

/// What an action asks for: the names of the path are judged first, then the keys of the query, then their values.
fn plan_for(alloc: Global, action: Action, path: &str, query: &Query) -> Result<Plan, RequestFault>
    ensures { Says result (plan_for action path.now query.now) }
{
    let keys = keys_of(action, query);
    match action {
        Action::Office(action) => {
            taken(keys, query)?;
            Ok(Plan::Ready(office_event(action, query)?))
        }
        Action::Host(action) => {
            let host = host_in(alloc, path)?;
            taken(keys, query)?;
            host_plan(alloc, action, host, query)
        }
        Action::Backup(action) => {
            let host = host_in(alloc, path)?;
            let number = number_in(path)?;
            taken(keys, query)?;
            Ok(Plan::Ready(backup_event(alloc, action, host, number, query)?))
        }
        Action::Session(action) => {
            taken(keys, query)?;
            session_plan(alloc, action, session_in(path), query)
        }
    }
}
