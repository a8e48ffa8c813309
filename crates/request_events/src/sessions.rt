//! What is asked of an open dump or restore.

ghost use Rattle.std.specs.Prelude.{◌≡◌};
ghost use Rattle.request_events.specs.Said.{Says};
ghost use Rattle.request_events.specs.SessionPlans.{put_of, put_plan, session_plan};

use crate::items::{ItemKind, attributes_in, group_in, item_kind_in};
use crate::plan::{FilePut, Plan};
use crate::refusal::RequestFault;
use crate::values::{path_in, token_in};
use attr_records::{Attr, Dir, Item, PathName};
use http_query::Query;
use http_routes::SessionAction;
use office_model::{Event, PutItem, SessionName, Token};
use std::alloc::Global;

/// The put of an item of a kind. A directory takes no body; a file's is its bytes, and a link's its target.
fn put_of(
    kind: ItemKind,
    dump: SessionName,
    path: PathName,
    attr: Attr,
    group: u32,
    token: Option<Token>,
) -> Plan
    ensures { result ≡ put_of kind dump path attr group token }
{
    match kind {
        ItemKind::File => Plan::PutFile(FilePut {
            dump,
            path,
            attr,
            group,
            token,
        }),
        ItemKind::Dir => Plan::Ready(Event::Put {
            dump,
            path,
            item: PutItem::Whole(Item::Dir(Dir { attr })),
            token,
        }),
        ItemKind::Link => Plan::PutLink {
            dump,
            path,
            attr,
            token,
        },
    }
}

/// The put of an item at a path.
#[tactic(auto, unfolding(crate::specs::SessionPlans::put_plan))]
fn put_plan(alloc: Global, dump: SessionName, query: &Query) -> Result<Plan, RequestFault>
    ensures { Says result (put_plan dump query.now) }
{
    let kind = item_kind_in(query)?;
    let attr = attributes_in(kind, query)?;
    let group = group_in(query)?;
    let token = token_in(query)?;
    let path = path_in(alloc, query)?;
    Ok(put_of(kind, dump, path, attr, group, token))
}

pub fn session_plan(
    alloc: Global,
    action: SessionAction,
    session: SessionName,
    query: &Query,
) -> Result<Plan, RequestFault>
    ensures { Says result (session_plan action session query.now) }
{
    match action {
        SessionAction::Put => put_plan(alloc, session, query),
        SessionAction::Remove => {
            let token = token_in(query)?;
            let path = path_in(alloc, query)?;
            Ok(Plan::Ready(Event::Remove {
                dump: session,
                path,
                token,
            }))
        }
        SessionAction::Commit => Ok(Plan::Commit { dump: session }),
        SessionAction::Park => Ok(Plan::Ready(Event::Park { dump: session })),
        SessionAction::Abort => Ok(Plan::Ready(Event::Abort { dump: session })),
        SessionAction::ReadNext => Ok(Plan::Ready(Event::ReadNext { restore: session })),
        SessionAction::CloseRead => Ok(Plan::Ready(Event::CloseRead { restore: session })),
    }
}
