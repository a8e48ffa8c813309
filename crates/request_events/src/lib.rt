//! From a request to the event that it asks for, or to why it is refused. It goes in two steps: the plan is what the head says, by
//! its route and its query, before the body is read; the event is the plan with the body, the moment and the settings. A large file
//! has no event of its own: it goes by stages, as `way_of` tells. The crate knows heads, routes, keys and events, and no link. Its
//! main clauses are `Says result (planned head)` and `Says result (event_of plan body moment defaults)`.
//!
//! | Item | What it is |
//! |---|---|
//! | `plan_of`, `Plan` | what a head asks for |
//! | `way_of`, `Way`, `FilePut` | whether the file of a plan goes by stages |
//! | `looked_at` | how many bytes of the body the event of a plan needs |
//! | `event_of` | the event of a plan, a body, a moment and the settings |
//! | `Defaults` | what the settings add: the rules of a new host, and the zone |
//! | `RequestRefusal` | why a request has no event, in the order in which that is judged |
//! | `RequestFault` | a refusal, or want of memory |
//!
//! ```text
//! let router = http_routes::router(alloc)?;
//! let plan = plan_of(alloc, &router, &head)?;
//! match way_of(&head, plan) {
//!     Way::Staged(put) => put_in_stages(put),
//!     Way::Planned(plan) => call(event_of(alloc, plan, body, clock.now(), &defaults)?),
//! }
//! ```
//!
//! One more event is an arm beside its neighbours (`office_event`, `host_plan`, `backup_event`, `session_plan`), and one in `keys_of`
//! if it takes keys, each with its line in `specs/`. A key that no request has yet is one more `Key`. An event that needs more than
//! its head is a variant of `Plan` with an arm in `event_of`.
#![tactic(auto)]

mod backups;
mod defaults;
mod event;
mod hosts;
mod items;
mod keys;
mod laws;
mod names;
mod office;
mod plan;
mod refusal;
mod rules;
mod sessions;
mod values;
mod way;

pub use defaults::Defaults;
pub use event::event_of;
pub use laws::{looks_at_enough, whole_fits};
pub use plan::{FilePut, Plan, plan_of};
pub use refusal::{RequestFault, RequestRefusal};
pub use way::{Way, looked_at, way_of};
