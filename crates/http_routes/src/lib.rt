//! The routes of the server: which path has which route, which methods a route takes, and the parts of a path. The table of
//! routes is data in one place, `ROUTES`, and the kit's `matchit` finds a path in it. The crate knows paths and methods, and no
//! event; its main clauses are that `route_of` gives the route whose form the path has, and `action` what the method asks for.
//!
//! | Item | What it is |
//! |---|---|
//! | `Route` | the routes |
//! | `Action` | what a method asks for at a route, of the office, a host, a backup or a session |
//! | `router`, `route_of` | the table as a router, and the route of a path |
//! | `split_target`, `first_part`, `second_part` | the parts of a target and of a path |
//!
//! ```text
//! let router = router(alloc)?;
//! let (path, query) = split_target("/hosts/pc1/dumps?kind=full");
//! let action = route_of(&router, path).and_then(|route| route.action(b"POST"));
//! ```
//!
//! One more route is a variant of `Route`, a row of `ROUTES` and an arm of `actions`, all in `route.rt`, and a row of `routes` and of
//! `actions_of` in `specs/Table`: its form, its tokens and its place in the router are computed from its text.
#![tactic(auto)]

mod actions;
mod laws;
mod matching;
mod parts;
mod route;

pub use laws::{forms_have_routes, routes_have_forms};
pub use matching::{route_of, router};
pub use parts::{first_part, second_part, split_target};
pub use route::{Action, BackupAction, HostAction, OfficeAction, ROUTES, Route, SessionAction};
