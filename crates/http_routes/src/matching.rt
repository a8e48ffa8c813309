ghost use Rattle.std.specs.Prelude.{[], map, ◌≡◌, IfOk, IfSome};
ghost use Rattle.http_routes.specs.Actions.{route_of};
ghost use Rattle.http_routes.specs.Table.{table, built_from, named_of};
ghost use Rattle.http_routes.specs.Forms.{HasForm};

use crate::route::{ROUTES, Route};
use matchit::{InsertError, Router};
use std::alloc::Global;

/// A router of these routes, put in one after another.
fn router_of(alloc: Global, routes: &[(&str, Route)]) -> Result<Router<Route>, InsertError>
    ensures rows { IfOk result (λ r. r ≡ built_from [] (map named_of routes.now)) }
{
    let mut router = Router::new(alloc);
    for (text, route) in routes {
        router.insert(text, *route)?;
    }
    Ok(router)
}

/// The router of the table. Build it once; an error is want of memory.
pub fn router(alloc: Global) -> Result<Router<Route>, InsertError>
    ensures rows { IfOk result (λ r. r ≡ table) }
{
    router_of(alloc, &ROUTES)
}

/// The route of a path, as it stands in a target before the first `?`; None if the path has the form of no route.
pub fn route_of(router: &Router<Route>, path: &str) -> Option<Route>
    requires { router.now ≡ table }
    ensures value { result ≡ route_of path.now }
    ensures form { IfSome result (λ route. HasForm route path.now) }
{
    found_route(router, path)
}

/// The route that the router finds.
#[tactic(auto, unfolding(crate::specs::Actions::route_of))]
fn found_route(router: &Router<Route>, path: &str) -> Option<Route>
    requires { router.now ≡ table }
    ensures { result ≡ route_of path.now }
{
    match router.at(path) {
        Ok(found) => Some(*found.value),
        Err(_) => None,
    }
}
